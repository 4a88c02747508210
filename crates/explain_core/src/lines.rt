// The lines of a text, and the part of a line that is shown.
ghost use Rattle.std.specs.Prelude.{◌≡◌, ◌==◌, ◌+◌, ◌≤◌, ◌-◌, length, map, option_map, IfOk};
ghost use Rattle.std.specs.List.{slice_split};
ghost use Rattle.explain_core.specs.Lines.{line_of_number, IsWindow, window_end, window_start};

use std::alloc::Global;
use text_core::NoMemory;

/// Splits a text into lines, each without its line feed.
///
/// A text is split once, and its lines are then found by their numbers.
pub fn lines_of(alloc: Global, text: &[u8]) -> Result<Vec<&[u8]>, NoMemory>
    ensures { IfOk result (λ lines. map (λ line. line.now) lines.items ≡ slice_split (λ b. b == 10) text.now) }
{
    match text.split(|b| *b == b'\n').collect(alloc) {
        Ok(lines) => Ok(lines),
        Err(_) => Err(NoMemory),
    }
}

/// Returns the line with this number, counted from 1, or None where there are fewer lines.
///
/// The number 0 counts as 1.
pub fn line_at<'a>(lines: &[&'a [u8]], number: usize) -> Option<&'a [u8]>
    ensures { option_map (λ line. line.now) result ≡ line_of_number (map (λ line. line.now) lines.now) number }
{
    match lines.get(number.saturating_sub(1)) {
        Some(line) => Some(*line),
        None => None,
    }
}

/// The part of a line that is shown, from byte `start` to before byte `end`.
#[derive(Clone, Copy)]
pub struct Window {
    pub start: usize,
    pub end: usize,
}

/// The most bytes of a line that are shown.
pub const WIDTH: usize = 120;

/// Returns the part of a line of this length that is shown around byte `at`, which may be the line's end.
pub fn window_at(length: usize, at: usize) -> Window
    requires { at ≤ length }
    ensures around { IsWindow length at result }
    ensures start { result.start ≡ window_start length at }
    ensures end { result.end ≡ window_end length at }
{
    if length <= WIDTH {
        return Window {
            start: 0,
            end: length,
        };
    }
    let start = at.saturating_sub(WIDTH / 2).min(length - WIDTH);
    Window {
        start,
        end: start + WIDTH,
    }
}
