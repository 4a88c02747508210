// The first part of a line, read byte by byte.
ghost use Rattle.std.specs.Prelude.{◌≡◌, ◌+◌, ◌-◌, ◌*◌, ◌≤◌, min};
ghost use Rattle.btor_tree.specs.Parts.{cap};
ghost use Rattle.btor_judge.specs.Firsts.{first_byte, first_next, first_shape, first_number, is_comment, marked_next};

use btor_witness::{Shape, marked_shape};
use text_core::is_digit;

/// The state of reading a line's first part.
///
/// The bytes so far are a prefix of `sat`, a dot, a comment, a mark, a mark with a number after it, a number, or
/// none of these. The marks are `b`, `j`, `#` and `@`. Numbers saturate at 2^31.
#[derive(Clone, Copy)]
pub enum First {
    Empty,
    S,
    Sa,
    Sat,
    Dot,
    Comment,
    Mark(u8),
    Marked(u8, u32),
    Number(u32),
    Other,
}

// The number with one more digit.
fn with_digit(number: u32, digit: u8) -> u32
    requires low { 48 ≤ digit }
    requires high { digit ≤ 57 }
    ensures { result ≡ min (10 * number + (digit - 48)) cap }
{
    let next = 10 * u64::from(number) + u64::from(digit - b'0');
    next.min(1 << 31) as u32
}

fn first_byte(b: u8) -> First
    ensures { result ≡ first_byte b }
{
    if is_digit(b) {
        return First::Number(u32::from(b - b'0'));
    }
    match b {
        b's' => First::S,
        b'.' => First::Dot,
        b';' => First::Comment,
        b'b' => First::Mark(b),
        b'j' => First::Mark(b),
        b'#' => First::Mark(b),
        b'@' => First::Mark(b),
        _ => First::Other,
    }
}

impl First {
    /// Returns the state after one more byte.
    pub fn next(self, b: u8) -> First
        ensures { result ≡ first_next self b }
    {
        match self {
            First::Empty => first_byte(b),
            First::S => { if b == b'a' { First::Sa } else { First::Other } }
            First::Sa => { if b == b't' { First::Sat } else { First::Other } }
            First::Comment => First::Comment,
            First::Mark(mark) => marked_next(mark, 0, b),
            First::Marked(mark, number) => marked_next(mark, number, b),
            First::Number(number) => {
                if is_digit(b) {
                    First::Number(with_digit(number, b))
                } else {
                    First::Other
                }
            }
            _ => First::Other,
        }
    }

    /// Returns whether the part begins a comment.
    pub fn is_comment(self) -> bool
        ensures { result ≡ is_comment self }
    {
        match self {
            First::Comment => true,
            _ => false,
        }
    }

    /// Returns the shape of a line that has only this part, or None where it has none.
    pub fn shape(self) -> Option<Shape>
        ensures { result ≡ first_shape self }
    {
        match self {
            First::Sat => Some(Shape::Sat),
            First::Dot => Some(Shape::End),
            First::Marked(mark, number) => marked_shape(mark, number),
            _ => None,
        }
    }

    /// Returns the number that the part spells, or None where it is not a number.
    pub fn number(self) -> Option<u32>
        ensures { result ≡ first_number self }
    {
        match self {
            First::Number(number) => Some(number),
            _ => None,
        }
    }
}

// A mark and the number after it, with one more byte.
fn marked_next(mark: u8, number: u32, b: u8) -> First
    ensures { result ≡ marked_next mark number b }
{
    if is_digit(b) {
        First::Marked(mark, with_digit(number, b))
    } else {
        First::Other
    }
}
