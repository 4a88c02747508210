// Parts of a text: gaps, words, runs and places.
ghost use Rattle.std.specs.Prelude.{◌≡◌, ◌+◌, ◌<◌, ◌≤◌, [], length, take, drop, false};
ghost use Rattle.smv_text.specs.Bytes.{is_letter, is_blank, front_length};
ghost use Rattle.smv_text.specs.Words.{in_word, in_run};
ghost use Rattle.smv_lex.specs.Reading.{gap_step, gap_length, is_word_byte};
ghost use Rattle.text_core.specs.Places.{Reaches, after};

use crate::signs::heads;
use text_core::{Place, is_digit};

/// Returns whether a byte is an ASCII letter or `_`.
pub fn is_letter(b: u8) -> bool
    ensures { result ≡ is_letter b }
{
    (b >= b'A' && b <= b'Z') || (b >= b'a' && b <= b'z') || b == b'_'
}

fn is_blank(b: u8) -> bool
    ensures { result ≡ is_blank b }
{
    (b >= 9 && b <= 13) || b == b' '
}

/// Whether a byte continues a gap, and then whether the gap is inside a comment after it.
fn gap_step(inside: bool, b: u8, rest: &[u8]) -> Option<bool>
    ensures { result ≡ gap_step inside b rest.now }
{
    if inside {
        Some(b != b'\n')
    } else if is_blank(b) {
        Some(false)
    } else if b == b'-' && heads(b'-', rest) {
        Some(true)
    } else {
        None
    }
}

/// Returns the place and the text after the gap at the front of a text.
///
/// A gap is blanks and comments, and may be empty.
pub fn skip_gap(place: Place, text: &[u8]) -> (Place, &[u8])
    requires { Reaches place (length text.now) }
    ensures place { result.0 ≡ after place (take (gap_length false text.now) text.now) }
    ensures rest { result.1.now ≡ drop (gap_length false text.now) text.now }
    ensures reaches { Reaches result.0 (length result.1.now) }
{
    let mut at = place;
    let mut rest = text;
    let mut inside = false;
    while let Some((b, more)) = rest.split_first() {
        let Some(next) = gap_step(inside, *b, more) else {
            return (at, rest)
        };
        at = at.next(*b);
        inside = next;
        rest = more;
    }
    (at, rest)
}

/// A table by byte: `-` for the bytes that do not continue a word in every context.
const WORD_BYTES: [u8; 256] = *b"\
    --------------------------------\
    ---#$-----------0123456789------\
    -ABCDEFGHIJKLMNOPQRSTUVWXYZ----_\
    -abcdefghijklmnopqrstuvwxyz-----\
    --------------------------------\
    --------------------------------\
    --------------------------------\
    --------------------------------";

/// Whether a byte continues a word in every context.
fn is_word_byte(b: u8) -> bool
    ensures { result ≡ is_word_byte b }
{
    WORD_BYTES[b as usize] != b'-'
}

/// Whether a byte continues a word.
fn in_word(b: u8, rest: &[u8]) -> bool
    ensures { result ≡ in_word b rest.now }
{
    is_word_byte(b) || (b == b'-' && !heads(b'>', rest))
}

/// Returns the number of leading bytes that continue a word.
pub fn word_length(text: &[u8]) -> usize
    ensures value { result ≡ front_length in_word text.now }
    ensures within { result ≤ length text.now }
{
    let mut rest = text;
    let mut count = 0;
    while let Some((b, more)) = rest.split_first() {
        if !in_word(*b, more) {
            return count;
        }
        count += 1;
        rest = more;
    }
    count
}

/// Whether a byte continues a run.
fn in_run(b: u8) -> bool
    ensures { result ≡ in_run b [] }
{
    is_letter(b) || is_digit(b)
}

/// Returns the length of the run of letters and digits at the front of a text.
pub fn run_length(text: &[u8]) -> usize
    ensures value { result ≡ front_length in_run text.now }
    ensures within { result ≤ length text.now }
{
    for (i, b) in text.iter().enumerate() {
        if !in_run(*b) {
            return i;
        }
    }
    text.len()
}
