// Binary digits, and the carriage return at the end of a line.
ghost use Rattle.std.specs.Prelude.{◌≡◌, ◌<◌, ◌≤◌, ◌^◌, length, true};
ghost use Rattle.word_core.specs.declared.word.TheConstants.{WIDEST};
ghost use Rattle.btor_witness.specs.Bytes.{all_binary, bits_after, word_of, without_return};

use word_core::{WIDEST, Word};

/// Returns whether all bytes are binary digits.
pub fn all_binary(digits: &[u8]) -> bool
    ensures { result ≡ all_binary digits.now }
{
    for b in digits {
        if *b != b'0' && *b != b'1' {
            return false;
        }
    }
    true
}

fn bits(digits: &[u8]) -> u128
    requires few { length digits.now ≤ WIDEST }
    requires binary { all_binary digits.now ≡ true }
    ensures value { result ≡ bits_after 0 digits.now }
    ensures fits { result < 2 ^ length digits.now }
{
    let mut bits = 0;
    for b in digits {
        bits = 2 * bits + u128::from(*b - b'0');
    }
    bits
}

/// Returns the word that binary digits spell, or None where there are more than `WIDEST` digits.
pub fn word_of(digits: &[u8]) -> Option<Word>
    requires some { 1 ≤ length digits.now }
    requires binary { all_binary digits.now ≡ true }
    ensures { result ≡ word_of digits.now }
{
    if digits.len() > WIDEST as usize {
        return None;
    }
    Word::of(digits.len() as u32, bits(digits))
}

/// Returns the line without a trailing carriage return.
pub fn without_return(line: &[u8]) -> &[u8]
    ensures { result.now ≡ without_return line.now }
{
    match line.split_last() {
        Some((b, front)) => { if *b == b'\r' { front } else { line } }
        None => line,
    }
}
