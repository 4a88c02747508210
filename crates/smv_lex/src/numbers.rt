// Runs that begin with a digit: decimal numbers and word literals.
ghost use Rattle.std.specs.Prelude.{◌≡◌, ◌⊎◌, ◌≤◌, length, IfOk};
ghost use Rattle.smv_text.specs.Bytes.{front_length};
ghost use Rattle.smv_text.specs.Numbers.{bare, base_of, based_word, literal_of, number_of, parted_word, past_sign};
ghost use Rattle.smv_lex.specs.Reading.{is_unmarked, sized_word};
ghost use Rattle.smv_text.specs.Words.{run_kind};

use smv_text::TokenKind;
use std::alloc::Global;
use text_core::NoMemory;
use word_core::{Word, read_digits};

/// The decimal number that a run spells.
fn number_of(run: &[u8]) -> Option<u64>
    ensures { result ≡ number_of run.now }
{
    let word = read_digits(62, 10, run)?;
    Some(word.bits() as u64)
}

/// The base that a letter stands for.
fn base_of(b: u8) -> Option<u32>
    ensures { result ≡ base_of b }
{
    match b {
        b'b' | b'B' => Some(2),
        b'o' | b'O' => Some(8),
        b'd' | b'D' => Some(10),
        b'h' | b'H' => Some(16),
        _ => None,
    }
}

/// The text after a leading `u`, or the whole text where there is none.
fn past_sign(text: &[u8]) -> &[u8]
    ensures { result.now ≡ past_sign text.now }
{
    match text.split_first() {
        Some((b, rest)) => { if *b == b'u' { rest } else { text } }
        None => text,
    }
}

/// The number of bytes before the first `_`.
fn width_length(text: &[u8]) -> usize
    ensures value { result ≡ front_length is_unmarked text.now }
    ensures within { result ≤ length text.now }
{
    for (i, b) in text.iter().enumerate() {
        if *b == b'_' {
            return i;
        }
    }
    text.len()
}

/// The digits without the `_` between them.
fn bare(alloc: Global, digits: &[u8]) -> Result<Vec<u8>, NoMemory>
    ensures { IfOk result (λ kept. kept.items ≡ bare digits.now) }
{
    let mut kept = Vec::new(alloc);
    for b in digits {
        if *b != b'_' {
            kept.push(*b)?;
        }
    }
    Ok(kept)
}

/// The word of this width and these digits in this base. Every supported width is below 256.
fn sized_word(
    alloc: Global,
    base: u32,
    width: &[u8],
    digits: &[u8],
) -> Result<Option<Word>, NoMemory>
    requires { (base ≡ 2) ⊎ ((base ≡ 8) ⊎ ((base ≡ 10) ⊎ (base ≡ 16))) }
    ensures { IfOk result (λ word. word ≡ sized_word base width.now digits.now) }
{
    match read_digits(8, 10, width) {
        Some(width) => {
            let kept = bare(alloc, digits)?;
            Ok(read_digits(width.bits() as u32, base, &kept))
        }
        None => Ok(None),
    }
}

/// The word whose width, `_` and digits follow the letter of its base.
fn parted_word(alloc: Global, text: &[u8], base: u32) -> Result<Option<Word>, NoMemory>
    requires { (base ≡ 2) ⊎ ((base ≡ 8) ⊎ ((base ≡ 10) ⊎ (base ≡ 16))) }
    ensures { IfOk result (λ word. word ≡ parted_word text.now base) }
{
    let (width, marked) = text.split_at(width_length(text));
    match marked.split_first() {
        Some((_, digits)) => sized_word(alloc, base, width, digits),
        None => Ok(None),
    }
}

/// The word that follows the `0` of a literal and its optional `u`.
fn based_word(alloc: Global, text: &[u8]) -> Result<Option<Word>, NoMemory>
    ensures { IfOk result (λ word. word ≡ based_word text.now) }
{
    match text.split_first() {
        Some((b, rest)) => match base_of(*b) {
            Some(base) => parted_word(alloc, rest, base),
            None => Ok(None),
        },
        None => Ok(None),
    }
}

/// Returns the word that a literal such as `0ud8_255` spells, or None where the bytes are no word literal (NuSMV 2.6
/// User Manual, "Word constants").
pub fn literal_of(alloc: Global, run: &[u8]) -> Result<Option<Word>, NoMemory>
    ensures { IfOk result (λ word. word ≡ literal_of run.now) }
{
    match run.split_first() {
        Some((b, rest)) => {
            if *b == b'0' {
                based_word(alloc, past_sign(rest))
            } else {
                Ok(None)
            }
        }
        None => Ok(None),
    }
}

/// Returns the token kind of a run that begins with a digit, or None where it is neither a number nor a word literal.
pub fn run_kind(alloc: Global, run: &[u8]) -> Result<Option<TokenKind>, NoMemory>
    ensures { IfOk result (λ kind. kind ≡ run_kind run.now) }
{
    match number_of(run) {
        Some(number) => Ok(Some(TokenKind::Number(number))),
        None => match literal_of(alloc, run)? {
            Some(word) => Ok(Some(TokenKind::Literal(word))),
            None => Ok(None),
        },
    }
}
