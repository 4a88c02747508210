// Kinds of words: reserved, unsupported, and identifiers.
ghost use Rattle.std.specs.Prelude.{◌≡◌, Some, map};
ghost use Rattle.smv_text.specs.Bytes.{look_up};
ghost use Rattle.smv_text.specs.Keywords.{keywords};
ghost use Rattle.smv_lex.specs.Reading.{last_of, may_be_keyword, row};
ghost use Rattle.text_core.specs.Bytes.{first_of};

use crate::tables::{Keyword, keywords_from};
use smv_text::Reserved;
use text_core::{is_digit, is_same};

fn look_up(word: &[u8], keywords: &[Keyword]) -> Option<Option<Reserved>>
    ensures { result ≡ look_up word.now (map row keywords.now) }
{
    for (bytes, reserved) in keywords {
        if is_same(word, bytes) {
            return Some(*reserved);
        }
    }
    None
}

/// The first byte of a word, or 0 where it has none.
fn first_of(word: &[u8]) -> u8
    ensures { result ≡ first_of word.now }
{
    match word.split_first() {
        Some((b, _)) => *b,
        None => 0,
    }
}

/// The last byte of a word, or 0 where it has none.
fn last_of(word: &[u8]) -> u8
    ensures { result ≡ last_of word.now }
{
    match word.split_last() {
        Some((b, _)) => *b,
        None => 0,
    }
}

/// Whether a word may be reserved, judged by its last byte: many names end with a digit, but `word1` is the only such
/// reserved word.
fn may_be_keyword(word: &[u8]) -> bool
    ensures { result ≡ may_be_keyword word.now }
{
    word.len() == 5 || !is_digit(last_of(word))
}

/// Returns the reserved word, `Some(None)` for an unsupported word, or None for an identifier.
pub fn keyword_of(word: &[u8]) -> Option<Option<Reserved>>
    ensures { result ≡ look_up word.now keywords }
{
    if may_be_keyword(word) {
        look_up(word, keywords_from(first_of(word)))
    } else {
        None
    }
}
