// Appending tokens. Each kind is written straight into the list, since kinds are large and tokens are many.
ghost use Rattle.std.specs.Prelude.{◌≡◌, ◌≢◌, ◌<◌, ◌≤◌, ◌^◌, [], ◌∷◌, ◌++◌, Some, false, length, take, vec_len, vec_capacity, OnOk, IfErr};
ghost use Rattle.text_core.specs.Bytes.{is_digit};
ghost use Rattle.text_core.specs.declared.end.End.TheVariants as ended;
ghost use Rattle.smv_text.specs.Bytes.{is_letter};
ghost use Rattle.smv_text.specs.Lexing.{most_brackets};
ghost use Rattle.smv_text.specs.Words.{keyword_kind, kind_of, run_kind, word_kind};
ghost use Rattle.smv_lex.specs.Reading.{lexeme_length};
ghost use Rattle.smv_lex.specs.Adding.{Adds, AddsKind, sized_token};

use crate::brackets::{MOST_BRACKETS, opened_by_sign, opened_by_word};
use crate::numbers::run_kind;
use crate::scan::{is_letter, run_length, word_length};
use crate::signs::{sign_at, sign_length};
use crate::words::keyword_of;
use smv_text::{Reserved, Token, TokenKind};
use std::alloc::Global;
use text_core::kinds::smv;
use text_core::{End, Kind, Name, Place, Refusal, is_digit};

/// The result of adding a token: its length in bytes, and the number of open brackets after it.
#[derive(Clone, Copy)]
pub struct Added {
    pub size: usize,
    pub opened: u32,
}

fn refused(kind: Kind, place: Place) -> End
    ensures { result ≡ ended.Bad (record { kind = kind; place = place }) }
{
    End::Bad(Refusal { kind, place })
}

/// Grows the list by room for at least one more token.
#[cold]
#[inline(never)]
fn grow(tokens: &mut Vec<Token>) -> Result<(), End>
    ensures items { tokens.new.items ≡ tokens.old.items }
    ensures room { OnOk result (vec_len tokens.new < vec_capacity tokens.new) }
    ensures memory { IfErr result (λ e. e ≡ ended.NoMemory) }
{
    tokens.reserve(1)?;
    Ok(())
}

/// Ensures room for one more token, so that the token can be built in place.
#[inline(always)]
fn make_room(tokens: &mut Vec<Token>) -> Result<(), End>
    ensures items { tokens.new.items ≡ tokens.old.items }
    ensures room { OnOk result (vec_len tokens.new < vec_capacity tokens.new) }
    ensures memory { IfErr result (λ e. e ≡ ended.NoMemory) }
{
    if tokens.len() < tokens.capacity() {
        Ok(())
    } else {
        grow(tokens)
    }
}

/// Adds a token of this kind and size; `opened` brackets are open after it.
#[inline(always)]
fn put(tokens: &mut Vec<Token>, place: Place, opened: u32, kind: TokenKind, size: usize) -> Added
    requires room { vec_len tokens.old < vec_capacity tokens.old }
    requires size { size ≤ 2 ^ 31 }
    ensures items { tokens.new.items ≡ tokens.old.items ++ sized_token place kind size ∷ [] }
    ensures added { result ≡ record { size = size; opened = opened } }
{
    tokens.push_reserved(Token {
        kind,
        place,
        length: size as u32,
    });
    Added { size, opened }
}

/// Adds the sign at the front of a text.
#[inline(always)]
fn add_sign(
    tokens: &mut Vec<Token>,
    place: Place,
    opened: u32,
    b: u8,
    rest: &[u8],
) -> Result<Added, End>
    requires room { vec_len tokens.old < vec_capacity tokens.old }
    requires opened { opened ≤ most_brackets }
    requires letter { is_letter b ≡ false }
    requires digit { is_digit b ≡ false }
    ensures { Adds opened place (b ∷ rest.now) tokens.old.items tokens.new.items result }
{
    let Some(sign) = sign_at(b, rest) else {
        return Err(refused(smv::BAD_BYTE, place))
    };
    let opened = opened_by_sign(opened, sign);
    if opened > MOST_BRACKETS {
        return Err(refused(smv::TOO_NESTED, place));
    }
    Ok(put(
        tokens,
        place,
        opened,
        TokenKind::Sign(sign),
        sign_length(sign),
    ))
}

/// Adds a reserved word or an unsupported word, of this size, at the front of a text.
#[inline(always)]
fn add_keyword(
    tokens: &mut Vec<Token>,
    place: Place,
    opened: u32,
    keyword: Option<Reserved>,
    size: usize,
) -> Result<Added, End>
    requires room { vec_len tokens.old < vec_capacity tokens.old }
    requires opened { opened ≤ most_brackets }
    requires size { size ≤ 2 ^ 31 }
    ensures { AddsKind opened place (keyword_kind [] (Some keyword)) size tokens.old.items tokens.new.items result }
{
    let Some(word) = keyword else {
        return Ok(put(tokens, place, opened, TokenKind::Refused, size))
    };
    let opened = opened_by_word(opened, word);
    if opened > MOST_BRACKETS {
        return Err(refused(smv::TOO_NESTED, place));
    }
    Ok(put(tokens, place, opened, TokenKind::Reserved(word), size))
}

/// Adds the word of this size at the front of a text.
#[inline(always)]
fn add_word(
    alloc: Global,
    tokens: &mut Vec<Token>,
    place: Place,
    opened: u32,
    text: &[u8],
    size: usize,
) -> Result<Added, End>
    requires room { vec_len tokens.old < vec_capacity tokens.old }
    requires opened { opened ≤ most_brackets }
    requires within { size ≤ length text.now }
    requires few { size ≤ 2 ^ 31 }
    requires some { 0 < size }
    requires size { size ≡ lexeme_length text.now }
    requires word { kind_of (take size text.now) ≡ Some (word_kind (take size text.now)) }
    ensures { Adds opened place text.now tokens.old.items tokens.new.items result }
{
    let word = &text[..size];
    match keyword_of(word) {
        Some(keyword) => add_keyword(tokens, place, opened, keyword, size),
        None => {
            let name = Name::of(alloc, word)?;
            Ok(put(tokens, place, opened, TokenKind::Ident(name), size))
        }
    }
}

/// Adds the number or the word literal of this size at the front of a text.
fn add_run(
    alloc: Global,
    tokens: &mut Vec<Token>,
    place: Place,
    opened: u32,
    text: &[u8],
    size: usize,
) -> Result<Added, End>
    requires room { vec_len tokens.old < vec_capacity tokens.old }
    requires opened { opened ≤ most_brackets }
    requires within { size ≤ length text.now }
    requires few { size ≤ 2 ^ 31 }
    requires some { 0 < size }
    requires size { size ≡ lexeme_length text.now }
    requires run { kind_of (take size text.now) ≡ run_kind (take size text.now) }
    ensures { Adds opened place text.now tokens.old.items tokens.new.items result }
{
    match run_kind(alloc, &text[..size])? {
        Some(kind) => Ok(put(tokens, place, opened, kind, size)),
        None => Err(refused(smv::BAD_NUMBER, place)),
    }
}

/// Adds the token at the front of a nonempty text, where `opened` brackets are open before it.
///
/// `Err` is out of memory or the refusal at this token.
#[inline(always)]
pub fn add_token(
    alloc: Global,
    tokens: &mut Vec<Token>,
    place: Place,
    opened: u32,
    text: &[u8],
) -> Result<Added, End>
    requires opened { opened ≤ most_brackets }
    requires within { length text.now ≤ 2 ^ 31 }
    requires more { text.now ≢ [] }
    ensures { Adds opened place text.now tokens.old.items tokens.new.items result }
{
    make_room(tokens)?;
    match text.split_first() {
        Some((b, rest)) => {
            if is_letter(*b) {
                add_word(alloc, tokens, place, opened, text, word_length(rest) + 1)
            } else if is_digit(*b) {
                add_run(alloc, tokens, place, opened, text, run_length(rest) + 1)
            } else {
                add_sign(tokens, place, opened, *b, rest)
            }
        }
        None => Err(refused(smv::BAD_BYTE, place)),
    }
}
