// Scanning of the atom at the front of a text.

ghost use Rattle.std.specs.Prelude.{◌≡◌, ◌<◌, ◌∷◌, ◌++◌, ◌||◌, ℕ, List, false, length, take, drop, IfOk, IfSome};
ghost use Rattle.moxi_sexpr.specs.Bytes.{belongs, is_symbol_byte};
ghost use Rattle.moxi_sexpr.specs.Atoms.{atom_of};
ghost use Rattle.moxi_sexpr.specs.Reading.{run_length, run_of, simple_of, has_prime, past_prime, past_symbol, bare_of, barred_of, quote_length, quote_of, digits_of, scan_of, undoubled, value_of};
ghost use Rattle.moxi_sexpr.specs.Answer.{Scans};
ghost use Rattle.text_core.specs.Bytes.{heads};

use crate::bytes::{ByteSet, run_length, starts_simple};
use crate::form::Atom;
use std::alloc::Global;
use text_core::{Name, NoMemory, is_digit};

/// The way an atom is spelled.
#[derive(Clone, Copy)]
pub enum Spelling {
    /// A simple symbol, primed or not.
    Bare(bool),
    /// A symbol in bars, primed or not.
    Barred(bool),
    /// A simple symbol after a colon.
    Keyword,
    /// Decimal digits.
    Numeral,
    /// Binary digits after `#b`.
    Binary,
    /// Hexadecimal digits after `#x`.
    Hex,
    /// Bytes between quotes, with each quote among them doubled.
    Quote,
}

/// Scans a non-empty run of the set's bytes, and returns it with the text after it.
fn scan_run(how: Spelling, set: ByteSet, text: &[u8]) -> Option<(Spelling, &[u8], &[u8])>
    ensures { Scans result (run_of how (belongs set) text.now) }
{
    let size = run_length(set, text);
    if size == 0 {
        return None;
    }
    let (content, rest) = text.split_at(size);
    Some((how, content, rest))
}

/// Scans a simple symbol, and returns it with the text after it.
fn scan_simple(how: Spelling, text: &[u8]) -> Option<(Spelling, &[u8], &[u8])>
    ensures { Scans result (simple_of how text.now) }
{
    if !starts_simple(text) {
        return None;
    }
    scan_run(how, ByteSet::Symbol, text)
}

/// Returns whether the text begins with a prime, and the text after it.
pub fn split_prime(text: &[u8]) -> (bool, &[u8])
    ensures primed { result.0 ≡ has_prime text.now }
    ensures rest { result.1.now ≡ past_prime text.now }
{
    match text.split_first() {
        Some((b, more)) => {
            if *b == b'\'' {
                (true, more)
            } else {
                (false, text)
            }
        }
        None => (false, text),
    }
}

/// Splits off the simple symbol at the front of a text: its name, whether it is primed, and the text after it.
pub fn split_symbol(text: &[u8]) -> (&[u8], bool, &[u8])
    ensures name { result.0.now ≡ take (run_length is_symbol_byte text.now) text.now }
    ensures primed { result.1 ≡ has_prime (drop (run_length is_symbol_byte text.now) text.now) }
    ensures rest { result.2.now ≡ past_symbol text.now }
{
    let (name, more) = text.split_at(run_length(ByteSet::Symbol, text));
    let (primed, rest) = split_prime(more);
    (name, primed, rest)
}

/// Scans a simple symbol, with or without a prime, and returns it with the text after it.
fn scan_bare(text: &[u8]) -> Option<(Spelling, &[u8], &[u8])>
    ensures { Scans result (bare_of text.now) }
{
    if !starts_simple(text) {
        return None;
    }
    let (content, primed, rest) = split_symbol(text);
    Some((Spelling::Bare(primed), content, rest))
}

/// Scans the rest of a symbol in bars, after the first bar.
fn scan_barred(text: &[u8]) -> Option<(Spelling, &[u8], &[u8])>
    ensures { Scans result (barred_of text.now) }
{
    let (content, closing) = text.split_at(run_length(ByteSet::Barred, text));
    let (b, more) = closing.split_first()?;
    if *b != b'|' {
        return None;
    }
    let (primed, rest) = split_prime(more);
    Some((Spelling::Barred(primed), content, rest))
}

/// Returns the number of bytes before the closing quote of a string. The text starts after the opening quote.
pub fn quote_length(text: &[u8]) -> Option<usize>
    ensures value { result ≡ quote_length 0 false text.now }
    ensures within { IfSome result (λ n. n < length text.now) }
{
    let mut count = 0;
    let mut pending = false;
    for b in text {
        if pending {
            if *b != b'"' {
                return Some(count);
            }
            pending = false;
            count += 2;
        } else if *b == b'"' {
            pending = true;
        } else {
            count += 1;
        }
    }
    if pending { Some(count) } else { None }
}

/// Scans the rest of a string, after its first quote.
fn scan_quote(text: &[u8]) -> Option<(Spelling, &[u8], &[u8])>
    ensures { Scans result (quote_of text.now) }
{
    let size = quote_length(text)?;
    let (content, closing) = text.split_at(size);
    Some((Spelling::Quote, content, &closing[1..]))
}

/// Returns whether the text begins with a bar or a quote.
pub fn starts_quoted(text: &[u8]) -> bool
    ensures { result ≡ (heads 124 text.now || heads 34 text.now) }
{
    match text {
        [b, ..] => *b == b'|' || *b == b'"',
        [] => false,
    }
}

/// Scans the rest of a binary or hexadecimal literal, after its `#`.
fn scan_digits(text: &[u8]) -> Option<(Spelling, &[u8], &[u8])>
    ensures { Scans result (digits_of text.now) }
{
    let (b, rest) = text.split_first()?;
    match *b {
        b'b' => scan_run(Spelling::Binary, ByteSet::Binary, rest),
        b'x' => scan_run(Spelling::Hex, ByteSet::Hexadecimal, rest),
        _ => None,
    }
}

/// Scans the atom at the front of a text: its spelling, the bytes between the delimiters of that spelling, and the text
/// after it.
///
/// Returns None where no atom can be scanned.
pub fn scan(text: &[u8]) -> Option<(Spelling, &[u8], &[u8])>
    ensures { Scans result (scan_of text.now) }
{
    let (b, rest) = text.split_first()?;
    match *b {
        b':' => scan_simple(Spelling::Keyword, rest),
        b'|' => scan_barred(rest),
        b'"' => scan_quote(rest),
        b'#' => scan_digits(rest),
        b if is_digit(b) => scan_run(Spelling::Numeral, ByteSet::Decimal, text),
        _ => scan_bare(text),
    }
}

/// Appends the byte unless it is to be skipped, and returns whether to skip the next one.
fn put_unless(bytes: &mut Vec<u8>, skip: bool, b: u8) -> Result<bool, NoMemory>
    ensures { IfOk result (λ next. (rest : List ℕ) → bytes.new.items ++ undoubled next rest ≡ bytes.old.items ++ undoubled skip (b ∷ rest)) }
{
    if skip {
        return Ok(false);
    }
    bytes.push(b)?;
    Ok(b == b'"')
}

/// Returns the bytes of a string, given the bytes between its quotes, some of them doubled quotes.
fn undoubled(alloc: Global, raw: &[u8]) -> Result<Name, NoMemory>
    ensures { IfOk result (λ name. name ≡ undoubled false raw.now) }
{
    let mut bytes = Vec::with_capacity(alloc, raw.len())?;
    let mut skip = false;
    for b in raw {
        skip = put_unless(&mut bytes, skip, *b)?;
    }
    Name::of(alloc, &bytes)
}

/// Returns the bytes of a string, given the bytes between its quotes. Most strings contain no quote.
fn unquoted(alloc: Global, raw: &[u8]) -> Result<Name, NoMemory>
    ensures { IfOk result (λ name. name ≡ undoubled false raw.now) }
{
    if raw.contains(&b'"') {
        undoubled(alloc, raw)
    } else {
        Name::of(alloc, raw)
    }
}

/// Builds the atom with this spelling, given the bytes between the delimiters of that spelling.
pub fn make_atom(alloc: Global, how: Spelling, raw: &[u8]) -> Result<Atom, NoMemory>
    ensures { IfOk result (λ atom. atom ≡ atom_of how (value_of how raw.now)) }
{
    Ok(match how {
        Spelling::Bare(primed) => Atom::Symbol(Name::of(alloc, raw)?, primed),
        Spelling::Barred(primed) => Atom::Symbol(Name::of(alloc, raw)?, primed),
        Spelling::Keyword => Atom::Keyword(Name::of(alloc, raw)?),
        Spelling::Numeral => Atom::Numeral(Name::of(alloc, raw)?),
        Spelling::Binary => Atom::Binary(Name::of(alloc, raw)?),
        Spelling::Hex => Atom::Hex(Name::of(alloc, raw)?),
        Spelling::Quote => Atom::Quote(unquoted(alloc, raw)?),
    })
}
