// Tokens of a response.
ghost use Rattle.std.specs.Prelude.{◌≡◌, ◌∷◌, false};
ghost use Rattle.moxi_sexpr.specs.Reading.{quote_length};
ghost use Rattle.moxi_trace.specs.Tokens.{run_of, keyword_of, symbol_shape, symbol_with, bare_of, barred_of, quoted, digits_of, atom_at, token_of};
ghost use Rattle.moxi_trace.specs.Scans.{Scans};

use moxi_sexpr::{ByteSet, quote_length, run_length, split_prime, starts_simple};
use text_core::is_digit;

/// The shape of a token.
///
/// `Symbol` is a symbol without a prime, bare or in bars. `Other` is a token that occurs nowhere in a response: a primed
/// symbol, a hexadecimal literal, or a string.
#[derive(Clone, Copy)]
pub enum Shape {
    Open,
    Close,
    Symbol,
    Keyword,
    Numeral,
    Binary,
    Other,
}

/// The shape of a token, its bytes without delimiters, and the text after it.
pub type Scan<'t> = Option<(Shape, &'t [u8], &'t [u8])>;

// A non-empty run of the set's bytes, and the text after it.
fn scan_run(shape: Shape, set: ByteSet, text: &[u8]) -> Scan<'_>
    ensures { Scans result (run_of shape set text.now) }
{
    let size = run_length(set, text);
    if size == 0 {
        return None;
    }
    let (bytes, rest) = text.split_at(size);
    Some((shape, bytes, rest))
}

fn scan_keyword(text: &[u8]) -> Scan<'_>
    ensures { Scans result (keyword_of text.now) }
{
    if !starts_simple(text) {
        return None;
    }
    scan_run(Shape::Keyword, ByteSet::Symbol, text)
}

fn symbol_shape(primed: bool) -> Shape
    ensures { result ≡ symbol_shape primed }
{
    if primed { Shape::Other } else { Shape::Symbol }
}

// A symbol with these bytes, and with a prime if one follows.
fn scan_symbol<'t>(bytes: &'t [u8], behind: &'t [u8]) -> Scan<'t>
    ensures { Scans result (symbol_with bytes.now behind.now) }
{
    let (primed, rest) = split_prime(behind);
    Some((symbol_shape(primed), bytes, rest))
}

fn scan_bare(text: &[u8]) -> Scan<'_>
    ensures { Scans result (bare_of text.now) }
{
    if !starts_simple(text) {
        return None;
    }
    let (bytes, behind) = text.split_at(run_length(ByteSet::Symbol, text));
    scan_symbol(bytes, behind)
}

// The rest of a symbol in bars, after the first bar.
fn scan_barred(text: &[u8]) -> Scan<'_>
    ensures { Scans result (barred_of text.now) }
{
    let (bytes, closing) = text.split_at(run_length(ByteSet::Barred, text));
    let (b, behind) = closing.split_first()?;
    if *b != b'|' {
        return None;
    }
    scan_symbol(bytes, behind)
}

// The rest of a string, after its first quote.
fn scan_quote(text: &[u8]) -> Scan<'_>
    ensures { Scans result (quoted text.now (quote_length 0 false text.now)) }
{
    let size = quote_length(text)?;
    let (bytes, closing) = text.split_at(size);
    Some((Shape::Other, bytes, &closing[1..]))
}

// The rest of a binary or hexadecimal literal, after its `#`.
fn scan_digits(text: &[u8]) -> Scan<'_>
    ensures { Scans result (digits_of text.now) }
{
    let (b, rest) = text.split_first()?;
    match *b {
        b'b' => scan_run(Shape::Binary, ByteSet::Binary, rest),
        b'x' => scan_run(Shape::Other, ByteSet::Hexadecimal, rest),
        _ => None,
    }
}

// The atom at the front of a text whose first byte is b.
fn scan_atom<'t>(b: u8, rest: &'t [u8], text: &'t [u8]) -> Scan<'t>
    requires { text.now ≡ b ∷ rest.now }
    ensures { Scans result (atom_at b rest.now) }
{
    match b {
        b':' => scan_keyword(rest),
        b'|' => scan_barred(rest),
        b'"' => scan_quote(rest),
        b'#' => scan_digits(rest),
        b if is_digit(b) => scan_run(Shape::Numeral, ByteSet::Decimal, text),
        _ => scan_bare(text),
    }
}

/// Scans the token at the front of a text (SMT-LIB 2.6, section 3.1, with MoXI's primes).
///
/// Returns None where no token can be scanned.
#[tactic(auto, unfolding(crate::specs::Tokens::token_of))]
pub fn token(text: &[u8]) -> Scan<'_>
    ensures { Scans result (token_of text.now) }
{
    let (b, rest) = text.split_first()?;
    match *b {
        b'(' => Some((Shape::Open, &[], rest)),
        b')' => Some((Shape::Close, &[], rest)),
        _ => scan_atom(*b, rest, text),
    }
}
