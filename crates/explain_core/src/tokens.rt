// The length of the token at the front of some bytes. A byte that begins no token counts alone.
ghost use Rattle.std.specs.Prelude.{◌≡◌, ◌<◌, ◌≤◌, length, map};
ghost use Rattle.explain_core.specs.Tokens.{ends_symbol, goes_on, is_word_byte, moxi_token_length, sign_length, smv_token_length, symbol_length, token_length, word_length};
ghost use Rattle.text_core.specs.Bytes.{is_letter};

use text_core::{Kind, is_digit};

// The signs of SMV with more than one byte, longer ones first.
const SIGNS: [&[u8]; 10] = [
    b"<->", b":=", b"!=", b"<=", b">=", b"<<", b">>", b"::", b"->", b"..",
];

/// Returns the length of the token at the front in bytes, by the language of the kind.
///
/// Returns 0 for kinds whose places have no column.
pub fn token_length(kind: Kind, rest: &[u8]) -> usize
    ensures value { result ≡ token_length kind rest.now }
    ensures within { result ≤ length rest.now }
{
    match kind {
        Kind::S(_) => smv_token_length(rest),
        Kind::M(_) => moxi_token_length(rest),
        Kind::B(_) | Kind::X(_) | Kind::Y(_) => 0,
    }
}

/// Returns the length of the SMV token at the front in bytes.
///
/// A path counts as one token.
pub fn smv_token_length(rest: &[u8]) -> usize
    ensures value { result ≡ smv_token_length rest.now }
    ensures within { result ≤ length rest.now }
    ensures some { 0 < length rest.now → 0 < result }
{
    let Some((first, _)) = rest.split_first() else {
        return 0;
    };
    let count = if is_word_byte(*first) {
        word_length(rest)
    } else {
        sign_length(rest, &SIGNS)
    };
    count.max(1).min(rest.len())
}

fn is_letter(b: u8) -> bool
    ensures { result ≡ is_letter b }
{
    (b >= b'A' && b <= b'Z') || (b >= b'a' && b <= b'z')
}

/// Returns whether the byte can begin a name or a number.
pub fn is_word_byte(b: u8) -> bool
    ensures { result ≡ is_word_byte b }
{
    is_letter(b) || is_digit(b) || b == b'_'
}

// The length of a name, a number or a path.
fn word_length(text: &[u8]) -> usize
    ensures value { result ≡ word_length text.now }
    ensures within { result ≤ length text.now }
{
    let mut rest = text;
    let mut count = 0;
    while let Some((b, more)) = rest.split_first() {
        if !goes_on(*b, more) {
            return count;
        }
        count += 1;
        rest = more;
    }
    count
}

// Whether a word continues with this byte, given the bytes after it.
fn goes_on(b: u8, rest: &[u8]) -> bool
    ensures { result ≡ goes_on b rest.now }
{
    match rest.split_first() {
        Some((next, _)) if b == b'-' => *next != b'>',
        Some((next, _)) if b == b'.' => is_letter(*next),
        _ => is_word_byte(b) || b == b'$' || b == b'#',
    }
}

// The length of the first sign that the text begins with, or one.
fn sign_length(rest: &[u8], signs: &[&'static [u8]]) -> usize
    ensures { result ≡ sign_length (map (λ sign. sign.now) signs.now) rest.now }
{
    for sign in signs {
        if rest.starts_with(sign) {
            return sign.len();
        }
    }
    1
}

// The length of the first byte, which may be a bracket, together with the symbol after it.
fn moxi_token_length(rest: &[u8]) -> usize
    ensures value { result ≡ moxi_token_length rest.now }
    ensures within { result ≤ length rest.now }
{
    match rest.split_first() {
        Some((_, more)) => 1 + symbol_length(more),
        None => 0,
    }
}

fn symbol_length(text: &[u8]) -> usize
    ensures value { result ≡ symbol_length text.now }
    ensures within { result ≤ length text.now }
{
    let mut rest = text;
    let mut count = 0;
    while let Some((b, more)) = rest.split_first() {
        if ends_symbol(*b) {
            return count;
        }
        count += 1;
        rest = more;
    }
    count
}

fn ends_symbol(b: u8) -> bool
    ensures { result ≡ ends_symbol b }
{
    b <= b' ' || b == b'(' || b == b')' || b == b'"' || b == b';' || b == b'|'
}
