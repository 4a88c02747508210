// Signs: the longest one at a position.
ghost use Rattle.std.specs.Prelude.{◌≡◌, length};
ghost use Rattle.smv_lex.specs.Reading.{begins_comment, sign_at};
ghost use Rattle.smv_text.specs.Signs.{sign_bytes};
ghost use Rattle.smv_lex.specs.Reading as spec;
ghost use Rattle.text_core.specs.Bytes.{heads};

use smv_text::Sign;

/// Returns whether the text begins with this byte.
pub fn heads(c: u8, text: &[u8]) -> bool
    ensures { result ≡ heads c text.now }
{
    match text {
        [b, ..] => *b == c,
        [] => false,
    }
}

/// Whether the text begins with a comment.
fn begins_comment(text: &[u8]) -> bool
    ensures { result ≡ begins_comment text.now }
{
    heads(b'-', text) && heads(b'-', &text[1..])
}

/// Returns the longest sign that begins with this byte, or None where there is none.
///
/// `rest` is the text after the byte.
pub fn sign_at(b: u8, rest: &[u8]) -> Option<Sign>
    ensures { result ≡ sign_at b rest.now }
{
    match b {
        b'(' => Some(Sign::Open),
        b')' => Some(Sign::Close),
        b'{' => Some(Sign::OpenBrace),
        b'}' => Some(Sign::CloseBrace),
        b'[' => Some(Sign::OpenBracket),
        b']' => Some(Sign::CloseBracket),
        b',' => Some(Sign::Comma),
        b';' => Some(Sign::Semicolon),
        b':' => Some(colon_sign(rest)),
        b'.' => Some(dot_sign(rest)),
        b'=' => Some(Sign::Equal),
        b'!' => Some(bang_sign(rest)),
        b'<' => Some(less_sign(rest)),
        b'>' => Some(greater_sign(rest)),
        b'&' => Some(Sign::And),
        b'|' => Some(Sign::Or),
        b'+' => Some(Sign::Plus),
        b'-' => Some(dash_sign(rest)),
        b'*' => Some(Sign::Times),
        b'/' => slash_sign(rest),
        b'?' => Some(Sign::Question),
        _ => None,
    }
}

fn colon_sign(rest: &[u8]) -> Sign
    ensures { result ≡ spec.colon_sign rest.now }
{
    if heads(b'=', rest) {
        Sign::Assign
    } else if heads(b':', rest) {
        Sign::Concat
    } else {
        Sign::Colon
    }
}

fn dot_sign(rest: &[u8]) -> Sign
    ensures { result ≡ spec.dot_sign rest.now }
{
    if heads(b'.', rest) {
        Sign::Range
    } else {
        Sign::Dot
    }
}

fn bang_sign(rest: &[u8]) -> Sign
    ensures { result ≡ spec.bang_sign rest.now }
{
    if heads(b'=', rest) {
        Sign::Unequal
    } else {
        Sign::Not
    }
}

fn less_sign(rest: &[u8]) -> Sign
    ensures { result ≡ spec.less_sign rest.now }
{
    if heads(b'=', rest) {
        Sign::LessEqual
    } else if heads(b'<', rest) {
        Sign::ShiftLeft
    } else if heads(b'-', rest) && heads(b'>', &rest[1..]) {
        Sign::Iff
    } else {
        Sign::Less
    }
}

fn greater_sign(rest: &[u8]) -> Sign
    ensures { result ≡ spec.greater_sign rest.now }
{
    if heads(b'=', rest) {
        Sign::GreaterEqual
    } else if heads(b'>', rest) {
        Sign::ShiftRight
    } else {
        Sign::Greater
    }
}

fn dash_sign(rest: &[u8]) -> Sign
    ensures { result ≡ spec.dash_sign rest.now }
{
    if heads(b'>', rest) {
        Sign::Implies
    } else {
        Sign::Minus
    }
}

fn slash_sign(rest: &[u8]) -> Option<Sign>
    ensures { result ≡ spec.slash_sign rest.now }
{
    if begins_comment(rest) {
        None
    } else {
        Some(Sign::Divide)
    }
}

/// Returns the length of the sign's spelling in bytes.
pub fn sign_length(sign: Sign) -> usize
    ensures { result ≡ length (sign_bytes sign) }
{
    match sign {
        Sign::Range
        | Sign::Assign
        | Sign::Unequal
        | Sign::LessEqual
        | Sign::GreaterEqual
        | Sign::ShiftLeft
        | Sign::ShiftRight
        | Sign::Concat
        | Sign::Implies => 2,
        Sign::Iff => 3,
        _ => 1,
    }
}
