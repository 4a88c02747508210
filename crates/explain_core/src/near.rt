// Hints from the source near a place: the token before it, or the operator of the expression that begins there.
ghost use Rattle.std.specs.Prelude.{◌≡◌, ◌<◌, ◌≤◌, length, map, option_map, IfSome};
ghost use Rattle.explain_core.specs.Kinds.{is_among, is_kind};
ghost use Rattle.explain_core.specs.Near.{begins_operand, closes, ends_operand, found_in, gap_before, gap_near, is_capitals, last_token, near_of, opens, operator_in, operators_of, plain_found, plain_near, token_above, token_before};

use crate::advice::is_among;
use crate::lines::line_at;
use crate::tokens::{is_word_byte, smv_token_length};
use text_core::kinds::smv;
use text_core::{Kind, Place, is_same};

/// A hint near a place: words about a token, the token and its place, and a fix.
///
/// `remedy` is a fix that fits better than that of the kind.
#[derive(Clone, Copy)]
pub struct Near<'a> {
    pub words: &'static [u8],
    pub token: &'a [u8],
    pub line: usize,
    pub column: usize,
    pub remedy: Option<&'static [u8]>,
}

// A token with its place.
#[derive(Clone, Copy)]
struct Found<'a> {
    token: &'a [u8],
    line: usize,
    column: usize,
}

const OPERATORS: [&[u8]; 23] = [
    b"->", b"<->", b"?", b"|", b"xor", b"xnor", b"&", b"=", b"!=", b"<", b">", b"<=", b">=", b"in",
    b"union", b"<<", b">>", b"+", b"-", b"*", b"/", b"mod", b"::",
];

const DIVISIONS: [&[u8]; 2] = [b"/", b"mod"];

const SHIFTS: [&[u8]; 2] = [b"<<", b">>"];

const SELECTIONS: [&[u8]; 1] = [b"["];

const FIRST_OPERATOR: &[u8] = b"the first operator from here on is ";

const OPEN_RANGE: &[u8] = b"a range has a number at each end, but none stands behind ";

const CLOSE_RANGE: &[u8] = b"Write numbers at both ends, as `0..7`.";

const NOTHING_BETWEEN: &[u8] = b"no `;` and no operator stands between this token and ";

const FILL_GAP: &[u8] = b"Write what is missing there: a `;`, an operator or a bracket.";

/// The most bytes that are searched, from a place on and on each line before it.
pub const NEAREST: usize = 4096;

// The most lines above a place that are searched for a token.
const LINES_ABOVE: usize = 100;

/// Returns the hint near the place of a refusal, or None where there is none.
///
/// `rest` is the line's text from the place on.
pub fn near_of<'a>(kind: Kind, lines: &[&'a [u8]], place: Place, rest: &'a [u8]) -> Option<Near<'a>>
    requires { length rest.now ≤ NEAREST }
    ensures { option_map plain_near result ≡ near_of kind (map (λ line. line.now) lines.now) place rest.now }
{
    if is_kind(kind, smv::DEAD) {
        return gap_before(lines, place, rest);
    }
    let (start, end) = operator_in(operators_of(kind), rest)?;
    Some(Near {
        words: FIRST_OPERATOR,
        token: &rest[start..end],
        line: place.line as usize,
        column: place.column as usize + start,
        remedy: None,
    })
}

/// Returns whether the kinds are the same.
pub fn is_kind(kind: Kind, other: Kind) -> bool
    ensures { result ≡ is_kind kind other }
{
    match (kind, other) {
        (Kind::S(n), Kind::S(m))
        | (Kind::M(n), Kind::M(m))
        | (Kind::B(n), Kind::B(m))
        | (Kind::X(n), Kind::X(m))
        | (Kind::Y(n), Kind::Y(m)) => n == m,
        _ => false,
    }
}

// The operators that a refusal of the kind can be about.
fn operators_of(kind: Kind) -> &'static [&'static [u8]]
    ensures { map (λ word. word.now) result.now ≡ operators_of kind }
{
    if is_kind(kind, smv::TYPE_CLASH) || is_kind(kind, smv::INT_TOO_WIDE) {
        &OPERATORS
    } else if is_kind(kind, smv::BAD_DIVISOR) {
        &DIVISIONS
    } else if is_kind(kind, smv::BAD_SHIFT) {
        &SHIFTS
    } else if is_kind(kind, smv::BAD_SELECT) {
        &SELECTIONS
    } else {
        &[]
    }
}

// The ends of the first such operator outside brackets, after the first byte.
#[tactic(auto, using(crate::proofs::Skipping::operator_skip))]
fn operator_in(wanted: &[&'static [u8]], rest: &[u8]) -> Option<(usize, usize)>
    ensures value { result ≡ operator_in (map (λ word. word.now) wanted.now) 0 0 0 rest.now }
    ensures before { IfSome result (λ r. r.0 ≤ r.1) }
    ensures within { IfSome result (λ r. r.1 ≤ length rest.now) }
{
    let mut at = 0;
    let mut depth = 0usize;
    'tokens: while at < rest.len() {
        let end = at + smv_token_length(&rest[at..]);
        if depth == 0 && at > 0 && is_among(wanted, &rest[at..end]) {
            return Some((at, end));
        }
        if closes(rest[at]) {
            if depth == 0 {
                return None;
            }
            depth -= 1;
        } else if opens(rest[at]) {
            depth += 1;
        }
        at = end;
    }
    None
}

fn opens(b: u8) -> bool
    ensures { result ≡ opens b }
{
    b == b'(' || b == b'[' || b == b'{'
}

fn closes(b: u8) -> bool
    ensures { result ≡ closes b }
{
    b == b')' || b == b']' || b == b'}' || b == b';'
}

// The hint on the token before the place, where something is missing between the two.
fn gap_before<'a>(lines: &[&'a [u8]], place: Place, rest: &[u8]) -> Option<Near<'a>>
    ensures { option_map plain_near result ≡ gap_before (map (λ line. line.now) lines.now) place rest.now }
{
    gap_near(token_before(lines, place)?, rest)
}

// The hint on what is missing after the token, before this text.
fn gap_near<'a>(found: Found<'a>, rest: &[u8]) -> Option<Near<'a>>
    ensures { option_map plain_near result ≡ gap_near (plain_found found.entry) rest.now }
{
    let (words, remedy) = if is_same(found.token, b"..") {
        (OPEN_RANGE, CLOSE_RANGE)
    } else if begins_operand(rest) && ends_operand(found.token) {
        (NOTHING_BETWEEN, FILL_GAP)
    } else {
        return None;
    };
    Some(Near {
        words,
        token: found.token,
        line: found.line,
        column: found.column,
        remedy: Some(remedy),
    })
}

fn begins_operand(rest: &[u8]) -> bool
    ensures { result ≡ begins_operand rest.now }
{
    match rest.split_first() {
        Some((b, _)) => is_word_byte(*b),
        None => false,
    }
}

// Whether an expression, a type or a name can end with the token. Reserved words in capitals can't, except `TRUE`
// and `FALSE`.
fn ends_operand(token: &[u8]) -> bool
    ensures { result ≡ ends_operand token.now }
{
    match token.split_first() {
        Some((first, _)) if is_word_byte(*first) => {
            is_same(token, b"TRUE") || is_same(token, b"FALSE") || !is_capitals(token)
        }
        Some((first, _)) => *first == b')' || *first == b']' || *first == b'}',
        None => false,
    }
}

// Whether all bytes are capital letters.
fn is_capitals(token: &[u8]) -> bool
    ensures { result ≡ is_capitals token.now }
{
    for b in token {
        if *b < b'A' || *b > b'Z' {
            return false;
        }
    }
    true
}

// The last token before a place: on its line, or else on one of the lines above.
fn token_before<'a>(lines: &[&'a [u8]], place: Place) -> Option<Found<'a>>
    ensures { option_map plain_found result ≡ token_before (map (λ line. line.now) lines.now) place }
{
    let line = line_at(lines, place.line as usize)?;
    let at = (place.column as usize).saturating_sub(1).min(line.len());
    match found_in(&line[..at], place.line as usize) {
        Some(found) => Some(found),
        None => token_above(lines, place.line as usize, LINES_ABOVE),
    }
}

// The last token on the lines above this line. At most `most` lines are searched.
#[tactic(auto, using(crate::proofs::Above::above_step), unfolding(crate::specs::Near::token_above))]
fn token_above<'a>(lines: &[&'a [u8]], number: usize, most: usize) -> Option<Found<'a>>
    ensures { option_map plain_found result ≡ token_above (map (λ line. line.now) lines.now) number most }
{
    let mut above = number;
    let mut left = most;
    'lines: while left > 0 {
        if above <= 1 {
            return None;
        }
        above -= 1;
        left -= 1;
        let line = line_at(lines, above)?;
        if let Some(found) = found_in(line, above) {
            return Some(found);
        }
    }
    None
}

// The last token of a line, or of its front, where that is short enough.
fn found_in<'a>(front: &'a [u8], number: usize) -> Option<Found<'a>>
    ensures { option_map plain_found result ≡ found_in front.now number }
{
    if front.len() > NEAREST {
        return None;
    }
    let (start, end) = last_token(front)?;
    Some(Found {
        token: &front[start..end],
        line: number,
        column: start + 1,
    })
}

// The ends of the last token before a comment.
fn last_token(front: &[u8]) -> Option<(usize, usize)>
    ensures value { result ≡ last_token 0 0 None front.now }
    ensures before { IfSome result (λ r. r.0 ≤ r.1) }
    ensures within { IfSome result (λ r. r.1 ≤ length front.now) }
{
    let mut last = None;
    let mut at = 0;
    'tokens: while at < front.len() {
        let rest = &front[at..];
        if rest.starts_with(b"--") {
            return last;
        }
        let end = at + smv_token_length(rest);
        if rest[0] > b' ' {
            last = Some((at, end));
        }
        at = end;
    }
    last
}
