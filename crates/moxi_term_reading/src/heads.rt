// Heads of applications, and the names of literals with an `_`.
ghost use Rattle.std.specs.Prelude.{◌≡◌, ◌==◌, Some, None, if◌then◌else◌};
ghost use Rattle.std.specs.List.{list_all};
ghost use Rattle.text_core.specs.Bytes.{is_digit};
ghost use Rattle.moxi_sexpr.specs.Lexing.{refusal};
ghost use Rattle.moxi_sexpr.specs.Tree.{plain, plain_forms};
ghost use Rattle.moxi_term_reading.specs.Failures.{least};
ghost use Rattle.moxi_term_reading.specs.declared.heads.HeadFailure.TheVariants.{Unknown};
ghost use Rattle.moxi_term_reading.specs.Forms.{digits_now, is_named, symbol_now};
ghost use Rattle.moxi_term_reading.specs.Reading.{atom_head, decimal_digits, extended_head, extracted_head, head_of, head_primes, head_tests, indexed_head, listed_head, literal_digits, prime_failures, symbol_primes};

use crate::failures::minimum;
use crate::forms::{is_primed, is_word, numeral_of, only_numeral, pair, symbol_atom, symbol_of};
use crate::sorts::{index_of, refusal, unknown_refusal};
use moxi_sexpr::{Form, FormShape};
use moxi_terms::{Head, Scope, TermOp, is_indexed, is_left_out};
use text_core::kinds::moxi;
use text_core::{Place, Refusal, is_digit, is_same};

/// Returns the failing test of a prime, or None where there is no prime.
pub fn prime(primed: bool, p: Place) -> Option<Refusal>
    ensures { result ≡ least (prime_failures primed p) }
{
    if primed {
        Some(refusal(moxi::PRIME_HERE, p))
    } else {
        None
    }
}

/// Returns whether the symbol is this word, primed or not.
pub fn is_named(word: &[u8], symbol: Option<(&[u8], bool)>) -> bool
    ensures { result ≡ is_named word.now (symbol_now symbol.entry) }
{
    match symbol {
        Some((name, _)) => is_same(name, word),
        None => false,
    }
}

/// Returns the digits of `bvN`, or None where the name has another form.
pub fn literal_digits<'a>(name: &'a [u8]) -> Option<&'a [u8]>
    ensures { digits_now result ≡ literal_digits name.now }
{
    match name {
        [b, c, digits @ ..] => if *b == b'b' && *c == b'v' {
            decimal_digits(digits)
        } else {
            None
        },
        _ => None,
    }
}

// The bytes, if they are one or more digits.
fn decimal_digits<'a>(bytes: &'a [u8]) -> Option<&'a [u8]>
    ensures { digits_now result ≡ decimal_digits bytes.now }
{
    if bytes.is_empty() {
        None
    } else if are_digits(bytes) {
        Some(bytes)
    } else {
        None
    }
}

fn are_digits(bytes: &[u8]) -> bool
    ensures { result ≡ list_all is_digit bytes.now }
{
    for b in bytes {
        if !is_digit(*b) {
            return false;
        }
    }
    true
}

/// Why a head stands for nothing.
#[derive(Clone, Copy)]
pub enum HeadFailure {
    /// No operator and no function has its name: the failing test.
    Unknown(Refusal),
    /// It is the list of an operator with indices, and hasn't its shape: the place of the list.
    Misshapen(Place),
}

// No head is at q.
fn unknown_head(q: Place) -> HeadFailure
    ensures { result ≡ Unknown (refusal 4 q) }
{
    HeadFailure::Unknown(refusal(moxi::UNKNOWN, q))
}

// The failing test of the number of arguments where one is taken, at p.
fn one_argument(p: Place, count: usize) -> Option<Refusal>
    ensures { result ≡ (if count == 1 then None else Some (refusal 12 p)) }
{
    if count == 1 {
        None
    } else {
        Some(refusal(moxi::ARITY, p))
    }
}

/// The least failing test of an application at p to so many arguments, whose head stands for nothing. The operators with
/// indices take one argument each, so their number is tested also where the operator's list hasn't its shape.
pub fn head_test(p: Place, f: HeadFailure, count: usize) -> Option<Refusal>
    ensures { result ≡ least (head_tests p f count) }
{
    match f {
        HeadFailure::Unknown(f) => Some(f),
        HeadFailure::Misshapen(q) => minimum(Some(refusal(moxi::ARITY, q)), one_argument(p, count)),
    }
}

fn extracted_head(q: Place, high: Option<&[u8]>, low: Option<&[u8]>) -> Result<Head, HeadFailure>
    ensures { result ≡ extracted_head q (digits_now high.entry) (digits_now low.entry) }
{
    match high {
        Some(h) => match low {
            Some(l) => Ok(Head::Operator(TermOp::Extract(index_of(h), index_of(l)))),
            None => Err(HeadFailure::Misshapen(q)),
        },
        None => Err(HeadFailure::Misshapen(q)),
    }
}

fn extended_head(q: Place, name: &[u8], count: Option<&[u8]>) -> Result<Head, HeadFailure>
    ensures { result ≡ extended_head q name.now (digits_now count.entry) }
{
    match count {
        Some(n) => if is_same(name, b"zero_extend") {
            Ok(Head::Operator(TermOp::ZeroExtend(index_of(n))))
        } else {
            Ok(Head::Operator(TermOp::SignExtend(index_of(n))))
        },
        None => Err(HeadFailure::Misshapen(q)),
    }
}

// The operator with indices at the head at q.
fn indexed_head(q: Place, name: &[u8], indices: &[Form]) -> Result<Head, HeadFailure>
    ensures { result ≡ indexed_head q name.now (plain_forms indices.now) }
{
    if is_same(name, b"extract") {
        match pair(indices) {
            Some((high, low)) => extracted_head(q, numeral_of(high), numeral_of(low)),
            None => Err(HeadFailure::Misshapen(q)),
        }
    } else {
        extended_head(q, name, only_numeral(indices))
    }
}

// What is behind the `_` of a head at q, in a term at p.
fn listed_head(p: Place, q: Place, rest: &[Form]) -> Result<Head, HeadFailure>
    ensures { result ≡ listed_head p q (plain_forms rest.now) }
{
    match rest.split_first() {
        Some((form, indices)) => match symbol_of(form) {
            Some((name, _)) => if is_indexed(name) {
                indexed_head(q, name, indices)
            } else {
                Err(HeadFailure::Unknown(unknown_refusal(is_left_out(name), p, q)))
            },
            None => Err(unknown_head(q)),
        },
        None => Err(unknown_head(q)),
    }
}

fn atom_head(
    scope: &Scope,
    p: Place,
    q: Place,
    symbol: Option<(&[u8], bool)>,
) -> Result<Head, HeadFailure>
    ensures { result ≡ atom_head scope.now p q (symbol_now symbol.entry) }
{
    match symbol {
        Some((name, _)) => match scope.head(name) {
            Some(h) => Ok(h),
            None => Err(HeadFailure::Unknown(unknown_refusal(is_left_out(name), p, q))),
        },
        None => Err(unknown_head(q)),
    }
}

/// What the head of a term at p stands for, or why it stands for nothing.
pub fn head_of(scope: &Scope, p: Place, head: &Form) -> Result<Head, HeadFailure>
    ensures { result ≡ head_of scope.now p (plain head.now) }
{
    let q = head.place;
    match &head.shape {
        FormShape::Atom(a) => atom_head(scope, p, q, symbol_atom(a)),
        FormShape::List(parts) => match parts.split_first() {
            Some((first, rest)) => if is_word(b"_", first) {
                listed_head(p, q, rest)
            } else {
                Err(unknown_head(q))
            },
            None => Err(unknown_head(q)),
        },
    }
}

// The failing test of the prime of a symbol.
fn symbol_prime(form: &Form) -> Option<Refusal>
    ensures { result ≡ least (symbol_primes (plain form.now)) }
{
    prime(is_primed(form), form.place)
}

/// Returns the failing test of the primes of a head.
pub fn head_prime(head: &Form) -> Option<Refusal>
    ensures { result ≡ least (head_primes (plain head.now)) }
{
    match &head.shape {
        FormShape::Atom(_) => symbol_prime(head),
        FormShape::List(parts) => match parts.split_first() {
            None => None,
            Some((first, rest)) => match rest.split_first() {
                None => symbol_prime(first),
                Some((second, _)) => minimum(symbol_prime(first), symbol_prime(second)),
            },
        },
    }
}
