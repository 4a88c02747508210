// The sort that a form spells.
ghost use Rattle.std.specs.Prelude.{◌≡◌, Some, None, IfOk};
ghost use Rattle.text_core.specs.declared.place.Place.{Place};
ghost use Rattle.moxi_sexpr.specs.Tree.{Tree, plain, plain_forms};
ghost use Rattle.moxi_terms.specs.Sorted.{IsScope};
ghost use Rattle.moxi_terms.specs.Sorts.{IsSort};
ghost use Rattle.moxi_terms.specs.View.{ScopeState};
ghost use Rattle.moxi_term_reading.specs.Forms.{digits_now, symbol_now};
ghost use Rattle.moxi_term_reading.specs.SortReading.{atom_sort, index_of, indexed_sort, listed_sort, sort_reading, symbol_sort, unknown, unknown_indexed, vector_sort, width_sort};

use crate::forms::{only_numeral, symbol_atom, symbol_of};
use moxi_sexpr::{Form, FormShape};
use moxi_terms::{Scope, Sort, is_left_out_sort};
use text_core::kinds::moxi;
use text_core::{Kind, Place, Refusal, is_same};
use word_core::{WIDEST, read_digits};

/// Returns a refusal of this kind at this place.
pub fn refusal(kind: Kind, place: Place) -> Refusal
    ensures { result ≡ record { kind = kind; place = place } }
{
    Refusal { kind, place }
}

/// Returns the number that a numeral spells, or the greatest number of 32 bits where it is greater.
pub fn index_of(digits: &[u8]) -> u32
    ensures { result ≡ index_of digits.now }
{
    match read_digits(32, 10, digits) {
        Some(w) => w.bits() as u32,
        None => u32::MAX,
    }
}

/// Returns the refusal of a form at `p` with an unknown name at `q`.
///
/// If the name is unsupported, the refusal is at `p`, otherwise at `q`.
pub fn unknown_refusal(left_out: bool, p: Place, q: Place) -> Refusal
    ensures { result ≡ unknown left_out p q }
{
    if left_out {
        refusal(moxi::NOT_SUPPORTED, p)
    } else {
        refusal(moxi::UNKNOWN, q)
    }
}

fn symbol_sort(sort: Option<Sort>, name: &[u8], primed: bool, p: Place) -> Result<Sort, Refusal>
    ensures { result ≡ symbol_sort sort name.now primed p }
{
    match sort {
        Some(s) => if primed {
            Err(refusal(moxi::PRIME_HERE, p))
        } else {
            Ok(s)
        },
        None => Err(unknown_refusal(is_left_out_sort(name), p, p)),
    }
}

fn width_sort(
    width: u32,
    p: Place,
    q: Place,
    first: bool,
    r: Place,
    second: bool,
) -> Result<Sort, Refusal>
    ensures { result ≡ width_sort width p q first r second }
{
    if width < 1 || width > WIDEST {
        Err(refusal(moxi::WIDTH, p))
    } else if first {
        Err(refusal(moxi::PRIME_HERE, q))
    } else if second {
        Err(refusal(moxi::PRIME_HERE, r))
    } else {
        Ok(Sort::Bits(width))
    }
}

// The sort after `BitVec`, given the numeral of its width.
fn vector_sort(
    p: Place,
    q: Place,
    first: bool,
    r: Place,
    second: bool,
    width: Option<&[u8]>,
) -> Result<Sort, Refusal>
    ensures { result ≡ vector_sort p q first r second (digits_now width.entry) }
{
    match width {
        Some(digits) => width_sort(index_of(digits), p, q, first, r, second),
        None => Err(refusal(moxi::ARITY, p)),
    }
}

// The refusal of a sort at `p` with an unknown name at `r` after the `_` at `q`. The name may be primed.
fn unknown_indexed(left_out: bool, p: Place, q: Place, first: bool, r: Place) -> Refusal
    ensures { result ≡ unknown_indexed left_out p q first r }
{
    if left_out {
        refusal(moxi::NOT_SUPPORTED, p)
    } else if first {
        refusal(moxi::PRIME_HERE, q)
    } else {
        refusal(moxi::UNKNOWN, r)
    }
}

// The sort that follows the `_` at `q`, in a sort at `p`.
fn indexed_sort(
    scope: &Scope,
    p: Place,
    q: Place,
    first: bool,
    rest: &[Form],
) -> Result<Sort, Refusal>
    ensures { result ≡ indexed_sort scope.now p q first (plain_forms rest.now) }
{
    match rest.split_first() {
        Some((form, more)) => match symbol_of(form) {
            Some((name, second)) => if is_same(name, b"BitVec") {
                vector_sort(p, q, first, form.place, second, only_numeral(more))
            } else if scope.sort_named(name).is_some() {
                Err(refusal(moxi::ARITY, p))
            } else {
                Err(unknown_indexed(is_left_out_sort(name), p, q, first, form.place))
            },
            None => Err(refusal(moxi::ARITY, p)),
        },
        None => Err(refusal(moxi::ARITY, p)),
    }
}

// The sort that a list at `p` spells, with this symbol as its head at `q`.
fn listed_sort(
    scope: &Scope,
    p: Place,
    q: Place,
    symbol: Option<(&[u8], bool)>,
    rest: &[Form],
) -> Result<Sort, Refusal>
    ensures { result ≡ listed_sort scope.now p q (symbol_now symbol.entry) (plain_forms rest.now) }
{
    match symbol {
        None => Err(refusal(moxi::ARITY, p)),
        Some((name, primed)) => if is_same(name, b"_") {
            indexed_sort(scope, p, q, primed, rest)
        } else if is_same(name, b"BitVec") || scope.sort_named(name).is_some() {
            Err(refusal(moxi::ARITY, p))
        } else {
            Err(unknown_refusal(is_left_out_sort(name), p, q))
        },
    }
}

fn atom_sort(
    scope: &Scope,
    around: Place,
    p: Place,
    symbol: Option<(&[u8], bool)>,
) -> Result<Sort, Refusal>
    ensures { result ≡ atom_sort scope.now around p (symbol_now symbol.entry) }
{
    match symbol {
        Some((name, primed)) => symbol_sort(scope.sort_named(name), name, primed, p),
        None => Err(refusal(moxi::ARITY, around)),
    }
}

/// Returns the sort that a form in a list at `around` spells, or the failing test with the least place (M4, M6, M7, M8,
/// M12).
pub fn sort_of(scope: &Scope, around: Place, form: &Form) -> Result<Sort, Refusal>
    ensures { result ≡ sort_reading scope.now around (plain form.now) }
{
    match &form.shape {
        FormShape::Atom(a) => atom_sort(scope, around, form.place, symbol_atom(a)),
        FormShape::List(parts) => match parts.split_first() {
            Some((head, rest)) => listed_sort(scope, form.place, head.place, symbol_of(head), rest),
            None => Err(refusal(moxi::ARITY, form.place)),
        },
    }
}

/// Proves that the sort that a form spells is one of the scope.
pub fn read_sorts_are_of_the_scope()
    ensures { (s : ScopeState) (around : Place) (t : Tree) → IsScope s → IfOk (sort_reading s around t) (IsSort s.enumerations) }
{}
