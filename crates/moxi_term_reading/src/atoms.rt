// Atoms, and literals with an `_`.
ghost use Rattle.std.specs.Prelude.{◌≡◌, ◌*◌, List, length, OnOk};
ghost use Rattle.text_core.specs.declared.place.Refusal.{Refusal};
ghost use Rattle.word_core.specs.Digits.{read_word};
ghost use Rattle.moxi_sexpr.specs.Tree.{plain_forms};
ghost use Rattle.moxi_term_reading.specs.Answer.{IsAdded, IsRead, context_of};
ghost use Rattle.moxi_term_reading.specs.Failures.{least};
ghost use Rattle.moxi_term_reading.specs.Finding.{found, last_of};
ghost use Rattle.moxi_term_reading.specs.Forms.{digits_now};
ghost use Rattle.moxi_term_reading.specs.Reading.{argument, atom_reading, literal_digits, literal_named, literal_reading, meaning_of, named_reading, underscore_reading, variable_primes, word_reading};

use crate::applications::{ReadArguments, add_argument, add_variable};
use crate::failures::minimum;
use crate::forms::{only_numeral, place_in, symbol_atom, symbol_of};
use crate::heads::{literal_digits, prime};
use crate::locals::Bounds;
use crate::outcome::{ReadTerm, Setting, checked_term, failed, unless_failed};
use crate::sorts::{index_of, refusal, unknown_refusal};
use moxi_sexpr::{Atom, Form};
use moxi_terms::{Datum, Meaning, Primes, Sort, Term, is_left_out};
use std::alloc::Global;
use text_core::kinds::moxi;
use text_core::{NoMemory, Place, Refusal};
use word_core::{WIDEST, Word, read_digits};

// The failing test of the prime of a variable.
fn variable_prime(primes: Primes, primed: bool, p: Place) -> Option<Refusal>
    ensures { result ≡ least (variable_primes primes primed p) }
{
    match primes {
        Primes::Allowed => None,
        Primes::Refused => prime(primed, p),
    }
}

// The binding of this name by a surrounding `let`. Most terms are inside none.
#[tactic(auto, using(crate::proofs::ReadingLaws::last_of_none))]
fn bound_named(bounds: &Bounds, name: &[u8]) -> Option<(u32, Option<Sort>)>
    ensures { found result ≡ last_of 0 bounds.now name.now }
{
    if bounds.len() == 0 {
        None
    } else {
        bounds.find(name)
    }
}

// The meaning of a bare name.
fn meaning_of(setting: Setting, bounds: &Bounds, name: &[u8]) -> Option<Meaning>
    ensures { result ≡ meaning_of (context_of setting.entry) bounds.now name.now }
{
    match bound_named(bounds, name) {
        Some((i, sort)) => Some(Meaning::Bound(i, sort)),
        None => match setting.locals.find(name) {
            Some((v, sort)) => Some(Meaning::Variable(v, sort)),
            None => setting.scope.constant_or_function(name),
        },
    }
}

fn named(
    alloc: Global,
    primes: Primes,
    p: Place,
    primed: bool,
    meaning: Option<Meaning>,
) -> ReadTerm
    ensures { IsRead (named_reading primes p primed meaning) result }
{
    match meaning {
        None => failed(refusal(moxi::UNKNOWN, p)),
        Some(Meaning::Bound(i, sort)) => checked_term(Term::Bound(i), sort, prime(primed, p)),
        Some(Meaning::Variable(v, sort)) => checked_term(
            Term::Variable(v, primed),
            sort,
            variable_prime(primes, primed, p),
        ),
        Some(Meaning::Value(d, sort)) => checked_term(
            Term::Constant(d),
            Some(sort),
            prime(primed, p),
        ),
        Some(Meaning::Call(n, sort)) => checked_term(
            Term::Call(n, Vec::new(alloc)),
            Some(sort),
            prime(primed, p),
        ),
    }
}

// A word literal, with the failing test of its primes.
fn word(p: Place, w: Option<Word>, failure: Option<Refusal>) -> ReadTerm
    ensures { (fs : List Refusal) → failure ≡ least fs → IsRead (word_reading p w fs) result }
{
    match w {
        None => failed(refusal(moxi::WIDTH, p)),
        Some(w) => checked_term(
            Term::Constant(Datum::Bits(w)),
            Some(Sort::Bits(w.width())),
            failure,
        ),
    }
}

// The word of binary digits.
fn binary_word(digits: &[u8]) -> Option<Word>
    ensures { result ≡ read_word (length digits.now) 2 digits.now }
{
    if digits.len() > WIDEST as usize {
        None
    } else {
        read_digits(digits.len() as u32, 2, digits)
    }
}

// The word of hexadecimal digits.
fn hex_word(digits: &[u8]) -> Option<Word>
    ensures { result ≡ read_word (4 * length digits.now) 16 digits.now }
{
    if digits.len() > WIDEST as usize / 4 {
        None
    } else {
        read_digits(4 * digits.len() as u32, 16, digits)
    }
}

/// Reads the term that an atom at `p` spells.
pub fn read_atom(alloc: Global, setting: Setting, bounds: &Bounds, p: Place, a: &Atom) -> ReadTerm
    ensures { IsRead (atom_reading (context_of setting.entry) bounds.now p a.now) result }
{
    match a {
        Atom::Symbol(name, primed) => named(
            alloc,
            setting.primes,
            p,
            *primed,
            meaning_of(setting, bounds, name.bytes()),
        ),
        Atom::Binary(digits) => word(p, binary_word(digits.bytes()), None),
        Atom::Hex(digits) => word(p, hex_word(digits.bytes()), None),
        Atom::Keyword(_) => failed(refusal(moxi::ARITY, p)),
        Atom::Numeral(_) => failed(refusal(moxi::ARITY, p)),
        Atom::Quote(_) => failed(refusal(moxi::ARITY, p)),
    }
}

/// Adds the argument that the atom at `p` spells.
pub fn add_atom(
    alloc: Global,
    setting: Setting,
    bounds: &Bounds,
    p: Place,
    a: &Atom,
    args: &mut ReadArguments,
    sorts: &mut Vec<Sort>,
) -> Result<(), NoMemory>
    ensures { OnOk result (IsAdded (atom_reading (context_of setting.entry) bounds.now p a.now) args.old sorts.old.items args.new sorts.new.items) }
{
    match symbol_atom(a) {
        Some((name, primed)) => add_name(alloc, setting, bounds, p, name, primed, args, sorts),
        None => add_argument(read_atom(alloc, setting, bounds, p, a), args, sorts),
    }
}

// Adds the argument that a name spells.
fn add_name(
    alloc: Global,
    setting: Setting,
    bounds: &Bounds,
    p: Place,
    name: &[u8],
    primed: bool,
    args: &mut ReadArguments,
    sorts: &mut Vec<Sort>,
) -> Result<(), NoMemory>
    ensures { OnOk result (IsAdded (named_reading setting.entry.primes p primed (meaning_of (context_of setting.entry) bounds.now name.now)) args.old sorts.old.items args.new sorts.new.items) }
{
    // Most names are variables: their terms are added without a copy.
    match bound_named(bounds, name) {
        None => match setting.locals.find(name) {
            Some((v, sort)) => {
                let failure = variable_prime(setting.primes, primed, p);
                add_variable(
                    v,
                    primed,
                    unless_failed(failure, sort),
                    failure,
                    args,
                    sorts,
                )
            }
            None => {
                let meaning = setting.scope.constant_or_function(name);
                add_meaning(alloc, setting.primes, p, primed, meaning, args, sorts)
            }
        },
        Some((i, sort)) => add_meaning(
            alloc,
            setting.primes,
            p,
            primed,
            Some(Meaning::Bound(i, sort)),
            args,
            sorts,
        ),
    }
}

// Adds the argument that a name with this meaning spells.
fn add_meaning(
    alloc: Global,
    primes: Primes,
    p: Place,
    primed: bool,
    meaning: Option<Meaning>,
    args: &mut ReadArguments,
    sorts: &mut Vec<Sort>,
) -> Result<(), NoMemory>
    ensures { OnOk result (IsAdded (named_reading primes p primed meaning) args.old sorts.old.items args.new sorts.new.items) }
{
    add_argument(named(alloc, primes, p, primed, meaning), args, sorts)
}

// A literal `bvN` with these digits, given the numeral of its width.
fn literal(p: Place, digits: &[u8], failure: Option<Refusal>, width: Option<&[u8]>) -> ReadTerm
    ensures { (fs : List Refusal) → failure ≡ least fs → IsRead (literal_reading p digits.now fs (digits_now width.entry)) result }
{
    match width {
        Some(n) => word(p, read_digits(index_of(n), 10, digits), failure),
        None => failed(refusal(moxi::ARITY, p)),
    }
}

// The literal with this name, given the failing test of its primes.
fn named_literal(
    p: Place,
    q: Place,
    primes: Option<Refusal>,
    name: &[u8],
    rest: &[Form],
) -> ReadTerm
    ensures { (fs : List Refusal) → primes ≡ least fs → IsRead (literal_named p q name.now fs (literal_digits name.now) (plain_forms rest.now)) result }
{
    match literal_digits(name) {
        Some(digits) => literal(p, digits, primes, only_numeral(rest)),
        None => failed(unknown_refusal(is_left_out(name), p, q)),
    }
}

/// Reads the term at `p` that begins with an `_` at `q`, followed by these forms.
pub fn underscored(p: Place, q: Place, first: bool, rest: &[Form]) -> ReadTerm
    ensures { IsRead (underscore_reading p q first (plain_forms rest.now)) result }
{
    match rest.split_first() {
        Some((form, more)) => match symbol_of(form) {
            Some((name, second)) => {
                let primes = minimum(prime(first, q), prime(second, place_in(form)));
                named_literal(p, q, primes, name, more)
            }
            None => failed(refusal(moxi::UNKNOWN, q)),
        },
        None => failed(refusal(moxi::UNKNOWN, q)),
    }
}
