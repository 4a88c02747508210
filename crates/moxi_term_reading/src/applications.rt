// Applications of operators and functions.
ghost use Rattle.std.specs.Prelude.{◌≡◌, ◌++◌, ◌∷◌, [], Ok, None, List, length, map, is_some, ◌&&◌, IfOk, OnOk};
ghost use Rattle.text_core.specs.declared.place.Refusal.{Refusal};
ghost use Rattle.moxi_term_reading.specs.Answer.{AreRead, AreStacked, IsRead, IsVariableAdded, kept, sorts_in, unless_some};
ghost use Rattle.moxi_term_reading.specs.Failures.{least};
ghost use Rattle.moxi_term_reading.specs.Reading.{Arguments, Reading, application, applied_sort, argument, argument_tests, both_arguments, head_tests, headed, no_term};
ghost use Rattle.moxi_terms.specs.declared.data.Sort.{Sort};
ghost use Rattle.moxi_terms.specs.Tree.{trees_of, variable};
ghost use Rattle.moxi_terms.specs.View.{plain};

use crate::failures::minimum;
use crate::heads::{HeadFailure, head_test};
use crate::outcome::{ReadTerm, no_term, unless_failed};
use crate::sorts::refusal;
use crate::typing::{head_count_fits, head_sort};
use moxi_terms::{Head, Scope, Sort, Term, Terms};
use text_core::kinds::moxi;
use text_core::{NoMemory, Place, Refusal};

/// The arguments read so far.
///
/// `whole` is true where each of them has a sort. The sorts are on a separate stack.
#[derive(Drop)]
pub struct ReadArguments {
    pub terms: Terms,
    pub whole: bool,
    pub failure: Option<Refusal>,
}

/// Adds an argument, and pushes its sort on the stack.
pub fn add_argument(
    r: ReadTerm,
    args: &mut ReadArguments,
    sorts: &mut Vec<Sort>,
) -> Result<(), NoMemory>
    ensures { OnOk result ((x : Arguments) (y : Reading) (before : List Sort) → AreStacked x args.old before sorts.old.items → IsRead y r → AreStacked (both_arguments x (argument y)) args.new before sorts.new.items) }
{
    put(&mut args.terms, r.term)?;
    args.whole = add_sort(sorts, args.whole, r.sort)?;
    args.failure = minimum(args.failure, r.failure);
    Ok(())
}

/// Adds an argument that is a variable with this sort and this failing test.
pub fn add_variable(
    v: u32,
    primed: bool,
    sort: Option<Sort>,
    failure: Option<Refusal>,
    args: &mut ReadArguments,
    sorts: &mut Vec<Sort>,
) -> Result<(), NoMemory>
    ensures { OnOk result (IsVariableAdded v primed sort failure args.old sorts.old.items args.new sorts.new.items) }
{
    args.terms.push(Term::Variable(v, primed))?;
    args.whole = add_sort(sorts, args.whole, sort)?;
    args.failure = minimum(args.failure, failure);
    Ok(())
}

// Pushes a sort, if there is one.
fn add_sort(sorts: &mut Vec<Sort>, whole: bool, sort: Option<Sort>) -> Result<bool, NoMemory>
    ensures sorts { OnOk result (sorts.new.items ≡ sorts.old.items ++ sorts_in sort) }
    ensures whole { IfOk result (λ b. b ≡ (is_some sort && whole)) }
{
    match sort {
        None => Ok(false),
        Some(s) => {
            put(sorts, s)?;
            Ok(whole)
        }
    }
}

// The number of terms.
fn count(terms: &[Term]) -> usize
    ensures { result ≡ length terms.now }
{
    terms.len()
}

/// Appends an element.
pub fn put<T>(all: &mut Vec<T>, x: T) -> Result<(), NoMemory>
where
    T: Drop,
    ensures { OnOk result (all.new.items ≡ all.old.items ++ x ∷ []) }
{
    Ok(all.push(x)?)
}

/// Reads an application at `p` of a head to arguments with these sorts.
///
/// `primes` is the failing test of the head's primes.
pub fn application(
    scope: &Scope,
    p: Place,
    primes: Option<Refusal>,
    head: Result<Head, HeadFailure>,
    args: ReadArguments,
    sorts: &[Sort],
) -> ReadTerm
    ensures { (x : Arguments) (fs : List Refusal) → AreRead x args sorts.now → primes ≡ least fs → IsRead (application scope.now.functions p fs head x) result }
{
    match head {
        Err(f) => unheaded(p, f, args),
        Ok(h) => headed(scope, p, primes, h, args, sorts),
    }
}

// An application at p whose head stands for nothing.
fn unheaded(p: Place, f: HeadFailure, args: ReadArguments) -> ReadTerm
    ensures { (x : Arguments) (own : List Sort) → AreRead x args own → IsRead (record { term = no_term; sort = None; failures = x.failures ++ head_tests p f (length x.terms) }) result }
{
    ReadTerm {
        term: no_term(),
        sort: None,
        failure: minimum(args.failure, head_test(p, f, count(&args.terms))),
    }
}

fn headed(
    scope: &Scope,
    p: Place,
    primes: Option<Refusal>,
    head: Head,
    args: ReadArguments,
    sorts: &[Sort],
) -> ReadTerm
    ensures { (x : Arguments) (fs : List Refusal) → AreRead x args sorts.now → primes ≡ least fs → IsRead (application scope.now.functions p fs (Ok head) x) result }
{
    let (sort, test) = applied(scope, p, head, sorts, args.whole, count(&args.terms));
    let tests = minimum(primes, test);
    ReadTerm {
        term: head_term(head, args.terms),
        sort: unless_failed(tests, sort),
        failure: minimum(args.failure, tests),
    }
}

fn head_term(head: Head, terms: Terms) -> Term
    ensures { plain result ≡ headed head (trees_of (map plain terms.items)) }
{
    match head {
        Head::Operator(op) => Term::Apply(op, terms),
        Head::Function(n) => Term::Call(n, terms),
    }
}

// The sort of an application, and the failing test of the number and the sorts of its arguments. The sort is meaningful
// only if no test fails.
fn applied(
    scope: &Scope,
    p: Place,
    head: Head,
    sorts: &[Sort],
    whole: bool,
    count: usize,
) -> (Option<Sort>, Option<Refusal>)
    ensures sort { unless_some result.1 result.0 ≡ unless_some result.1 (applied_sort scope.now.functions head (kept whole sorts.now)) }
    ensures test { result.1 ≡ least (argument_tests scope.now.functions p head count (kept whole sorts.now)) }
{
    if !head_count_fits(scope, head, count) {
        (None, Some(refusal(moxi::ARITY, p)))
    } else if whole {
        match head_sort(scope, head, sorts) {
            Ok(sort) => (Some(sort), None),
            Err(kind) => (None, Some(refusal(kind, p))),
        }
    } else {
        (None, None)
    }
}
