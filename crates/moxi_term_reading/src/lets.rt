// The bindings of a `let`.
ghost use Rattle.std.specs.Prelude.{◌≡◌, List, Some, OnOk, IfOk};
ghost use Rattle.std.specs.List.{list_all};
ghost use Rattle.text_core.specs.declared.place.Refusal.{Refusal};
ghost use Rattle.moxi_sexpr.specs.Tree.{plain_forms};
ghost use Rattle.moxi_term_reading.specs.Answer.{AreBound, IsRead};
ghost use Rattle.moxi_term_reading.specs.Failures.{least};
ghost use Rattle.moxi_term_reading.specs.Reading.{Bindings, Reading, bindings_tests, both_bindings, bound_to, has_sort, let_reading, let_sort, misshapen};

use crate::applications::put;
use crate::failures::minimum;
use crate::locals::Local;
use crate::outcome::{ReadTerm, unless_failed};
use crate::sorts::refusal;
use moxi_sexpr::Form;
use moxi_terms::{Sort, Term, Terms};
use std::alloc::Global;
use text_core::kinds::moxi;
use text_core::{List, Name, Names, NoMemory, Place, Refusal};

/// The bindings of a `let`, with the failing test of its form and the failing test of its terms.
#[derive(Drop)]
pub struct ReadBindings {
    pub names: Names,
    pub locals: List<Local>,
    pub terms: Terms,
    pub shape: Option<Refusal>,
    pub failure: Option<Refusal>,
}

/// Tests that the list at `q` has one or more bindings, and returns the failing test.
#[tactic(auto, using(crate::proofs::ReadingLaws::empty_bindings))]
pub fn some_binding(q: Place, bindings: &[Form]) -> Option<Refusal>
    ensures { result ≡ least (bindings_tests q (plain_forms bindings.now)) }
{
    match bindings.split_first() {
        None => Some(refusal(moxi::ARITY, q)),
        Some(_) => None,
    }
}

// Whether each of the bound values has a sort.
fn have_sorts(locals: &List<Local>) -> bool
    ensures { result ≡ list_all has_sort locals.now }
{
    for local in locals {
        if local.sort.is_none() {
            return false;
        }
    }
    true
}

// The sort of a `let` whose body has this sort.
fn let_sort(locals: &List<Local>, sort: Option<Sort>) -> Option<Sort>
    ensures { result ≡ let_sort locals.now sort }
{
    if have_sorts(locals) { sort } else { None }
}

/// Builds a `let` with these bindings and this body.
///
/// `failure` is the failing test of its form. The `let` has a sort if its form passes, and each bound value and the body
/// have one.
pub fn let_term(
    alloc: Global,
    failure: Option<Refusal>,
    bindings: ReadBindings,
    r: ReadTerm,
) -> Result<ReadTerm, NoMemory>
    ensures { IfOk result (λ t. (x : Bindings) (y : Reading) (fs : List Refusal) → failure ≡ least fs → AreBound x bindings → IsRead y r → IsRead (let_reading fs x y) t) }
{
    let shape = minimum(failure, bindings.shape);
    let sort = let_sort(&bindings.locals, r.sort);
    let held = Box::new(alloc, r.term)?;
    Ok(ReadTerm {
        term: Term::Let(bindings.names, bindings.terms, held),
        sort: unless_failed(shape, sort),
        failure: minimum(shape, minimum(bindings.failure, r.failure)),
    })
}

/// Adds a misshapen binding, which binds nothing.
pub fn misshapen(p: Place, all: &mut ReadBindings)
    ensures { (x : Bindings) → AreBound x all.old → AreBound (both_bindings x (misshapen p)) all.new }
{
    all.shape = minimum(all.shape, Some(refusal(moxi::ARITY, p)));
}

/// Adds the binding of a name, given the failing test of the name's prime.
pub fn bind_to(
    alloc: Global,
    name: &[u8],
    primes: Option<Refusal>,
    r: ReadTerm,
    all: &mut ReadBindings,
) -> Result<(), NoMemory>
    ensures { OnOk result ((x : Bindings) (y : Reading) (fs : List Refusal) → primes ≡ least fs → AreBound x all.old → IsRead y r → AreBound (both_bindings x (bound_to name.now fs y)) all.new) }
{
    all.names.push(Name::of(alloc, name)?)?;
    all.locals.push(Local {
        name: Name::of(alloc, name)?,
        sort: r.sort,
    })?;
    put(&mut all.terms, r.term)?;
    all.shape = minimum(all.shape, primes);
    all.failure = minimum(all.failure, r.failure);
    Ok(())
}
