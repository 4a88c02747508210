// Formulas of systems and checks.
ghost use Rattle.std.specs.Prelude.{◌≡◌, ◌<◌, ◌^◌, IfOk, IfSome, OnOk};
ghost use Rattle.moxi_sexpr.specs.Tree.{nodes, plain as plain_form};
ghost use Rattle.moxi_terms.specs.View.{plain};
ghost use Rattle.moxi_attributes.specs.Views.{value_now};
ghost use Rattle.moxi_scripts.specs.Collecting.{also};
ghost use Rattle.moxi_scripts.specs.Formulas.{formula_failures, formula_term, term_failures, term_of, true_term};

use crate::collect::note;
use crate::entries::test_clash;
use crate::shapes::place_of;
use moxi_sexpr::Form;
use moxi_term_reading::{Locals, read_term};
use moxi_terms::{Datum, Primes, Scope, Sort, Term};
use std::alloc::Global;
use text_core::{NoMemory, Refusal};

/// Returns the term `true`, which is the default of a missing formula.
pub fn true_term() -> Term
    ensures { plain result ≡ true_term }
{
    Term::Constant(Datum::Truth(true))
}

/// Reads a formula, and tests that it is a truth value.
pub fn read_truth(
    alloc: Global,
    scope: &Scope,
    locals: &Locals,
    primes: Primes,
    form: &Form,
    found: &mut Option<Refusal>,
) -> Result<Term, NoMemory>
    requires few { nodes (plain_form form.now) < 2 ^ 32 }
    ensures term { IfOk result (λ t. plain t ≡ term_of scope.now locals.now primes (plain_form form.now)) }
    ensures finds { OnOk result (found.new ≡ also found.old (term_failures scope.now locals.now primes (plain_form form.now))) }
{
    let r = read_term(alloc, scope, locals, form, primes)?;
    note(found, r.failure);
    test_clash(found, Some(Sort::Truth), r.sort, place_of(form));
    Ok(r.term)
}

/// Reads a formula that may be missing.
#[tactic(auto, using(crate::specs::laws::Collecting::also_none))]
pub fn read_formula(
    alloc: Global,
    scope: &Scope,
    locals: &Locals,
    primes: Primes,
    value: Option<&Form>,
    found: &mut Option<Refusal>,
) -> Result<Term, NoMemory>
    requires few { IfSome (value_now value) (λ t. nodes t < 2 ^ 32) }
    ensures term { IfOk result (λ t. plain t ≡ formula_term scope.now locals.now primes (value_now value.entry)) }
    ensures finds { OnOk result (found.new ≡ also found.old (formula_failures scope.now locals.now primes (value_now value.entry))) }
{
    match value {
        None => Ok(true_term()),
        Some(form) => {
            let term = read_truth(alloc, scope, locals, primes, form, found)?;
            Ok(term)
        }
    }
}
