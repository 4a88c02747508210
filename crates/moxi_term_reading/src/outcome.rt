// The result of reading a form.
ghost use Rattle.std.specs.Prelude.{◌≡◌, List};
ghost use Rattle.text_core.specs.declared.place.Refusal.{Refusal};
ghost use Rattle.moxi_term_reading.specs.Answer.{IsRead, unless_some};
ghost use Rattle.moxi_term_reading.specs.Failures.{least};
ghost use Rattle.moxi_term_reading.specs.Reading.{failed, no_term, checked_term};
ghost use Rattle.moxi_terms.specs.View.{plain};

use crate::locals::Locals;
use moxi_terms::{Datum, Primes, Scope, Sort, Term};
use text_core::Refusal;

/// The result of reading a form: a term, its sort if it has one, and the failing test with the least place and
/// number.
///
/// Where a test fails, the term is meaningless.
#[derive(Drop)]
pub struct ReadTerm {
    pub term: Term,
    pub sort: Option<Sort>,
    pub failure: Option<Refusal>,
}

/// The context of a term: the scope, the variables, and whether they may be primed.
#[derive(Clone, Copy)]
pub struct Setting<'a> {
    pub scope: &'a Scope,
    pub locals: &'a Locals,
    pub primes: Primes,
}

/// Returns the placeholder where no term is spelled.
pub fn no_term() -> Term
    ensures { plain result ≡ no_term }
{
    Term::Constant(Datum::Truth(false))
}

/// Returns the result of a form that fails this test.
pub fn failed(f: Refusal) -> ReadTerm
    ensures { IsRead (failed f) result }
{
    ReadTerm {
        term: no_term(),
        sort: None,
        failure: Some(f),
    }
}

/// Returns the sort if no test failed.
pub fn unless_failed(failure: Option<Refusal>, sort: Option<Sort>) -> Option<Sort>
    ensures { result ≡ unless_some failure sort }
{
    match failure {
        None => sort,
        Some(_) => None,
    }
}

/// Returns the result of a term, with its sort if no test fails.
pub fn checked_term(term: Term, sort: Option<Sort>, failure: Option<Refusal>) -> ReadTerm
    ensures { (fs : List Refusal) → failure ≡ least fs → IsRead (checked_term (plain term) sort fs) result }
{
    ReadTerm {
        term,
        sort: unless_failed(failure, sort),
        failure,
    }
}
