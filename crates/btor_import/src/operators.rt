// Applications of MoXI's operators.
ghost use Rattle.std.specs.Prelude.{◌≡◌, ◌^◌, ◌-◌, IfOk, map};
ghost use Rattle.word_core.specs.Words.{IsWord};
ghost use Rattle.moxi_terms.specs.Tree.{apply};
ghost use Rattle.moxi_terms.specs.View.{plain};
ghost use Rattle.btor_import.specs.Operators.{falsity_term, is_one, not_term, truth_term, word_term};
ghost use Rattle.moxi_terms.specs.Applications.{one, two, equal_term, choice_term, all_term};

use moxi_terms::{Datum, Term, TermOp, Terms};
use std::alloc::Global;
use text_core::NoMemory;
use word_core::{Binary, Unary, Word, unary};

/// Applies an operator to one term.
pub(crate) fn apply_one(alloc: Global, op: TermOp, a: Term) -> Result<Term, NoMemory>
    ensures { IfOk result (λ t. plain t ≡ apply op (one (plain a))) }
{
    let mut terms = Vec::with_capacity(alloc, 1)?;
    terms.push_reserved(a);
    Ok(Term::Apply(op, terms))
}

/// Applies an operator to two terms.
pub(crate) fn apply_two(alloc: Global, op: TermOp, a: Term, b: Term) -> Result<Term, NoMemory>
    ensures { IfOk result (λ t. plain t ≡ apply op (two (plain a) (plain b))) }
{
    let mut terms = Vec::with_capacity(alloc, 2)?;
    terms.push_reserved(a);
    terms.push_reserved(b);
    Ok(Term::Apply(op, terms))
}

/// Builds the term that is `a` where the formula `c` is true, else `b`.
pub(crate) fn choice(alloc: Global, c: Term, a: Term, b: Term) -> Result<Term, NoMemory>
    ensures { IfOk result (λ t. plain t ≡ choice_term (plain c) (plain a) (plain b)) }
{
    let mut terms = Vec::with_capacity(alloc, 3)?;
    terms.push_reserved(c);
    terms.push_reserved(a);
    terms.push_reserved(b);
    Ok(Term::Apply(TermOp::Ite, terms))
}

/// Builds the bitwise not of a word.
pub(crate) fn negated(alloc: Global, a: Term) -> Result<Term, NoMemory>
    ensures { IfOk result (λ t. plain t ≡ not_term (plain a)) }
{
    apply_one(alloc, TermOp::BvUnary(Unary::Not), a)
}

/// Builds the formula that two terms are equal.
pub(crate) fn equal(alloc: Global, a: Term, b: Term) -> Result<Term, NoMemory>
    ensures { IfOk result (λ t. plain t ≡ equal_term (plain a) (plain b)) }
{
    apply_two(alloc, TermOp::Equal, a, b)
}

// Returns the word of this width and number.
fn word(width: u32, bits: u128) -> Word
    requires { IsWord (record { width = width; bits = bits }) }
    ensures { result ≡ record { width = width; bits = bits } }
{
    match Word::of(width, bits) {
        Some(w) => w,
        None => unreachable!(),
    }
}

/// Builds a word of this width.
pub(crate) fn word_term(width: u32, bits: u128) -> Term
    requires { IsWord (record { width = width; bits = bits }) }
    ensures { plain result ≡ word_term width bits }
{
    Term::Constant(Datum::Bits(word(width, bits)))
}

/// Builds the word of this width whose bits are all 1.
pub(crate) fn ones_term(width: u32) -> Term
    requires { IsWord (record { width = width; bits = 0 }) }
    ensures { plain result ≡ word_term width (2 ^ width - 1) }
{
    let zeros = word(width, 0);
    Term::Constant(Datum::Bits(unary(Unary::Not, zeros)))
}

/// Builds one bit that is 1 where the formula is true.
pub(crate) fn truth_term(alloc: Global, q: Term) -> Result<Term, NoMemory>
    ensures { IfOk result (λ t. plain t ≡ truth_term (plain q)) }
{
    let one = word_term(1, 1);
    let zero = word_term(1, 0);
    choice(alloc, q, one, zero)
}

/// Builds one bit that is 1 where the formula is false.
pub(crate) fn falsity_term(alloc: Global, q: Term) -> Result<Term, NoMemory>
    ensures { IfOk result (λ t. plain t ≡ falsity_term (plain q)) }
{
    let zero = word_term(1, 0);
    let one = word_term(1, 1);
    choice(alloc, q, zero, one)
}

/// Builds the formula that a word of one bit is 1.
pub(crate) fn is_one(alloc: Global, a: Term) -> Result<Term, NoMemory>
    ensures { IfOk result (λ t. plain t ≡ is_one (plain a)) }
{
    let one = word_term(1, 1);
    equal(alloc, a, one)
}

/// Joins formulas: no formula is true, and a single one is itself.
pub(crate) fn all_term(terms: Terms) -> Term
    ensures { plain result ≡ all_term (map plain terms.items) }
{
    let mut terms = terms;
    if terms.len() > 1 {
        return Term::Apply(TermOp::And, terms);
    }
    match terms.pop() {
        Some(a) => a,
        None => Term::Constant(Datum::Truth(true)),
    }
}
