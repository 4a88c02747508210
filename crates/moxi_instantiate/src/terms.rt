// Sizes and heights of terms.
ghost use Rattle.std.specs.Prelude.{◌≡◌, ◌≤◌, map};
ghost use Rattle.moxi_terms.specs.Tree.{trees_of};
ghost use Rattle.moxi_terms.specs.View.{plain};
ghost use Rattle.moxi_flat.specs.Terms.{operator_size, term_height, term_size, terms_height, terms_size};
ghost use Rattle.moxi_instantiate.specs.Counting.{capped, known};

use crate::counts::{MOST, greater, known, neighbours, pairs, sum};
use moxi_terms::{Term, TermOp};

fn operator_size(op: TermOp, n: usize) -> u64
    ensures value { result ≡ capped (operator_size op n) }
    ensures bound { result ≤ MOST }
{
    match op {
        TermOp::Equal => neighbours(n),
        TermOp::Distinct => pairs(n),
        TermOp::Not
        | TermOp::And
        | TermOp::Or
        | TermOp::Xor
        | TermOp::Implies
        | TermOp::Ite
        | TermOp::Concat
        | TermOp::Extract(_, _)
        | TermOp::ZeroExtend(_)
        | TermOp::SignExtend(_)
        | TermOp::BvUnary(_)
        | TermOp::BvBinary(_) => 1,
    }
}

/// Returns the size of a term with its calls expanded, given the sizes of the functions' bodies.
///
/// It is `MOST` where the size is greater.
#[cycle(size)]
#[tactic(auto, using(crate::proofs::Capping::cap_sum))]
pub fn term_size(sizes: &[u64], term: &Term) -> u64
    ensures value { result ≡ capped (term_size (known sizes.now) (plain term.now)) }
    ensures bound { result ≤ MOST }
{
    match term {
        Term::Constant(_) | Term::Variable(_, _) | Term::Bound(_) => 1,
        Term::Apply(op, terms) => sum(operator_size(*op, terms.len()), terms_size(sizes, terms)),
        Term::Let(_, terms, body) => sum(1, sum(terms_size(sizes, terms), term_size(sizes, body))),
        Term::Call(n, terms) => sum(1, sum(terms_size(sizes, terms), known(sizes, *n))),
    }
}

#[cycle(size)]
fn terms_size(sizes: &[u64], terms: &[Term]) -> u64
    ensures value { result ≡ capped (terms_size (known sizes.now) (trees_of (map plain terms.now))) }
    ensures bound { result ≤ MOST }
{
    let mut size = 0;
    for term in terms {
        size = sum(size, term_size(sizes, term));
    }
    size
}

/// Returns the height of a term with its calls expanded, given the heights of the functions' bodies.
///
/// It is `MOST` where the height is greater.
#[cycle(height)]
#[tactic(auto, using(crate::proofs::Capping::cap_max))]
pub fn term_height(heights: &[u64], term: &Term) -> u64
    ensures value { result ≡ capped (term_height (known heights.now) (plain term.now)) }
    ensures bound { result ≤ MOST }
{
    match term {
        Term::Constant(_) | Term::Variable(_, _) | Term::Bound(_) => 1,
        Term::Apply(_, terms) => sum(1, terms_height(heights, terms)),
        Term::Let(_, terms, body) => sum(
            1,
            greater(terms_height(heights, terms), term_height(heights, body)),
        ),
        Term::Call(n, terms) => sum(1, greater(terms_height(heights, terms), known(heights, *n))),
    }
}

#[cycle(height)]
fn terms_height(heights: &[u64], terms: &[Term]) -> u64
    ensures value { result ≡ capped (terms_height (known heights.now) (trees_of (map plain terms.now))) }
    ensures bound { result ≤ MOST }
{
    let mut height = 0;
    for term in terms {
        height = greater(height, term_height(heights, term));
    }
    height
}
