// The parts of chains and cases, and the terms that combine them.
ghost use Rattle.std.specs.Prelude.{◌≡◌, ◌∷◌, [], IfOk, map};
ghost use Rattle.word_core.specs.Words.{IsWord};
ghost use Rattle.moxi_terms.specs.Tree.{binding, trees_of};
ghost use Rattle.moxi_terms.specs.View.{plain};
ghost use Rattle.smv_flat.specs.FlatView.{plain_flat};
ghost use Rattle.smv_script.specs.Operators.{front_width, t_alone, infix_term, word_term};
ghost use Rattle.smv_script.specs.Ranges.{joined_excess, shift_excess};
ghost use Rattle.smv_script.specs.Terms.{is_word, word_width, amount_of};
ghost use Rattle.smv_script_terms.specs.Operands.{operand_plain, case_plain, implied_parts, joined_term, chosen_cases};
ghost use Rattle.moxi_terms.specs.Applications.{one};

use crate::constants::word_term;
use crate::operators::{choice, implication, infix};
use moxi_terms::{Term, Terms};
use smv_flat::{FlatExpr, FlatShape};
use smv_intervals::Ty;
use smv_text::Infix;
use std::alloc::Global;
use text_core::{Name, Names, NoMemory};

/// An operand of a chain of `->`: whether it is a word, and its term.
#[derive(Drop)]
pub(crate) struct Operand {
    pub(crate) words: bool,
    pub(crate) term: Term,
}

/// A condition, and the term that applies where it is true.
#[derive(Drop)]
pub(crate) struct Case {
    pub(crate) when: Term,
    pub(crate) value: Term,
}

/// Returns whether the expression is a word.
pub(crate) fn is_word(e: &FlatExpr) -> bool
    ensures { result ≡ is_word (plain_flat e.now) }
{
    match e.ty {
        Some(Ty::Bits(_)) => true,
        Some(Ty::Truth | Ty::Integer(_, _) | Ty::Symbol) | None => false,
    }
}

/// Returns the width of a word, or 0 for any other expression.
pub(crate) fn word_width(e: &FlatExpr) -> u32
    ensures { result ≡ word_width (plain_flat e.now) }
{
    match e.ty {
        Some(Ty::Bits(n)) => n,
        Some(Ty::Truth | Ty::Integer(_, _) | Ty::Symbol) | None => 0,
    }
}

/// Returns the value of a written number, or 0 for any other expression.
pub(crate) fn amount_of(e: &FlatExpr) -> u64
    ensures { result ≡ amount_of (plain_flat e.now) }
{
    match &e.shape {
        FlatShape::Number(n) => *n,
        _ => 0,
    }
}

/// Returns the term of a chain of `->`, which is right-associative.
pub(crate) fn implied(alloc: Global, first: Term, operands: Vec<Operand>) -> Result<Term, NoMemory>
    ensures { IfOk result (λ t. plain t ≡ implied_parts (plain first) (map operand_plain operands.items)) }
{
    let mut operands = operands;
    let Some(last) = operands.pop() else {
        return Ok(first);
    };
    let mut words = last.words;
    let mut whole = last.term;
    'operands: while let Some(operand) = operands.pop() {
        whole = implication(alloc, words, operand.term, whole)?;
        words = operand.words;
    }
    implication(alloc, words, first, whole)
}

/// Returns the term of the first case whose condition is true, or else the last term.
pub(crate) fn chosen(alloc: Global, cases: Vec<Case>, last: Term) -> Result<Term, NoMemory>
    ensures { IfOk result (λ t. plain t ≡ chosen_cases (map case_plain cases.items) (plain last)) }
{
    let mut cases = cases;
    let mut whole = last;
    'cases: while let Some(case) = cases.pop() {
        whole = choice(alloc, case.when, case.value, whole)?;
    }
    Ok(whole)
}

/// Returns the width of a word chain's prefix that ends with an operand, given the widths of the part before and of the
/// operand.
pub(crate) fn front_width(op: Infix, before: u32, operand: u32) -> u32
    requires { joined_excess op before operand ≡ 0 }
    ensures { result ≡ front_width op before operand }
{
    match op {
        Infix::Concat => before + operand,
        _ => before,
    }
}

/// Returns the term of a `let` that binds these values to these names in `body`.
pub(crate) fn bound_in(
    alloc: Global,
    names: Names,
    values: Terms,
    body: Term,
) -> Result<Term, NoMemory>
    ensures { IfOk result (λ t. plain t ≡ binding names (trees_of (map plain values.items)) (plain body)) }
{
    let held = Box::new(alloc, body)?;
    Ok(Term::Let(names, values, held))
}

// A list of one term.
fn alone(alloc: Global, a: Term) -> Result<Terms, NoMemory>
    ensures { IfOk result (λ ts. ts.items ≡ a ∷ []) }
{
    let mut terms = Vec::with_capacity(alloc, 1)?;
    terms.push_reserved(a);
    Ok(terms)
}

// The name of the only value that a `let` binds.
fn only_name(alloc: Global) -> Result<Names, NoMemory>
    ensures { IfOk result (λ ns. ns ≡ t_alone) }
{
    Ok(Names::one(alloc, Name::of(alloc, b"t")?))
}

/// Returns the term of a `let` that binds `value` in `body`.
pub(crate) fn bound_to(alloc: Global, value: Term, body: Term) -> Result<Term, NoMemory>
    ensures { IfOk result (λ t. plain t ≡ binding t_alone (one (plain value)) (plain body)) }
{
    let values = alone(alloc, value)?;
    let names = only_name(alloc)?;
    bound_in(alloc, names, values, body)
}

fn shifted(
    alloc: Global,
    op: Infix,
    words: bool,
    width: u32,
    whole: Term,
    amount: u64,
) -> Result<Term, NoMemory>
    requires { IsWord (record { width = width; bits = amount }) }
    ensures { IfOk result (λ t. plain t ≡ infix_term op words (plain whole) (word_term width amount)) }
{
    infix(alloc, op, words, whole, word_term(width, amount as u128))
}

/// Returns the term of a chain's prefix with the next operator and operand applied.
///
/// `whole` is the term of the prefix and `width` its width, and `term` is the operand's term. For `in` after a name,
/// the operand's term already includes the name.
pub(crate) fn joined(
    alloc: Global,
    op: Infix,
    named: bool,
    width: u32,
    whole: Term,
    operand: &FlatExpr,
    term: Term,
) -> Result<Term, NoMemory>
    requires { shift_excess op width (amount_of (plain_flat operand.now)) ≡ 0 }
    ensures { IfOk result (λ t. plain t ≡ joined_term op named (is_word (plain_flat operand.now)) width (amount_of (plain_flat operand.now)) (plain whole) (plain term)) }
{
    let words = is_word(operand);
    match op {
        Infix::Member => {
            if named {
                Ok(term)
            } else {
                bound_to(alloc, whole, term)
            }
        }
        Infix::ShiftLeft | Infix::ShiftRight => {
            shifted(alloc, op, words, width, whole, amount_of(operand))
        }
        _ => infix(alloc, op, words, whole, term),
    }
}
