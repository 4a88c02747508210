// The terms of functions and of bit selections.
ghost use Rattle.std.specs.Prelude.{◌≡◌, ◌<◌, ◌≤◌, ◌+◌, ◌^◌, IfOk, map, option_map};
ghost use Rattle.word_core.specs.Words.{IsWord};
ghost use Rattle.moxi_terms.specs.Tree.{binding, trees_of};
ghost use Rattle.moxi_terms.specs.View.{plain};
ghost use Rattle.smv_flat.specs.FlatTree.{flat_trees_of};
ghost use Rattle.smv_flat.specs.FlatView.{plain_flat};
ghost use Rattle.smv_script.specs.Operators.{between_term, counted_term, counted_terms, extended_term, function_term, resized_term, selected_term, sum_term, t_alone, t_and_u, word_term};
ghost use Rattle.smv_script.specs.Ranges.{call_excess};
ghost use Rattle.smv_script.specs.Terms.{arguments_of, second_of};
ghost use Rattle.smv_script_terms.specs.Functions.{arguments_plain, first_term, first_tree, magnitude_term, only_term, only_tree, pair_body, pair_term};
ghost use Rattle.smv_script_terms.specs.Questions.{subject_tree};
ghost use Rattle.moxi_terms.specs.Applications.{one, equal_term, choice_term};

use crate::coding::Subject;
use crate::constants::{integer_term, subject_term, word_term};
use crate::operands::{amount_of, bound_in, bound_to, word_width};
use crate::operators::{apply_one, apply_two, choice, nothing, several};
use moxi_terms::{Term, TermOp, Terms};
use smv_flat::FlatExpr;
use smv_text::Function;
use std::alloc::Global;
use text_core::{Name, Names, NoMemory};
use word_core::{Binary, Unary};

/// The facts about a function's arguments that their terms do not have: the width of the first, and the first two as
/// numbers.
#[derive(Clone, Copy)]
pub(crate) struct Arguments {
    width: u32,
    first: u64,
    second: u64,
}

fn second_of(arguments: &[FlatExpr]) -> u64
    ensures { result ≡ second_of (flat_trees_of (map plain_flat arguments.now)) }
{
    match arguments.first() {
        None => 0,
        Some(e) => amount_of(e),
    }
}

pub(crate) fn arguments_of(arguments: &[FlatExpr]) -> Arguments
    ensures { arguments_plain result ≡ arguments_of (flat_trees_of (map plain_flat arguments.now)) }
{
    match arguments.split_first() {
        None => Arguments {
            width: 0,
            first: 0,
            second: 0,
        },
        Some((e, more)) => Arguments {
            width: word_width(e),
            first: amount_of(e),
            second: second_of(more),
        },
    }
}

// The word with n leading zeros added.
fn extended(alloc: Global, n: u32, a: Term) -> Result<Term, NoMemory>
    ensures { IfOk result (λ t. plain t ≡ extended_term n (plain a)) }
{
    if n == 0 {
        Ok(a)
    } else {
        apply_one(alloc, TermOp::ZeroExtend(n), a)
    }
}

/// Returns the term of the bits from `high` down to `low` of a word of this width.
pub(crate) fn selected(
    alloc: Global,
    width: u32,
    high: u64,
    low: u64,
    a: Term,
) -> Result<Term, NoMemory>
    requires high { high < 2 ^ 32 }
    requires low { low < 2 ^ 32 }
    ensures { IfOk result (λ t. plain t ≡ selected_term width high low (plain a)) }
{
    if low == 0 && width > 0 && high == width as u64 - 1 {
        Ok(a)
    } else {
        apply_one(alloc, TermOp::Extract(high as u32, low as u32), a)
    }
}

// The word of this width, resized to width n.
fn resized(alloc: Global, width: u32, n: u32, a: Term) -> Result<Term, NoMemory>
    ensures { IfOk result (λ t. plain t ≡ resized_term width n (plain a)) }
{
    if n < width {
        apply_one(alloc, TermOp::Extract(n.saturating_sub(1), 0), a)
    } else {
        extended(alloc, n - width, a)
    }
}

// 1 where the term is true, or else 0.
fn counted_term(alloc: Global, width: u32, a: Term) -> Result<Term, NoMemory>
    requires some { 1 ≤ width }
    requires low { width ≤ 64 }
    ensures { IfOk result (λ t. plain t ≡ counted_term width (plain a)) }
{
    let one = integer_term(width, 1);
    let zero = integer_term(width, 0);
    choice(alloc, a, one, zero)
}

fn counted_terms(alloc: Global, width: u32, terms: Terms) -> Result<Terms, NoMemory>
    requires some { 1 ≤ width }
    requires low { width ≤ 64 }
    ensures { IfOk result (λ ts. map plain ts.items ≡ map (counted_term width) (map plain terms.items)) }
{
    let mut terms = terms;
    terms.reverse();
    let mut all = Vec::with_capacity(alloc, terms.len())?;
    'terms: while let Some(a) = terms.pop() {
        let t = counted_term(alloc, width, a)?;
        all.push(t)?;
    }
    Ok(all)
}

fn counted(alloc: Global, width: u32, terms: Terms) -> Result<Term, NoMemory>
    requires some { 1 ≤ width }
    requires low { width ≤ 64 }
    ensures { IfOk result (λ t. plain t ≡ sum_term (counted_terms width (trees_of (map plain terms.items)))) }
{
    let all = counted_terms(alloc, width, terms)?;
    Ok(several(TermOp::BvBinary(Binary::Add), false, all))
}

// The first term, if there is one.
fn first_of(terms: Terms) -> Option<Term>
    ensures { option_map plain result ≡ first_tree (trees_of (map plain terms.items)) }
{
    let mut terms = terms;
    terms.truncate(1);
    terms.pop()
}

// The only term, if there is exactly one.
fn only_of(terms: Terms) -> Option<Term>
    ensures { option_map plain result ≡ only_tree (trees_of (map plain terms.items)) }
{
    let mut terms = terms;
    if terms.len() == 1 { terms.pop() } else { None }
}

// The lesser or the greater of the bound names k and k + 1.
fn pair_body(alloc: Global, k: u32, lesser: bool) -> Result<Term, NoMemory>
    requires bound { k + 1 < 2 ^ 32 }
    ensures { IfOk result (λ t. plain t ≡ pair_body k lesser) }
{
    let next = k + 1;
    let slt = TermOp::BvBinary(Binary::Slt);
    let below = apply_two(alloc, slt, Term::Bound(k), Term::Bound(next))?;
    let (a, b) = if lesser { (k, next) } else { (next, k) };
    choice(alloc, below, Term::Bound(a), Term::Bound(b))
}

// The names of two values that a `let` binds.
fn two_names(alloc: Global) -> Result<Names, NoMemory>
    ensures { IfOk result (λ ns. ns ≡ t_and_u) }
{
    let mut names = Names::one(alloc, Name::of(alloc, b"t")?);
    names.push(Name::of(alloc, b"u")?)?;
    Ok(names)
}

// The lesser or the greater of two operands, which are bound by a `let`.
fn bound_pair(alloc: Global, k: u32, lesser: bool, terms: Terms) -> Result<Term, NoMemory>
    requires bound { k + 1 < 2 ^ 32 }
    ensures { IfOk result (λ t. plain t ≡ binding t_and_u (trees_of (map plain terms.items)) (pair_body k lesser)) }
{
    let body = pair_body(alloc, k, lesser)?;
    let names = two_names(alloc)?;
    bound_in(alloc, names, terms, body)
}

// A word of one bit as a truth value.
fn truth_of(alloc: Global, a: Term) -> Result<Term, NoMemory>
    ensures { IfOk result (λ t. plain t ≡ equal_term (plain a) (word_term 1 1)) }
{
    apply_two(alloc, TermOp::Equal, a, word_term(1, 1))
}

// A truth value as a word of one bit.
fn bit_of(alloc: Global, a: Term) -> Result<Term, NoMemory>
    ensures { IfOk result (λ t. plain t ≡ choice_term (plain a) (word_term 1 1) (word_term 1 0)) }
{
    choice(alloc, a, word_term(1, 1), word_term(1, 0))
}

// The absolute value of the bound name k, an integer.
fn magnitude_term(alloc: Global, width: u32, k: u32) -> Result<Term, NoMemory>
    requires some { 1 ≤ width }
    requires low { width ≤ 64 }
    ensures { IfOk result (λ t. plain t ≡ magnitude_term width k) }
{
    let slt = TermOp::BvBinary(Binary::Slt);
    let below = apply_two(alloc, slt, Term::Bound(k), integer_term(width, 0))?;
    let opposite = apply_one(alloc, TermOp::BvUnary(Unary::Neg), Term::Bound(k))?;
    choice(alloc, below, opposite, Term::Bound(k))
}

// The absolute value of an integer.
fn magnitude(alloc: Global, width: u32, k: u32, a: Term) -> Result<Term, NoMemory>
    requires some { 1 ≤ width }
    requires low { width ≤ 64 }
    ensures { IfOk result (λ t. plain t ≡ binding t_alone (one (plain a)) (magnitude_term width k)) }
{
    let body = magnitude_term(alloc, width, k)?;
    bound_to(alloc, a, body)
}

// The word of `uwconst`.
fn constant(arguments: Arguments) -> Term
    requires { IsWord (record { width = arguments.second; bits = arguments.first }) }
    ensures { plain result ≡ word_term arguments.second arguments.first }
{
    word_term(arguments.second as u32, arguments.first as u128)
}

// A function of exactly one argument, given the argument's term.
fn of_only(
    alloc: Global,
    width: u32,
    k: u32,
    function: Function,
    before: u32,
    a: Term,
) -> Result<Term, NoMemory>
    requires some { 1 ≤ width }
    requires low { width ≤ 64 }
    ensures { IfOk result (λ t. plain t ≡ only_term width k function before (plain a)) }
{
    match function {
        Function::Bool => truth_of(alloc, a),
        Function::Word1 => bit_of(alloc, a),
        Function::Toint => extended(alloc, width.saturating_sub(before), a),
        Function::Abs => magnitude(alloc, width, k, a),
        _ => Ok(nothing()),
    }
}

// A function that needs only the term of its first argument.
fn of_first(
    alloc: Global,
    function: Function,
    before: u32,
    n: u64,
    a: Term,
) -> Result<Term, NoMemory>
    requires { n < 2 ^ 32 }
    ensures { IfOk result (λ t. plain t ≡ first_term function before n (plain a)) }
{
    let n = n as u32;
    match function {
        Function::Extend => extended(alloc, n, a),
        Function::Resize => resized(alloc, before, n, a),
        _ => Ok(nothing()),
    }
}

fn of_pair(alloc: Global, k: u32, lesser: bool, terms: Terms) -> Result<Term, NoMemory>
    requires bound { k + 1 < 2 ^ 32 }
    ensures { IfOk result (λ t. plain t ≡ pair_term k lesser (trees_of (map plain terms.items))) }
{
    if terms.len() == 2 {
        bound_pair(alloc, k, lesser, terms)
    } else {
        Ok(nothing())
    }
}

/// Returns the term of a function.
///
/// `width` is that of integers, `k` is the number of enclosing bound names, and `terms` are the terms of the arguments.
pub(crate) fn function_term(
    alloc: Global,
    width: u32,
    k: u32,
    function: Function,
    arguments: Arguments,
    terms: Terms,
) -> Result<Term, NoMemory>
    requires some { 1 ≤ width }
    requires low { width ≤ 64 }
    requires bound { k + 1 < 2 ^ 32 }
    requires in_range { call_excess function (arguments_plain arguments) ≡ 0 }
    ensures { IfOk result (λ t. plain t ≡ function_term width k function (arguments_plain arguments) (trees_of (map plain terms.items))) }
{
    match function {
        Function::Bool | Function::Word1 | Function::Toint | Function::Abs => {
            match only_of(terms) {
                Some(a) => of_only(alloc, width, k, function, arguments.width, a),
                None => Ok(nothing()),
            }
        }
        Function::Uwconst => Ok(constant(arguments)),
        Function::Extend | Function::Resize => match first_of(terms) {
            Some(a) => of_first(alloc, function, arguments.width, arguments.second, a),
            None => Ok(nothing()),
        },
        Function::Count => counted(alloc, width, terms),
        Function::Max => of_pair(alloc, k, false, terms),
        Function::Min => of_pair(alloc, k, true, terms),
    }
}

/// Returns the term of the test that a term is between two integers, including both.
pub(crate) fn between(
    alloc: Global,
    width: u32,
    low: i64,
    high: i64,
    subject: Subject,
) -> Result<Term, NoMemory>
    requires some { 1 ≤ width }
    requires small { width ≤ 64 }
    ensures { IfOk result (λ t. plain t ≡ between_term width low high (subject_tree subject)) }
{
    let least = integer_term(width, low as i128);
    let most = integer_term(width, high as i128);
    let op = TermOp::BvBinary(Binary::Slte);
    let above = apply_two(alloc, op, least, subject_term(subject))?;
    let below = apply_two(alloc, op, subject_term(subject), most)?;
    apply_two(alloc, TermOp::And, above, below)
}
