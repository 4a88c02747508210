// The terms of expressions.
ghost use Rattle.std.specs.Prelude.{◌≡◌, ◌<◌, ◌+◌, ◌^◌, suc, max, IfOk, map};
ghost use Rattle.moxi_terms.specs.Tree.{trees_of};
ghost use Rattle.moxi_terms.specs.View.{plain};
ghost use Rattle.smv_flat.specs.FlatTree.{flat_links_of, flat_branches_of, flat_trees_of};
ghost use Rattle.smv_flat.specs.FlatView.{plain_flat, plain_flat_link, plain_flat_branch};
ghost use Rattle.smv_script.specs.Operators.{repeated, sign_op};
ghost use Rattle.smv_script.specs.Ranges.{branches_excess, call_excess, excess, fronts_excess, links_excess, trees_excess};
ghost use Rattle.smv_script.specs.Terms.{arguments_of, is_word, taken_translation, translation, word_width};
ghost use Rattle.smv_script_terms.specs.Depths.{depth, links_depth, branches_depth, trees_depth};
ghost use Rattle.smv_script_terms.specs.Questions.{answered, codes_of};
ghost use Rattle.smv_script_terms.specs.Operands.{answers, behind_term, case_plain, cases_of, chain_answers, operand_plain, operands_of};
ghost use Rattle.smv_script_terms.specs.Readings.{called_term, chain_answered, folded_answer, gathered_answer, named_subject, ranged_answer, united_answer};

use crate::coding::{Coding, Question, Subject};
use crate::constants::integer_term;
use crate::functions::{arguments_of, between, function_term, selected};
use crate::operands::{Case, Operand, chosen, front_width, implied, is_word, joined, word_width};
use crate::operators::{
    answer, answer_constant, answer_variable, infix_operator, nothing, repeated, several,
    sign_operator,
};
use crate::readings::{Reading, reading_of};
use moxi_terms::{Datum, Term, TermOp, Terms};
use smv_flat::{FlatBranch, FlatExpr, FlatLink, FlatShape};
use smv_text::{Function, Infix, Prefix};
use std::alloc::Global;
use text_core::NoMemory;

/// Returns the term of an expression, or that of the test whether the expression permits the value of another term.
///
/// `k` is the number of enclosing bound names.
#[inline(never)]
#[cycle(terms)]
pub fn terms_of(
    alloc: Global,
    coding: &Coding,
    k: u32,
    question: Question,
    e: &FlatExpr,
) -> Result<Term, NoMemory>
    requires deep { k + depth 0 (plain_flat e.now) < 2 ^ 32 }
    requires in_range { excess (plain_flat e.now) ≡ 0 }
    ensures { IfOk result (λ t. plain t ≡ answered question (translation (codes_of coding.now) (plain_flat e.now)) k) }
{
    match &e.shape {
        FlatShape::True => answer_constant(alloc, question, Datum::Truth(true)),
        FlatShape::False => answer_constant(alloc, question, Datum::Truth(false)),
        FlatShape::Number(n) => answer(alloc, question, integer_term(coding.width, *n as i128)),
        FlatShape::Literal(word) => answer_constant(alloc, question, Datum::Bits(*word)),
        FlatShape::Symbol(s) => answer_constant(alloc, question, Datum::Constant(0, *s)),
        FlatShape::Item(i, under) => answer_variable(alloc, question, coding.place(*i), *under),
        FlatShape::Prefix(sign, count, operand) => {
            let value = prefixed(alloc, coding, k, *sign, *count, operand)?;
            answer(alloc, question, value)
        }
        FlatShape::Chain(first, links) => chained(alloc, coding, k, question, first, links),
        FlatShape::Choice(branches, last) => {
            let whole = terms_of(alloc, coding, k, question, last)?;
            let cases = cases(alloc, coding, k, question, branches)?;
            chosen(alloc, cases, whole)
        }
        FlatShape::Case(branches) => taken(alloc, coding, k, question, branches),
        FlatShape::Select(operand, high, low) => {
            let a = terms_of(alloc, coding, k, Question::Value, operand)?;
            let value = selected(alloc, word_width(operand), *high, *low, a)?;
            answer(alloc, question, value)
        }
        FlatShape::Call(function, arguments) => {
            let value = called(alloc, coding, k, *function, arguments)?;
            answer(alloc, question, value)
        }
        FlatShape::Set(elements) => gathered(alloc, coding, k, question, elements),
        FlatShape::Range(low, high) => ranged(alloc, coding, question, *low, *high),
    }
}

#[inline(never)]
#[cycle(terms)]
fn prefixed(
    alloc: Global,
    coding: &Coding,
    k: u32,
    sign: Prefix,
    count: u32,
    operand: &FlatExpr,
) -> Result<Term, NoMemory>
    requires deep { k + depth 0 (plain_flat operand.now) < 2 ^ 32 }
    requires in_range { excess (plain_flat operand.now) ≡ 0 }
    ensures { IfOk result (λ t. plain t ≡ repeated (sign_op sign (is_word (plain_flat operand.now))) count ((translation (codes_of coding.now) (plain_flat operand.now)).term k)) }
{
    let a = terms_of(alloc, coding, k, Question::Value, operand)?;
    repeated(alloc, sign_operator(sign, is_word(operand)), count, a)
}

// A chain of any operators.
#[inline(never)]
#[cycle(terms)]
fn chained(
    alloc: Global,
    coding: &Coding,
    k: u32,
    question: Question,
    first: &FlatExpr,
    links: &[FlatLink],
) -> Result<Term, NoMemory>
    requires deep { k + suc (max (depth 0 (plain_flat first.now)) (links_depth 0 (flat_links_of (map plain_flat_link links.now)))) < 2 ^ 32 }
    requires in_range { excess (plain_flat first.now) + links_excess (flat_links_of (map plain_flat_link links.now)) + fronts_excess (word_width (plain_flat first.now)) (flat_links_of (map plain_flat_link links.now)) ≡ 0 }
    ensures { IfOk result (λ t. plain t ≡ chain_answered question (codes_of coding.now) k (plain_flat first.now) (flat_links_of (map plain_flat_link links.now))) }
{
    match reading_of(links) {
        Reading::Single => terms_of(alloc, coding, k, question, first),
        Reading::Union => united(alloc, coding, k, question, first, links),
        Reading::Implied => {
            let a = terms_of(alloc, coding, k, Question::Value, first)?;
            let operands = operands(alloc, coding, k, links)?;
            let value = implied(alloc, a, operands)?;
            answer(alloc, question, value)
        }
        Reading::OneOperator(op, words) => {
            let terms = link_terms(alloc, coding, k, Question::Value, first, links)?;
            let value = Term::Apply(infix_operator(op, words), terms);
            answer(alloc, question, value)
        }
        Reading::Left => {
            let value = folded(alloc, coding, k, first, links)?;
            answer(alloc, question, value)
        }
    }
}

// A chain of `union`.
#[inline(never)]
#[cycle(terms)]
fn united(
    alloc: Global,
    coding: &Coding,
    k: u32,
    question: Question,
    first: &FlatExpr,
    links: &[FlatLink],
) -> Result<Term, NoMemory>
    requires deep { k + max (depth 0 (plain_flat first.now)) (links_depth 0 (flat_links_of (map plain_flat_link links.now))) < 2 ^ 32 }
    requires in_range { excess (plain_flat first.now) + links_excess (flat_links_of (map plain_flat_link links.now)) ≡ 0 }
    ensures { IfOk result (λ t. plain t ≡ united_answer question (codes_of coding.now) k (plain_flat first.now) (flat_links_of (map plain_flat_link links.now))) }
{
    match question {
        Question::Value => Ok(nothing()),
        Question::Permits(_) => {
            let terms = link_terms(alloc, coding, k, question, first, links)?;
            Ok(several(TermOp::Or, false, terms))
        }
    }
}

// The answers of the operands of a chain.
#[inline(never)]
#[cycle(terms)]
fn link_terms(
    alloc: Global,
    coding: &Coding,
    k: u32,
    question: Question,
    first: &FlatExpr,
    links: &[FlatLink],
) -> Result<Terms, NoMemory>
    requires deep { k + max (depth 0 (plain_flat first.now)) (links_depth 0 (flat_links_of (map plain_flat_link links.now))) < 2 ^ 32 }
    requires in_range { excess (plain_flat first.now) + links_excess (flat_links_of (map plain_flat_link links.now)) ≡ 0 }
    ensures { IfOk result (λ ts. trees_of (map plain ts.items) ≡ chain_answers question (codes_of coding.now) k (plain_flat first.now) (flat_links_of (map plain_flat_link links.now))) }
{
    let mut all = Vec::with_capacity(alloc, links.len() + 1)?;
    all.push(terms_of(alloc, coding, k, question, first)?)?;
    for link in links {
        let t = terms_of(alloc, coding, k, question, &link.operand)?;
        all.push(t)?;
    }
    Ok(all)
}

// The operands of a chain of `->` after the first.
#[inline(never)]
#[cycle(terms)]
fn operands(
    alloc: Global,
    coding: &Coding,
    k: u32,
    links: &[FlatLink],
) -> Result<Vec<Operand>, NoMemory>
    requires deep { k + links_depth 0 (flat_links_of (map plain_flat_link links.now)) < 2 ^ 32 }
    requires in_range { links_excess (flat_links_of (map plain_flat_link links.now)) ≡ 0 }
    ensures { IfOk result (λ xs. map operand_plain xs.items ≡ operands_of (codes_of coding.now) k (flat_links_of (map plain_flat_link links.now))) }
{
    let mut all = Vec::with_capacity(alloc, links.len())?;
    for link in links {
        let term = terms_of(alloc, coding, k, Question::Value, &link.operand)?;
        let words = is_word(&link.operand);
        all.push(Operand { words, term })?;
    }
    Ok(all)
}

// A left-associative chain.
#[inline(never)]
#[cycle(terms)]
fn folded(
    alloc: Global,
    coding: &Coding,
    k: u32,
    first: &FlatExpr,
    links: &[FlatLink],
) -> Result<Term, NoMemory>
    requires deep { k + suc (max (depth 0 (plain_flat first.now)) (links_depth 0 (flat_links_of (map plain_flat_link links.now)))) < 2 ^ 32 }
    requires in_range { excess (plain_flat first.now) + links_excess (flat_links_of (map plain_flat_link links.now)) + fronts_excess (word_width (plain_flat first.now)) (flat_links_of (map plain_flat_link links.now)) ≡ 0 }
    ensures { IfOk result (λ t. plain t ≡ folded_answer (codes_of coding.now) k (plain_flat first.now) (flat_links_of (map plain_flat_link links.now))) }
{
    let mut whole = terms_of(alloc, coding, k, Question::Value, first)?;
    let mut tested = subject_of(coding, first);
    let mut width = word_width(first);
    for link in links {
        let term = behind(alloc, coding, k, link.op, tested, &link.operand)?;
        let next = front_width(link.op, width, word_width(&link.operand));
        let named = tested.is_some();
        whole = joined(alloc, link.op, named, width, whole, &link.operand, term)?;
        width = next;
        tested = None;
    }
    Ok(whole)
}

// An operand after an operator, where the part before may be a name.
#[inline(never)]
#[cycle(terms)]
fn behind(
    alloc: Global,
    coding: &Coding,
    k: u32,
    op: Infix,
    tested: Option<Subject>,
    operand: &FlatExpr,
) -> Result<Term, NoMemory>
    requires deep { k + suc (depth 0 (plain_flat operand.now)) < 2 ^ 32 }
    requires in_range { excess (plain_flat operand.now) ≡ 0 }
    ensures { IfOk result (λ t. plain t ≡ behind_term op k tested (translation (codes_of coding.now) (plain_flat operand.now))) }
{
    match op {
        Infix::Member => match tested {
            Some(subject) => terms_of(alloc, coding, k, Question::Permits(subject), operand),
            None => {
                let question = Question::Permits(Subject::Bound(k));
                terms_of(alloc, coding, k + 1, question, operand)
            }
        },
        _ => terms_of(alloc, coding, k, Question::Value, operand),
    }
}

// A case, whose last condition is omitted.
#[inline(never)]
#[cycle(terms)]
fn taken(
    alloc: Global,
    coding: &Coding,
    k: u32,
    question: Question,
    branches: &[FlatBranch],
) -> Result<Term, NoMemory>
    requires deep { k + branches_depth 0 (flat_branches_of (map plain_flat_branch branches.now)) < 2 ^ 32 }
    requires in_range { branches_excess (flat_branches_of (map plain_flat_branch branches.now)) ≡ 0 }
    ensures { IfOk result (λ t. plain t ≡ answered question (taken_translation (codes_of coding.now) (flat_branches_of (map plain_flat_branch branches.now))) k) }
{
    match branches.split_last() {
        None => answer(alloc, question, nothing()),
        Some((last, firsts)) => {
            let whole = terms_of(alloc, coding, k, question, &last.value)?;
            let cases = cases(alloc, coding, k, question, firsts)?;
            chosen(alloc, cases, whole)
        }
    }
}

// The terms of the conditions, and the answers of their values.
#[inline(never)]
#[cycle(terms)]
fn cases(
    alloc: Global,
    coding: &Coding,
    k: u32,
    question: Question,
    branches: &[FlatBranch],
) -> Result<Vec<Case>, NoMemory>
    requires deep { k + branches_depth 0 (flat_branches_of (map plain_flat_branch branches.now)) < 2 ^ 32 }
    requires in_range { branches_excess (flat_branches_of (map plain_flat_branch branches.now)) ≡ 0 }
    ensures { IfOk result (λ xs. map case_plain xs.items ≡ cases_of question (codes_of coding.now) k (flat_branches_of (map plain_flat_branch branches.now))) }
{
    let mut all = Vec::with_capacity(alloc, branches.len())?;
    for branch in branches {
        let when = terms_of(alloc, coding, k, Question::Value, &branch.when)?;
        let value = terms_of(alloc, coding, k, question, &branch.value)?;
        all.push(Case { when, value })?;
    }
    Ok(all)
}

// The answers of arguments or elements.
#[inline(never)]
#[cycle(terms)]
fn parts(
    alloc: Global,
    coding: &Coding,
    k: u32,
    question: Question,
    exprs: &[FlatExpr],
) -> Result<Terms, NoMemory>
    requires deep { k + trees_depth 0 (flat_trees_of (map plain_flat exprs.now)) < 2 ^ 32 }
    requires in_range { trees_excess (flat_trees_of (map plain_flat exprs.now)) ≡ 0 }
    ensures { IfOk result (λ ts. trees_of (map plain ts.items) ≡ answers question (codes_of coding.now) k (flat_trees_of (map plain_flat exprs.now))) }
{
    let mut all = Vec::with_capacity(alloc, exprs.len())?;
    for e in exprs {
        let t = terms_of(alloc, coding, k, question, e)?;
        all.push(t)?;
    }
    Ok(all)
}

// A function call.
#[inline(never)]
#[cycle(terms)]
fn called(
    alloc: Global,
    coding: &Coding,
    k: u32,
    function: Function,
    arguments: &[FlatExpr],
) -> Result<Term, NoMemory>
    requires deep { k + suc (trees_depth 0 (flat_trees_of (map plain_flat arguments.now))) < 2 ^ 32 }
    requires in_range { trees_excess (flat_trees_of (map plain_flat arguments.now)) + call_excess function (arguments_of (flat_trees_of (map plain_flat arguments.now))) ≡ 0 }
    ensures { IfOk result (λ t. plain t ≡ called_term (codes_of coding.now) k function (flat_trees_of (map plain_flat arguments.now))) }
{
    let terms = parts(alloc, coding, k, Question::Value, arguments)?;
    function_term(
        alloc,
        coding.width,
        k,
        function,
        arguments_of(arguments),
        terms,
    )
}

// A set of elements.
#[inline(never)]
#[cycle(terms)]
fn gathered(
    alloc: Global,
    coding: &Coding,
    k: u32,
    question: Question,
    elements: &[FlatExpr],
) -> Result<Term, NoMemory>
    requires deep { k + trees_depth 0 (flat_trees_of (map plain_flat elements.now)) < 2 ^ 32 }
    requires in_range { trees_excess (flat_trees_of (map plain_flat elements.now)) ≡ 0 }
    ensures { IfOk result (λ t. plain t ≡ gathered_answer question (codes_of coding.now) k (flat_trees_of (map plain_flat elements.now))) }
{
    match question {
        Question::Value => Ok(nothing()),
        Question::Permits(_) => {
            let terms = parts(alloc, coding, k, question, elements)?;
            Ok(several(TermOp::Or, false, terms))
        }
    }
}

// An interval.
fn ranged(
    alloc: Global,
    coding: &Coding,
    question: Question,
    low: i64,
    high: i64,
) -> Result<Term, NoMemory>
    ensures { IfOk result (λ t. plain t ≡ ranged_answer question coding.now.width low high) }
{
    match question {
        Question::Value => Ok(nothing()),
        Question::Permits(subject) => between(alloc, coding.width, low, high, subject),
    }
}

// The term of a name, also under `next`.
fn subject_of(coding: &Coding, e: &FlatExpr) -> Option<Subject>
    ensures { result ≡ named_subject (codes_of coding.now) (plain_flat e.now) }
{
    match &e.shape {
        FlatShape::Item(i, under) => Some(Subject::Variable(coding.place(*i), *under)),
        FlatShape::Symbol(s) => Some(Subject::Symbol(*s)),
        _ => None,
    }
}
