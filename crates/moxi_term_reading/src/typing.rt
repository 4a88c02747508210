// The sort of an application.
ghost use Rattle.std.specs.Prelude.{◌≡◌, ◌+◌, Some, None, [], ◌∷◌};
ghost use Rattle.std.specs.List.{list_all};
ghost use Rattle.moxi_term_reading.specs.Typing.{call_sort, head_count_fits, head_sort};
ghost use Rattle.moxi_terms.specs.Scopes.{function_now};
ghost use Rattle.moxi_terms.specs.Sorts.{calculated, chosen, common, compared, count_fits, fitting, is_arithmetic, is_chain, is_negation, logical, op_sort, same_sort, same_sorts, widened};
ghost use Rattle.moxi_terms.specs.Tree.{sorts_of};
ghost use Rattle.moxi_terms.specs.declared.data.Sort.TheVariants as sort;
ghost use Rattle.moxi_terms.specs.declared.data.TermOp.TheVariants as op;
ghost use Rattle.moxi_terms.specs.Operators.{is_comparison};

use moxi_terms::{Function, Head, Scope, Sort, TermOp, Variables, is_comparison};
use text_core::Kind;
use text_core::kinds::moxi;
use word_core::{Binary, Unary, WIDEST};

fn same_sort(s: Sort, t: Sort) -> bool
    ensures { result ≡ same_sort s t }
{
    match s {
        Sort::Truth => match t {
            Sort::Truth => true,
            Sort::Bits(_) | Sort::Choice(_) => false,
        },
        Sort::Bits(v) => match t {
            Sort::Bits(w) => v == w,
            Sort::Truth | Sort::Choice(_) => false,
        },
        Sort::Choice(n) => match t {
            Sort::Choice(m) => n == m,
            Sort::Truth | Sort::Bits(_) => false,
        },
    }
}

// Whether the parameters have these sorts.
#[tactic(auto, using(crate::proofs::TypingLaws::sorts_end, crate::proofs::TypingLaws::sorts_front, crate::proofs::TypingLaws::other_length))]
fn same_sorts(parameters: &Variables, sorts: &[Sort]) -> bool
    ensures { result ≡ same_sorts (sorts_of parameters.now) sorts.now }
{
    if parameters.len() != sorts.len() {
        return false;
    }
    for i in 0..parameters.len() {
        if !same_sort(parameters.at(i).sort, sorts[i]) {
            return false;
        }
    }
    true
}

// Whether all of them are this sort.
fn are_all(s: Sort, sorts: &[Sort]) -> bool
    ensures { result ≡ list_all (same_sort s) sorts.now }
{
    for t in sorts {
        if !same_sort(s, *t) {
            return false;
        }
    }
    true
}

// The sort that all of them have in common.
#[tactic(auto, using(crate::proofs::TypingLaws::common_none))]
fn common(sorts: &[Sort]) -> Option<Sort>
    ensures { result ≡ common sorts.now }
{
    match sorts.split_first() {
        Some((first, rest)) => if are_all(*first, rest) {
            Some(*first)
        } else {
            None
        },
        None => None,
    }
}

fn is_chain(op: Binary) -> bool
    ensures { result ≡ is_chain op }
{
    match op {
        Binary::And | Binary::Or | Binary::Xor | Binary::Add | Binary::Mul => true,
        _ => false,
    }
}

fn is_arithmetic(op: Binary) -> bool
    ensures { result ≡ is_arithmetic op }
{
    match op {
        Binary::Sub
        | Binary::Udiv
        | Binary::Urem
        | Binary::Sdiv
        | Binary::Srem
        | Binary::Smod
        | Binary::Sll
        | Binary::Srl
        | Binary::Sra => true,
        _ => is_chain(op),
    }
}

fn is_negation(op: Unary) -> bool
    ensures { result ≡ is_negation op }
{
    match op {
        Unary::Not | Unary::Neg => true,
        _ => false,
    }
}

fn count_fits(op: TermOp, n: usize) -> bool
    ensures { result ≡ count_fits op n }
{
    match op {
        TermOp::And | TermOp::Or => n >= 1,
        TermOp::Xor | TermOp::Implies | TermOp::Equal | TermOp::Distinct => n >= 2,
        TermOp::Ite => n == 3,
        TermOp::Concat => n == 2,
        TermOp::BvBinary(b) => if is_chain(b) { n >= 2 } else { n == 2 },
        TermOp::Not
        | TermOp::Extract(_, _)
        | TermOp::ZeroExtend(_)
        | TermOp::SignExtend(_)
        | TermOp::BvUnary(_) => n == 1,
    }
}

fn logical(sort: Option<Sort>) -> Result<Sort, Kind>
    ensures { result ≡ logical sort }
{
    match sort {
        Some(Sort::Truth) => Ok(Sort::Truth),
        _ => Err(moxi::SORT_CLASH),
    }
}

fn compared(sort: Option<Sort>) -> Result<Sort, Kind>
    ensures { result ≡ compared sort }
{
    match sort {
        Some(_) => Ok(Sort::Truth),
        None => Err(moxi::SORT_CLASH),
    }
}

fn chosen(sort: Option<Sort>) -> Result<Sort, Kind>
    ensures { result ≡ chosen sort }
{
    match sort {
        Some(s) => Ok(s),
        None => Err(moxi::SORT_CLASH),
    }
}

fn calculated(op: Binary, sort: Option<Sort>) -> Result<Sort, Kind>
    ensures { result ≡ calculated op sort }
{
    match sort {
        Some(Sort::Bits(w)) => if is_comparison(op) {
            Ok(Sort::Truth)
        } else if is_arithmetic(op) {
            Ok(Sort::Bits(w))
        } else {
            Err(moxi::SORT_CLASH)
        },
        _ => Err(moxi::SORT_CLASH),
    }
}

// The sort of words whose width is the sum of these widths.
fn widened(v: u32, w: u32) -> Result<Sort, Kind>
    ensures { result ≡ widened (v + w) }
{
    let width = u64::from(v) + u64::from(w);
    if width <= u64::from(WIDEST) {
        Ok(Sort::Bits(width as u32))
    } else {
        Err(moxi::WIDTH)
    }
}

fn fitting(op: TermOp, sorts: &[Sort]) -> Result<Sort, Kind>
    ensures { result ≡ fitting op sorts.now }
{
    match op {
        TermOp::Not | TermOp::And | TermOp::Or | TermOp::Xor | TermOp::Implies => logical(common(
            sorts,
        )),
        TermOp::Equal | TermOp::Distinct => compared(common(sorts)),
        TermOp::Ite => match sorts.split_first() {
            Some((Sort::Truth, rest)) => chosen(common(rest)),
            _ => Err(moxi::SORT_CLASH),
        },
        TermOp::Concat => match sorts {
            [Sort::Bits(v), Sort::Bits(w)] => widened(*v, *w),
            _ => Err(moxi::SORT_CLASH),
        },
        TermOp::BvBinary(b) => calculated(b, common(sorts)),
        TermOp::Extract(high, low) => match sorts {
            [Sort::Bits(w)] => extracted(high, low, *w),
            _ => Err(moxi::SORT_CLASH),
        },
        TermOp::ZeroExtend(n) | TermOp::SignExtend(n) => match sorts {
            [Sort::Bits(w)] => widened(*w, n),
            _ => Err(moxi::SORT_CLASH),
        },
        TermOp::BvUnary(u) => match sorts {
            [Sort::Bits(w)] if is_negation(u) => Ok(Sort::Bits(*w)),
            _ => Err(moxi::SORT_CLASH),
        },
    }
}

// The sort of the bits from `high` down to `low` of words of this width.
fn extracted(high: u32, low: u32, w: u32) -> Result<Sort, Kind>
    ensures { result ≡ fitting (op.Extract high low) (sort.Bits w ∷ []) }
{
    if low <= high && high < w {
        Ok(Sort::Bits(high - low + 1))
    } else {
        Err(moxi::WIDTH)
    }
}

fn op_sort(op: TermOp, sorts: &[Sort]) -> Result<Sort, Kind>
    ensures { result ≡ op_sort op sorts.now }
{
    if count_fits(op, sorts.len()) {
        fitting(op, sorts)
    } else {
        Err(moxi::ARITY)
    }
}

fn call_sort(function: Option<&Function>, sorts: &[Sort]) -> Result<Sort, Kind>
    ensures { result ≡ call_sort (function_now function.entry) sorts.now }
{
    match function {
        Some(f) => if same_sorts(&f.parameters, sorts) {
            Ok(f.result)
        } else {
            Err(moxi::SORT_CLASH)
        },
        None => Err(moxi::SORT_CLASH),
    }
}

/// Returns the sort of an application to arguments with these sorts, or the kind of the failing test.
pub fn head_sort(scope: &Scope, head: Head, sorts: &[Sort]) -> Result<Sort, Kind>
    ensures { result ≡ head_sort scope.now.functions head sorts.now }
{
    match head {
        Head::Operator(op) => op_sort(op, sorts),
        Head::Function(n) => call_sort(scope.function(n), sorts),
    }
}

/// Returns whether the head may have this many arguments.
pub fn head_count_fits(scope: &Scope, head: Head, count: usize) -> bool
    ensures { result ≡ head_count_fits scope.now.functions head count }
{
    match head {
        Head::Operator(op) => count_fits(op, count),
        Head::Function(n) => match scope.function(n) {
            Some(f) => count == f.parameters.len(),
            None => count == 0,
        },
    }
}
