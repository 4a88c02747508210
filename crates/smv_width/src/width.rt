// The width of the integers of a flat model.
ghost use Rattle.std.specs.Prelude.{◌≡◌, ◌≤◌, ◌<◌, ◌^◌, map, max, option_map};
ghost use Rattle.smv_intervals.specs.View.{seen};
ghost use Rattle.smv_flat.specs.FlatTree.{flat_links_of, flat_branches_of, flat_trees_of};
ghost use Rattle.smv_flat.specs.FlatForms.{PlainFlat};
ghost use Rattle.smv_flat.specs.FlatFormulas.{form_plain};
ghost use Rattle.smv_items.specs.FlatItemView.{item_plain};
ghost use Rattle.smv_flat.specs.FlatView.{plain_flat, plain_flat_link, plain_flat_branch};
ghost use Rattle.smv_flat.specs.FlatWidth.{binary_digits, integer_width, interval_width, integers_width, node_width, operand_width, arguments_width};
ghost use Rattle.smv_flat.specs.FlatWidth.{tree_width, links_width, branches_width, trees_width, first_width, items_width, forms_width, width_of};

use crate::fronts::{divisor_of, front};
use smv_flat::{FlatBranch, FlatExpr, FlatFormula, FlatLink, FlatShape};
use smv_intervals::Ty;
use smv_items::FlatItem;
use smv_text::{Function, Infix};

#[tactic(auto, using(crate::proofs::WidthLemmas::leading_digits, crate::proofs::WidthLemmas::digits_low))]
fn digits(n: u64) -> u32
    requires { n < 2 ^ 63 }
    ensures value { result ≡ binary_digits n }
    ensures bound { result ≤ 63 }
{
    64 - n.leading_zeros()
}

// The least width in which two's complement represents the integer.
fn integer_width(z: i64) -> u32
    ensures value { result ≡ integer_width z }
    ensures bound { result ≤ 64 }
{
    if z < 0 {
        digits((-1 - z) as u64) + 1
    } else {
        digits(z as u64) + 1
    }
}

// The greater of two widths.
fn greater(a: u32, b: u32) -> u32
    requires first { a ≤ 64 }
    requires second { b ≤ 64 }
    ensures value { result ≡ max a b }
    ensures bound { result ≤ 64 }
{
    a.max(b)
}

fn interval_width(low: i64, high: i64) -> u32
    ensures value { result ≡ interval_width low high }
    ensures bound { result ≤ 64 }
{
    greater(integer_width(low), integer_width(high))
}

fn integers_width(ty: Ty) -> u32
    ensures value { result ≡ integers_width (seen ty) }
    ensures bound { result ≤ 64 }
{
    match ty {
        Ty::Integer(low, high) => interval_width(low, high),
        Ty::Truth | Ty::Symbol | Ty::Bits(_) => 1,
    }
}

fn node_width(ty: Option<Ty>) -> u32
    ensures value { result ≡ node_width (option_map seen ty) }
    ensures bound { result ≤ 64 }
{
    match ty {
        None => 1,
        Some(t) => integers_width(t),
    }
}

// The width of an expression, which includes branches that are never taken.
#[cycle(width)]
fn expr_width(expr: &FlatExpr) -> u32
    ensures value { result ≡ tree_width (plain_flat expr.now) }
    ensures bound { result ≤ 64 }
{
    let own = node_width(expr.ty);
    match &expr.shape {
        FlatShape::True
        | FlatShape::False
        | FlatShape::Number(_)
        | FlatShape::Literal(_)
        | FlatShape::Symbol(_)
        | FlatShape::Item(_, _) => own,
        FlatShape::Prefix(_, _, operand) => greater(own, expr_width(operand)),
        FlatShape::Chain(first, links) => {
            greater(
                own,
                greater(expr_width(first), links_width(first.ty, links)),
            )
        }
        FlatShape::Choice(branches, last) => {
            greater(own, greater(branches_width(branches), expr_width(last)))
        }
        FlatShape::Case(branches) => greater(own, branches_width(branches)),
        FlatShape::Select(operand, _, _) => greater(own, expr_width(operand)),
        FlatShape::Call(function, arguments) => greater(own, call_width(*function, arguments)),
        FlatShape::Set(elements) => greater(own, exprs_width(elements)),
        FlatShape::Range(low, high) => greater(own, interval_width(*low, *high)),
    }
}

// The part of an operand's width that counts after an operator: the amount of a shift counts nothing.
fn operand_width(op: Infix, width: u32) -> u32
    ensures value { result ≡ operand_width op width }
    ensures bound { result ≤ width }
{
    match op {
        Infix::ShiftLeft | Infix::ShiftRight => 0,
        _ => width,
    }
}

// The width of a chain's operands after its operators, and of the prefixes that end with them. `first` is the type of
// what comes before.
#[cycle(width)]
fn links_width(first: Option<Ty>, links: &[FlatLink]) -> u32
    ensures value { result ≡ links_width (option_map seen first) (flat_links_of (map plain_flat_link links.now)) }
    ensures bound { result ≤ 64 }
{
    let mut width = 0;
    let mut whole = first;
    for link in links {
        let operand = operand_width(link.op, expr_width(&link.operand));
        whole = front(link.op, whole, link.operand.ty, divisor_of(&link.operand));
        width = greater(width, greater(operand, node_width(whole)));
    }
    width
}

#[cycle(width)]
fn branches_width(branches: &[FlatBranch]) -> u32
    ensures value { result ≡ branches_width (flat_branches_of (map plain_flat_branch branches.now)) }
    ensures bound { result ≤ 64 }
{
    let mut width = 0;
    for branch in branches {
        let when = expr_width(&branch.when);
        width = greater(width, greater(when, expr_width(&branch.value)));
    }
    width
}

// The width of a function's arguments. Arguments that must be numbers don't count.
#[cycle(width)]
fn call_width(function: Function, arguments: &[FlatExpr]) -> u32
    ensures value { result ≡ arguments_width function (first_width (flat_trees_of (map plain_flat arguments.now))) (trees_width (flat_trees_of (map plain_flat arguments.now))) }
    ensures bound { result ≤ 64 }
{
    match function {
        Function::Uwconst => 0,
        Function::Extend | Function::Resize => first_width(arguments),
        _ => exprs_width(arguments),
    }
}

#[cycle(width)]
fn first_width(exprs: &[FlatExpr]) -> u32
    ensures value { result ≡ first_width (flat_trees_of (map plain_flat exprs.now)) }
    ensures bound { result ≤ 64 }
{
    match exprs.first() {
        None => 0,
        Some(expr) => expr_width(expr),
    }
}

#[cycle(width)]
fn exprs_width(exprs: &[FlatExpr]) -> u32
    ensures value { result ≡ trees_width (flat_trees_of (map plain_flat exprs.now)) }
    ensures bound { result ≤ 64 }
{
    let mut width = 0;
    for expr in exprs {
        width = greater(width, expr_width(expr));
    }
    width
}

fn items_width(items: &[FlatItem]) -> u32
    ensures value { result ≡ items_width (map item_plain items.now) }
    ensures bound { result ≤ 64 }
{
    let mut width = 0;
    for item in items {
        width = greater(width, integers_width(item.ty));
    }
    width
}

fn forms_width(formulas: &[FlatFormula]) -> u32
    ensures value { result ≡ forms_width (map form_plain formulas.now) }
    ensures bound { result ≤ 64 }
{
    let mut width = 0;
    for formula in formulas {
        width = greater(width, expr_width(&formula.body));
    }
    width
}

/// Returns the width of the integers of a flat form, from 1 to 64.
///
/// It is the least width in which two's complement represents the interval of every integer expression and type.
/// Branches that are never taken count too. It is 1 where no integer occurs. Shift amounts and the number arguments of
/// `uwconst`, `extend` and `resize` don't count. (NuSMV 2.6 User Manual, 2.2; the width is this translator's own.)
pub fn width_of(items: &[FlatItem], formulas: &[FlatFormula]) -> u32
    ensures some { 1 ≤ result }
    ensures bound { result ≤ 64 }
    ensures value { (flat : PlainFlat) → flat.items ≡ map item_plain items.now → flat.forms ≡ map form_plain formulas.now → result ≡ width_of flat }
{
    greater(1, greater(items_width(items), forms_width(formulas)))
}
