// Evaluation of flat expressions, given the values of items.
ghost use Rattle.std.specs.Prelude.{◌≡◌, map};
ghost use Rattle.smv_meaning.specs.Operators.{called};
ghost use Rattle.smv_meaning.specs.Values.{is_between};
ghost use Rattle.smv_meaning.specs.Expressions.{is_implies};
ghost use Rattle.smv_meaning.specs.Safety.{Fits, front_value};
ghost use Rattle.smv_flat.specs.FlatTree.{flat_links_of, flat_branches_of, flat_trees_of, flat_from_right, flat_are_implies, flat_values, flat_permits};
ghost use Rattle.smv_flat.specs.FlatView.{plain_flat, plain_flat_link, plain_flat_branch};
ghost use Rattle.smv_flat.specs.FlatTruth.{symbol_value};
ghost use Rattle.smv_operators.specs.View.{seen_value, plain_value};
ghost use Rattle.smv_flat_evaluation.specs.RowValues.{row_values, row_denote, row_chosen, row_taken};
ghost use Rattle.smv_flat_evaluation.specs.Fronts.{row_chain, row_implications, row_fronts_value, row_fronts_permit};
ghost use Rattle.smv_flat_evaluation.specs.FlatSafety.{RowSafe, RowSafeLinks, RowSafeOperands, RowSafeBranches, RowSafeTrees};

use name_maps::NameSet;
use smv_flat::{FlatBranch, FlatExpr, FlatLink, FlatShape};
use smv_operators::{
    Plain, Seen, apply, are_same, are_same_plain, call_one, call_two, copy_value, implication,
    no_plain, no_seen, prefix_value, seen_of, selection, truth_of,
};
use smv_text::{Function, Infix};

/// Returns the value of the item with this number in a row, or the stand-in for a missing value where the row is too
/// short.
#[tactic(auto, unfolding(crate::specs::RowValues::row_values))]
pub fn item_at<'a>(row: &[Seen<'a>], k: usize) -> Seen<'a>
    ensures { seen_value result ≡ row_values row.now k }
{
    match row.get(k) {
        None => no_seen(),
        Some(value) => copy_value(value),
    }
}

// The value of the symbol with this number.
fn symbol_at<'a>(symbols: &'a NameSet, s: u32) -> Seen<'a>
    ensures { seen_value result ≡ symbol_value symbols.now s }
{
    let s = s as usize;
    if s < symbols.len() {
        Seen::Symbol(symbols.at(s))
    } else {
        no_seen()
    }
}

fn lies_between(low: i64, high: i64, value: &Seen) -> bool
    ensures { result ≡ is_between low high (seen_value value.now) }
{
    match value {
        Seen::Truth(_) => false,
        Seen::Integer(z) => low <= *z && *z <= high,
        Seen::Symbol(_) => false,
        Seen::Bits(_) => false,
    }
}

// ---- chains

// A chain of `->` is right-associative.
#[tactic(auto, using(crate::proofs::Evaluating::right_front))]
fn is_from_right(links: &[FlatLink]) -> bool
    ensures { result ≡ flat_from_right (flat_links_of (map plain_flat_link links.now)) }
{
    match links.split_first() {
        None => false,
        Some(_) => all_imply(links),
    }
}

#[tactic(auto, using(crate::proofs::Evaluating::implies_front))]
fn all_imply(links: &[FlatLink]) -> bool
    ensures { result ≡ flat_are_implies (flat_links_of (map plain_flat_link links.now)) }
{
    for link in links {
        if !is_implication(link.op) {
            return false;
        }
    }
    true
}

fn is_implication(op: Infix) -> bool
    ensures { result ≡ is_implies op }
{
    match op {
        Infix::Implies => true,
        _ => false,
    }
}

// ---- expressions

/// Returns the value of an expression.
///
/// `symbols` are the names of the symbols. `now` holds the values of items in this state, and `later` those in the
/// following state, which `next` reads.
#[cycle(evaluation)]
pub fn evaluate<'a>(
    symbols: &'a NameSet,
    e: &FlatExpr,
    now: &[Seen<'a>],
    later: &[Seen<'a>],
) -> Seen<'a>
    // Each intermediate integer fits 64 bits.
    requires safe { RowSafe symbols.now now.now later.now (plain_flat e.now) }
    ensures { seen_value result ≡ (row_denote symbols.now now.now later.now (plain_flat e.now)).value }
{
    match &e.shape {
        FlatShape::True => Seen::Truth(true),
        FlatShape::False => Seen::Truth(false),
        FlatShape::Number(n) => Seen::Integer(*n as i64),
        FlatShape::Literal(w) => Seen::Bits(*w),
        FlatShape::Symbol(s) => symbol_at(symbols, *s),
        FlatShape::Item(k, under) => {
            let row = if *under { later } else { now };
            item_at(row, *k as usize)
        },
        FlatShape::Prefix(sign, count, a) => {
            let value = evaluate(symbols, a, now, later);
            if *count % 2 == 0 {
                value
            } else {
                seen_of(prefix_value(*sign, *count, &value))
            }
        }
        FlatShape::Chain(a, links) => {
            let first = evaluate(symbols, a, now, later);
            chained(symbols, &first, links.as_slice(), now, later)
        }
        FlatShape::Choice(branches, last) => {
            chosen(symbols, branches.as_slice(), last, now, later)
        }
        FlatShape::Case(branches) => taken(symbols, branches.as_slice(), now, later),
        FlatShape::Select(a, high, low) => {
            let value = evaluate(symbols, a, now, later);
            seen_of(selection(*high, *low, &value))
        }
        FlatShape::Call(f, arguments) => {
            seen_of(call_value(symbols, *f, arguments.as_slice(), now, later))
        }
        FlatShape::Set(_) => no_seen(),
        FlatShape::Range(_, _) => no_seen(),
    }
}

// The value of a chain, given the value of its first operand.
#[cycle(evaluation)]
fn chained<'a>(
    symbols: &'a NameSet,
    first: &Seen<'a>,
    links: &[FlatLink],
    now: &[Seen<'a>],
    later: &[Seen<'a>],
) -> Seen<'a>
    requires fronts { RowSafeLinks symbols.now now.now later.now (seen_value first.now) (flat_links_of (map plain_flat_link links.now)) }
    requires operands { RowSafeOperands symbols.now now.now later.now (flat_links_of (map plain_flat_link links.now)) }
    ensures { seen_value result ≡ row_chain symbols.now now.now later.now (seen_value first.now) (flat_links_of (map plain_flat_link links.now)) }
{
    if is_from_right(links) {
        rest_implied(symbols, first, links, now, later)
    } else {
        last_front(symbols, first, links, now, later)
    }
}

// The value of the implications from the first operand on.
#[cycle(evaluation)]
fn rest_implied<'a>(
    symbols: &'a NameSet,
    first: &Seen<'a>,
    links: &[FlatLink],
    now: &[Seen<'a>],
    later: &[Seen<'a>],
) -> Seen<'a>
    requires safe { RowSafeOperands symbols.now now.now later.now (flat_links_of (map plain_flat_link links.now)) }
    ensures { seen_value result ≡ row_implications symbols.now now.now later.now (seen_value first.now) (flat_links_of (map plain_flat_link links.now)) }
{
    match links.split_first() {
        None => copy_value(first),
        Some((link, more)) => {
            let operand = evaluate(symbols, &link.operand, now, later);
            let rest = rest_implied(symbols, &operand, more, now, later);
            seen_of(implication(first, &rest))
        }
    }
}

// The value of a left-associative chain, given the value of its first operand.
#[cycle(evaluation)]
fn last_front<'a>(
    symbols: &'a NameSet,
    first: &Seen<'a>,
    links: &[FlatLink],
    now: &[Seen<'a>],
    later: &[Seen<'a>],
) -> Seen<'a>
    requires safe { RowSafeLinks symbols.now now.now later.now (seen_value first.now) (flat_links_of (map plain_flat_link links.now)) }
    ensures { seen_value result ≡ row_fronts_value symbols.now now.now later.now (seen_value first.now) (flat_links_of (map plain_flat_link links.now)) }
{
    let mut front = copy_value(first);
    for link in links {
        front = seen_of(next_front(symbols, link.op, &front, &link.operand, now, later));
    }
    front
}

// The value of a chain's prefix with the next operator and operand applied.
#[cycle(evaluation)]
fn next_front<'a>(
    symbols: &'a NameSet,
    op: Infix,
    front: &Seen<'a>,
    operand: &FlatExpr,
    now: &[Seen<'a>],
    later: &[Seen<'a>],
) -> Plain
    requires safe { RowSafe symbols.now now.now later.now (plain_flat operand.now) }
    requires fits { Fits (front_value op (seen_value front.now) (row_denote symbols.now now.now later.now (plain_flat operand.now))) }
    ensures { plain_value result ≡ front_value op (seen_value front.now) (row_denote symbols.now now.now later.now (plain_flat operand.now)) }
{
    match op {
        Infix::Member => Plain::Truth(permits(symbols, operand, front, now, later)),
        Infix::Union => no_plain(),
        _ => {
            let value = evaluate(symbols, operand, now, later);
            apply(op, front, &value)
        }
    }
}

// The value of the first branch whose condition is true, or else of the expression after the last colon.
#[cycle(evaluation)]
fn chosen<'a>(
    symbols: &'a NameSet,
    branches: &[FlatBranch],
    last: &FlatExpr,
    now: &[Seen<'a>],
    later: &[Seen<'a>],
) -> Seen<'a>
    requires safe { RowSafeBranches symbols.now now.now later.now (flat_branches_of (map plain_flat_branch branches.now)) }
    requires safe_last { RowSafe symbols.now now.now later.now (plain_flat last.now) }
    ensures { seen_value result ≡ (row_chosen symbols.now now.now later.now (flat_branches_of (map plain_flat_branch branches.now)) (row_denote symbols.now now.now later.now (plain_flat last.now))).value }
{
    for branch in branches {
        let condition = evaluate(symbols, &branch.when, now, later);
        if truth_of(&condition) {
            return evaluate(symbols, &branch.value, now, later);
        }
    }
    evaluate(symbols, last, now, later)
}

// The value of the first branch whose condition is true, or else of the last branch.
#[cycle(evaluation)]
fn taken<'a>(
    symbols: &'a NameSet,
    branches: &[FlatBranch],
    now: &[Seen<'a>],
    later: &[Seen<'a>],
) -> Seen<'a>
    requires safe { RowSafeBranches symbols.now now.now later.now (flat_branches_of (map plain_flat_branch branches.now)) }
    ensures { seen_value result ≡ (row_taken symbols.now now.now later.now (flat_branches_of (map plain_flat_branch branches.now))).value }
{
    match branches.split_last() {
        None => no_seen(),
        Some((last, firsts)) => chosen(symbols, firsts, &last.value, now, later),
    }
}

// The value of a function of its arguments.
#[cycle(evaluation)]
fn call_value<'a>(
    symbols: &'a NameSet,
    f: Function,
    arguments: &[FlatExpr],
    now: &[Seen<'a>],
    later: &[Seen<'a>],
) -> Plain
    requires safe { RowSafeTrees symbols.now now.now later.now (flat_trees_of (map plain_flat arguments.now)) }
    requires fits { Fits (called f (flat_values (symbol_value symbols.now) (row_values now.now) (row_values later.now) (flat_trees_of (map plain_flat arguments.now)))) }
    ensures { plain_value result ≡ called f (flat_values (symbol_value symbols.now) (row_values now.now) (row_values later.now) (flat_trees_of (map plain_flat arguments.now))) }
{
    if let Function::Count = f {
        let mut count = 0i64;
        for argument in arguments {
            let value = evaluate(symbols, argument, now, later);
            if truth_of(&value) {
                count += 1;
            }
        }
        return Plain::Integer(count);
    }
    match arguments.split_first() {
        None => no_plain(),
        Some((first, more)) => {
            let a = evaluate(symbols, first, now, later);
            match more.split_first() {
                None => call_one(f, &a),
                Some((second, others)) => {
                    let b = evaluate(symbols, second, now, later);
                    match others.split_first() {
                        None => call_two(f, &a, &b),
                        Some(_) => no_plain(),
                    }
                }
            }
        }
    }
}

/// Returns whether the expression permits the value.
#[cycle(evaluation)]
pub fn permits<'a>(
    symbols: &'a NameSet,
    e: &FlatExpr,
    value: &Seen<'a>,
    now: &[Seen<'a>],
    later: &[Seen<'a>],
) -> bool
    // Each intermediate integer fits 64 bits.
    requires safe { RowSafe symbols.now now.now later.now (plain_flat e.now) }
    ensures { result ≡ (row_denote symbols.now now.now later.now (plain_flat e.now)).permits (seen_value value.now) }
{
    match &e.shape {
        FlatShape::Set(elements) => one_permits(symbols, elements.as_slice(), value, now, later),
        FlatShape::Range(low, high) => lies_between(*low, *high, value),
        FlatShape::Choice(branches, last) => {
            chosen_permits(symbols, branches.as_slice(), last, value, now, later)
        }
        FlatShape::Case(branches) => {
            taken_permits(symbols, branches.as_slice(), value, now, later)
        }
        FlatShape::Chain(a, links) => {
            if is_from_right(links.as_slice()) {
                let own = evaluate(symbols, e, now, later);
                are_same(&own, value)
            } else {
                let first = evaluate(symbols, a, now, later);
                let has = permits(symbols, a, value, now, later);
                last_permits(symbols, &first, has, links.as_slice(), value, now, later)
            }
        }
        _ => {
            let own = evaluate(symbols, e, now, later);
            are_same(&own, value)
        }
    }
}

// Whether one of the expressions permits the value.
#[cycle(evaluation)]
fn one_permits<'a>(
    symbols: &'a NameSet,
    elements: &[FlatExpr],
    value: &Seen<'a>,
    now: &[Seen<'a>],
    later: &[Seen<'a>],
) -> bool
    requires safe { RowSafeTrees symbols.now now.now later.now (flat_trees_of (map plain_flat elements.now)) }
    ensures { result ≡ flat_permits (symbol_value symbols.now) (row_values now.now) (row_values later.now) (flat_trees_of (map plain_flat elements.now)) (seen_value value.now) }
{
    for element in elements {
        if permits(symbols, element, value, now, later) {
            return true;
        }
    }
    false
}

// Whether a choice permits the value.
#[cycle(evaluation)]
fn chosen_permits<'a>(
    symbols: &'a NameSet,
    branches: &[FlatBranch],
    last: &FlatExpr,
    value: &Seen<'a>,
    now: &[Seen<'a>],
    later: &[Seen<'a>],
) -> bool
    requires safe { RowSafeBranches symbols.now now.now later.now (flat_branches_of (map plain_flat_branch branches.now)) }
    requires safe_last { RowSafe symbols.now now.now later.now (plain_flat last.now) }
    ensures { result ≡ (row_chosen symbols.now now.now later.now (flat_branches_of (map plain_flat_branch branches.now)) (row_denote symbols.now now.now later.now (plain_flat last.now))).permits (seen_value value.now) }
{
    for branch in branches {
        let condition = evaluate(symbols, &branch.when, now, later);
        if truth_of(&condition) {
            return permits(symbols, &branch.value, value, now, later);
        }
    }
    permits(symbols, last, value, now, later)
}

// Whether a case permits the value.
#[cycle(evaluation)]
fn taken_permits<'a>(
    symbols: &'a NameSet,
    branches: &[FlatBranch],
    value: &Seen<'a>,
    now: &[Seen<'a>],
    later: &[Seen<'a>],
) -> bool
    requires safe { RowSafeBranches symbols.now now.now later.now (flat_branches_of (map plain_flat_branch branches.now)) }
    ensures { result ≡ (row_taken symbols.now now.now later.now (flat_branches_of (map plain_flat_branch branches.now))).permits (seen_value value.now) }
{
    match branches.split_last() {
        None => are_same(&no_seen(), value),
        Some((last, firsts)) => chosen_permits(symbols, firsts, &last.value, value, now, later),
    }
}

// Whether a chain permits the value, given the value of its first operand and whether that operand permits the value.
#[cycle(evaluation)]
fn last_permits<'a>(
    symbols: &'a NameSet,
    first: &Seen<'a>,
    first_has: bool,
    links: &[FlatLink],
    value: &Seen<'a>,
    now: &[Seen<'a>],
    later: &[Seen<'a>],
) -> bool
    requires safe { RowSafeLinks symbols.now now.now later.now (seen_value first.now) (flat_links_of (map plain_flat_link links.now)) }
    ensures { result ≡ row_fronts_permit symbols.now now.now later.now (seen_value value.now) (seen_value first.now) first_has (flat_links_of (map plain_flat_link links.now)) }
{
    let mut front = copy_value(first);
    let mut has = first_has;
    for link in links {
        let next = next_front(symbols, link.op, &front, &link.operand, now, later);
        if let Infix::Union = link.op {
            let operand_has = permits(symbols, &link.operand, value, now, later);
            has = has || operand_has;
        } else {
            has = are_same_plain(&next, value);
        }
        front = seen_of(next);
    }
    has
}
