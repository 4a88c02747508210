// Evaluation of an expression in an instance, given the stored values of its names.
ghost use Rattle.std.specs.Prelude.{◌≡◌, ◌≤◌, ◌<◌, ◌+◌, map, max, IfSome};
ghost use Rattle.smv_text.specs.Tree.{links_of, branches_of, trees_of};
ghost use Rattle.smv_text.specs.View.{plain, plain_branch, plain_link};
ghost use Rattle.smv_meaning.specs.Operators.{called};
ghost use Rattle.smv_meaning.specs.Expressions.{is_from_right as right_first, are_implies, is_implies, implications, values_of, one_permits};
ghost use Rattle.smv_meaning.specs.Safety.{depth, branch_depth, Fits, front_value, fronts_value, fronts_permit};
ghost use Rattle.smv_evaluation.specs.Rows.{reads_now, reads_later, CachedSafe, CachedSafeLinks, CachedSafeOperands, CachedSafeBranches, CachedSafeTrees, cached_denote, IsChosen, cached_taken};
ghost use Rattle.smv_operators.specs.View.{seen_value, plain_value, plain_or};
ghost use Rattle.smv_evaluation.specs.View.{denoted_or_none};

use crate::rows::{Row, Values, value_of_path};
use smv_instances::Table;
use smv_operators::{
    Plain, Seen, apply, are_same, are_same_plain, call_one, call_two, implication, no_plain,
    no_seen, prefix_value, seen_of, selection, truth_of,
};
use smv_text::{Branch, Expr, Function, Infix, Link, Shape};

/// What the names of an expression are read from.
#[derive(Clone, Copy)]
pub struct Scene<'s, 'a> {
    pub table: &'s Table<'a>,
    /// The number of the instance in which names are read.
    pub instance: usize,
    /// The values in this state.
    pub current: &'s Row<'a>,
    /// The values of the inputs.
    pub label: &'s Values<'a>,
    /// The values in the following state.
    pub following: &'s Row<'a>,
}

/// Returns the value of an expression.
#[cycle(evaluate)]
#[tactic(auto, using(crate::proofs::Evaluating::right_low))]
pub fn evaluate<'a>(scene: &Scene<'_, 'a>, e: &'a Expr) -> Seen<'a>
    requires safe { CachedSafe scene.now (plain e.now) }
    ensures { seen_value result ≡ (cached_denote scene.now (plain e.now)).value }
{
    match &e.shape {
        Shape::True => Seen::Truth(true),
        Shape::False => Seen::Truth(false),
        Shape::Number(n) => Seen::Integer(*n as i64),
        Shape::Literal(w) => Seen::Bits(*w),
        Shape::Name(path) => value_of_path(
            scene.table,
            scene.instance,
            path,
            scene.current,
            scene.label,
        ),
        Shape::Prefix(sign, count, a) => {
            let value = evaluate(scene, a);
            if *count % 2 == 0 {
                value
            } else {
                seen_of(prefix_value(*sign, *count, &value))
            }
        }
        Shape::Chain(a, links) => {
            let first = evaluate(scene, a);
            if is_from_right(links.as_slice()) {
                match rest_implied(scene, &first, links.as_slice()) {
                    None => first,
                    Some(value) => seen_of(value),
                }
            } else {
                match last_front(scene, &first, links.as_slice()) {
                    None => first,
                    Some(value) => seen_of(value),
                }
            }
        }
        Shape::Choice(branches, last) => {
            let branch = chosen_branch(scene, branches.as_slice(), last);
            evaluate(scene, branch)
        }
        Shape::Case(branches) => match taken_branch(scene, branches.as_slice()) {
            None => no_seen(),
            Some(branch) => evaluate(scene, branch),
        },
        Shape::Select(a, high, low) => {
            let value = evaluate(scene, a);
            seen_of(selection(*high, *low, &value))
        }
        Shape::Call(f, arguments) => seen_of(call_value(scene, *f, arguments.as_slice())),
        Shape::Next(a) => evaluate(
            &Scene {
                current: scene.following,
                ..*scene
            },
            a,
        ),
        Shape::Set(_) => no_seen(),
        Shape::Range(_, _) => no_seen(),
    }
}

// A chain of `->` is right-associative.
#[tactic(auto, using(crate::proofs::Evaluating::right_front))]
fn is_from_right(links: &[Link]) -> bool
    ensures { result ≡ right_first (links_of (map plain_link links.now)) }
{
    match links.split_first() {
        None => false,
        Some(_) => all_imply(links),
    }
}

#[tactic(auto, using(crate::proofs::Evaluating::implies_front))]
fn all_imply(links: &[Link]) -> bool
    ensures { result ≡ are_implies (links_of (map plain_link links.now)) }
{
    for link in links {
        if !is_implication(link.op) {
            return false;
        }
    }
    true
}

fn is_implication(op: Infix) -> bool
    ensures { result ≡ is_implies op }
{
    match op {
        Infix::Implies => true,
        _ => false,
    }
}

// The value of the implications from the first operand on.
#[cycle(evaluate)]
fn rest_implied<'a>(scene: &Scene<'_, 'a>, first: &Seen<'a>, links: &'a [Link]) -> Option<Plain>
    requires safe { CachedSafeOperands scene.now (links_of (map plain_link links.now)) }
    ensures { plain_or result (seen_value first.now) ≡ implications (reads_now scene.now) (reads_later scene.now) (seen_value first.now) (links_of (map plain_link links.now)) }
{
    match links.split_first() {
        None => None,
        Some((link, more)) => {
            let operand = evaluate(scene, &link.operand);
            match rest_implied(scene, &operand, more) {
                None => Some(implication(first, &operand)),
                Some(rest) => Some(implication(first, &seen_of(rest))),
            }
        }
    }
}

// The value of a left-associative chain, given the value of its first operand.
#[cycle(evaluate)]
fn last_front<'a>(scene: &Scene<'_, 'a>, first: &Seen<'a>, links: &'a [Link]) -> Option<Plain>
    requires safe { CachedSafeLinks scene.now (seen_value first.now) (links_of (map plain_link links.now)) }
    ensures { plain_or result (seen_value first.now) ≡ fronts_value (reads_now scene.now) (reads_later scene.now) (seen_value first.now) (links_of (map plain_link links.now)) }
{
    let mut front = None;
    for link in links {
        let next = match front {
            None => next_front(scene, link.op, first, &link.operand),
            Some(value) => next_front(scene, link.op, &seen_of(value), &link.operand),
        };
        front = Some(next);
    }
    front
}

// The value of a chain's prefix with the next operator and operand applied.
#[cycle(evaluate)]
fn next_front<'a>(scene: &Scene<'_, 'a>, op: Infix, front: &Seen<'a>, operand: &'a Expr) -> Plain
    requires safe { CachedSafe scene.now (plain operand.now) }
    requires fits { Fits (front_value op (seen_value front.now) (cached_denote scene.now (plain operand.now))) }
    ensures { plain_value result ≡ front_value op (seen_value front.now) (cached_denote scene.now (plain operand.now)) }
{
    match op {
        Infix::Member => Plain::Truth(permits(scene, operand, front)),
        Infix::Union => no_plain(),
        _ => {
            let value = evaluate(scene, operand);
            apply(op, front, &value)
        }
    }
}

// The value of the first branch whose condition is true, or else the expression after the last colon.
#[cycle(evaluate)]
fn chosen_branch<'a>(scene: &Scene<'_, 'a>, branches: &'a [Branch], last: &'a Expr) -> &'a Expr
    requires safe { CachedSafeBranches scene.now (branches_of (map plain_branch branches.now)) }
    requires safe_last { CachedSafe scene.now (plain last.now) }
    ensures value { IsChosen scene.now (branches_of (map plain_branch branches.now)) (plain last.now) (plain result.now) }
    ensures low { depth (plain result.now) ≤ max (branch_depth (branches_of (map plain_branch branches.now))) (depth (plain last.now)) }
    ensures safe { CachedSafe scene.now (plain result.now) }
{
    let mut rest = branches;
    while let Some((branch, more)) = rest.split_first() {
        let condition = evaluate(scene, &branch.when);
        if truth_of(&condition) {
            return &branch.value;
        }
        rest = more;
    }
    last
}

// The value of the first branch whose condition is true, or else of the last branch.
#[cycle(evaluate)]
fn taken_branch<'a>(scene: &Scene<'_, 'a>, branches: &'a [Branch]) -> Option<&'a Expr>
    requires safe { CachedSafeBranches scene.now (branches_of (map plain_branch branches.now)) }
    ensures value { denoted_or_none (reads_now scene.now) (reads_later scene.now) result ≡ cached_taken scene.now (branches_of (map plain_branch branches.now)) }
    ensures low { IfSome result (λ x. depth (plain x.now) ≤ branch_depth (branches_of (map plain_branch branches.now))) }
    ensures safe { IfSome result (λ x. CachedSafe scene.now (plain x.now)) }
{
    match branches.split_last() {
        None => None,
        Some((last, firsts)) => Some(chosen_branch(scene, firsts, &last.value)),
    }
}

// The value of a function of its arguments.
#[cycle(evaluate)]
fn call_value<'a>(scene: &Scene<'_, 'a>, f: Function, arguments: &'a [Expr]) -> Plain
    requires safe { CachedSafeTrees scene.now (trees_of (map plain arguments.now)) }
    requires fits { Fits (called f (values_of (reads_now scene.now) (reads_later scene.now) (trees_of (map plain arguments.now)))) }
    ensures { plain_value result ≡ called f (values_of (reads_now scene.now) (reads_later scene.now) (trees_of (map plain arguments.now))) }
{
    if let Function::Count = f {
        let mut count = 0i64;
        for argument in arguments {
            let value = evaluate(scene, argument);
            if truth_of(&value) {
                count += 1;
            }
        }
        return Plain::Integer(count);
    }
    match arguments.split_first() {
        None => no_plain(),
        Some((first, more)) => {
            let a = evaluate(scene, first);
            match more.split_first() {
                None => call_one(f, &a),
                Some((second, others)) => {
                    let b = evaluate(scene, second);
                    match others.split_first() {
                        None => call_two(f, &a, &b),
                        Some(_) => no_plain(),
                    }
                }
            }
        }
    }
}

/// Returns whether the expression permits the value.
#[cycle(evaluate)]
pub fn permits<'a>(scene: &Scene<'_, 'a>, e: &'a Expr, value: &Seen<'a>) -> bool
    requires safe { CachedSafe scene.now (plain e.now) }
    ensures { result ≡ (cached_denote scene.now (plain e.now)).permits (seen_value value.now) }
{
    match &e.shape {
        Shape::Set(elements) => one_has(scene, elements.as_slice(), value),
        Shape::Range(low, high) => match value {
            Seen::Truth(_) => false,
            Seen::Integer(z) => *low <= *z && *z <= *high,
            Seen::Symbol(_) => false,
            Seen::Bits(_) => false,
        },
        Shape::Choice(branches, last) => {
            let branch = chosen_branch(scene, branches.as_slice(), last);
            permits(scene, branch, value)
        }
        Shape::Case(branches) => match taken_branch(scene, branches.as_slice()) {
            None => are_same(&no_seen(), value),
            Some(branch) => permits(scene, branch, value),
        },
        Shape::Next(a) => permits(
            &Scene {
                current: scene.following,
                ..*scene
            },
            a,
            value,
        ),
        Shape::Chain(a, links) => {
            if is_from_right(links.as_slice()) {
                let own = evaluate(scene, e);
                are_same(&own, value)
            } else {
                let first = evaluate(scene, a);
                let has = permits(scene, a, value);
                last_has(scene, &first, has, links.as_slice(), value)
            }
        }
        _ => {
            let own = evaluate(scene, e);
            are_same(&own, value)
        }
    }
}

// Whether one of the expressions permits the value.
#[cycle(evaluate)]
fn one_has<'a>(scene: &Scene<'_, 'a>, elements: &'a [Expr], value: &Seen<'a>) -> bool
    requires safe { CachedSafeTrees scene.now (trees_of (map plain elements.now)) }
    ensures { result ≡ one_permits (reads_now scene.now) (reads_later scene.now) (trees_of (map plain elements.now)) (seen_value value.now) }
{
    for element in elements {
        if permits(scene, element, value) {
            return true;
        }
    }
    false
}

// Whether a chain permits the value, given the value of its first operand and whether that operand permits the value.
#[cycle(evaluate)]
fn last_has<'a>(
    scene: &Scene<'_, 'a>,
    first: &Seen<'a>,
    first_has: bool,
    links: &'a [Link],
    value: &Seen<'a>,
) -> bool
    requires safe { CachedSafeLinks scene.now (seen_value first.now) (links_of (map plain_link links.now)) }
    ensures { result ≡ fronts_permit (reads_now scene.now) (reads_later scene.now) (seen_value value.now) (seen_value first.now) first_has (links_of (map plain_link links.now)) }
{
    let mut front = None;
    let mut has = first_has;
    for link in links {
        let next = match front {
            None => next_front(scene, link.op, first, &link.operand),
            Some(before) => next_front(scene, link.op, &seen_of(before), &link.operand),
        };
        if let Infix::Union = link.op {
            let operand_has = permits(scene, &link.operand, value);
            has = has || operand_has;
        } else {
            has = are_same_plain(&next, value);
        }
        front = Some(next);
    }
    has
}
