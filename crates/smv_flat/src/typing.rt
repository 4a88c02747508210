// The checks, the type and the flat form of an expression, in one pass.
ghost use Rattle.std.specs.Prelude.{◌≡◌, ◌∷◌, [], Bool, Option, IsTrue, IfOk, IfErr, None, map, option_map};
ghost use Rattle.std.specs.List.{list_all};
ghost use Rattle.smv_text.specs.declared.tree.Path.{Path as PlainPath};
ghost use Rattle.smv_text.specs.Tree.{truth, number, literal, name, prefix, choice, cases, select, call, next, set, range, links_of, branches_of, trees_of};
ghost use Rattle.smv_text.specs.View.{plain, plain_link, plain_branch};
ghost use Rattle.smv_meaning.specs.Expressions.{paths_of};
ghost use Rattle.smv_meaning.specs.Types.{ExprType};
ghost use Rattle.smv_meaning.specs.Checks.{Named as Meaning, Position as Where, typing, single, across, linked, tree_checks, tree_types, link_checks, link_types, branch_checks, condition_types, value_types, first_failing, IsBad};
ghost use Rattle.smv_intervals.specs.View.{seen};
ghost use Rattle.smv_types.specs.View.{permissions_seen, position_seen};
ghost use Rattle.smv_types.specs.Outcome.{Ends, is_known, links_known, branches_known, trees_known};
ghost use Rattle.smv_types.specs.Steps.{passed};
ghost use Rattle.smv_types.specs.Operands.{EndsChain, implications_typing};
ghost use Rattle.smv_items.specs.FlatItems.{Leaf as PlainLeaf};
ghost use Rattle.smv_items.specs.FlatOrigins.{leaf_plain};
ghost use Rattle.smv_flat.specs.FlatTree.{flat_links_of, flat_branches_of, flat_trees_of, flat_links, flat_branches, flat_trees, has_set, links_reach, branches_reach, trees_reach, leaf_tree};
ghost use Rattle.smv_flat.specs.FlatView.{plain_flat, plain_flat_link, plain_flat_branch, plain_shape, mapped, type_of_rest, EndsTyped, MakesChoice, links_at};

use crate::expressions::FlatShape;
use crate::naming::{Naming, Untranslated};
use crate::nodes::{
    Cases, Operands, Parts, Rest, Typed, add_branch, add_link, add_operand, add_part, boxed,
    chained, either, first_operand, no_cases, no_parts, node, retyped,
};
use smv_intervals::Ty;
use smv_items::Leaf;
use smv_text::{Branch, Expr, Function, Link, Path, Prefix, Shape};
use smv_types::calls::check_call;
use smv_types::chains::{are_unions, check_front, first_standing, is_from_right, operand_standing};
use smv_types::lists::{check_branches, check_implication, check_set};
use smv_types::nodes::{check_next, check_range, check_selection, check_sign, name, number};
use smv_types::{CheckEnd, Permissions, Position, Scope, answered};
use std::alloc::Global;
use text_core::Place;
use word_core::Word;

/// Returns the type of an expression with an integer's interval, or None where it has no type though all its checks
/// hold.
///
/// Otherwise `Err` is the first refusal, one of S16 to S20 and S23 to S26, or out of memory. Checks come in the order
/// of the text, those of operands before those of their node. (NuSMV 2.6 User Manual, 2.2; the intervals and their
/// limit are this translator's own.)
pub fn type_of<C: Scope>(
    alloc: Global,
    scope: &C,
    expr: &Expr,
    position: Position,
) -> Result<Option<Ty>, CheckEnd>
    requires { IsTrue (list_all (C.knows scope.now) (paths_of (plain expr.now) [])) }
    ensures passes { IfOk result (λ o. first_failing (typing (C.names scope.now) (position_seen position) (plain expr.now)).checks ≡ None) }
    ensures typed { IfOk result (λ o. option_map seen o ≡ (typing (C.names scope.now) (position_seen position) (plain expr.now)).type) }
    ensures refused { IfErr result (λ e. IsBad e (first_failing (typing (C.names scope.now) (position_seen position) (plain expr.now)).checks)) }
{
    let names = Untranslated { scope };
    let x = typed(alloc, &names, expr, Permissions::of(position), false)?;
    Ok(x.ty)
}

fn truth_typed(place: Place, b: bool) -> Result<Typed, CheckEnd>
    ensures { (names : PlainPath → Meaning) (leaf : PlainPath → PlainLeaf) (at : Where) (under : Bool) → EndsTyped names leaf at under (truth place b) result }
{
    let shape = if b { FlatShape::True } else { FlatShape::False };
    node(shape, Ok(Some(Ty::Truth)), false, false)
}

fn number_typed(place: Place, n: u64) -> Result<Typed, CheckEnd>
    ensures { (names : PlainPath → Meaning) (leaf : PlainPath → PlainLeaf) (at : Where) (under : Bool) → EndsTyped names leaf at under (number place n) result }
{
    let ty = answered(number(place, n));
    node(FlatShape::Number(n), ty, false, false)
}

fn literal_typed(place: Place, word: &Word) -> Result<Typed, CheckEnd>
    ensures { (names : PlainPath → Meaning) (leaf : PlainPath → PlainLeaf) (at : Where) (under : Bool) → EndsTyped names leaf at under (literal place word.now) result }
{
    node(
        FlatShape::Literal(*word),
        Ok(Some(Ty::Bits(word.width()))),
        false,
        false,
    )
}

fn range_typed(place: Place, at: Permissions, low: i64, high: i64) -> Result<Typed, CheckEnd>
    ensures { (names : PlainPath → Meaning) (leaf : PlainPath → PlainLeaf) (under : Bool) → EndsTyped names leaf (permissions_seen at) under (range place low high) result }
{
    let ty = answered(check_range(place, at, low, high));
    node(FlatShape::Range(low, high), ty, true, false)
}

fn leaf_shape(leaf: Leaf, under: bool) -> FlatShape
    ensures { (type : Option ExprType) → plain_shape result type ≡ leaf_tree type under (leaf_plain leaf) }
{
    match leaf {
        Leaf::Item(k) => FlatShape::Item(k, under),
        Leaf::Symbol(s) => FlatShape::Symbol(s),
        Leaf::Nothing => FlatShape::False,
    }
}

fn name_typed<C: Naming>(
    alloc: Global,
    scope: &C,
    place: Place,
    path: &Path,
    at: Permissions,
    under: bool,
) -> Result<Typed, CheckEnd>
    requires { IsTrue (C.knows scope.now path.now) }
    ensures { EndsTyped (C.names scope.now) (C.leaves scope.now) (permissions_seen at) under (name place path.now) result }
{
    let found = scope.resolved(alloc, path)?;
    let ty = answered(name(place, at, found.named));
    let reaches_input = found.named.reaches_input;
    node(leaf_shape(found.leaf, under), ty, false, reaches_input)
}

/// Returns the type and the flat form of an expression at this position.
///
/// `under` is whether the expression is under `next`. `Err` is the refusal of its first failing check, or out of
/// memory. A set has a type too; its flat form stores none.
#[cycle(typing)]
pub fn typed<C: Naming>(
    alloc: Global,
    scope: &C,
    e: &Expr,
    at: Permissions,
    under: bool,
) -> Result<Typed, CheckEnd>
    requires { IsTrue (is_known (C.knows scope.now) (plain e.now)) }
    ensures { EndsTyped (C.names scope.now) (C.leaves scope.now) (permissions_seen at) under (plain e.now) result }
{
    let place = e.place;
    match &e.shape {
        Shape::True => truth_typed(place, true),
        Shape::False => truth_typed(place, false),
        Shape::Number(n) => number_typed(place, *n),
        Shape::Literal(word) => literal_typed(place, word),
        Shape::Name(path) => name_typed(alloc, scope, place, path, at, under),
        Shape::Prefix(sign, count, operand) => {
            prefix_typed(alloc, scope, place, *sign, *count, operand, at, under)
        }
        Shape::Chain(first, links) => {
            let links = links.as_slice();
            let x = typed(alloc, scope, first, first_standing(links, at), under)?;
            let rest = rest_typed(alloc, scope, place, x.ty, links, at, under)?;
            chained(alloc, x, rest, are_unions(links))
        }
        Shape::Choice(branches, last) => {
            let cases = branches_typed(alloc, scope, branches, at, under)?;
            choice_typed(alloc, scope, place, cases, last, at, under)
        }
        Shape::Case(branches) => case_typed(alloc, scope, place, branches, at, under),
        Shape::Select(operand, high, low) => {
            select_typed(alloc, scope, place, operand, *high, *low, at, under)
        }
        Shape::Call(function, arguments) => {
            call_typed(alloc, scope, place, *function, arguments, at, under)
        }
        Shape::Next(operand) => next_typed(alloc, scope, place, operand, at, under),
        Shape::Set(elements) => set_typed(alloc, scope, place, elements, at, under),
        Shape::Range(low, high) => range_typed(place, at, *low, *high),
    }
}

#[cycle(typing)]
fn prefix_typed<C: Naming>(
    alloc: Global,
    scope: &C,
    place: Place,
    sign: Prefix,
    count: u32,
    operand: &Expr,
    at: Permissions,
    under: bool,
) -> Result<Typed, CheckEnd>
    requires { IsTrue (is_known (C.knows scope.now) (plain operand.now)) }
    ensures { EndsTyped (C.names scope.now) (C.leaves scope.now) (permissions_seen at) under (prefix place sign count (plain operand.now)) result }
{
    let x = typed(alloc, scope, operand, at.without_sets(), under)?;
    let ty = answered(check_sign(place, sign, count, x.ty));
    let inner = boxed(alloc, x.expr)?;
    node(
        FlatShape::Prefix(sign, count, inner),
        ty,
        false,
        x.reaches_input,
    )
}

#[cycle(typing)]
fn select_typed<C: Naming>(
    alloc: Global,
    scope: &C,
    place: Place,
    operand: &Expr,
    high: u64,
    low: u64,
    at: Permissions,
    under: bool,
) -> Result<Typed, CheckEnd>
    requires { IsTrue (is_known (C.knows scope.now) (plain operand.now)) }
    ensures { EndsTyped (C.names scope.now) (C.leaves scope.now) (permissions_seen at) under (select place (plain operand.now) high low) result }
{
    let x = typed(alloc, scope, operand, at.without_sets(), under)?;
    let ty = answered(check_selection(place, x.ty, high, low));
    let inner = boxed(alloc, x.expr)?;
    node(
        FlatShape::Select(inner, high, low),
        ty,
        false,
        x.reaches_input,
    )
}

// `next` disappears: the items below it are marked.
#[cycle(typing)]
fn next_typed<C: Naming>(
    alloc: Global,
    scope: &C,
    place: Place,
    operand: &Expr,
    at: Permissions,
    under: bool,
) -> Result<Typed, CheckEnd>
    requires { IsTrue (is_known (C.knows scope.now) (plain operand.now)) }
    ensures { EndsTyped (C.names scope.now) (C.leaves scope.now) (permissions_seen at) under (next place (plain operand.now)) result }
{
    let x = typed(alloc, scope, operand, Permissions::under_next(), true)?;
    let ty = answered(check_next(place, at, x.ty));
    retyped(x, ty)
}

// The operands of a chain after its first one, whose type is given, and the type of the chain.
#[cycle(typing)]
fn rest_typed<C: Naming>(
    alloc: Global,
    scope: &C,
    place: Place,
    first: Option<Ty>,
    links: &[Link],
    at: Permissions,
    under: bool,
) -> Result<Rest, CheckEnd>
    requires { IsTrue (links_known (C.knows scope.now) (links_of (map plain_link links.now))) }
    ensures types { EndsChain (C.names scope.now) (permissions_seen at) place (option_map seen first) (links_of (map plain_link links.now)) (mapped type_of_rest result) }
    ensures links { IfOk result (λ r. flat_links_of (map plain_flat_link r.links.items) ≡ flat_links (C.names scope.now) (C.leaves scope.now) (across (links_of (map plain_link links.now)) (permissions_seen at)) under (links_of (map plain_link links.now))) }
    ensures inputs { IfOk result (λ r. r.reaches_input ≡ links_reach (C.names scope.now) (links_of (map plain_link links.now))) }
{
    if is_from_right(links) {
        implications_typed(alloc, scope, place, first, links, at.without_sets(), under)
    } else {
        fronts_typed(
            alloc,
            scope,
            place,
            first,
            links,
            first_standing(links, at),
            under,
        )
    }
}

#[cycle(typing)]
fn implications_typed<C: Naming>(
    alloc: Global,
    scope: &C,
    place: Place,
    first: Option<Ty>,
    links: &[Link],
    at: Permissions,
    under: bool,
) -> Result<Rest, CheckEnd>
    requires { IsTrue (links_known (C.knows scope.now) (links_of (map plain_link links.now))) }
    ensures types { Ends (mapped type_of_rest result) (implications_typing (C.names scope.now) (permissions_seen at) place (option_map seen first) (links_of (map plain_link links.now))) }
    ensures links { IfOk result (λ r. flat_links_of (map plain_flat_link r.links.items) ≡ links_at (C.names scope.now) (C.leaves scope.now) (permissions_seen at) under (links_of (map plain_link links.now))) }
    ensures inputs { IfOk result (λ r. r.reaches_input ≡ links_reach (C.names scope.now) (links_of (map plain_link links.now))) }
{
    let operands = operands_typed(alloc, scope, first, links, at, under)?;
    let ty = check_implication(alloc, place, &operands.types)?;
    Ok(Rest {
        links: operands.links,
        ty,
        reaches_input: operands.reaches_input,
    })
}

#[cycle(typing)]
fn operands_typed<C: Naming>(
    alloc: Global,
    scope: &C,
    first: Option<Ty>,
    links: &[Link],
    at: Permissions,
    under: bool,
) -> Result<Operands, CheckEnd>
    requires { IsTrue (links_known (C.knows scope.now) (links_of (map plain_link links.now))) }
    ensures passes { IfOk result (λ v. first_failing (link_checks (C.names scope.now) (permissions_seen at) (links_of (map plain_link links.now))) ≡ None) }
    ensures types { IfOk result (λ v. map (option_map seen) v.types.items ≡ option_map seen first ∷ link_types (C.names scope.now) (permissions_seen at) (links_of (map plain_link links.now))) }
    ensures links { IfOk result (λ v. flat_links_of (map plain_flat_link v.links.items) ≡ links_at (C.names scope.now) (C.leaves scope.now) (permissions_seen at) under (links_of (map plain_link links.now))) }
    ensures inputs { IfOk result (λ v. v.reaches_input ≡ links_reach (C.names scope.now) (links_of (map plain_link links.now))) }
    ensures refused { IfErr result (λ e. IsBad e (first_failing (link_checks (C.names scope.now) (permissions_seen at) (links_of (map plain_link links.now))))) }
{
    let mut operands = first_operand(alloc, first, links)?;
    for link in links {
        let x = typed(alloc, scope, &link.operand, at, under)?;
        add_operand(&mut operands, link.op, x)?;
    }
    Ok(operands)
}

// The checks of each prefix of a chain in turn.
#[cycle(typing)]
fn fronts_typed<C: Naming>(
    alloc: Global,
    scope: &C,
    place: Place,
    first: Option<Ty>,
    links: &[Link],
    at: Permissions,
    under: bool,
) -> Result<Rest, CheckEnd>
    requires { IsTrue (links_known (C.knows scope.now) (links_of (map plain_link links.now))) }
    ensures types { Ends (mapped type_of_rest result) (linked (C.names scope.now) (permissions_seen at) place (passed (option_map seen first)) (links_of (map plain_link links.now))) }
    ensures links { IfOk result (λ r. flat_links_of (map plain_flat_link r.links.items) ≡ flat_links (C.names scope.now) (C.leaves scope.now) (permissions_seen at) under (links_of (map plain_link links.now))) }
    ensures inputs { IfOk result (λ r. r.reaches_input ≡ links_reach (C.names scope.now) (links_of (map plain_link links.now))) }
{
    let mut operands = Vec::with_capacity(alloc, links.len())?;
    let mut whole = first;
    let mut reaches_input = false;
    for link in links {
        let standing = operand_standing(link.op, at);
        let x = typed(alloc, scope, &link.operand, standing, under)?;
        let ty = x.ty;
        reaches_input = either(reaches_input, x.reaches_input);
        add_link(&mut operands, link.op, x.expr)?;
        whole = answered(check_front(link.op, at, place, whole, ty, &link.operand))?;
    }
    Ok(Rest {
        links: operands,
        ty: whole,
        reaches_input,
    })
}

#[cycle(typing)]
fn call_typed<C: Naming>(
    alloc: Global,
    scope: &C,
    place: Place,
    function: Function,
    arguments: &[Expr],
    at: Permissions,
    under: bool,
) -> Result<Typed, CheckEnd>
    requires { IsTrue (trees_known (C.knows scope.now) (trees_of (map plain arguments.now))) }
    ensures { EndsTyped (C.names scope.now) (C.leaves scope.now) (permissions_seen at) under (call place function (trees_of (map plain arguments.now))) result }
{
    let parts = parts_typed(alloc, scope, arguments, at.without_sets(), under)?;
    let ty = check_call(alloc, place, function, &parts.types, arguments);
    node(
        FlatShape::Call(function, parts.exprs),
        ty,
        false,
        parts.reaches_input,
    )
}

#[cycle(typing)]
fn set_typed<C: Naming>(
    alloc: Global,
    scope: &C,
    place: Place,
    elements: &[Expr],
    at: Permissions,
    under: bool,
) -> Result<Typed, CheckEnd>
    requires { IsTrue (trees_known (C.knows scope.now) (trees_of (map plain elements.now))) }
    ensures { EndsTyped (C.names scope.now) (C.leaves scope.now) (permissions_seen at) under (set place (trees_of (map plain elements.now))) result }
{
    let parts = parts_typed(alloc, scope, elements, at, under)?;
    let ty = check_set(alloc, place, at, &parts.types);
    node(FlatShape::Set(parts.exprs), ty, true, parts.reaches_input)
}

// The arguments of a call, or the elements of a set.
#[cycle(typing)]
fn parts_typed<C: Naming>(
    alloc: Global,
    scope: &C,
    parts: &[Expr],
    at: Permissions,
    under: bool,
) -> Result<Parts, CheckEnd>
    requires { IsTrue (trees_known (C.knows scope.now) (trees_of (map plain parts.now))) }
    ensures passes { IfOk result (λ v. first_failing (tree_checks (C.names scope.now) (permissions_seen at) (trees_of (map plain parts.now))) ≡ None) }
    ensures types { IfOk result (λ v. map (option_map seen) v.types.items ≡ tree_types (C.names scope.now) (permissions_seen at) (trees_of (map plain parts.now))) }
    ensures exprs { IfOk result (λ v. flat_trees_of (map plain_flat v.exprs.items) ≡ flat_trees (C.names scope.now) (C.leaves scope.now) (permissions_seen at) under (trees_of (map plain parts.now))) }
    ensures inputs { IfOk result (λ v. v.reaches_input ≡ trees_reach (C.names scope.now) (trees_of (map plain parts.now))) }
    ensures refused { IfErr result (λ e. IsBad e (first_failing (tree_checks (C.names scope.now) (permissions_seen at) (trees_of (map plain parts.now))))) }
{
    let mut all = no_parts(alloc, parts.len())?;
    for part in parts {
        let x = typed(alloc, scope, part, at, under)?;
        add_part(&mut all, x)?;
    }
    Ok(all)
}

// A choice, given its branches.
#[cycle(typing)]
fn choice_typed<C: Naming>(
    alloc: Global,
    scope: &C,
    place: Place,
    mut cases: Cases,
    last: &Expr,
    at: Permissions,
    under: bool,
) -> Result<Typed, CheckEnd>
    requires { IsTrue (is_known (C.knows scope.now) (plain last.now)) }
    ensures { MakesChoice (C.names scope.now) (C.leaves scope.now) (permissions_seen at) under place cases (plain last.now) result }
{
    let x = typed(alloc, scope, last, at, under)?;
    cases.types.values.push(x.ty)?;
    let ty = check_branches(alloc, place, &cases.types);
    let inner = boxed(alloc, x.expr)?;
    let is_set = either(cases.has_set, x.is_set);
    let reaches_input = either(cases.reaches_input, x.reaches_input);
    node(
        FlatShape::Choice(cases.branches, inner),
        ty,
        is_set,
        reaches_input,
    )
}

#[cycle(typing)]
fn case_typed<C: Naming>(
    alloc: Global,
    scope: &C,
    place: Place,
    branches: &[Branch],
    at: Permissions,
    under: bool,
) -> Result<Typed, CheckEnd>
    requires { IsTrue (branches_known (C.knows scope.now) (branches_of (map plain_branch branches.now))) }
    ensures { EndsTyped (C.names scope.now) (C.leaves scope.now) (permissions_seen at) under (cases place (branches_of (map plain_branch branches.now))) result }
{
    let cases = branches_typed(alloc, scope, branches, at, under)?;
    let ty = check_branches(alloc, place, &cases.types);
    node(
        FlatShape::Case(cases.branches),
        ty,
        cases.has_set,
        cases.reaches_input,
    )
}

// The branches of a case or a choice.
#[cycle(typing)]
fn branches_typed<C: Naming>(
    alloc: Global,
    scope: &C,
    branches: &[Branch],
    at: Permissions,
    under: bool,
) -> Result<Cases, CheckEnd>
    requires { IsTrue (branches_known (C.knows scope.now) (branches_of (map plain_branch branches.now))) }
    ensures passes { IfOk result (λ v. first_failing (branch_checks (C.names scope.now) (permissions_seen at) (branches_of (map plain_branch branches.now))) ≡ None) }
    ensures conditions { IfOk result (λ v. map (option_map seen) v.types.conditions.items ≡ condition_types (C.names scope.now) (single (permissions_seen at)) (branches_of (map plain_branch branches.now))) }
    ensures values { IfOk result (λ v. map (option_map seen) v.types.values.items ≡ value_types (C.names scope.now) (permissions_seen at) (branches_of (map plain_branch branches.now)) []) }
    ensures branches { IfOk result (λ v. flat_branches_of (map plain_flat_branch v.branches.items) ≡ flat_branches (C.names scope.now) (C.leaves scope.now) (permissions_seen at) under (branches_of (map plain_branch branches.now))) }
    ensures set { IfOk result (λ v. v.has_set ≡ has_set (branches_of (map plain_branch branches.now))) }
    ensures inputs { IfOk result (λ v. v.reaches_input ≡ branches_reach (C.names scope.now) (branches_of (map plain_branch branches.now))) }
    ensures refused { IfErr result (λ e. IsBad e (first_failing (branch_checks (C.names scope.now) (permissions_seen at) (branches_of (map plain_branch branches.now))))) }
{
    let mut cases = no_cases(alloc, branches.len())?;
    for branch in branches {
        let when = typed(alloc, scope, &branch.when, at.without_sets(), under)?;
        let value = typed(alloc, scope, &branch.value, at, under)?;
        add_branch(&mut cases, when, value)?;
    }
    Ok(cases)
}
