// Single nodes of flat expressions, and lists of them.
ghost use Rattle.std.specs.Prelude.{◌≡◌, ◌++◌, ◌∷◌, [], ◌||◌, false, IfOk, IfErr, OnOk, map, option_map};
ghost use Rattle.text_core.specs.declared.end.End.TheVariants as OfEnd;
ghost use Rattle.smv_intervals.specs.View.{seen};
ghost use Rattle.smv_flat.specs.FlatView.{plain_flat, plain_flat_link, plain_flat_branch, IsChained, IsNodeOf, IsRetyped};

use crate::expressions::{
    FlatBranch, FlatBranches, FlatExpr, FlatExprs, FlatLink, FlatLinks, FlatShape,
};
use smv_intervals::Ty;
use smv_text::{Infix, Link};
use smv_types::CheckEnd;
use smv_types::lists::BranchTypes;
use std::alloc::Global;
use text_core::NoMemory;

/// A flat expression with its full type, which sets have too, whether it is a set, and whether one of its paths reaches
/// an input.
#[derive(Drop)]
pub struct Typed {
    pub expr: FlatExpr,
    pub ty: Option<Ty>,
    pub is_set: bool,
    pub reaches_input: bool,
}

/// A list of arguments or elements, their types, and whether one of them reaches an input.
#[derive(Drop)]
pub struct Parts {
    pub exprs: FlatExprs,
    pub types: Vec<Option<Ty>>,
    pub reaches_input: bool,
}

/// The operands after the operators of a chain of `->`, the types of all its operands, and whether one of those after
/// the operators reaches an input.
#[derive(Drop)]
pub struct Operands {
    pub links: FlatLinks,
    pub types: Vec<Option<Ty>>,
    pub reaches_input: bool,
}

/// The operands after the operators of a chain, the type of the chain, and whether one of these operands reaches an
/// input.
#[derive(Drop)]
pub struct Rest {
    pub links: FlatLinks,
    pub ty: Option<Ty>,
    pub reaches_input: bool,
}

/// A list of branches, their types, whether a value is a set, and whether a condition or a value reaches an input.
#[derive(Drop)]
pub struct Cases {
    pub branches: FlatBranches,
    pub types: BranchTypes,
    pub has_set: bool,
    pub reaches_input: bool,
}

pub fn boxed(alloc: Global, expr: FlatExpr) -> Result<Box<FlatExpr>, CheckEnd>
    ensures ok { IfOk result (λ b. b.value ≡ expr) }
    ensures err { IfErr result (λ e. e ≡ OfEnd.NoMemory) }
{
    Ok(Box::new(alloc, expr)?)
}

/// Returns the node of this shape, whose checks have this result.
///
/// A flat set stores no type.
pub fn node(
    shape: FlatShape,
    ty: Result<Option<Ty>, CheckEnd>,
    is_set: bool,
    reaches_input: bool,
) -> Result<Typed, CheckEnd>
    ensures { IsNodeOf shape ty is_set reaches_input result }
{
    let ty = ty?;
    let own = if is_set { None } else { ty };
    Ok(Typed {
        expr: FlatExpr { ty: own, shape },
        ty,
        is_set,
        reaches_input,
    })
}

/// Returns the same node with the type that its own checks have as their result.
pub fn retyped(operand: Typed, ty: Result<Option<Ty>, CheckEnd>) -> Result<Typed, CheckEnd>
    ensures { IsRetyped operand ty result }
{
    let ty = ty?;
    Ok(Typed {
        expr: operand.expr,
        ty,
        is_set: operand.is_set,
        reaches_input: operand.reaches_input,
    })
}

/// Returns the node of a chain, given its first operand.
pub fn chained(alloc: Global, first: Typed, rest: Rest, is_set: bool) -> Result<Typed, CheckEnd>
    ensures { IsChained first rest is_set result }
{
    let inner = boxed(alloc, first.expr)?;
    let reaches_input = either(first.reaches_input, rest.reaches_input);
    node(
        FlatShape::Chain(inner, rest.links),
        Ok(rest.ty),
        is_set,
        reaches_input,
    )
}

pub fn either(a: bool, b: bool) -> bool
    ensures { result ≡ (a || b) }
{
    a || b
}

/// Returns the empty list of arguments or elements, with room for `count`.
pub fn no_parts(alloc: Global, count: usize) -> Result<Parts, NoMemory>
    ensures exprs { IfOk result (λ v. v.exprs.items ≡ []) }
    ensures types { IfOk result (λ v. v.types.items ≡ []) }
    ensures inputs { IfOk result (λ v. v.reaches_input ≡ false) }
{
    Ok(Parts {
        exprs: Vec::with_capacity(alloc, count)?,
        types: Vec::with_capacity(alloc, count)?,
        reaches_input: false,
    })
}

/// Returns the operands of a chain that has only its first one so far, with room for these links.
pub fn first_operand(alloc: Global, first: Option<Ty>, links: &[Link]) -> Result<Operands, NoMemory>
    ensures links { IfOk result (λ v. v.links.items ≡ []) }
    ensures types { IfOk result (λ v. v.types.items ≡ first ∷ []) }
    ensures inputs { IfOk result (λ v. v.reaches_input ≡ false) }
{
    let mut types = Vec::with_capacity(alloc, links.len() + 1)?;
    types.push(first)?;
    Ok(Operands {
        links: Vec::with_capacity(alloc, links.len())?,
        types,
        reaches_input: false,
    })
}

/// Returns the empty list of branches, with room for `count`.
pub fn no_cases(alloc: Global, count: usize) -> Result<Cases, NoMemory>
    ensures branches { IfOk result (λ v. v.branches.items ≡ []) }
    ensures conditions { IfOk result (λ v. v.types.conditions.items ≡ []) }
    ensures values { IfOk result (λ v. v.types.values.items ≡ []) }
    ensures set { IfOk result (λ v. v.has_set ≡ false) }
    ensures inputs { IfOk result (λ v. v.reaches_input ≡ false) }
{
    let conditions = Vec::with_capacity(alloc, count)?;
    let values = Vec::with_capacity(alloc, count)?;
    Ok(Cases {
        branches: Vec::with_capacity(alloc, count)?,
        types: BranchTypes { conditions, values },
        has_set: false,
        reaches_input: false,
    })
}

/// Appends an argument or an element.
pub fn add_part(parts: &mut Parts, part: Typed) -> Result<(), NoMemory>
    ensures exprs { OnOk result (map plain_flat parts.new.exprs.items ≡ map plain_flat parts.old.exprs.items ++ plain_flat part.expr ∷ []) }
    ensures types { OnOk result (parts.new.types.items ≡ parts.old.types.items ++ part.ty ∷ []) }
    ensures inputs { OnOk result (parts.new.reaches_input ≡ (parts.old.reaches_input || part.reaches_input)) }
{
    parts.reaches_input = either(parts.reaches_input, part.reaches_input);
    let ty = part.ty;
    parts.exprs.push(part.expr)?;
    Ok(parts.types.push(ty)?)
}

/// Appends an operator and its operand.
pub fn add_link(links: &mut FlatLinks, op: Infix, operand: FlatExpr) -> Result<(), NoMemory>
    ensures { OnOk result (map plain_flat_link links.new.items ≡ map plain_flat_link links.old.items ++ (op, plain_flat operand) ∷ []) }
{
    Ok(links.push(FlatLink { op, operand })?)
}

/// Appends an operator and its operand, with the operand's type.
pub fn add_operand(operands: &mut Operands, op: Infix, operand: Typed) -> Result<(), NoMemory>
    ensures links { OnOk result (map plain_flat_link operands.new.links.items ≡ map plain_flat_link operands.old.links.items ++ (op, plain_flat operand.expr) ∷ []) }
    ensures types { OnOk result (operands.new.types.items ≡ operands.old.types.items ++ operand.ty ∷ []) }
    ensures inputs { OnOk result (operands.new.reaches_input ≡ (operands.old.reaches_input || operand.reaches_input)) }
{
    operands.reaches_input = either(operands.reaches_input, operand.reaches_input);
    let ty = operand.ty;
    add_link(&mut operands.links, op, operand.expr)?;
    Ok(operands.types.push(ty)?)
}

/// Appends a branch.
pub fn add_branch(cases: &mut Cases, when: Typed, value: Typed) -> Result<(), NoMemory>
    ensures branches { OnOk result (map plain_flat_branch cases.new.branches.items ≡ map plain_flat_branch cases.old.branches.items ++ (plain_flat when.expr, plain_flat value.expr) ∷ []) }
    ensures conditions { OnOk result (cases.new.types.conditions.items ≡ cases.old.types.conditions.items ++ when.ty ∷ []) }
    ensures values { OnOk result (cases.new.types.values.items ≡ cases.old.types.values.items ++ value.ty ∷ []) }
    ensures set { OnOk result (cases.new.has_set ≡ (cases.old.has_set || value.is_set)) }
    ensures inputs { OnOk result (cases.new.reaches_input ≡ (cases.old.reaches_input || (when.reaches_input || value.reaches_input))) }
{
    cases.has_set = either(cases.has_set, value.is_set);
    let reaches_input = either(when.reaches_input, value.reaches_input);
    cases.reaches_input = either(cases.reaches_input, reaches_input);
    let condition = when.ty;
    let chosen = value.ty;
    push_branch(&mut cases.branches, when.expr, value.expr)?;
    cases.types.conditions.push(condition)?;
    Ok(cases.types.values.push(chosen)?)
}

#[tactic(auto, using(crate::proofs::FlatViews::branch_pushed))]
fn push_branch(branches: &mut FlatBranches, when: FlatExpr, value: FlatExpr) -> Result<(), NoMemory>
    ensures { OnOk result (map plain_flat_branch branches.new.items ≡ map plain_flat_branch branches.old.items ++ (plain_flat when, plain_flat value) ∷ []) }
{
    Ok(branches.push(FlatBranch { when, value })?)
}
