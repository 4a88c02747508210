// Checks and types of nodes with several operands.
ghost use Rattle.std.specs.Prelude.{◌≡◌, map, option_map, MatchResult};
ghost use Rattle.std.specs.List.{list_all};
ghost use Rattle.text_core.specs.declared.end.End.TheVariants as OfEnd;
ghost use Rattle.smv_meaning.specs.Types.{is_truth_type, logical_fits, are_same, hull_of};
ghost use Rattle.smv_meaning.specs.Checks.{all_types};
ghost use Rattle.smv_intervals.specs.View.{seen};
ghost use Rattle.smv_types.specs.View.{permissions_seen};
ghost use Rattle.smv_types.specs.Outcome.{Answers, Ends};
ghost use Rattle.smv_types.specs.Steps.{implies_step, branches_step, set_step};

use crate::chains::logical_fits;
use crate::ends::{CheckEnd, answered, check, refusal};
use crate::positions::Permissions;
use smv_intervals::{Ty, hull};
use std::alloc::Global;
use text_core::kinds::smv;
use text_core::{Place, Refusal};

// The types of the operands, if all have one.
pub(crate) fn all_types(alloc: Global, types: &[Option<Ty>]) -> Result<Option<Vec<Ty>>, CheckEnd>
    ensures { MatchResult result (λ o. option_map (λ v. map seen v.items) o ≡ all_types (map (option_map seen) types.now)) (λ e. e ≡ OfEnd.NoMemory) }
{
    let mut all = Vec::new(alloc);
    for t in types {
        match t {
            Some(t) => all.push(*t)?,
            None => return Ok(None),
        }
    }
    Ok(Some(all))
}

pub(crate) fn are_truths(types: &[Ty]) -> bool
    ensures { result ≡ list_all is_truth_type (map seen types.now) }
{
    for t in types {
        if !t.is_truth() {
            return false;
        }
    }
    true
}

// Whether there is at least one type and all are the same, regardless of intervals.
#[tactic(auto, using(smv_meaning::specs::laws::Lists::front_is, smv_meaning::specs::laws::Lists::end_is))]
fn are_same(types: &[Ty]) -> bool
    ensures { result ≡ are_same (map seen types.now) }
{
    let Some((first, others)) = types.split_first() else {
        return false
    };
    for t in others {
        if !first.is_same(*t) {
            return false;
        }
    }
    true
}

// The smallest type that contains all.
#[tactic(auto, using(smv_meaning::specs::laws::Lists::front_is, smv_meaning::specs::laws::Lists::end_is))]
fn hull_of(types: &[Ty]) -> Ty
    ensures { seen result ≡ hull_of (map seen types.now) }
{
    let Some((first, others)) = types.split_first() else {
        return Ty::Truth
    };
    let mut whole = *first;
    for t in others {
        whole = hull(whole, *t);
    }
    whole
}

// Whether all fit this one as operands of a logical operator.
fn all_fit(t: Ty, types: &[Ty]) -> bool
    ensures { result ≡ list_all (logical_fits (seen t)) (map seen types.now) }
{
    for u in types {
        if !logical_fits(t, *u) {
            return false;
        }
    }
    true
}

fn implication(place: Place, types: &Option<Vec<Ty>>) -> Result<Option<Ty>, Refusal>
    ensures { Answers result (implies_step place (option_map (λ v. map seen v.items) types.now)) }
{
    match types {
        None => Ok(None),
        Some(types) => match types.as_slice() {
            [] => Err(refusal(smv::TYPE_CLASH, place)),
            [t, rest @ ..] => {
                check(smv::TYPE_CLASH, place, all_fit(*t, rest))?;
                Ok(Some(*t))
            }
        },
    }
}

fn branching(
    place: Place,
    conditions: &Option<Vec<Ty>>,
    values: &Option<Vec<Ty>>,
) -> Result<Option<Ty>, Refusal>
    ensures { Answers result (branches_step place (option_map (λ v. map seen v.items) conditions.now) (option_map (λ v. map seen v.items) values.now)) }
{
    match conditions {
        None => Ok(None),
        Some(conditions) => match values {
            None => Ok(None),
            Some(values) => {
                check(
                    smv::TYPE_CLASH,
                    place,
                    are_truths(conditions) && are_same(values),
                )?;
                Ok(Some(hull_of(values)))
            }
        },
    }
}

fn gathering(place: Place, at: Permissions, types: &Option<Vec<Ty>>) -> Result<Option<Ty>, Refusal>
    ensures { Answers result (set_step place (permissions_seen at) (option_map (λ v. map seen v.items) types.now)) }
{
    match types {
        None => {
            check(smv::SET_HERE, place, at.sets)?;
            Ok(None)
        }
        Some(types) => {
            check(smv::TYPE_CLASH, place, are_same(types))?;
            check(smv::SET_HERE, place, at.sets)?;
            Ok(Some(hull_of(types)))
        }
    }
}

/// Returns the type of a chain of `->`, or None where an operand has no type.
///
/// `types` are the types of the operands. `Err` is the refusal of the chain's own first failing check, or out of
/// memory.
pub fn check_implication(
    alloc: Global,
    place: Place,
    types: &[Option<Ty>],
) -> Result<Option<Ty>, CheckEnd>
    ensures { Ends result (implies_step place (all_types (map (option_map seen) types.now))) }
{
    let types = all_types(alloc, types)?;
    answered(implication(place, &types))
}

/// The types of the conditions and of the values of branches.
#[derive(Drop)]
pub struct BranchTypes {
    pub conditions: Vec<Option<Ty>>,
    pub values: Vec<Option<Ty>>,
}

/// Returns the type of a case or a choice, or None where it has no type.
///
/// `Err` is the refusal of the node's own first failing check, or out of memory.
pub fn check_branches(
    alloc: Global,
    place: Place,
    types: &BranchTypes,
) -> Result<Option<Ty>, CheckEnd>
    ensures { Ends result (branches_step place (all_types (map (option_map seen) types.now.conditions.items)) (all_types (map (option_map seen) types.now.values.items))) }
{
    let conditions = all_types(alloc, &types.conditions)?;
    let values = all_types(alloc, &types.values)?;
    answered(branching(place, &conditions, &values))
}

/// Returns the type of a set, or None where an element has no type.
///
/// `types` are the types of the elements. `Err` is the refusal of the set's own first failing check, or out of memory.
pub fn check_set(
    alloc: Global,
    place: Place,
    at: Permissions,
    types: &[Option<Ty>],
) -> Result<Option<Ty>, CheckEnd>
    ensures { Ends result (set_step place (permissions_seen at) (all_types (map (option_map seen) types.now))) }
{
    let types = all_types(alloc, types)?;
    answered(gathering(place, at, &types))
}
