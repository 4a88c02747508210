// Checks of assignments: only variables are assigned, and each once.
ghost use Rattle.std.specs.Prelude.{◌≡◌, ◌<◌, ◌==◌, ℕ, List, [], length, map, if◌then◌else◌, OnOk};
ghost use Rattle.smv_instances.specs.declared.instances.Instance.{Instance as PartOf};
ghost use Rattle.smv_meaning.specs.Phases.{is_assignable};
ghost use Rattle.smv_instances.specs.View.{instance_plain, found_plain};
ghost use Rattle.smv_names.specs.Outcome.{Settles};
ghost use Rattle.smv_names.specs.Assigning.{no_kinds, with_kind, kinds_clash, kinds_at, numbered_checks};

use crate::ends::NamesEnd;
use smv_instances::Target;
use smv_text::{VarKind, When};
use std::alloc::Global;
use text_core::kinds::smv;
use text_core::{NoMemory, Place, Refusal};

/// An assignment: the states to which it applies, the number of the item that it assigns, and the place of its left
/// side.
///
/// `item` is None where the target cannot be assigned for these states.
#[derive(Clone, Copy)]
pub struct NumberedAssignment {
    pub when: When,
    pub item: Option<u32>,
    pub place: Place,
}

/// The kinds of assignments that an item has.
#[derive(Clone, Copy)]
pub struct Kinds {
    pub always: bool,
    pub first: bool,
    pub following: bool,
}

/// Returns whether the target can be assigned for these states: a state variable for all, a frozen one for the first.
pub fn is_assignable(when: When, target: &Target) -> bool
    ensures { (ts : List PartOf) → result ≡ is_assignable when (found_plain (map instance_plain ts) target.now) }
{
    match target {
        Target::Variable(_, _, kind, _) => match kind {
            VarKind::State => true,
            VarKind::Frozen => match when {
                When::First => true,
                When::Always | When::Following => false,
            },
            VarKind::Input => false,
        },
        Target::Body(_, _, _, _) => false,
        Target::Instance(_) => false,
        Target::Symbol(_) => false,
        Target::Cyclic => false,
        Target::Missing => false,
    }
}

fn no_kinds() -> Kinds
    ensures { result ≡ no_kinds }
{
    Kinds {
        always: false,
        first: false,
        following: false,
    }
}

// The kinds with one more.
fn with_kind(kinds: Kinds, when: When) -> Kinds
    ensures { result ≡ with_kind kinds when }
{
    match when {
        When::Always => Kinds {
            always: true,
            first: kinds.first,
            following: kinds.following,
        },
        When::First => Kinds {
            always: kinds.always,
            first: true,
            following: kinds.following,
        },
        When::Following => Kinds {
            always: kinds.always,
            first: kinds.first,
            following: true,
        },
    }
}

// Two assignments of the same kind clash, and one for every state clashes with any other.
fn clashes(kinds: Kinds, when: When) -> bool
    ensures { result ≡ kinds_clash kinds when }
{
    match when {
        When::Always => kinds.always || kinds.first || kinds.following,
        When::First => kinds.always || kinds.first,
        When::Following => kinds.always || kinds.following,
    }
}

// Makes room for the kinds of this item.
fn make_room(kept: &mut Vec<Kinds>, item: usize) -> Result<(), NoMemory>
    ensures long { OnOk result (item < length kept.new.items) }
    ensures same { OnOk result ((n : ℕ) → kinds_at kept.new.items n ≡ kinds_at kept.old.items n) }
{
    while kept.len() <= item {
        kept.push(no_kinds())?;
    }
    Ok(())
}

// Adds a kind to those of this item.
fn add_kind(kept: &mut Vec<Kinds>, item: usize, when: When) -> Result<(), NoMemory>
    ensures { OnOk result ((n : ℕ) → kinds_at kept.new.items n ≡ (if n == item then with_kind (kinds_at kept.old.items n) when else kinds_at kept.old.items n)) }
{
    make_room(kept, item)?;
    kept[item] = with_kind(kept[item], when);
    Ok(())
}

// The kinds of this item, none where there is no room for it yet.
fn kinds_of(kept: &[Kinds], item: usize) -> Kinds
    ensures { result ≡ kinds_at kept.now item }
{
    if item < kept.len() {
        kept[item]
    } else {
        no_kinds()
    }
}

/// Checks the assignments of a model, in the order of the text.
///
/// Only state variables and frozen variables are assigned, the latter only in the first state (S22). None is assigned
/// twice for the same state (S21).
pub fn assignments_checked(alloc: Global, list: &[NumberedAssignment]) -> Result<(), NamesEnd>
    ensures { Settles result (numbered_checks [] list.now) }
{
    let mut kept = Vec::new(alloc);
    for assignment in list {
        let Some(item) = assignment.item else {
            return Err(NamesEnd::Bad(Refusal {
                kind: smv::NOT_ASSIGNABLE,
                place: assignment.place,
            }));
        };
        let item = item as usize;
        if clashes(kinds_of(kept.as_slice(), item), assignment.when) {
            return Err(NamesEnd::Bad(Refusal {
                kind: smv::ASSIGNED_TWICE,
                place: assignment.place,
            }));
        }
        add_kind(&mut kept, item, assignment.when)?;
    }
    Ok(())
}
