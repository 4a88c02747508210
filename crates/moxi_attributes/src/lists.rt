// The three lists of variables of a system or a check.
ghost use Rattle.std.specs.Prelude.{◌≡◌, ◌++◌, IfOk, OnOk};
ghost use Rattle.moxi_sexpr.specs.Tree.{plain_forms};
ghost use Rattle.moxi_attributes.specs.Views.{value_now};
ghost use Rattle.moxi_scripts.specs.Attributes.{value_of};
ghost use Rattle.moxi_scripts.specs.declared.parts.Key.TheVariants as keys;
ghost use Rattle.moxi_scripts.specs.declared.parts.Turn.TheVariants as turns;
ghost use Rattle.moxi_scripts.specs.Collecting.{also};
ghost use Rattle.moxi_scripts.specs.Lists.{all_entries, are_shaped, entries_at, entries_behind, list_of, list_shape};
ghost use Rattle.moxi_scripts.specs.Lists.{listed_entries, listed_failures, lists_failures, text_entries};

use crate::attributes::{turn_after, value_of};
use crate::collect::{is_nothing, note};
use crate::entries::{append, read_entries, test_twice};
use crate::shapes::{parts_of, place_of};
use moxi_scripts::{Command, DeclaredList, Entries, Key, Lists, Turn};
use moxi_sexpr::Form;
use moxi_terms::Scope;
use name_maps::NameSet;
use std::alloc::Global;
use text_core::{NoMemory, Refusal};

// Appends the entries of a list that may be missing, and returns whether it has its shape.
#[tactic(auto, using(crate::specs::laws::Collecting::also_none, crate::specs::laws::Collecting::nothing_more))]
fn read_entries_of(
    alloc: Global,
    scope: &Scope,
    value: Option<&Form>,
    entries: &mut Entries,
    found: &mut Option<Refusal>,
) -> Result<bool, NoMemory>
    ensures shaped { IfOk result (λ b. b ≡ list_shape (value_now value.entry)) }
    ensures adds { OnOk result (entries.new ≡ entries.old ++ listed_entries scope.now (value_now value.entry)) }
    ensures finds { OnOk result (found.new ≡ also found.old (listed_failures scope.now (value_now value.entry))) }
{
    match value {
        None => Ok(true),
        Some(form) => match parts_of(form) {
            None => Ok(true),
            Some(parts) => {
                let shaped = read_entries(alloc, scope, place_of(form), parts, entries, found)?;
                Ok(shaped)
            }
        },
    }
}

// The most variables that a list can declare: the number of its forms.
fn most_entries(value: Option<&Form>) -> usize {
    match value {
        None => 0,
        Some(form) => match parts_of(form) {
            None => 0,
            Some(parts) => parts.len(),
        },
    }
}

// Reads the list that is the value of a key.
fn read_list(
    alloc: Global,
    scope: &Scope,
    command: Command,
    k: Key,
    forms: &[Form],
    found: &mut Option<Refusal>,
) -> Result<DeclaredList, NoMemory>
    ensures list { IfOk result (λ l. l ≡ list_of scope.now (value_of command k turns.AtKeyword (plain_forms forms.now))) }
    ensures finds { OnOk result (found.new ≡ also found.old (listed_failures scope.now (value_of command k turns.AtKeyword (plain_forms forms.now)))) }
{
    let value = value_of(command, k, forms);
    let mut entries = Entries::with_capacity(alloc, most_entries(value))?;
    let mut failure = None;
    let shaped = read_entries_of(alloc, scope, value, &mut entries, &mut failure)?;
    note(found, failure);
    Ok(DeclaredList {
        entries,
        shaped,
        whole: is_nothing(failure),
    })
}

/// Appends the variables of all lists: inputs, then outputs, then locals.
#[tactic(auto, using(crate::specs::laws::Collecting::list_joined))]
pub fn append_lists(alloc: Global, all: &mut Entries, lists: &Lists) -> Result<(), NoMemory>
    ensures { OnOk result (all.new ≡ all.old ++ all_entries lists.now) }
{
    append(alloc, all, &lists.inputs.entries)?;
    append(alloc, all, &lists.outputs.entries)?;
    append(alloc, all, &lists.locals.entries)
}

/// Returns the variables of all lists: inputs, then outputs, then locals.
pub fn all_entries(alloc: Global, lists: &Lists) -> Result<Entries, NoMemory>
    ensures { IfOk result (λ all. all ≡ all_entries lists.now) }
{
    let mut all = Entries::new(alloc);
    append_lists(alloc, &mut all, lists)?;
    Ok(all)
}

/// Returns whether each list has its shape.
pub fn are_shaped(lists: &Lists) -> bool
    ensures { result ≡ are_shaped lists.now }
{
    lists.inputs.shaped && lists.outputs.shaped && lists.locals.shaped
}

// Appends the variables of the list of a key.
#[tactic(auto, using(crate::specs::laws::Collecting::nothing_more))]
fn append_list(alloc: Global, lists: &Lists, k: Key, text: &mut Entries) -> Result<(), NoMemory>
    ensures { OnOk result (text.new ≡ text.old ++ entries_at lists.now k) }
{
    match k {
        Key::Input => append(alloc, text, &lists.inputs.entries),
        Key::Output => append(alloc, text, &lists.outputs.entries),
        Key::Local => append(alloc, text, &lists.locals.entries),
        Key::Init => Ok(()),
        Key::Trans => Ok(()),
        Key::Inv => Ok(()),
        Key::Subsystem => Ok(()),
        Key::Assumption => Ok(()),
        Key::Current => Ok(()),
        Key::Reachable => Ok(()),
        Key::Query => Ok(()),
        Key::Queries => Ok(()),
    }
}

#[tactic(auto, using(crate::specs::laws::Collecting::nothing_more))]
fn append_behind(
    alloc: Global,
    lists: &Lists,
    turn: Turn,
    text: &mut Entries,
) -> Result<(), NoMemory>
    ensures { OnOk result (text.new ≡ text.old ++ entries_behind lists.now turn) }
{
    match turn {
        Turn::AtKeyword => Ok(()),
        Turn::Behind(k) => append_list(alloc, lists, k, text),
        Turn::Passing => Ok(()),
    }
}

/// Returns the variables of all lists in the order of the text.
pub fn text_entries(
    alloc: Global,
    lists: &Lists,
    command: Command,
    forms: &[Form],
) -> Result<Entries, NoMemory>
    ensures { IfOk result (λ text. text ≡ text_entries lists.now command turns.AtKeyword (plain_forms forms.now)) }
{
    let mut text = Entries::new(alloc);
    let mut turn = Turn::AtKeyword;
    for form in forms {
        append_behind(alloc, lists, turn, &mut text)?;
        turn = turn_after(command, turn, form);
    }
    Ok(text)
}

/// Reads the lists of a system or a check.
///
/// It does not test for names declared twice.
#[tactic(auto, using(crate::specs::laws::Collecting::also_append))]
pub fn read_lists(
    alloc: Global,
    scope: &Scope,
    command: Command,
    forms: &[Form],
    found: &mut Option<Refusal>,
) -> Result<Lists, NoMemory>
    ensures inputs { IfOk result (λ l. l.inputs ≡ list_of scope.now (value_of command keys.Input turns.AtKeyword (plain_forms forms.now))) }
    ensures outputs { IfOk result (λ l. l.outputs ≡ list_of scope.now (value_of command keys.Output turns.AtKeyword (plain_forms forms.now))) }
    ensures locals { IfOk result (λ l. l.locals ≡ list_of scope.now (value_of command keys.Local turns.AtKeyword (plain_forms forms.now))) }
    ensures finds { OnOk result (found.new ≡ also found.old (lists_failures scope.now command (plain_forms forms.now))) }
{
    let inputs = read_list(alloc, scope, command, Key::Input, forms, found)?;
    let outputs = read_list(alloc, scope, command, Key::Output, forms, found)?;
    let locals = read_list(alloc, scope, command, Key::Local, forms, found)?;
    Ok(Lists {
        inputs,
        outputs,
        locals,
    })
}
