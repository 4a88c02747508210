// The lists of values that a numbered run stands for.
ghost use Rattle.std.specs.Prelude.{◌≡◌, ◌++◌, ◌∷◌, [], None, map, length, replicate, IfOk, OnOk};
ghost use Rattle.smv_items.specs.FlatItemView.{item_plain};
ghost use Rattle.smv_numbered.specs.Values.{picks, given_if, values_of, stated_value};
ghost use Rattle.smv_numbered.specs.Runs.{run_in, IsNumbered};

use crate::changes::{changes_between, give_changes, nothing_stated};
use crate::heading::Heading;
use crate::run::NumberedRun;
use smv_items::FlatItem;
use smv_meaning::{Given, Run, State, States, Value};
use std::alloc::Global;
use text_core::NoMemory;

fn duplicate(alloc: Global, value: &Value) -> Result<Value, NoMemory>
    ensures { IfOk result (λ v. v ≡ value.now) }
{
    match value {
        Value::Truth(truth) => Ok(Value::Truth(*truth)),
        Value::Integer(number) => Ok(Value::Integer(*number)),
        Value::Symbol(name) => Ok(Value::Symbol(name.duplicate(alloc)?)),
        Value::Bits(word) => Ok(Value::Bits(*word)),
    }
}

fn given(alloc: Global, item: &FlatItem, value: &Value) -> Result<Given, NoMemory>
    ensures { IfOk result (λ g. g ≡ record { name = item.now.name; value = value.now }) }
{
    let value = duplicate(alloc, value)?;
    let name = item.name.duplicate(alloc)?;
    Ok(Given { name, value })
}

fn add_given(
    alloc: Global,
    state: &mut State,
    heading: Heading,
    item: &FlatItem,
    stated: Option<&Value>,
) -> Result<(), NoMemory>
    ensures { OnOk result (state.new ≡ state.old ++ given_if (picks heading item.now.kind) item.now.name (stated_value stated.entry)) }
{
    if !heading.picks(item.kind) {
        return Ok(());
    }
    match stated {
        Some(value) => {
            let given = given(alloc, item, value)?;
            state.push(given)
        }
        None => Ok(()),
    }
}

// The values of the heading's variables, in order. There is room for so many from the start.
fn values_of(
    alloc: Global,
    items: &[FlatItem],
    heading: Heading,
    stated: &[Option<&Value>],
    room: usize,
) -> Result<State, NoMemory>
    requires { length stated.now ≡ length items.now }
    ensures { IfOk result (λ state. state ≡ values_of heading (map item_plain items.now) (map stated_value stated.now)) }
{
    let mut state = State::with_capacity(alloc, room)?;
    for (item, value) in items.iter().zip(stated) {
        add_given(alloc, &mut state, heading, item, *value)?;
    }
    Ok(state)
}

// The room for one more list: for as many values as the last one has, or for one of each item.
fn room_behind(lists: &States, items: &[FlatItem]) -> usize {
    match lists.as_slice().last() {
        Some(state) => state.len(),
        None => items.len(),
    }
}

// Adds the list of the heading's values.
fn add_values(
    alloc: Global,
    items: &[FlatItem],
    heading: Heading,
    stated: &[Option<&Value>],
    lists: &mut States,
) -> Result<(), NoMemory>
    requires { length stated.now ≡ length items.now }
    ensures { OnOk result (lists.new ≡ lists.old ++ values_of heading (map item_plain items.now) (map stated_value stated.now) ∷ []) }
{
    let room = room_behind(lists, items);
    let values = values_of(alloc, items, heading, stated, room)?;
    lists.push(values)
}

// Adds the states and the labels of a run to those of another one without any.
fn list_run<'a>(
    alloc: Global,
    items: &[FlatItem],
    numbered: &'a NumberedRun,
    stated: &mut Vec<Option<&'a Value>>,
    run: &mut Run,
) -> Result<(), NoMemory>
    requires numbered { IsNumbered numbered.now }
    requires size { length stated.old.items ≡ length items.now }
    requires none { map stated_value stated.old.items ≡ replicate (length items.now) None }
    requires empty { run.old ≡ record { states = []; labels = [] } }
    ensures { OnOk result (run.new ≡ run_in (map item_plain items.now) numbered.now) }
{
    let changes = numbered.changes.as_slice();
    let Some((first, following)) = numbered.ends.as_slice().split_first() else {
        return Ok(())
    };
    let mut at = *first;
    give_changes(changes_between(changes, 0, at), stated);
    add_values(
        alloc,
        items,
        Heading::State,
        stated.as_slice(),
        &mut run.states,
    )?;
    for end in following {
        give_changes(changes_between(changes, at, *end), stated);
        add_values(
            alloc,
            items,
            Heading::Input,
            stated.as_slice(),
            &mut run.labels,
        )?;
        add_values(
            alloc,
            items,
            Heading::State,
            stated.as_slice(),
            &mut run.states,
        )?;
        at = *end;
    }
    Ok(())
}

/// Returns the run whose states and labels name each value, given the items whose numbers are stated.
///
/// Each state has the values of the state and frozen variables that have a value, each label those of the inputs, in the
/// order of the items.
pub fn run_of(alloc: Global, items: &[FlatItem], run: &NumberedRun) -> Result<Run, NoMemory>
    requires { IsNumbered run.now }
    ensures { IfOk result (λ r. r ≡ run_in (map item_plain items.now) run.now) }
{
    let mut stated = nothing_stated(alloc, items.len())?;
    let mut listed = Run {
        states: States::new(alloc),
        labels: States::new(alloc),
    };
    list_run(alloc, items, run, &mut stated, &mut listed)?;
    Ok(listed)
}
