// The values of a flat form's variables in a state and a label.
ghost use Rattle.std.specs.Prelude.{◌≡◌, ℕ, List, Some, length, map, if◌then◌else◌, bytes_eq, OnOk};
ghost use Rattle.name_maps.specs.Names.{place_of};
ghost use Rattle.smv_meaning.specs.Values.{no_value, given};
ghost use Rattle.smv_operators.specs.View.{seen_value};
ghost use Rattle.smv_flat_evaluation.specs.RowValues.{row_values};
ghost use Rattle.smv_rows.specs.Places.{NamesHave, given_value};

use crate::places::ItemPlace;
use name_maps::{NameTable, Successors};
use smv_flat_evaluation::item_at;
use smv_items::ItemKind;
use smv_meaning::{State, Value};
use smv_operators::{Seen, borrow_value, no_seen};
use text_core::NoMemory;

// Refills the list with `count` stand-ins for missing values, in the memory that it has.
fn clear_values<'a>(count: usize, values: &mut Vec<Seen<'a>>) -> Result<(), NoMemory>
    ensures size { OnOk result (length values.new.items ≡ count) }
    ensures none { OnOk result ((p : ℕ) → row_values values.new.items p ≡ no_value) }
{
    values.clear();
    while values.len() < count {
        if values.push(no_seen()).is_err() {
            return Err(NoMemory);
        }
    }
    Ok(())
}

/// Sets the value of each name, at its place, to its value in the state.
///
/// Where a name occurs twice in the state, the first value counts.
pub(crate) fn give_names<'a>(
    names: &NameTable,
    state: &'a State,
    successors: &mut Successors,
    values: &mut Vec<Seen<'a>>,
) -> Result<(), NoMemory>
    ensures { OnOk result (NamesHave names.now (given state.now) values.new.items) }
{
    if state.len() == 0 {
        values.clear();
        return Ok(());
    }
    clear_values(names.len(), values)?;
    let mut k = state.len();
    while k > 0 {
        k -= 1;
        let entry = state.at(k);
        give_name(names, entry.name.bytes(), &entry.value, successors, values);
    }
    Ok(())
}

// Sets the value of a name at its place, if it is one of the names.
fn give_name<'a>(
    names: &NameTable,
    name: &[u8],
    value: &'a Value,
    successors: &mut Successors,
    values: &mut Vec<Seen<'a>>,
)
    requires { length values.old.items ≡ length names.now }
    ensures size { length values.new.items ≡ length values.old.items }
    ensures given { (x : List ℕ) (p : ℕ) → place_of names.now x ≡ Some p → row_values values.new.items p ≡ (if bytes_eq name.now x then value.now else row_values values.old.items p) }
{
    match successors.place(names, name) {
        None => {}
        Some(p) => {
            values[p] = borrow_value(value);
        }
    }
}

// The value of an item in a state, or in a label for an input. An item that is not a variable has none.
fn value_of<'a>(item: &ItemPlace, state: &[Seen<'a>], label: &[Seen<'a>]) -> Seen<'a>
    ensures { seen_value result ≡ given_value state.now label.now item.now }
{
    match item.kind {
        ItemKind::State => item_at(state, item.place),
        ItemKind::Frozen => item_at(state, item.place),
        ItemKind::Input => item_at(label, item.place),
        ItemKind::Define => no_seen(),
        ItemKind::Actual => no_seen(),
    }
}

/// Sets each variable to its value in the state, and each input to its value in the label.
///
/// The other items have no value yet.
pub(crate) fn give_variables<'a>(
    places: &[ItemPlace],
    state: &[Seen<'a>],
    label: &[Seen<'a>],
    values: &mut Vec<Seen<'a>>,
) -> Result<(), NoMemory>
    ensures { OnOk result (map seen_value values.new.items ≡ map (given_value state.now label.now) places.now) }
{
    values.clear();
    for item in places {
        if values.push(value_of(item, state, label)).is_err() {
            return Err(NoMemory);
        }
    }
    Ok(())
}
