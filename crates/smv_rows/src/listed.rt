// Values of states and labels that are in the order of the items.
ghost use Rattle.std.specs.Prelude.{◌≡◌, ◌<◌, ◌==◌, ℕ, Some, length, map, slice_get, if◌then◌else◌, OnOk};
ghost use Rattle.smv_operators.specs.View.{seen_value};
ghost use Rattle.smv_flat_evaluation.specs.RowValues.{row_values};
ghost use Rattle.smv_rows.specs.Listed.{first_given, behind_first, next_value, state_left, label_left, listed_values};
ghost use Rattle.smv_rows.specs.Relabelling.{input_or};

use crate::order::is_input;
use smv_flat_evaluation::item_at;
use smv_items::{FlatItem, ItemKind};
use smv_meaning::Given;
use smv_operators::{Seen, borrow_value, no_seen};
use text_core::NoMemory;

// The first value, and what is behind it.
#[inline(always)]
fn next_given<'a>(rest: &'a [Given]) -> (Seen<'a>, &'a [Given])
    ensures value { seen_value result.0 ≡ first_given rest.now }
    ensures left { result.1.now ≡ behind_first rest.now }
{
    match rest.split_first() {
        None => (no_seen(), rest),
        Some((first, more)) => (borrow_value(&first.value), more),
    }
}

// The value of an item of this kind, and what is left of the state and of the label behind it.
#[inline(always)]
fn next_value<'a>(
    kind: ItemKind,
    state: &'a [Given],
    label: &'a [Given],
) -> (Seen<'a>, &'a [Given], &'a [Given])
    ensures value { seen_value result.0 ≡ next_value kind state.now label.now }
    ensures state { result.1.now ≡ state_left kind state.now }
    ensures label { result.2.now ≡ label_left kind label.now }
{
    match kind {
        ItemKind::State => {
            let (value, left) = next_given(state);
            (value, left, label)
        }
        ItemKind::Frozen => {
            let (value, left) = next_given(state);
            (value, left, label)
        }
        ItemKind::Input => {
            let (value, left) = next_given(label);
            (value, state, left)
        }
        ItemKind::Define => (no_seen(), state, label),
        ItemKind::Actual => (no_seen(), state, label),
    }
}

/// Sets each state and frozen variable to the next value of the state, and each input to the next value of the label.
///
/// The other items have no value yet.
pub(crate) fn give_listed<'a>(
    items: &[FlatItem],
    state: &'a [Given],
    label: &'a [Given],
    values: &mut Vec<Seen<'a>>,
) -> Result<(), NoMemory>
    ensures { OnOk result (map seen_value values.new.items ≡ listed_values (map (λ m. m.kind) items.now) state.now label.now) }
{
    values.clear();
    let mut state = state;
    let mut label = label;
    for item in items {
        let (value, state_left, label_left) = next_value(item.kind, state, label);
        if values.push(value).is_err() {
            return Err(NoMemory);
        }
        state = state_left;
        label = label_left;
    }
    Ok(())
}

// Sets an item to its value in the other row, if it is an input.
#[inline(always)]
fn give_input<'a>(item: &FlatItem, k: usize, other: &[Seen<'a>], values: &mut Vec<Seen<'a>>)
    requires { k < length values.old.items }
    ensures size { length values.new.items ≡ length values.old.items }
    ensures value { (n : ℕ) → row_values values.new.items n ≡ (if k == n then input_or (Some item.now) (row_values other.now k) (row_values values.old.items k) else row_values values.old.items n) }
{
    if is_input(item.kind) {
        values[k] = item_at(other, k);
    }
}

/// Sets each input to its value in the other row.
pub(crate) fn give_inputs<'a>(items: &[FlatItem], other: &[Seen<'a>], values: &mut Vec<Seen<'a>>)
    requires { length values.old.items ≡ length items.now }
    ensures size { length values.new.items ≡ length values.old.items }
    ensures inputs { (k : ℕ) → row_values values.new.items k ≡ input_or (slice_get items.now k) (row_values other.now k) (row_values values.old.items k) }
{
    for (k, item) in items.iter().enumerate() {
        give_input(item, k, other, values);
    }
}
