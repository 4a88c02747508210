// Frames that state rows of values.
ghost use Rattle.std.specs.Prelude.{◌≡◌, ◌<◌, ◌+◌, ◌^◌, length, map, IfOk, OnOk};
ghost use Rattle.smv_items.specs.FlatItemView.{item_plain};
ghost use Rattle.smv_flat_evaluation.specs.RowValues.{row_values};
ghost use Rattle.smv_script.specs.Script.{group_of, group_start, same_group};
ghost use Rattle.smv_script_terms.specs.Groups.{group_plain};
ghost use Rattle.trace_lower.specs.Stating.{frame_of, group_end, stated_of, stated_upto, variable_count};

use crate::words::Coder;
use btor_witness::{Frame, Stated, Stateds};
use smv_flat_evaluation::item_at;
use smv_items::{FlatItem, ItemKind};
use smv_operators::Seen;
use smv_script_terms::Group;
use std::alloc::Global;
use text_core::NoMemory;

// Whether the variable of an item of this kind is in the list.
fn is_in(group: Group, kind: ItemKind) -> bool
    ensures { result ≡ same_group (group_plain group) (group_of kind) }
{
    match kind {
        ItemKind::Input => matches!(group, Group::Inputs),
        ItemKind::State | ItemKind::Frozen => matches!(group, Group::Outputs),
        ItemKind::Define | ItemKind::Actual => matches!(group, Group::Locals),
    }
}

// Appends the value of an item, if its variable is in this list.
fn state_item(
    items: &[FlatItem],
    group: Group,
    k: usize,
    coder: &Coder,
    values: &[Seen],
    inputs: &mut Stateds,
) -> Result<(), NoMemory>
    requires low { k < length items.now }
    requires few { variable_count (map item_plain items.now) < 2 ^ 32 }
    requires before { inputs.old ≡ stated_upto coder.now (map item_plain items.now) (row_values values.now) (group_plain group) k }
    ensures { OnOk result (inputs.new ≡ stated_upto coder.now (map item_plain items.now) (row_values values.now) (group_plain group) (k + 1)) }
{
    let item = &items[k];
    if is_in(group, item.kind) {
        let index = inputs.len() as u32;
        let value = coder.word_of(&item_at(values, k));
        inputs.push(Stated { index, value })?;
    }
    Ok(())
}

// Appends the values of the items of one list after those of the lists before it.
fn state_group(
    items: &[FlatItem],
    group: Group,
    coder: &Coder,
    values: &[Seen],
    inputs: &mut Stateds,
) -> Result<(), NoMemory>
    requires few { variable_count (map item_plain items.now) < 2 ^ 32 }
    requires before { inputs.old ≡ stated_of coder.now (map item_plain items.now) (row_values values.now) (group_start (map item_plain items.now) (group_plain group)) }
    ensures { OnOk result (inputs.new ≡ stated_of coder.now (map item_plain items.now) (row_values values.now) (group_end (map item_plain items.now) (group_plain group))) }
{
    for k in 0..items.len() {
        state_item(items, group, k, coder, values, inputs)?;
    }
    Ok(())
}

/// Returns the frame that states each item's value as the word of its variable's input, and no state.
pub(crate) fn frame_of(
    alloc: Global,
    items: &[FlatItem],
    coder: &Coder,
    values: &[Seen],
) -> Result<Frame, NoMemory>
    requires { variable_count (map item_plain items.now) < 2 ^ 32 }
    ensures { IfOk result (λ frame. frame ≡ frame_of coder.now (map item_plain items.now) (row_values values.now)) }
{
    let mut inputs = Stateds::with_capacity(alloc, items.len())?;
    state_group(items, Group::Inputs, coder, values, &mut inputs)?;
    state_group(items, Group::Outputs, coder, values, &mut inputs)?;
    state_group(items, Group::Locals, coder, values, &mut inputs)?;
    Ok(Frame {
        states: Stateds::new(alloc),
        inputs,
    })
}
