// The variables of a system, and the numbers of the items' variables.
ghost use Rattle.std.specs.Prelude.{◌≡◌, ◌<◌, ◌≤◌, ◌+◌, ◌-◌, ◌*◌, ◌^◌, ◌++◌, ◌∷◌, [], IfOk, OnOk, length, map};
ghost use Rattle.smv_items.specs.FlatItemView.{item_plain};
ghost use Rattle.smv_intervals.specs.View.{seen};
ghost use Rattle.smv_script.specs.Codes.{sort_of};
ghost use Rattle.smv_script.specs.Script.{group_of, items_in, kind_letter, same_group, variable_of, variables_in};
ghost use Rattle.smv_script_terms.specs.Groups.{AreAtMost, count_of, counted_on, counts_plain, group_plain, numbers_from, start_counts};

use moxi_terms::{Sort, Variable, Variables};
use smv_intervals::Ty;
use smv_items::{FlatItem, ItemKind};
use std::alloc::Global;
use text_core::{Name, NoMemory};

/// The list of variables that contains an item's variable (MoXI, SPIN 2024).
#[derive(Clone, Copy)]
pub enum Group {
    /// The input variables.
    Inputs,
    /// The state and frozen variables.
    Outputs,
    /// The definitions and the actual parameters.
    Locals,
}

// The next number in each list.
#[derive(Clone, Copy)]
struct Counts {
    inputs: u32,
    outputs: u32,
    locals: u32,
}

fn group_of(kind: ItemKind) -> Group
    ensures { group_plain result ≡ group_of kind }
{
    match kind {
        ItemKind::State => Group::Outputs,
        ItemKind::Frozen => Group::Outputs,
        ItemKind::Input => Group::Inputs,
        ItemKind::Define => Group::Locals,
        ItemKind::Actual => Group::Locals,
    }
}

fn is_in(group: Group, kind: ItemKind) -> bool
    ensures { result ≡ same_group (group_plain group) (group_of kind) }
{
    match group {
        Group::Inputs => matches!(group_of(kind), Group::Inputs),
        Group::Outputs => matches!(group_of(kind), Group::Outputs),
        Group::Locals => matches!(group_of(kind), Group::Locals),
    }
}

fn letter(kind: ItemKind) -> &'static [u8]
    ensures { result.now ≡ kind_letter kind }
{
    match kind {
        ItemKind::State => b"v.",
        ItemKind::Frozen => b"v.",
        ItemKind::Input => b"i.",
        ItemKind::Define => b"d.",
        ItemKind::Actual => b"a.",
    }
}

fn sort_of(width: u32, ty: Ty) -> Sort
    ensures { result ≡ sort_of width (seen ty) }
{
    match ty {
        Ty::Truth => Sort::Truth,
        Ty::Integer(_, _) => Sort::Bits(width),
        Ty::Symbol => Sort::Choice(0),
        Ty::Bits(n) => Sort::Bits(n),
    }
}

fn variable_of(alloc: Global, width: u32, item: &FlatItem) -> Result<Variable, NoMemory>
    ensures { IfOk result (λ v. v ≡ variable_of width (item_plain item.now)) }
{
    let name = Name::joined(alloc, letter(item.kind), item.name.bytes())?;
    let sort = sort_of(width, item.ty);
    Ok(Variable { name, sort })
}

/// Returns the variables of a group, in the order of their items.
pub fn variables_in(
    alloc: Global,
    width: u32,
    group: Group,
    items: &[FlatItem],
) -> Result<Variables, NoMemory>
    ensures { IfOk result (λ vs. vs ≡ variables_in width (group_plain group) (map item_plain items.now)) }
{
    let mut all = Variables::new(alloc);
    for item in items {
        add_variable(alloc, width, group, item, &mut all)?;
    }
    Ok(all)
}

// Adds the variable of an item if it is in the group.
fn add_variable(
    alloc: Global,
    width: u32,
    group: Group,
    item: &FlatItem,
    all: &mut Variables,
) -> Result<(), NoMemory>
    ensures { OnOk result (all.new ≡ all.old ++ variables_in width (group_plain group) (item_plain item.now ∷ [])) }
{
    if is_in(group, item.kind) {
        all.push(variable_of(alloc, width, item)?)?;
    }
    Ok(())
}

// The number of items in a group.
fn count_in(group: Group, items: &[FlatItem]) -> u32
    requires few { length items.now < 2 ^ 30 }
    ensures count { result ≡ length (items_in (group_plain group) (map item_plain items.now)) }
    ensures most { result ≤ length items.now }
{
    let mut count = 0;
    for item in items {
        count = counted_item(group, item, count);
    }
    count
}

fn counted_item(group: Group, item: &FlatItem, count: u32) -> u32
    requires few { count < 2 ^ 32 - 1 }
    ensures count { result ≡ count + length (items_in (group_plain group) (item_plain item.now ∷ [])) }
    ensures most { result ≤ count + 1 }
{
    if is_in(group, item.kind) {
        count + 1
    } else {
        count
    }
}

// The first number in each list.
fn start_counts(items: &[FlatItem]) -> Counts
    requires few { length items.now < 2 ^ 30 }
    ensures counts { counts_plain result ≡ start_counts (map item_plain items.now) }
    ensures most { AreAtMost (2 * length items.now) result }
{
    let outputs = count_in(Group::Inputs, items);
    let more = count_in(Group::Outputs, items);
    Counts {
        inputs: 0,
        outputs,
        locals: outputs + more,
    }
}

fn number_in(counts: Counts, group: Group) -> u32
    ensures { result ≡ count_of (counts_plain counts) (group_plain group) }
{
    match group {
        Group::Inputs => counts.inputs,
        Group::Outputs => counts.outputs,
        Group::Locals => counts.locals,
    }
}

fn counted_on(counts: Counts, group: Group) -> Counts
    requires few { AreAtMost (2 ^ 32 - 2) counts }
    ensures { counts_plain result ≡ counted_on (counts_plain counts) (group_plain group) }
{
    let mut next = counts;
    match group {
        Group::Inputs => next.inputs = counts.inputs + 1,
        Group::Outputs => next.outputs = counts.outputs + 1,
        Group::Locals => next.locals = counts.locals + 1,
    }
    next
}

/// Returns the number of each item's variable.
pub fn places_of(alloc: Global, items: &[FlatItem]) -> Result<Vec<u32>, NoMemory>
    requires few { length items.now < 2 ^ 30 }
    ensures { IfOk result (λ ps. ps.items ≡ numbers_from (start_counts (map item_plain items.now)) (map item_plain items.now)) }
{
    let mut counts = start_counts(items);
    let mut all = Vec::with_capacity(alloc, items.len())?;
    for item in items {
        let group = group_of(item.kind);
        all.push(number_in(counts, group))?;
        counts = counted_on(counts, group);
    }
    Ok(all)
}
