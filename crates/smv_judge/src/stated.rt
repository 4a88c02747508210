// Runs as they are judged, and the rows that they give.
ghost use Rattle.std.specs.Prelude.{◌≡◌, ◌<◌, ◌+◌, ◌^◌, List, length, map, OnOk};
ghost use Rattle.name_maps.specs.Tables.{AreDistinct};
ghost use Rattle.smv_meaning.specs.Values.{Valuation, given};
ghost use Rattle.smv_items.specs.FlatItems.{PlainFlatItem};
ghost use Rattle.smv_flat.specs.FlatParts.{parts_plain};
ghost use Rattle.smv_numbered.specs.Runs.{IsNumbered, stated_at};
ghost use Rattle.smv_rows.specs.Numbered.{values_or_none};
ghost use Rattle.smv_rows.specs.Places.{IsGiven};
ghost use Rattle.smv_rows.specs.RowOrders.{IsRowOrder};
ghost use Rattle.smv_judge.specs.Stated.{states_in, labels_in, label_in, list_at, IsJudgeable, IsCarried, end_before};

use smv_flat::FlatParts;
use smv_meaning::{Run, State, Value};
use smv_numbered::{NumberedRun, changes_between};
use smv_rows::{Carried, Row, RowOrder};
use std::alloc::Global;
use text_core::NoMemory;

/// A run as it is judged: stated by names, or by the numbers of the items.
///
/// With it comes what the first state is judged under: a label, or the first value of each item's type.
#[derive(Clone, Copy)]
pub enum Stated<'a> {
    Named(&'a Run, &'a State),
    Numbered(&'a NumberedRun, &'a [Value]),
}

/// Returns the number of states.
pub(crate) fn state_count(run: &Stated) -> usize
    ensures { (items : List PlainFlatItem) → result ≡ length (states_in items run.now) }
{
    match *run {
        Stated::Named(named, _) => named.states.len(),
        Stated::Numbered(numbered, _) => numbered.ends.len(),
    }
}

/// Returns the number of labels.
pub(crate) fn label_count(run: &Stated) -> usize
    ensures { (items : List PlainFlatItem) → result ≡ length (labels_in items run.now) }
{
    match *run {
        Stated::Named(named, _) => named.labels.len(),
        Stated::Numbered(numbered, _) => numbered.ends.len().saturating_sub(1),
    }
}

// The number of changes before those of the k-th state.
fn end_before(run: &NumberedRun, k: usize) -> usize
    requires { k < length run.now.ends + 1 }
    ensures { result ≡ end_before k run.now.ends }
{
    if k == 0 {
        return 0;
    }
    *run.ends.at(k - 1)
}

// Applies the changes of the k-th state.
fn carry<'a>(run: &'a NumberedRun, k: usize, carried: &mut Carried<'a>)
    requires within { k < length run.now.ends }
    requires numbered { IsNumbered run.now }
    ensures { (items : List PlainFlatItem) → carried.old ≡ values_or_none (stated_at items run.now.changes (end_before k run.now.ends)) → carried.new ≡ values_or_none (stated_at items run.now.changes (end_before (k + 1) run.now.ends)) }
{
    let low = end_before(run, k);
    let high = *run.ends.at(k);
    carried.apply(changes_between(run.changes.as_slice(), low, high));
}

/// Fills a row with the inputs of the label under which the first state is judged.
pub(crate) fn give_label<'a>(
    alloc: Global,
    flat: &FlatParts<'a>,
    order: &RowOrder,
    run: &Stated<'a>,
    row: &mut Row<'a>,
) -> Result<(), NoMemory>
    requires order { IsRowOrder flat.now order.now }
    requires apart { AreDistinct (map (λ m. m.name) (parts_plain flat.now).items) }
    requires some { 0 < length (states_in (parts_plain flat.now).items run.now) }
    requires judgeable { IsJudgeable flat.now order.now run.now }
    ensures { OnOk result ((after : Valuation) × IsGiven flat.now.items.now after (given (label_in (parts_plain flat.now).items run.now)) row.new.values.items) }
{
    match *run {
        Stated::Named(named, label) => {
            row.give(flat, order, named.states.at(0), label)?;
            Ok(())
        }
        Stated::Numbered(_, firsts) => {
            let carried = Carried::of(alloc, firsts)?;
            row.give_carried(flat, &carried)?;
            Ok(())
        }
    }
}

/// Fills a row with the values of the variables in the first state, under the label that the other row has the inputs of.
pub(crate) fn give_first<'a>(
    flat: &FlatParts<'a>,
    order: &RowOrder,
    run: &Stated<'a>,
    inputs: &Row<'a>,
    carried: &mut Carried<'a>,
    row: &mut Row<'a>,
) -> Result<(), NoMemory>
    requires order { IsRowOrder flat.now order.now }
    requires apart { AreDistinct (map (λ m. m.name) (parts_plain flat.now).items) }
    requires some { 0 < length (states_in (parts_plain flat.now).items run.now) }
    requires judgeable { IsJudgeable flat.now order.now run.now }
    requires inputs { (after : Valuation) × IsGiven flat.now.items.now after (given (label_in (parts_plain flat.now).items run.now)) inputs.now.values.items }
    requires carried { IsCarried (parts_plain flat.now).items run.now 0 carried.old }
    ensures row { OnOk result (IsGiven flat.now.items.now (given (list_at (states_in (parts_plain flat.now).items run.now) 0)) (given (label_in (parts_plain flat.now).items run.now)) row.new.values.items) }
    ensures carried { OnOk result (IsCarried (parts_plain flat.now).items run.now 1 carried.new) }
{
    match *run {
        Stated::Named(named, label) => {
            row.give(flat, order, named.states.at(0), label)?;
            Ok(())
        }
        Stated::Numbered(numbered, _) => {
            carry(numbered, 0, carried);
            row.give_carried(flat, carried)?;
            row.give_inputs(flat, inputs);
            Ok(())
        }
    }
}

/// Fills a row with the values of the variables in the state behind the k-th one, under the label that leads to it.
pub(crate) fn give_next<'a>(
    flat: &FlatParts<'a>,
    order: &RowOrder,
    run: &Stated<'a>,
    k: usize,
    carried: &mut Carried<'a>,
    row: &mut Row<'a>,
) -> Result<(), NoMemory>
    requires order { IsRowOrder flat.now order.now }
    requires apart { AreDistinct (map (λ m. m.name) (parts_plain flat.now).items) }
    requires small { k + 1 < 2 ^ 64 }
    requires state { k + 1 < length (states_in (parts_plain flat.now).items run.now) }
    requires label { k < length (labels_in (parts_plain flat.now).items run.now) }
    requires judgeable { IsJudgeable flat.now order.now run.now }
    requires carried { IsCarried (parts_plain flat.now).items run.now (k + 1) carried.old }
    ensures row { OnOk result (IsGiven flat.now.items.now (given (list_at (states_in (parts_plain flat.now).items run.now) (k + 1))) (given (list_at (labels_in (parts_plain flat.now).items run.now) k)) row.new.values.items) }
    ensures carried { OnOk result (IsCarried (parts_plain flat.now).items run.now ((k + 1) + 1) carried.new) }
{
    match *run {
        Stated::Named(named, _) => {
            row.give(flat, order, named.states.at(k + 1), named.labels.at(k))?;
            Ok(())
        }
        Stated::Numbered(numbered, _) => {
            carry(numbered, k + 1, carried);
            row.give_carried(flat, carried)?;
            Ok(())
        }
    }
}
