// Values that are carried forward by the numbers of items.
ghost use Rattle.std.specs.Prelude.{◌≡◌, map, replicate, slice_set, OnOk, IfOk};
ghost use Rattle.smv_meaning.specs.Values.{no_value};
ghost use Rattle.smv_operators.specs.View.{seen_value};
ghost use Rattle.smv_rows.specs.Numbered.{set_by};

use smv_meaning::Value;
use smv_numbered::Change;
use smv_operators::{Seen, borrow_value, copy_value, no_seen};
use std::alloc::Global;
use std::marker::Model;
use text_core::NoMemory;

/// The last value of each item, by item number, while changes are applied one after another.
#[derive(Drop)]
pub struct Carried<'a> {
    values: Vec<Seen<'a>>,
}

impl<'a> Model for Carried<'a> {
    ghost use Rattle.std.specs.Prelude.{List, map};
    ghost use Rattle.smv_meaning.specs.declared.value.Value.{Value as PlainValue};
    ghost use Rattle.smv_operators.specs.View.{seen_value};

    ghost Value = { List PlainValue };

    ghost view = { λ c. map seen_value c.values.items };
}

impl<'a> Carried<'a> {
    /// Returns the stand-in for a missing value, for each of `count` items.
    pub fn none(alloc: Global, count: usize) -> Result<Carried<'a>, NoMemory>
        ensures { IfOk result (λ c. c ≡ replicate count no_value) }
    {
        Ok(Carried {
            values: no_values(alloc, count)?,
        })
    }

    /// Returns these values.
    pub fn of(alloc: Global, from: &'a [Value]) -> Result<Carried<'a>, NoMemory>
        ensures { IfOk result (λ c. c ≡ from.now) }
    {
        Ok(Carried {
            values: borrow_values(alloc, from)?,
        })
    }

    /// Sets each item of these changes to its last value there.
    pub fn apply(&mut self, changes: &'a [Change])
        ensures { self.new ≡ set_by self.old changes.now }
    {
        carry_changes(changes, &mut self.values);
    }

    // The values.
    pub(crate) fn copy_into(&self, values: &mut Vec<Seen<'a>>) -> Result<(), NoMemory>
        ensures { OnOk result (map seen_value values.new.items ≡ self.now) }
    {
        copy_values(self.values.as_slice(), values)
    }
}

// The stand-in for a missing value, for each of `count` items.
fn no_values<'a>(alloc: Global, count: usize) -> Result<Vec<Seen<'a>>, NoMemory>
    ensures { IfOk result (λ values. map seen_value values.items ≡ replicate count no_value) }
{
    let mut values = Vec::new(alloc);
    while values.len() < count {
        if values.push(no_seen()).is_err() {
            return Err(NoMemory);
        }
    }
    Ok(values)
}

// The values, borrowed.
fn borrow_values<'a>(alloc: Global, from: &'a [Value]) -> Result<Vec<Seen<'a>>, NoMemory>
    ensures { IfOk result (λ values. map seen_value values.items ≡ from.now) }
{
    let mut values = Vec::new(alloc);
    for value in from {
        if values.push(borrow_value(value)).is_err() {
            return Err(NoMemory);
        }
    }
    Ok(values)
}

// Sets the item of the change to its value, where there is such an item.
fn carry_change<'a>(change: &'a Change, values: &mut Vec<Seen<'a>>)
    ensures { map seen_value values.new.items ≡ slice_set (map seen_value values.old.items) change.now.item change.now.value }
{
    let k = change.item;
    if k < values.len() {
        values[k] = borrow_value(&change.value);
    }
}

fn carry_changes<'a>(changes: &'a [Change], values: &mut Vec<Seen<'a>>)
    ensures { map seen_value values.new.items ≡ set_by (map seen_value values.old.items) changes.now }
{
    for change in changes {
        carry_change(change, values);
    }
}

// Refills the list with copies of the other one's values, in the memory that it has.
#[tactic(auto, using(crate::proofs::Copies::copied, crate::proofs::Copies::all_copied))]
fn copy_values<'a>(from: &[Seen<'a>], values: &mut Vec<Seen<'a>>) -> Result<(), NoMemory>
    ensures { OnOk result (values.new.items ≡ from.now) }
{
    values.clear();
    for value in from {
        if values.push(copy_value(value)).is_err() {
            return Err(NoMemory);
        }
    }
    Ok(())
}
