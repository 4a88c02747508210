// The values of the items after some changes.
ghost use Rattle.std.specs.Prelude.{◌≡◌, ◌≤◌, ◌-◌, None, Some, map, length, replicate, slice_set, take, drop, IfOk};
ghost use Rattle.smv_numbered.specs.Values.{stated_by, stated_value};

use crate::run::Change;
use smv_meaning::Value;
use std::alloc::Global;
use text_core::NoMemory;

/// Returns a list without a value for any of `count` items.
pub(crate) fn nothing_stated<'a>(
    alloc: Global,
    count: usize,
) -> Result<Vec<Option<&'a Value>>, NoMemory>
    ensures size { IfOk result (λ stated. length stated.items ≡ count) }
    ensures none { IfOk result (λ stated. map stated_value stated.items ≡ replicate count None) }
{
    let mut stated = Vec::new(alloc);
    while stated.len() < count {
        if stated.push(None).is_err() {
            return Err(NoMemory);
        }
    }
    Ok(stated)
}

// Sets the item of the change to its value, where there is such an item.
fn give_change<'a>(change: &'a Change, stated: &mut Vec<Option<&'a Value>>)
    ensures size { length stated.new.items ≡ length stated.old.items }
    ensures value { map stated_value stated.new.items ≡ slice_set (map stated_value stated.old.items) change.now.item (Some change.now.value) }
{
    let k = change.item;
    if k < stated.len() {
        stated[k] = Some(&change.value);
    }
}

/// Sets each item of these changes to its last value there.
pub fn give_changes<'a>(changes: &'a [Change], stated: &mut Vec<Option<&'a Value>>)
    ensures size { length stated.new.items ≡ length stated.old.items }
    ensures values { map stated_value stated.new.items ≡ stated_by (map stated_value stated.old.items) changes.now }
{
    for change in changes {
        give_change(change, stated);
    }
}

/// Returns the changes from one number of changes up to another one.
pub fn changes_between(changes: &[Change], low: usize, high: usize) -> &[Change]
    requires rising { low ≤ high }
    requires within { high ≤ length changes.now }
    ensures { result.now ≡ take (high - low) (drop low changes.now) }
{
    &changes[low..high]
}
