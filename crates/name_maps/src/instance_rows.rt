// Values of names in instances, found without a scan.
ghost use Rattle.std.specs.Prelude.{◌≡◌, List, ℕ, Some, None, is_none, is_some, IfOk, OnOk, bytes_eq, ◌&&◌, ◌==◌, if◌then◌else◌};
ghost use Rattle.name_maps.specs.Rows.{row_in};
ghost use Rattle.name_maps.specs.Sorted.{sorted_named};

use crate::buckets::{Buckets, add_to_buckets, empty_buckets, value_in_buckets};
use crate::sorted_named::{SortedNames, has_sorted, none_sorted, set_sorted, sorted_value};
use std::alloc::Global;
use text_core::NoMemory;

/// A map from an instance's number and a name's bytes to a value, with one bucket for each expected name.
///
/// A name whose bucket is full when its value is set has it in an ordered map. So names that were chosen to have one
/// hash are found without a scan too.
#[derive(Drop)]
pub struct InstanceRows<'a, V> {
    pub buckets: Buckets<'a, V>,
    pub others: SortedNames<V>,
    pub alloc: Global,
}

/// Returns the empty map, with buckets for `expected` names.
///
/// Lookups need no scan as long as there are not many more names than expected.
#[tactic(auto, unfolding(crate::specs::Rows::row_in))]
pub fn no_rows_in<'a, V: Drop>(
    alloc: Global,
    expected: usize,
) -> Result<InstanceRows<'a, V>, NoMemory>
    ensures { IfOk result (λ m. (i : ℕ) (x : List ℕ) → row_in m i x ≡ None) }
{
    let buckets = empty_buckets(alloc, expected)?;
    Ok(InstanceRows {
        buckets,
        others: none_sorted(alloc),
        alloc,
    })
}

// Returns whether this name of instance `i` has a value outside the buckets. Almost always there is none.
#[inline(always)]
fn is_other<'a, V>(map: &InstanceRows<'a, V>, i: usize, x: &[u8]) -> bool
    ensures { result ≡ is_some (sorted_named map.now.others i x.now) }
{
    !map.others.is_empty() && has_sorted(&map.others, i, x)
}

#[inline(always)]
fn other_value<'a, V: Copy>(map: &InstanceRows<'a, V>, i: usize, x: &[u8]) -> Option<V>
    ensures { result ≡ sorted_named map.now.others i x.now }
{
    if map.others.is_empty() {
        return None;
    }
    sorted_value(&map.others, i, x)
}

/// Sets the value of this name in instance `i`.
///
/// It replaces any earlier value.
#[tactic(auto, unfolding(crate::specs::Rows::row_in))]
pub fn add_row_in<'a, V: Drop>(
    map: &mut InstanceRows<'a, V>,
    i: usize,
    x: &'a [u8],
    value: V,
) -> Result<(), NoMemory>
    ensures { OnOk result ((j : ℕ) (y : List ℕ) → row_in map.new j y ≡ (if i == j && bytes_eq x.now y then Some value else row_in map.old j y)) }
{
    if is_other(map, i, x) {
        return set_sorted(&mut map.others, map.alloc, i, x, value);
    }
    match add_to_buckets(&mut map.buckets, i, x, value)? {
        None => Ok(()),
        Some(value) => set_sorted(&mut map.others, map.alloc, i, x, value),
    }
}

/// Sets the number of this name in instance `i`, unless it has one.
pub fn add_first_in<'a>(
    numbers: &mut InstanceRows<'a, usize>,
    i: usize,
    x: &'a [u8],
    n: usize,
) -> Result<(), NoMemory>
    ensures { OnOk result ((j : ℕ) (y : List ℕ) → row_in numbers.new j y ≡ (if is_none (row_in numbers.old j y) && (i == j && bytes_eq x.now y) then Some n else row_in numbers.old j y)) }
{
    match row_value_in(numbers, i, x) {
        Some(_) => Ok(()),
        None => add_row_in(numbers, i, x, n),
    }
}

/// Returns the value of this name in instance `i`, or None.
#[tactic(auto, unfolding(crate::specs::Rows::row_in))]
pub fn row_value_in<'a, V: Copy>(map: &InstanceRows<'a, V>, i: usize, x: &[u8]) -> Option<V>
    ensures { result ≡ row_in map.now i x.now }
{
    match other_value(map, i, x) {
        Some(value) => Some(value),
        None => value_in_buckets(&map.buckets, i, x),
    }
}
