// Values of names in an ordered map of each instance, found by comparing names, whatever their hashes.
ghost use Rattle.std.specs.Prelude.{◌≡◌, ◌&&◌, ◌==◌, List, ℕ, Some, None, is_some, OnOk, bytes_eq, if◌then◌else◌};
ghost use Rattle.std.specs.Ordering.{nat_cmp};
ghost use Rattle.std.specs.BTreeMap.{get};
ghost use Rattle.name_maps.specs.Sorted.{sorted_named};

use std::alloc::Global;
use std::collections::BTreeMap;
use text_core::NoMemory;

/// The values of the names of each instance, in order.
pub type SortedNames<V> = BTreeMap<usize, BTreeMap<Vec<u8>, V>>;

/// Returns the empty map.
pub fn none_sorted<V>(alloc: Global) -> SortedNames<V>
    ensures { (i : ℕ) (x : List ℕ) → sorted_named result i x ≡ None }
{
    BTreeMap::new(alloc)
}

// Adds the first name of instance `i`.
fn add_instance<V: Drop>(
    others: &mut SortedNames<V>,
    alloc: Global,
    i: usize,
    name: Vec<u8>,
    value: V,
) -> Result<(), NoMemory>
    requires { get nat_cmp others.old i ≡ None }
    ensures { OnOk result ((j : ℕ) (y : List ℕ) → sorted_named others.new j y ≡ (if i == j && bytes_eq name.items y then Some value else sorted_named others.old j y)) }
{
    let mut names = BTreeMap::new(alloc);
    names.insert(name, value)?;
    others.insert(i, names)?;
    Ok(())
}

/// Sets the value of this name in instance `i`.
///
/// It replaces any earlier value.
pub fn set_sorted<V: Drop>(
    others: &mut SortedNames<V>,
    alloc: Global,
    i: usize,
    x: &[u8],
    value: V,
) -> Result<(), NoMemory>
    ensures { OnOk result ((j : ℕ) (y : List ℕ) → sorted_named others.new j y ≡ (if i == j && bytes_eq x.now y then Some value else sorted_named others.old j y)) }
{
    let name = x.to_vec(alloc)?;
    match others.get_mut(&i) {
        Some(names) => {
            names.insert(name, value)?;
            Ok(())
        }
        None => add_instance(others, alloc, i, name, value),
    }
}

/// Returns the value of this name in instance `i`, or None.
#[inline(never)]
pub fn sorted_value<V: Copy>(others: &SortedNames<V>, i: usize, x: &[u8]) -> Option<V>
    ensures { result ≡ sorted_named others.now i x.now }
{
    match others.get(&i) {
        Some(names) => names.get(x).copied(),
        None => None,
    }
}

/// Returns whether this name of instance `i` has a value.
#[inline(never)]
pub fn has_sorted<V>(others: &SortedNames<V>, i: usize, x: &[u8]) -> bool
    ensures { result ≡ is_some (sorted_named others.now i x.now) }
{
    match others.get(&i) {
        Some(names) => names.contains_key(x),
        None => false,
    }
}
