// Values of names in their instances, found without a scan.
ghost use Rattle.std.specs.Prelude.{◌≡◌, List, ℕ, Some, None, OnOk, bytes_eq, ◌&&◌, ◌==◌, if◌then◌else◌};
ghost use Rattle.name_maps.specs.Maps.{named_in};

use std::alloc::Global;
use std::collections::HashMap;
use text_core::NoMemory;

/// A map from an instance's number and a name's bytes to a value.
pub type InstanceMap<'a, V> = HashMap<(usize, &'a [u8]), V>;

/// Returns the empty map.
pub fn nothing_in<'a, V>(alloc: Global) -> InstanceMap<'a, V>
    ensures { (i : ℕ) (x : List ℕ) → named_in result i x ≡ None }
{
    HashMap::new(alloc)
}

/// Sets the value of this name in instance `i`.
///
/// It replaces any earlier value.
pub fn put_in<'a, V: Drop>(
    map: &mut InstanceMap<'a, V>,
    i: usize,
    x: &'a [u8],
    value: V,
) -> Result<(), NoMemory>
    ensures { OnOk result ((j : ℕ) (y : List ℕ) → named_in map.new j y ≡ (if i == j && bytes_eq x.now y then Some value else named_in map.old j y)) }
{
    map.insert((i, x), value)?;
    Ok(())
}

/// Returns the value of this name in instance `i`, or None.
pub fn value_in<'a, V: Copy>(map: &InstanceMap<'a, V>, i: usize, x: &[u8]) -> Option<V>
    ensures { result ≡ named_in map.now i x.now }
{
    map.get(&(i, x)).copied()
}
