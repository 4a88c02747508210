// Values of names, found by their bytes without a scan.
ghost use Rattle.std.specs.Prelude.{◌≡◌, List, ℕ, Some, None, OnOk, bytes_eq, if◌then◌else◌};
ghost use Rattle.name_maps.specs.Maps.{named};

use std::alloc::Global;
use std::collections::HashMap;
use text_core::NoMemory;

/// A map from a name's bytes to a value.
pub type NameMap<'a, V> = HashMap<&'a [u8], V>;

/// Returns the empty map.
pub fn no_names<'a, V>(alloc: Global) -> NameMap<'a, V>
    ensures { (x : List ℕ) → named result x ≡ None }
{
    HashMap::new(alloc)
}

/// Sets the value of the name.
///
/// It replaces any earlier value.
pub fn put<'a, V: Drop>(map: &mut NameMap<'a, V>, name: &'a [u8], value: V) -> Result<(), NoMemory>
    ensures { OnOk result ((x : List ℕ) → named map.new x ≡ (if bytes_eq name.now x then Some value else named map.old x)) }
{
    map.insert(name, value)?;
    Ok(())
}

/// Returns the value of the name, or None.
pub fn value_under<'a, V: Copy>(map: &NameMap<'a, V>, name: &[u8]) -> Option<V>
    ensures { result ≡ named map.now name.now }
{
    if map.is_empty() {
        return None;
    }
    map.get(name).copied()
}
