// Values of names, found without a scan.
ghost use Rattle.std.specs.Prelude.{◌≡◌, List, ℕ, Some, None, OnOk, IfOk, bytes_eq, if◌then◌else◌};
ghost use Rattle.name_maps.specs.Rows.{row_named};

use crate::instance_rows::{InstanceRows, add_row_in, no_rows_in, row_value_in};
use std::alloc::Global;
use text_core::NoMemory;

/// A map from a name's bytes to a value, as the rows of one instance.
#[derive(Drop)]
pub struct NameRows<'a, V> {
    pub rows: InstanceRows<'a, V>,
}

/// Returns the empty map, with buckets for `expected` names.
///
/// Lookups need no scan as long as there are not many more names than expected.
pub fn no_rows<'a, V: Drop>(alloc: Global, expected: usize) -> Result<NameRows<'a, V>, NoMemory>
    ensures { IfOk result (λ m. (x : List ℕ) → row_named m x ≡ None) }
{
    let rows = no_rows_in(alloc, expected)?;
    Ok(NameRows { rows })
}

/// Sets the value of the name.
///
/// It replaces any earlier value.
pub fn add_row<'a, V: Drop>(
    map: &mut NameRows<'a, V>,
    name: &'a [u8],
    value: V,
) -> Result<(), NoMemory>
    ensures { OnOk result ((x : List ℕ) → row_named map.new x ≡ (if bytes_eq name.now x then Some value else row_named map.old x)) }
{
    add_row_in(&mut map.rows, 0, name, value)?;
    Ok(())
}

/// Returns the value of the name, or None.
pub fn row_value<'a, V: Copy>(map: &NameRows<'a, V>, name: &[u8]) -> Option<V>
    ensures { result ≡ row_named map.now name.now }
{
    row_value_in(&map.rows, 0, name)
}
