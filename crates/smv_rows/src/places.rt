// The names of items, and their places.
ghost use Rattle.std.specs.Prelude.{IfOk, OnOk};
ghost use Rattle.smv_rows.specs.Places.{HavePlaces, AreNamed};

use name_maps::NameTable;
use smv_items::{FlatItem, ItemKind};
use std::alloc::Global;
use text_core::NoMemory;

/// The kind of an item, and the place of its name.
#[derive(Clone, Copy)]
pub struct ItemPlace {
    pub kind: ItemKind,
    pub place: usize,
}

/// Declares the name of each item.
pub(crate) fn name_all(
    alloc: Global,
    items: &[FlatItem],
    names: &mut NameTable,
) -> Result<(), NoMemory>
    ensures { OnOk result (AreNamed names.new items.now) }
{
    for item in items {
        names.declare(alloc, item.name.bytes())?;
    }
    Ok(())
}

/// Returns the kind of each item and the place of its name.
pub(crate) fn places_of(
    alloc: Global,
    items: &[FlatItem],
    names: &NameTable,
) -> Result<Vec<ItemPlace>, NoMemory>
    requires { AreNamed names.now items.now }
    ensures { IfOk result (λ places. HavePlaces names.now places.items items.now) }
{
    let mut places = Vec::new(alloc);
    for item in items {
        let Some(place) = names.place(item.name.bytes()) else {
            unreachable!()
        };
        let kind = item.kind;
        places.push(ItemPlace { kind, place })?;
    }
    Ok(places)
}
