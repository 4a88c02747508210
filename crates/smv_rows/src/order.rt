// The data needed to fill rows of a flat form.
ghost use Rattle.std.specs.Prelude.{◌≡◌, IfOk};
ghost use Rattle.smv_flat_laws.specs.FlatOrders.{IsItemOrder};
ghost use Rattle.smv_flat.specs.FlatParts.{parts_plain};
ghost use Rattle.smv_rows.specs.RowOrders.{IsRowOrder, has_inputs, is_input};

use crate::bodies::bodies_of;
use crate::places::{ItemPlace, name_all, places_of};
use name_maps::NameTable;
use smv_flat::{FlatExpr, FlatParts};
use smv_items::{FlatItem, ItemKind};
use std::alloc::Global;
use text_core::NoMemory;

/// The data needed to fill rows of a flat form.
///
/// `bodies` has the body of each item, by number, and `order` is the order in which bodies are evaluated. `inputs` says
/// whether there are inputs. `listed` says that states and labels have their values in the order of the items, so that no
/// name is looked up. Otherwise `names` are the names of the items, and `places` has each item's kind and the place of
/// its name.
#[derive(Drop)]
pub struct RowOrder<'f> {
    pub bodies: Vec<Option<&'f FlatExpr>>,
    pub order: &'f [usize],
    pub names: NameTable,
    pub places: Vec<ItemPlace>,
    pub inputs: bool,
    pub listed: bool,
}

/// Returns whether an item of this kind is an input.
pub(crate) fn is_input(kind: ItemKind) -> bool
    ensures { result ≡ is_input kind }
{
    match kind {
        ItemKind::Input => true,
        ItemKind::State => false,
        ItemKind::Frozen => false,
        ItemKind::Define => false,
        ItemKind::Actual => false,
    }
}

// Whether one of the items is an input.
fn has_inputs(items: &[FlatItem]) -> bool
    ensures { result ≡ has_inputs items.now }
{
    for item in items {
        if is_input(item.kind) {
            return true;
        }
    }
    false
}

/// Returns the data needed to fill rows of the flat form.
///
/// `order` is an order of the items in which each body comes after the items that it reads, as `Flat::order` returns
/// it. `listed` says that states and labels will have their values in the order of the items.
pub fn row_order<'f>(
    alloc: Global,
    flat: &FlatParts<'f>,
    order: &'f [usize],
    listed: bool,
) -> Result<RowOrder<'f>, NoMemory>
    requires { IsItemOrder (parts_plain flat.now) order.now }
    ensures order { IfOk result (IsRowOrder flat.now) }
    ensures listed { IfOk result (λ o. o.listed ≡ listed) }
{
    let bodies = bodies_of(alloc, flat.items, flat.formulas)?;
    let inputs = has_inputs(flat.items);
    let mut names = NameTable::new(alloc);
    if listed {
        return Ok(RowOrder {
            bodies,
            order,
            names,
            places: Vec::new(alloc),
            inputs,
            listed: true,
        });
    }
    name_all(alloc, flat.items, &mut names)?;
    let places = places_of(alloc, flat.items, &names)?;
    Ok(RowOrder {
        bodies,
        order,
        names,
        places,
        inputs,
        listed: false,
    })
}
