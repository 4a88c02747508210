// The order of a flat form's bodies.
ghost use Rattle.std.specs.Prelude.{◌≡◌, ◌++◌, true, length, nat_lt, IfOk, OnOk};
ghost use Rattle.std.specs.List.{list_all};
ghost use Rattle.name_maps.specs.Rows.{row_in};
ghost use Rattle.smv_flat_laws.specs.FlatOrders.{number_listed};
ghost use Rattle.smv_flatten.specs.Ordering.{numbers_in};

use name_maps::row_value_in;
use smv_items::Bodies;
use smv_references::Body;
use std::alloc::Global;
use text_core::{List, NoMemory};

// Adds the number of a body's item, where it has one.
fn add_item(body: &Body, numbers: &Bodies, items: &mut List<usize>) -> Result<(), NoMemory>
    ensures { OnOk result (items.new ≡ items.old ++ number_listed (row_in numbers.now body.now.instance body.now.name.now)) }
{
    match row_value_in(numbers, body.instance, body.name) {
        None => Ok(()),
        Some(k) => items.push(k),
    }
}

/// Returns the items of these definitions and actuals, by number, in the given order.
///
/// An actual that is a path has no item. `order` has the places of definitions and actuals in `bodies`.
pub(crate) fn item_order(
    alloc: Global,
    bodies: &[Body],
    order: &[usize],
    numbers: &Bodies,
) -> Result<List<usize>, NoMemory>
    requires { list_all (λ b. nat_lt b (length bodies.now)) order.now ≡ true }
    ensures { IfOk result (λ ks. ks ≡ numbers_in numbers.now bodies.now order.now) }
{
    let mut items = List::new(alloc);
    let mut rest = order;
    while let Some((b, more)) = rest.split_first() {
        add_item(&bodies[*b], numbers, &mut items)?;
        rest = more;
    }
    Ok(items)
}
