// The variables of a model that have enumeration types, each typed once.
ghost use Rattle.std.specs.Prelude.{map, IfOk, OnOk};
ghost use Rattle.smv_instances.specs.View.{instance_plain};
ghost use Rattle.smv_model_types.specs.Entries.{AreEnumerations};

use crate::domains::variable_named;
use crate::names::Enumerations;
use name_maps::{add_row_in, no_rows_in};
use smv_instances::{Known, Table};
use smv_items::{Content, Origin};
use smv_text::Domain;
use std::alloc::Global;
use text_core::NoMemory;

// Types a variable and stores its properties.
fn put_variable<'a>(
    table: &Table<'a>,
    enumerations: &mut Enumerations<'a>,
    i: usize,
    x: &'a [u8],
) -> Result<(), NoMemory>
    requires { AreEnumerations (map instance_plain table.now) enumerations.old }
    ensures { OnOk result (AreEnumerations (map instance_plain table.now) enumerations.new) }
{
    match table.local(i, x) {
        Known::Variable(kind, domain) => {
            add_row_in(enumerations, i, x, variable_named(kind, domain))
        }
        Known::Alias(_, _) => Ok(()),
        Known::Body(_, _) => Ok(()),
        Known::Instance => Ok(()),
        Known::Nothing => Ok(()),
    }
}

// The number of variables that have enumeration types. Most models have few, and need little room for them.
fn enumeration_count(origins: &[Origin]) -> usize {
    let mut count: usize = 0;
    for origin in origins {
        if let Content::Variable(_, Domain::Members(_)) = origin.content {
            count = count.saturating_add(1);
        }
    }
    count
}

/// Returns the properties of those variables that have enumeration types.
///
/// The type of an enumeration is computed once; any other takes only a step or two to compute from the declaration.
pub(crate) fn enumerations_of<'a>(
    alloc: Global,
    table: &Table<'a>,
    origins: &[Origin<'a>],
) -> Result<Enumerations<'a>, NoMemory>
    ensures { IfOk result (AreEnumerations (map instance_plain table.now)) }
{
    let mut enumerations = no_rows_in(alloc, enumeration_count(origins))?;
    for origin in origins {
        if let Content::Variable(_, Domain::Members(_)) = origin.content {
            put_variable(
                table,
                &mut enumerations,
                origin.instance as usize,
                origin.name,
            )?;
        }
    }
    Ok(enumerations)
}
