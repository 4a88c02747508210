// The check that definitions and actuals are acyclic.
ghost use Rattle.std.specs.Prelude.{◌≡◌, map, IfOk};
ghost use Rattle.smv_meaning.specs.Bodies.{IsBodyOrder, placed_bodies};
ghost use Rattle.smv_meaning.specs.Settled.{cycle_checks_of};
ghost use Rattle.smv_instances.specs.View.{instance_plain};
ghost use Rattle.smv_references.specs.View.{body_plain};
ghost use Rattle.smv_names.specs.Outcome.{Settles};

use crate::ends::NamesEnd;
use smv_instances::Table;
use smv_references::{Body, Ordering, body_order};
use std::alloc::Global;
use text_core::kinds::smv;
use text_core::{List, Refusal};

/// Checks that no definition and no actual reaches itself, and returns an order of their numbers.
///
/// In this order each comes after those to which it refers. `Err` is S15 at the first that reaches itself, or out of
/// memory.
pub fn cycles_checked<'a>(
    alloc: Global,
    table: &Table<'a>,
    bodies: &[Body<'a>],
) -> Result<List<usize>, NamesEnd>
    requires { map body_plain bodies.now ≡ placed_bodies (map instance_plain table.now) }
    ensures checks { Settles result (cycle_checks_of (map instance_plain table.now)) }
    ensures order { IfOk result (IsBodyOrder (map instance_plain table.now)) }
{
    match body_order(alloc, table, bodies)? {
        Ordering::Ordered(order) => Ok(order),
        Ordering::Cycle(k) => Err(NamesEnd::Bad(Refusal {
            kind: smv::DEFINE_CYCLE,
            place: bodies[k].place,
        })),
    }
}
