// A lookup table from a name in an instance to the instance that it names.
ghost use Rattle.std.specs.Prelude.{◌≡◌, List, ℕ, map, position, IfOk};
ghost use Rattle.smv_meaning.specs.Names.{is_child};
ghost use Rattle.name_maps.specs.Rows.{row_in};
ghost use Rattle.smv_instances.specs.View.{instance_plain};

use crate::instances::Instance;
use name_maps::{InstanceRows, add_first_in, no_rows_in};
use std::alloc::Global;
use text_core::NoMemory;

/// Instance numbers, by the number of the enclosing instance and the name in it.
pub type Children<'a> = InstanceRows<'a, usize>;

/// Returns the first instance with each name, by the enclosing instance and the name.
#[tactic(auto, using(crate::specs::laws::ChildLemmas::with_part, crate::specs::laws::ChildLemmas::whole))]
pub fn children_of<'a>(alloc: Global, table: &[Instance<'a>]) -> Result<Children<'a>, NoMemory>
    ensures { IfOk result (λ m. (i : ℕ) (x : List ℕ) → row_in m i x ≡ position (is_child i x) (map instance_plain table.now)) }
{
    let mut children = no_rows_in(alloc, table.len())?;
    for (c, part) in table.iter().enumerate() {
        let Some(i) = part.parent else {
            continue;
        };
        add_first_in(&mut children, i, part.name, c)?;
    }
    Ok(children)
}
