// The variables of a check, and those of all instances inside a system, under dotted names.
ghost use Rattle.std.specs.Prelude.{◌≡◌, ◌<◌, ◌++◌, map, length, IfOk, OnOk};
ghost use Rattle.moxi_scripts.specs.Script.{plain_check, plain_system, system_at};
ghost use Rattle.moxi_scripts.specs.Valid.{check_variables};
ghost use Rattle.moxi_flat.specs.FlatSystem.{locals_upto, named_inside, path_inside};
ghost use Rattle.moxi_instantiate.specs.Amounts.{AreRanked};

use moxi_scripts::{Check, Subsystem, Systems};
use moxi_terms::{Variable, Variables};
use std::alloc::Global;
use text_core::{List, Name, NoMemory};

fn append(bytes: &mut Vec<u8>, more: &[u8]) -> Result<(), NoMemory>
    ensures { OnOk result (bytes.new.items ≡ bytes.old.items ++ more.now) }
{
    Ok(bytes.extend_from_slice(more)?)
}

fn joined(alloc: Global, path: &[u8], name: &[u8]) -> Result<Name, NoMemory>
    ensures { IfOk result (λ joined. joined ≡ path.now ++ name.now) }
{
    // The names of the check itself have no path.
    if path.is_empty() {
        return Name::of(alloc, name);
    }
    let mut bytes = Vec::new(alloc);
    append(&mut bytes, path)?;
    append(&mut bytes, name)?;
    Name::of(alloc, &bytes)
}

fn path_inside(alloc: Global, path: &[u8], subsystem: &Subsystem) -> Result<Vec<u8>, NoMemory>
    ensures { IfOk result (λ inside. inside.items ≡ path_inside path.now subsystem.now) }
{
    let mut inside = Vec::new(alloc);
    append(&mut inside, path)?;
    append(&mut inside, subsystem.name.bytes())?;
    append(&mut inside, b".")?;
    Ok(inside)
}

fn add_named(
    alloc: Global,
    path: &[u8],
    variables: &Variables,
    all: &mut Variables,
) -> Result<(), NoMemory>
    ensures { OnOk result (all.new ≡ all.old ++ named_inside path.now variables.now) }
{
    for variable in variables {
        let name = joined(alloc, path, variable.name.bytes())?;
        all.push(Variable {
            name,
            sort: variable.sort,
        })?;
    }
    Ok(())
}

// The variables of a check under their own names: its inputs, outputs and locals.
pub(crate) fn own_variables(alloc: Global, check: &Check) -> Result<Variables, NoMemory>
    ensures { IfOk result (λ variables. variables ≡ check_variables (plain_check check.now)) }
{
    let mut all = List::new(alloc);
    add_named(alloc, b"", &check.inputs, &mut all)?;
    add_named(alloc, b"", &check.outputs, &mut all)?;
    add_named(alloc, b"", &check.locals, &mut all)?;
    Ok(all)
}

/// Appends the locals of all instances inside the system with this number.
///
/// Their names are dotted, after the given path.
#[inline(never)]
#[cycle(locals)]
pub fn add_locals(
    alloc: Global,
    systems: &Systems,
    path: &[u8],
    i: u32,
    all: &mut Variables,
) -> Result<(), NoMemory>
    requires ranked { ∥ AreRanked (map plain_system systems.now) ∥₁ }
    requires there { i < length (map plain_system systems.now) }
    ensures { OnOk result (all.new ≡ all.old ++ locals_upto (map plain_system systems.now) (length (map plain_system systems.now)) path.now i) }
{
    let subsystems = systems.at(i as usize).subsystems.as_slice();
    for subsystem in subsystems {
        add_subsystem(alloc, systems, path, subsystem, all)?;
    }
    Ok(())
}

// Appends the locals of a subsystem and of all instances inside it.
#[inline(never)]
#[cycle(locals)]
fn add_subsystem(
    alloc: Global,
    systems: &Systems,
    path: &[u8],
    subsystem: &Subsystem,
    all: &mut Variables,
) -> Result<(), NoMemory>
    requires ranked { ∥ AreRanked (map plain_system systems.now) ∥₁ }
    requires there { subsystem.now.system < length (map plain_system systems.now) }
    ensures { OnOk result (all.new ≡ all.old ++ (named_inside (path_inside path.now subsystem.now) (system_at (map plain_system systems.now) subsystem.now.system).locals
        ++ locals_upto (map plain_system systems.now) (length (map plain_system systems.now)) (path_inside path.now subsystem.now) subsystem.now.system)) }
{
    let inside = path_inside(alloc, path, subsystem)?;
    let system = systems.at(subsystem.system as usize);
    add_named(alloc, &inside, &system.locals, all)?;
    add_locals(alloc, systems, &inside, subsystem.system, all)
}
