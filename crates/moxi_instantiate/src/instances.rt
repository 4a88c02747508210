// The parts of all instances inside a system.
ghost use Rattle.std.specs.Prelude.{◌≡◌, ◌<◌, ◌+◌, ◌++◌, ◌∷◌, [], ◌^◌, false, map, length, IfOk, OnOk};
ghost use Rattle.moxi_scripts.specs.Script.{plain_system, system_at, variables_in};
ghost use Rattle.moxi_scripts.specs.ScriptView.{plain_script};
ghost use Rattle.moxi_scripts.specs.Valid.{IsValid, check_variables};
ghost use Rattle.moxi_flat.specs.FlatSystem.{count_upto, flat_of, part_of, parts_upto};
ghost use Rattle.moxi_flat.specs.Limits.{is_too_large};
ghost use Rattle.moxi_instantiate.specs.Amounts.{AreRanked};
ghost use Rattle.moxi_instantiate.specs.Copying.{number_in};
ghost use Rattle.moxi_instantiate.specs.Instances.{AreOverVariables, count_inside, parts_inside};
ghost use Rattle.moxi_instantiate.specs.PlainParts.{plain_part};

use crate::measures::{script_is_ranked, script_is_valid};
use crate::parts::{Parts, part_of, places_inside};
use moxi_scripts::{Script, Subsystem, System, Systems};
use std::alloc::Global;
use text_core::{List, NoMemory};

fn add_part(
    alloc: Global,
    places: &[u32],
    system: &System,
    parts: &mut Parts,
) -> Result<(), NoMemory>
    ensures { OnOk result (map plain_part parts.new ≡ map plain_part parts.old ++ part_of (number_in places.now) (plain_system system.now) ∷ []) }
{
    let part = part_of(alloc, places, system)?;
    parts.push(part)
}

// Adds the parts of system i and of all instances inside it. Variable v of the system has the number `places[v]`, and the
// locals of the inner instances begin at `fresh`. Returns the number after the last of these locals.
#[inline(never)]
#[cycle(parts)]
fn add_parts(
    alloc: Global,
    systems: &Systems,
    places: &[u32],
    i: u32,
    fresh: u32,
    parts: &mut Parts,
) -> Result<u32, NoMemory>
    requires ranked { ∥ AreRanked (map plain_system systems.now) ∥₁ }
    requires over { AreOverVariables (map plain_system systems.now) }
    requires there { i < length (map plain_system systems.now) }
    requires room { fresh + count_upto (map plain_system systems.now) (length (map plain_system systems.now)) i < 2 ^ 32 }
    ensures next { IfOk result (λ next. next ≡ fresh + count_upto (map plain_system systems.now) (length (map plain_system systems.now)) i) }
    ensures parts { OnOk result (map plain_part parts.new ≡ map plain_part parts.old ++ parts_upto (map plain_system systems.now) (length (map plain_system systems.now)) (number_in places.now) fresh i) }
{
    let system = systems.at(i as usize);
    add_part(alloc, places, system, parts)?;
    let mut next = fresh;
    for subsystem in system.subsystems.as_slice() {
        next = add_inside(alloc, systems, places, subsystem, next, parts)?;
    }
    Ok(next)
}

// Adds the parts of a subsystem and of all instances inside it. The subsystem's locals begin at `fresh`. Returns the number
// after the last of these locals.
#[inline(never)]
#[cycle(parts)]
fn add_inside(
    alloc: Global,
    systems: &Systems,
    places: &[u32],
    subsystem: &Subsystem,
    fresh: u32,
    parts: &mut Parts,
) -> Result<u32, NoMemory>
    requires ranked { ∥ AreRanked (map plain_system systems.now) ∥₁ }
    requires over { AreOverVariables (map plain_system systems.now) }
    requires there { subsystem.now.system < length (map plain_system systems.now) }
    requires actuals { length subsystem.now.actuals ≡ length (system_at (map plain_system systems.now) subsystem.now.system).inputs + length (system_at (map plain_system systems.now) subsystem.now.system).outputs }
    requires room { fresh + count_inside (map plain_system systems.now) subsystem.now < 2 ^ 32 }
    ensures next { IfOk result (λ next. next ≡ fresh + count_inside (map plain_system systems.now) subsystem.now) }
    ensures parts { OnOk result (map plain_part parts.new ≡ map plain_part parts.old ++ parts_inside (map plain_system systems.now) (number_in places.now) fresh subsystem.now) }
{
    let system = systems.at(subsystem.system as usize);
    let locals = system.locals.len();
    let inside = places_inside(alloc, places, &subsystem.actuals, fresh, locals)?;
    let next = fresh + locals as u32;
    add_parts(alloc, systems, &inside, subsystem.system, next, parts)
}

// Proves that the checked system has as many variables as the check, and that the formulas of all systems are over their
// variables. If the system is not too large, all variables have numbers below 2^32.
fn script_is_over_variables(script: &Script)
    requires small { is_too_large (plain_script script.now) ≡ false }
    ensures whole { ∥ IsValid (plain_script script.now) ∥₁ }
    ensures over { AreOverVariables (plain_script script.now).systems }
    ensures long { length (variables_in (system_at (plain_script script.now).systems script.now.check.system)) ≡ length (check_variables (plain_script script.now).check) }
    ensures count { length script.now.check.inputs + length script.now.check.outputs + length script.now.check.locals ≡ length (check_variables (plain_script script.now).check) }
    ensures room { length (check_variables (plain_script script.now).check) + count_upto (plain_script script.now).systems (length (plain_script script.now).systems) script.now.check.system < 2 ^ 32 }
{
    script_is_valid(script);
}

// The parts of the flat system of a script that is not too large.
pub(crate) fn flat_parts(alloc: Global, script: &Script) -> Result<Parts, NoMemory>
    requires small { is_too_large (plain_script script.now) ≡ false }
    ensures { IfOk result (λ parts. map plain_part parts ≡ (flat_of (plain_script script.now)).parts) }
{
    script_is_ranked(script);
    script_is_over_variables(script);
    let check = &script.check;
    let count = check.inputs.len() + check.outputs.len() + check.locals.len();
    let actuals = List::new(alloc);
    let places = places_inside(alloc, &[], &actuals, 0, count)?;
    let mut parts = List::new(alloc);
    let fresh = count as u32;
    add_parts(
        alloc,
        &script.systems,
        &places,
        check.system,
        fresh,
        &mut parts,
    )?;
    Ok(parts)
}
