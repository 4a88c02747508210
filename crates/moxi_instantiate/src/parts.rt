// The parts of a flat system: the formulas of each instance over the flat system's variables.
ghost use Rattle.std.specs.Prelude.{◌≡◌, ◌<◌, ◌+◌, ◌++◌, ◌∷◌, [], ◌^◌, ℕ, map, length, IfOk, OnOk};
ghost use Rattle.moxi_scripts.specs.Script.{plain_system};
ghost use Rattle.moxi_flat.specs.FlatSystem.{part_of, place_inside};
ghost use Rattle.moxi_flat.specs.FlatLaws.{own_part};
ghost use Rattle.moxi_instantiate.specs.Copying.{number_in};
ghost use Rattle.moxi_instantiate.specs.PlainParts.{plain_part};

use crate::copies::renumber;
use moxi_scripts::System;
use moxi_terms::Term;
use std::alloc::Global;
use text_core::{List, NoMemory, Numbers};

/// The formulas of one instance.
#[derive(Drop)]
pub struct Part {
    pub init: Term,
    pub trans: Term,
    pub inv: Term,
}

/// The formulas of all instances, in preorder.
pub type Parts = List<Part>;

/// Returns the formulas of an instance of a system, in which variable v has the number `places[v]`.
pub fn part_of(alloc: Global, places: &[u32], system: &System) -> Result<Part, NoMemory>
    ensures { IfOk result (λ part. plain_part part ≡ part_of (number_in places.now) (plain_system system.now)) }
{
    let init = renumber(alloc, places, &system.init)?;
    let trans = renumber(alloc, places, &system.trans)?;
    let inv = renumber(alloc, places, &system.inv)?;
    Ok(Part { init, trans, inv })
}

// The formulas of a system, over the numbers of its own variables.
fn own_part(system: System) -> Part
    ensures { plain_part result ≡ own_part (plain_system system) }
{
    let System {
        name: _,
        inputs: _,
        outputs: _,
        locals: _,
        init,
        trans,
        inv,
        subsystems: _,
    } = system;
    Part { init, trans, inv }
}

// The only part of a system without subsystems. Its formulas are moved, not copied.
pub(crate) fn own_parts(alloc: Global, system: System) -> Result<Parts, NoMemory>
    ensures { IfOk result (λ parts. map plain_part parts ≡ own_part (plain_system system) ∷ []) }
{
    let mut parts = List::new(alloc);
    parts.push(own_part(system))?;
    Ok(parts)
}

fn put_place(places: &mut Vec<u32>, place: u32) -> Result<(), NoMemory>
    ensures { OnOk result (places.new.items ≡ places.old.items ++ place ∷ []) }
{
    Ok(places.push(place)?)
}

/// Returns the numbers of the variables of an instance.
///
/// Inputs and outputs have those of their actuals. This many locals have numbers from `fresh` on.
pub fn places_inside(
    alloc: Global,
    places: &[u32],
    actuals: &Numbers,
    fresh: u32,
    locals: usize,
) -> Result<Vec<u32>, NoMemory>
    requires { fresh + locals < 2 ^ 32 }
    ensures long { IfOk result (λ inside. length inside.items ≡ length actuals.now + locals) }
    ensures places { IfOk result (λ inside. (v : ℕ) → v < length actuals.now + locals → number_in inside.items v ≡ place_inside (number_in places.now) actuals.now fresh v) }
{
    let mut inside = Vec::new(alloc);
    let numbers = actuals.as_slice();
    for number in numbers {
        let place = number_of(places, *number);
        put_place(&mut inside, place)?;
    }
    for k in 0..locals {
        put_place(&mut inside, fresh + k as u32)?;
    }
    Ok(inside)
}

fn number_of(places: &[u32], number: u64) -> u32
    ensures { result ≡ number_in places.now number }
{
    match places.get(number as usize) {
        Some(place) => *place,
        None => 0,
    }
}
