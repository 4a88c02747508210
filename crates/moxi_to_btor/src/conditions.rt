// The lines of a query's conditions.
ghost use Rattle.std.specs.Prelude.{◌≡◌, map, IfOk, OnOk};
ghost use Rattle.btor_tree.specs.Fits.{is_next};
ghost use Rattle.moxi_scripts.specs.Script.{formula_at, plain_formula};
ghost use Rattle.moxi_lines.specs.Lines.{with_assumptions, with_conditions, with_currents, with_formula, with_latch};
ghost use Rattle.moxi_to_btor.specs.Putting.{IsOpen};
ghost use Rattle.moxi_to_btor.specs.Queries.{CanPutAssumptions, CanPutConditions, CanPutCurrent, CanPutCurrents, CanPutLatch, CanPutNumbered, current_lines};

use crate::chains::put_folded;
use crate::lines::{joined, put_free, put_given, put_place};
use crate::parts::{FIRST, put_formula};
use crate::words::put_binary;
use btor_tree::{Builder, LineOp};
use moxi_instantiate::FlatSystem;
use moxi_scripts::{Formulas, Query};
use moxi_terms::Scope;
use std::alloc::Global;
use text_core::NoMemory;
use word_core::Binary;

/// The place of the constant one.
pub const ONE: u32 = 1;

/// The place of the constant zero.
pub const ZERO: u32 = 2;

/// Adds a one-bit state that starts with the constant at a place, and returns the state's place.
///
/// Its next line is left to the caller.
pub fn put_latch(
    alloc: Global,
    builder: &mut Builder,
    name: &[u8],
    value: u32,
) -> Result<u32, NoMemory>
    requires { CanPutLatch builder.old name.now value }
    ensures lines { IfOk result (λ p. (builder.new, p) ≡ with_latch builder.old name.now value) }
    ensures next { IfOk result (λ p. IsOpen is_next builder.new p 1) }
{
    // Asking for the length gives the fact that the lines are well formed.
    let _ = builder.len();
    let state = put_free(alloc, builder, LineOp::State, 1, name)?;
    put_given(builder, LineOp::Init, 1, state, value)?;
    Ok(state)
}

/// Adds the lines of the formula with this number, and returns the place of its word.
pub fn put_numbered(
    alloc: Global,
    builder: &mut Builder,
    scope: &Scope,
    inputs: &[u32],
    formulas: &Formulas,
    number: u64,
) -> Result<u32, NoMemory>
    requires { CanPutNumbered scope.now inputs.now builder.old (map plain_formula formulas.now) number }
    ensures { IfOk result (λ p. (builder.new, p) ≡ with_formula scope.now inputs.now builder.old (formula_at (map plain_formula formulas.now) number)) }
{
    let formula = formulas.at(number as usize);
    put_formula(alloc, builder, scope, inputs, &formula.term)
}

fn put_assumptions(
    alloc: Global,
    builder: &mut Builder,
    system: &FlatSystem,
    inputs: &[u32],
    parts: &mut Vec<u32>,
    numbers: &[u64],
) -> Result<(), NoMemory>
    requires { CanPutAssumptions system.now inputs.now (builder.old, parts.old.items) numbers.now }
    ensures { OnOk result ((builder.new, parts.new.items) ≡ with_assumptions system.now inputs.now (builder.old, parts.old.items) numbers.now) }
{
    for number in numbers {
        let place = put_numbered(
            alloc,
            builder,
            system.scope(),
            inputs,
            system.assumptions(),
            *number,
        )?;
        put_place(parts, place)?;
    }
    Ok(())
}

// The lines of a current condition, which counts in frame 0 only.
fn put_current(
    alloc: Global,
    builder: &mut Builder,
    scope: &Scope,
    inputs: &[u32],
    formulas: &Formulas,
    number: u64,
) -> Result<u32, NoMemory>
    requires { CanPutCurrent scope.now inputs.now builder.old (map plain_formula formulas.now) number }
    ensures { IfOk result (λ p. (builder.new, p) ≡ current_lines scope.now inputs.now builder.old (map plain_formula formulas.now) number) }
{
    let place = put_numbered(alloc, builder, scope, inputs, formulas, number)?;
    put_binary(builder, Binary::Implies, FIRST, place)
}

fn put_currents(
    alloc: Global,
    builder: &mut Builder,
    system: &FlatSystem,
    inputs: &[u32],
    parts: &mut Vec<u32>,
    numbers: &[u64],
) -> Result<(), NoMemory>
    requires { CanPutCurrents system.now inputs.now (builder.old, parts.old.items) numbers.now }
    ensures { OnOk result ((builder.new, parts.new.items) ≡ with_currents system.now inputs.now (builder.old, parts.old.items) numbers.now) }
{
    for number in numbers {
        let place = put_current(
            alloc,
            builder,
            system.scope(),
            inputs,
            system.currents(),
            *number,
        )?;
        put_place(parts, place)?;
    }
    Ok(())
}

/// Adds the lines of a query's assumptions and current conditions, and returns the place of their conjunction.
///
/// A state starts as one, and stays one while they have held. The conjunction also includes the conditions of the present
/// frame.
pub fn put_conditions(
    alloc: Global,
    builder: &mut Builder,
    system: &FlatSystem,
    inputs: &[u32],
    query: &Query,
) -> Result<u32, NoMemory>
    requires { CanPutConditions system.now inputs.now builder.old query.now }
    ensures { IfOk result (λ p. (builder.new, p) ≡ with_conditions system.now inputs.now builder.old query.now) }
{
    let name = joined(alloc, query.name.bytes(), b".ok")?;
    let ok = put_latch(alloc, builder, &name, ONE)?;
    let mut parts = Vec::new(alloc);
    put_assumptions(
        alloc,
        builder,
        system,
        inputs,
        &mut parts,
        query.assumptions.as_slice(),
    )?;
    put_currents(
        alloc,
        builder,
        system,
        inputs,
        &mut parts,
        query.currents.as_slice(),
    )?;
    let chain = put_folded(builder, Binary::And, ok, &parts)?;
    put_given(builder, LineOp::Next, 1, ok, chain)?;
    Ok(chain)
}
