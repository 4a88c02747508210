// The lines of formulas, and of the parts of a system.
ghost use Rattle.std.specs.Prelude.{◌≡◌, map, IfOk, OnOk};
ghost use Rattle.moxi_terms.specs.View.{plain};
ghost use Rattle.moxi_instantiate.specs.PlainParts.{plain_part};
ghost use Rattle.moxi_lines.specs.Lines.{is_true_term, with_formula, with_init, with_inv, with_part, with_parts, with_step, with_trans};
ghost use Rattle.moxi_to_btor.specs.Putting.{CanPutFormula, CanPutInit, CanPutInv, CanPutPart, CanPutParts, CanPutStep, CanPutTrans};

use crate::lines::put_constraint;
use crate::terms::{Places, put_term};
use crate::words::put_binary;
use btor_tree::Builder;
use moxi_instantiate::Part;
use moxi_terms::{Datum, Scope, Term};
use std::alloc::Global;
use text_core::NoMemory;
use word_core::Binary;

/// The place of the state that is one in frame 0 only.
pub const FIRST: u32 = 3;

/// Adds the lines of a formula over one step, and returns the place of its word.
///
/// The variables are the inputs at these places.
pub fn put_formula(
    alloc: Global,
    builder: &mut Builder,
    scope: &Scope,
    inputs: &[u32],
    term: &Term,
) -> Result<u32, NoMemory>
    requires { CanPutFormula scope.now inputs.now builder.old (plain term.now) }
    ensures { IfOk result (λ p. (builder.new, p) ≡ with_formula scope.now inputs.now builder.old (plain term.now)) }
{
    let places = Places::At(inputs);
    put_term(alloc, builder, scope, places, places, term)
}

// The lines of a formula over the previous step and this one.
fn put_step(
    alloc: Global,
    builder: &mut Builder,
    scope: &Scope,
    inputs: &[u32],
    term: &Term,
) -> Result<u32, NoMemory>
    requires { CanPutStep scope.now inputs.now builder.old (plain term.now) }
    ensures { IfOk result (λ p. (builder.new, p) ≡ with_step scope.now inputs.now builder.old (plain term.now)) }
{
    let before = Places::Behind(inputs);
    put_term(alloc, builder, scope, before, Places::At(inputs), term)
}

// Whether the term is the constant `true`.
fn is_true_term(term: &Term) -> bool
    ensures { result ≡ is_true_term (plain term.now) }
{
    match term {
        Term::Constant(Datum::Truth(truth)) => *truth,
        _ => false,
    }
}

fn put_init(
    alloc: Global,
    builder: &mut Builder,
    scope: &Scope,
    inputs: &[u32],
    term: &Term,
) -> Result<(), NoMemory>
    requires { CanPutInit scope.now inputs.now builder.old (plain term.now) }
    ensures { OnOk result (builder.new ≡ with_init scope.now inputs.now builder.old (plain term.now)) }
{
    if is_true_term(term) {
        return Ok(());
    }
    let place = put_formula(alloc, builder, scope, inputs, term)?;
    let gated = put_binary(builder, Binary::Implies, FIRST, place)?;
    put_constraint(builder, gated)
}

fn put_trans(
    alloc: Global,
    builder: &mut Builder,
    scope: &Scope,
    inputs: &[u32],
    term: &Term,
) -> Result<(), NoMemory>
    requires { CanPutTrans scope.now inputs.now builder.old (plain term.now) }
    ensures { OnOk result (builder.new ≡ with_trans scope.now inputs.now builder.old (plain term.now)) }
{
    if is_true_term(term) {
        return Ok(());
    }
    let place = put_step(alloc, builder, scope, inputs, term)?;
    let gated = put_binary(builder, Binary::Or, FIRST, place)?;
    put_constraint(builder, gated)
}

fn put_inv(
    alloc: Global,
    builder: &mut Builder,
    scope: &Scope,
    inputs: &[u32],
    term: &Term,
) -> Result<(), NoMemory>
    requires { CanPutInv scope.now inputs.now builder.old (plain term.now) }
    ensures { OnOk result (builder.new ≡ with_inv scope.now inputs.now builder.old (plain term.now)) }
{
    if is_true_term(term) {
        return Ok(());
    }
    let place = put_formula(alloc, builder, scope, inputs, term)?;
    put_constraint(builder, place)
}

// The constraints of an instance. Its init formula counts in frame 0, its trans formula in all other frames, its inv
// formula in each frame.
fn put_part(
    alloc: Global,
    builder: &mut Builder,
    scope: &Scope,
    inputs: &[u32],
    part: &Part,
) -> Result<(), NoMemory>
    requires { CanPutPart scope.now inputs.now builder.old (plain_part part.now) }
    ensures { OnOk result (builder.new ≡ with_part scope.now inputs.now builder.old (plain_part part.now)) }
{
    put_init(alloc, builder, scope, inputs, &part.init)?;
    put_trans(alloc, builder, scope, inputs, &part.trans)?;
    put_inv(alloc, builder, scope, inputs, &part.inv)
}

/// Adds the constraints of all instances.
pub fn put_parts(
    alloc: Global,
    builder: &mut Builder,
    scope: &Scope,
    inputs: &[u32],
    parts: &[Part],
) -> Result<(), NoMemory>
    requires { CanPutParts scope.now inputs.now builder.old (map plain_part parts.now) }
    ensures { OnOk result (builder.new ≡ with_parts scope.now inputs.now builder.old (map plain_part parts.now)) }
{
    for part in parts {
        put_part(alloc, builder, scope, inputs, part)?;
    }
    Ok(())
}
