// The witness of a trace.
ghost use Rattle.std.specs.Prelude.{◌≡◌, ◌<◌, ◌^◌, length, map, IfOk};
ghost use Rattle.std.specs.List.{AllByRecursion};
ghost use Rattle.moxi_terms.specs.Sorts.{Fit};
ghost use Rattle.moxi_terms.specs.Tree.{sorts_of};
ghost use Rattle.moxi_lines.specs.Codes.{choice_width, code_of};
ghost use Rattle.moxi_lower.specs.Laws.{AreSteps};
ghost use Rattle.moxi_lower.specs.Lowered.{IsKnown, lowered, lowered_step};

use btor_witness::{Frame, FrameList, Stated, Stateds, Witness};
use moxi_instantiate::FlatSystem;
use moxi_scripts::MoxiTrace;
use moxi_terms::{Datum, Env, Scope, Variables};
use moxi_to_btor::choice_width;
use std::alloc::Global;
use text_core::NoMemory;
use word_core::Word;

// The word of a constant's index, in an enumeration with this many constants.
fn choice_code(count: usize, i: u32) -> Word
    requires { i < count }
    ensures { result ≡ record { width = choice_width count; bits = i } }
{
    Word::of(choice_width(count), u128::from(i)).unwrap()
}

// The word of a value.
fn code_of(scope: &Scope, datum: Datum) -> Word
    requires { IsKnown scope.now.enumerations datum }
    ensures { result ≡ code_of scope.now.enumerations datum }
{
    match datum {
        Datum::Truth(true) => Word::of(1, 1).unwrap(),
        Datum::Truth(false) => Word::of(1, 0).unwrap(),
        Datum::Bits(word) => word,
        Datum::Constant(n, i) => choice_code(scope.constant_count(n) as usize, i),
    }
}

// The frame of a step: the words of the variables' values, and no state.
fn lowered_step(
    alloc: Global,
    scope: &Scope,
    variables: &Variables,
    step: &Env,
) -> Result<Frame, NoMemory>
    requires few { length variables.now < 2 ^ 32 }
    requires fit { Fit scope.now.enumerations (sorts_of variables.now) step.now }
    ensures { IfOk result (λ frame. frame ≡ lowered_step scope.now.enumerations (length variables.now) step.now) }
{
    let mut inputs = Stateds::with_capacity(alloc, variables.len())?;
    for v in 0..variables.len() {
        let value = code_of(scope, *step.at(v));
        inputs.push(Stated {
            index: v as u32,
            value,
        })?;
    }
    Ok(Frame {
        states: Stateds::new(alloc),
        inputs,
    })
}

// One frame for each step.
fn lowered_steps(
    alloc: Global,
    scope: &Scope,
    variables: &Variables,
    trace: &MoxiTrace,
) -> Result<FrameList, NoMemory>
    requires few { length variables.now < 2 ^ 32 }
    requires fit { AllByRecursion (Fit scope.now.enumerations (sorts_of variables.now)) trace.now }
    ensures { IfOk result (λ frames. frames ≡ map (lowered_step scope.now.enumerations (length variables.now)) trace.now) }
{
    let mut frames = FrameList::with_capacity(alloc, trace.len())?;
    for step in trace {
        frames.push(lowered_step(alloc, scope, variables, step)?)?;
    }
    Ok(frames)
}

/// Lowers a trace of a flat system to a witness for bad line j (MoXI, SPIN 2024; BTOR2, CAV 2018).
///
/// There is one frame for each step, in which the word of each variable's value is the word of its input. No state is
/// stated. The laws of this crate prove that the witness is lifted to the same trace. They also prove that the judge
/// accepts it exactly where the trace meets query j at its last step. The caller must pass steps with a value of its sort
/// for each variable. Time and memory are linear in the steps times the variables.
pub fn lower_trace(
    alloc: Global,
    system: &FlatSystem<'_>,
    j: u32,
    trace: &MoxiTrace,
) -> Result<Witness, NoMemory>
    requires fits { AreSteps system.now trace.now }
    ensures exact { IfOk result (λ witness. witness ≡ lowered system.now j trace.now) }
{
    system.is_within_limits();
    let scope = system.scope();
    let variables = system.variables();
    let frames = lowered_steps(alloc, scope, variables, trace)?;
    Ok(Witness { bad: j, frames })
}
