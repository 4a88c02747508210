// The run to which a witness of a model's lines is lifted.
ghost use Rattle.std.specs.Prelude.{◌≡◌, ◌++◌, [], ◌∷◌, length, IfOk, IfErr, OnOk, if◌then◌else◌};
ghost use Rattle.std.specs.List.{AllByRecursion};
ghost use Rattle.text_core.specs.declared.verdict.Verdict.TheVariants.{Yes};
ghost use Rattle.btor_witness.specs.declared.witness.Frame.{Frame};
ghost use Rattle.btor_witness.specs.Judging.{judged_btor};
ghost use Rattle.btor_witness.specs.Printing.{IsBelow, IsWitness};
ghost use Rattle.btor_witness.specs.Sizes.{sizes_of};
ghost use Rattle.moxi_terms.specs.Sorted.{AreSorts};
ghost use Rattle.moxi_terms.specs.Tree.{sorts_of};
ghost use Rattle.moxi_lift.specs.Ends.{IsLiftEnd};
ghost use Rattle.moxi_lift.specs.Laws.{IsLiftedTrace};
ghost use Rattle.moxi_lift.specs.Lifted.{lifted};
ghost use Rattle.smv_to_moxi.specs.Lifting.{IsStepOf, IsTraceOf, inputs_in, label_of, state_of};
ghost use Rattle.witness_lift.specs.Breaking.{BreaksLast};
ghost use Rattle.witness_lift.specs.Lifting.{lifted_run, lines_in, step_in, system_in};

use crate::chain::SmvChain;
use crate::lift_laws::traces_break_invariants;
use btor_witness::{Stateds, Witness};
use moxi_lift::{LiftEnd, accept_lines, lifted_step};
use smv_meaning::{Run, States};
use smv_to_moxi::{count_inputs, lift_label, lift_state};
use std::alloc::Global;
use text_core::NoMemory;

// Judges a witness of the chain's lines.
fn accept(alloc: Global, chain: &SmvChain, witness: &Witness) -> Result<(), LiftEnd>
    requires { IsWitness (sizes_of (lines_in chain.now)) witness.now }
    ensures lifted { IfOk result (λ _. IsLiftedTrace (system_in chain.now) (lines_in chain.now) witness.now (lifted (system_in chain.now) witness.now)) }
    ensures sorts { IfOk result (λ _. AreSorts (system_in chain.now).scope.enumerations (sorts_of (system_in chain.now).variables)) }
    ensures inputs { IfOk result (λ _. AllByRecursion (λ (f : Frame). AllByRecursion (IsBelow (length (system_in chain.now).variables)) f.inputs) witness.now.frames) }
    ensures refused { IfErr result (IsLiftEnd (lines_in chain.now) witness.now) }
{
    chain.is_laid_out();
    let scope = chain.scope();
    let variables = chain.variables();
    let nodes = chain.nodes();
    accept_lines(alloc, scope, variables, nodes, witness)
}

// The number of values in the last state, or 0 where there is none. The next one most likely has as many.
fn last_len(states: &States) -> usize {
    let count = states.len();
    if count == 0 {
        0
    } else {
        states.at(count - 1).len()
    }
}

// Appends the state of a frame and, unless it is the last frame, its label. The frame's step is freed before the
// return, so that no trace of all steps is in memory.
fn add_step(
    alloc: Global,
    chain: &SmvChain,
    inputs: usize,
    is_last: bool,
    stated: &Stateds,
    run: &mut Run,
) -> Result<(), NoMemory>
    requires sorts { AreSorts (system_in chain.now).scope.enumerations (sorts_of (system_in chain.now).variables) }
    requires below { AllByRecursion (IsBelow (length (system_in chain.now).variables)) stated.now }
    requires step { IsStepOf chain.now (step_in chain.now stated.now) }
    requires inputs { inputs ≡ length (inputs_in chain.now.items) }
    ensures states { OnOk result (run.new.states ≡ run.old.states ++ state_of chain.now (step_in chain.now stated.now) ∷ []) }
    ensures labels { OnOk result (run.new.labels ≡ (if is_last then run.old.labels else run.old.labels ++ label_of chain.now (step_in chain.now stated.now) ∷ [])) }
{
    let flat = chain.flat();
    let env = lifted_step(alloc, chain.scope(), chain.variables(), stated)?;
    if !is_last {
        let label = lift_label(alloc, flat, last_len(&run.labels), env.as_slice())?;
        run.labels.push(label)?;
    }
    let room = last_len(&run.states);
    let state = lift_state(alloc, flat, inputs, room, env.as_slice())?;
    run.states.push(state)?;
    Ok(())
}

// The run of no states, with room for so many.
fn empty_run(alloc: Global, count: usize) -> Result<Run, NoMemory>
    ensures states { IfOk result (λ run. run.states ≡ []) }
    ensures labels { IfOk result (λ run. run.labels ≡ []) }
{
    let states = States::with_capacity(alloc, count)?;
    let labels = States::with_capacity(alloc, count)?;
    Ok(Run { states, labels })
}

// The run of an accepted witness.
fn lift_run(alloc: Global, chain: &SmvChain, witness: &Witness) -> Result<Run, NoMemory>
    requires trace { IsTraceOf chain.now (lifted (system_in chain.now) witness.now) }
    requires sorts { AreSorts (system_in chain.now).scope.enumerations (sorts_of (system_in chain.now).variables) }
    requires inputs { AllByRecursion (λ (f : Frame). AllByRecursion (IsBelow (length (system_in chain.now).variables)) f.inputs) witness.now.frames }
    ensures { IfOk result (λ run. run ≡ lifted_run chain.now witness.now) }
{
    let inputs = count_inputs(chain.flat().items().as_slice());
    let count = witness.frames.len();
    let mut run = empty_run(alloc, count)?;
    for i in 0..count {
        let stated = &witness.frames.at(i).inputs;
        add_step(alloc, chain, inputs, i + 1 == count, stated, &mut run)?;
    }
    Ok(run)
}

/// Returns the run of a model to which a witness of the chain's lines is lifted (NuSMV 2.6 User Manual; BTOR2, CAV
/// 2018).
///
/// It is the run that the lifted trace encodes. Every witness that the judge accepts is lifted. Where the judge says
/// No, `Err` is its verdict, with the step and the clause; otherwise `Err` is out of memory. The witness must be one
/// for the lines.
pub fn lift_smv(alloc: Global, chain: &SmvChain, witness: &Witness) -> Result<Run, LiftEnd>
    requires { IsWitness (sizes_of (lines_in chain.now)) witness.now }
    ensures accepted { IfOk result (λ _. judged_btor (lines_in chain.now) witness.now Yes) }
    ensures run { IfOk result (λ run. run ≡ lifted_run chain.now witness.now) }
    ensures breaks { IfOk result (BreaksLast chain.now witness.now) }
    ensures refused { IfErr result (IsLiftEnd (lines_in chain.now) witness.now) }
{
    traces_break_invariants();
    accept(alloc, chain, witness)?;
    Ok(lift_run(alloc, chain, witness)?)
}
