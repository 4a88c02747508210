// The trace of an accepted witness.
ghost use Rattle.std.specs.Prelude.{◌≡◌, length, map, IfOk};
ghost use Rattle.std.specs.List.{AllByRecursion};
ghost use Rattle.text_core.specs.declared.verdict.Verdict.TheVariants.{Yes};
ghost use Rattle.moxi_terms.specs.Sorted.{AreSorts};
ghost use Rattle.moxi_terms.specs.Tree.{sorts_of};
ghost use Rattle.btor_witness.specs.declared.witness.Frame.{Frame};
ghost use Rattle.btor_witness.specs.Sizes.{sizes_of};
ghost use Rattle.btor_witness.specs.Printing.{IsBelow, IsWitness};
ghost use Rattle.btor_witness.specs.Judging.{judged_btor};
ghost use Rattle.moxi_flat.specs.FlatSystem.{PlainFlatSystem};
ghost use Rattle.moxi_lift.specs.Laws.{AreOfSystem, IsLiftedTrace};
ghost use Rattle.moxi_lift.specs.Lifted.{lifted_step};

use crate::laws::lifts_meet_queries;
use crate::step::lifted_step;
use btor_tree::Nodes;
use btor_witness::{FrameList, Witness};
use moxi_scripts::MoxiTrace;
use moxi_terms::{Scope, Variables};
use std::alloc::Global;
use text_core::NoMemory;

// One step for each frame.
fn lifted_steps(
    alloc: Global,
    scope: &Scope,
    variables: &Variables,
    frames: &FrameList,
) -> Result<MoxiTrace, NoMemory>
    requires sorts { AreSorts scope.now.enumerations (sorts_of variables.now) }
    requires inputs { AllByRecursion (λ (f : Frame). AllByRecursion (IsBelow (length variables.now)) f.inputs) frames.now }
    ensures { IfOk result (λ trace. trace ≡ map (λ (f : Frame). lifted_step scope.now.enumerations variables.now f.inputs) frames.now) }
{
    let mut trace = MoxiTrace::new(alloc);
    for frame in frames {
        trace.push(lifted_step(alloc, scope, variables, &frame.inputs)?)?;
    }
    Ok(trace)
}

/// Lifts an accepted witness of a flat system's lines to a trace (MoXI, SPIN 2024; BTOR2, CAV 2018).
///
/// There is one step for each frame. Each variable has the value that the word of its input encodes, and an input that is
/// not stated is zero. The caller must pass the scope and the variables of a system, lines that lay it out, and an accepted
/// witness for them. Time and memory are linear in the frames times the variables.
pub fn lift_frames(
    alloc: Global,
    scope: &Scope,
    variables: &Variables,
    nodes: &Nodes,
    witness: &Witness,
) -> Result<MoxiTrace, NoMemory>
    requires system { (f : PlainFlatSystem) × AreOfSystem f scope.now variables.now nodes.now }
    requires witness { IsWitness (sizes_of nodes.now) witness.now }
    requires accepted { judged_btor nodes.now witness.now Yes }
    ensures { IfOk result (λ trace. (f : PlainFlatSystem) → AreOfSystem f scope.now variables.now nodes.now → IsLiftedTrace f nodes.now witness.now trace) }
{
    lifts_meet_queries();
    lifted_steps(alloc, scope, variables, &witness.frames)
}
