// The trace of a witness of a flat system's lines.
ghost use Rattle.std.specs.Prelude.{◌≡◌, ◌≤◌, List, length, IfOk, IfErr};
ghost use Rattle.std.specs.List.{AllByRecursion};
ghost use Rattle.text_core.specs.declared.verdict.Verdict.TheVariants.{Yes};
ghost use Rattle.word_core.specs.Words.{BitVector};
ghost use Rattle.btor_witness.specs.Judging.{judged_btor, stated_frames};
ghost use Rattle.btor_witness.specs.declared.witness.Frame.{Frame};
ghost use Rattle.btor_witness.specs.Printing.{IsBelow, IsWitness};
ghost use Rattle.btor_witness.specs.Sizes.{sizes_of};
ghost use Rattle.moxi_terms.specs.Sorted.{AreSorts};
ghost use Rattle.moxi_terms.specs.Sorts.{Fit};
ghost use Rattle.moxi_terms.specs.Tree.{sorts_of};
ghost use Rattle.moxi_flat.specs.FlatSystem.{PlainFlatSystem};
ghost use Rattle.moxi_lines.specs.Lines.{lines_of};
ghost use Rattle.moxi_lift.specs.Laws.{AreOfSystem, IsLiftedTrace, MeetsQueryOf};
ghost use Rattle.moxi_lift.specs.Lifted.{decoded_frames, lifted};
ghost use Rattle.moxi_lift.specs.Ends.{IsLiftEnd};

use crate::chain::MoxiChain;
use crate::frame_lift::lift_frames;
use crate::laws::lifts_meet_queries;
use crate::layout::are_laid_out;
use btor_tree::Nodes;
use btor_witness::{Witness, judge_btor};
use moxi_scripts::MoxiTrace;
use moxi_terms::{Scope, Variables};
use std::alloc::Global;
use text_core::{Clause, NoMemory, Verdict};

/// The reason why a witness is not lifted.
#[derive(Clone, Copy, Debug, PartialEq, Eq)]
pub enum LiftEnd {
    /// The judge rejects the witness: the earliest step whose frame fails, and the first clause that fails there.
    No(u32, Clause),
    /// Out of memory.
    NoMemory,
}

impl From<NoMemory> for LiftEnd {
    ghost use Rattle.std.specs.Prelude.{◌≡◌};
    ghost use Rattle.moxi_lift.specs.declared.chain_lift.LiftEnd.TheVariants as Of;

    ghost from_gives = { λ _ e. e ≡ Of.NoMemory };

    fn from(_: NoMemory) -> LiftEnd {
        LiftEnd::NoMemory
    }
}

/// Returns nothing where the judge accepts a witness of a flat system's lines, or else its rejection of the witness.
///
/// The trace to which an accepted witness is lifted meets the query of the witness's bad line. Its steps are those that
/// `lifted_step` returns for the frames. The caller must pass the scope and the variables of a system, lines that lay it
/// out, and a witness for them.
pub fn accept_lines(
    alloc: Global,
    scope: &Scope,
    variables: &Variables,
    nodes: &Nodes,
    witness: &Witness,
) -> Result<(), LiftEnd>
    requires system { (f : PlainFlatSystem) × AreOfSystem f scope.now variables.now nodes.now }
    requires witness { IsWitness (sizes_of nodes.now) witness.now }
    ensures accepted { IfOk result (λ _. judged_btor nodes.now witness.now Yes) }
    ensures lifted { IfOk result (λ _. (f : PlainFlatSystem) → AreOfSystem f scope.now variables.now nodes.now → IsLiftedTrace f nodes.now witness.now (lifted f witness.now)) }
    ensures sorts { IfOk result (λ _. AreSorts scope.now.enumerations (sorts_of variables.now)) }
    ensures inputs { IfOk result (λ _. AllByRecursion (λ (f : Frame). AllByRecursion (IsBelow (length variables.now)) f.inputs) witness.now.frames) }
    ensures refused { IfErr result (IsLiftEnd nodes.now witness.now) }
{
    lifts_meet_queries();
    match judge_btor(alloc, nodes, witness)? {
        Verdict::Yes => Ok(()),
        Verdict::No(step, clause) => Err(LiftEnd::No(step, clause)),
    }
}

/// Lifts a witness of a flat system's lines to a trace, or returns the judge's rejection of the witness.
///
/// The trace meets the query of the witness's bad line. The caller must pass the scope and the variables of a system, lines
/// that lay it out, and a witness for them.
pub fn lift_lines(
    alloc: Global,
    scope: &Scope,
    variables: &Variables,
    nodes: &Nodes,
    witness: &Witness,
) -> Result<MoxiTrace, LiftEnd>
    requires system { (f : PlainFlatSystem) × AreOfSystem f scope.now variables.now nodes.now }
    requires witness { IsWitness (sizes_of nodes.now) witness.now }
    ensures lifted { IfOk result (λ trace. (f : PlainFlatSystem) → AreOfSystem f scope.now variables.now nodes.now → IsLiftedTrace f nodes.now witness.now trace) }
    ensures refused { IfErr result (IsLiftEnd nodes.now witness.now) }
{
    accept_lines(alloc, scope, variables, nodes, witness)?;
    Ok(lift_frames(alloc, scope, variables, nodes, witness)?)
}

/// Lifts a witness of the chain's lines to a trace of the script's flat system (MoXI, SPIN 2024; BTOR2, CAV 2018).
///
/// If the judge rejects the witness, it returns the step and the clause. Each witness that the judge accepts is lifted. The
/// caller must pass a witness for the lines.
pub fn lift_moxi(
    alloc: Global,
    chain: &MoxiChain<'_>,
    witness: &Witness,
) -> Result<MoxiTrace, LiftEnd>
    requires { IsWitness (sizes_of (lines_of chain.now)) witness.now }
    ensures accepted { IfOk result (λ _. judged_btor (lines_of chain.now) witness.now Yes) }
    ensures exact { IfOk result (λ trace. trace ≡ lifted chain.now witness.now) }
    ensures frames { IfOk result (λ trace. (rows : List (List BitVector)) → stated_frames (lines_of chain.now) witness.now rows → trace ≡ decoded_frames chain.now (lines_of chain.now) rows) }
    ensures some { IfOk result (λ trace. 1 ≤ length trace) }
    ensures fits { IfOk result (AllByRecursion (Fit chain.now.scope.enumerations (sorts_of chain.now.variables))) }
    ensures meets { IfOk result (λ trace. ∥ MeetsQueryOf chain.now witness.now.bad trace ∥₁) }
    ensures refused { IfErr result (IsLiftEnd (lines_of chain.now) witness.now) }
{
    let system = chain.system();
    let nodes = chain.nodes();
    let scope = system.scope();
    let variables = system.variables();
    are_laid_out(system);
    lift_lines(alloc, scope, variables, nodes, witness)
}
