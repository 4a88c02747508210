// The answer for a model with its lines.
ghost use Rattle.std.specs.Prelude.{◌≡◌, ◌≤◌, length, IfOk, IfErr, ◌<◌, ◌^◌, map};
ghost use Rattle.text_core.specs.declared.verdict.Verdict.TheVariants.{Yes};
ghost use Rattle.btor_witness.specs.Answer.{IsRefused};
ghost use Rattle.btor_witness.specs.Judging.{judged_btor};
ghost use Rattle.btor_witness.specs.Printing.{IsWitness};
ghost use Rattle.btor_witness.specs.Sizes.{most_frames, sizes_of};
ghost use Rattle.btor_witness.specs.Texts.{SpellsWitness};
ghost use Rattle.smv_flatten.specs.FlatModel.{HasForm, flat_plain, IsFlatOf};
ghost use Rattle.witness_lift.specs.Breaking.{BreaksLast};
ghost use Rattle.witness_lift.specs.Lifting.{lifted_run, lines_in};
ghost use Rattle.generate.specs.Made.{made_witness};
ghost use Rattle.command_core.specs.declared.answer.Stop.TheVariants as Stop;
ghost use Rattle.generate.specs.Generating.{IsSummary, OfLines, OfModels, OfWitness};
ghost use Rattle.smv_text.specs.Tree.{PlainSource};
ghost use Rattle.smv_meaning.specs.Runs.{judged_smv};
ghost use Rattle.smv_meaning.specs.Values.{given};
ghost use Rattle.smv_judge.specs.Models.{IsListedRun};
ghost use Rattle.generate.specs.Verdicts.{is_yes};

use crate::laws::inputs_are_variables;
use crate::texts::{made_witness, summary_of};
use btor_witness::{Witness, read_witness};
use command_core::{Answer, Output, Stop};
use smv_flatten::Flat;
use smv_judge::judge_listed;
use smv_laws::yes_is_run;
use smv_meaning::Run;
use std::alloc::Global;
use text_core::{End, NoMemory, Text, Verdict};
use witness_lift::{LiftEnd, SmvChain, lift_smv};

// Whether the judge accepts a run for invariant j, for each model with this flat form.
fn says_yes(alloc: Global, flat: &Flat, j: u32, run: &Run) -> Result<bool, NoMemory>
    requires model { (source : PlainSource) × IsFlatOf source (flat_plain flat.now) }
    requires few { length run.now.states < 2 ^ 32 }
    requires listed { IsListedRun (flat_plain flat.now) run.now }
    ensures { IfOk result (λ yes. (source : PlainSource) → IsFlatOf source (flat_plain flat.now) → yes ≡ is_yes (judged_smv source j (map given run.now.states) (map given run.now.labels))) }
{
    match judge_listed(alloc, flat, j, run)? {
        Verdict::Yes => Ok(true),
        Verdict::No(_, _) => Ok(false),
    }
}

// The generated witness of n cells, read for the chain's lines. The witness's text is freed before the return.
fn witness_of(alloc: Global, n: u32, chain: &SmvChain) -> Result<Witness, End>
    requires some { 1 ≤ n }
    requires most { n ≤ 1000 }
    ensures spelled { IfOk result (SpellsWitness (lines_in chain.now) (made_witness n)) }
    ensures fits { IfOk result (IsWitness (sizes_of (lines_in chain.now))) }
    ensures few { IfOk result (λ witness. length witness.frames ≤ most_frames) }
    ensures refused { IfErr result (IsRefused (lines_in chain.now) (made_witness n)) }
{
    let text = made_witness(alloc, n)?;
    read_witness(alloc, chain.nodes(), text.bytes())
}

// The summary of the run to which an accepted witness is lifted. The run is judged first.
fn summary_text(
    alloc: Global,
    n: u32,
    chain: &SmvChain,
    witness: &Witness,
    run: &Run,
) -> Result<Text, NoMemory>
    requires form { HasForm chain.now }
    requires few { length witness.now.frames ≤ most_frames }
    requires accepted { judged_btor (lines_in chain.now) witness.now Yes }
    requires run { run.now ≡ lifted_run chain.now witness.now }
    requires breaks { BreaksLast chain.now witness.now run.now }
    ensures { IfOk result (λ text. OfModels chain.now (λ source. IsSummary n source (lines_in chain.now) witness.now text)) }
{
    inputs_are_variables();
    yes_is_run();
    if says_yes(alloc, chain.flat(), witness.bad, run)? {
        let weight = chain.flat().weight();
        summary_of(alloc, n, chain.nodes(), weight, witness.frames.len())
    } else {
        unreachable!()
    }
}

// The answer to a witness for the chain's lines.
#[tactic(auto, using(crate::proofs::Answering::rejected))]
fn witness_answer(
    alloc: Global,
    n: u32,
    chain: &SmvChain,
    witness: &Witness,
) -> Result<Answer, Stop>
    requires form { HasForm chain.now }
    requires fits { IsWitness (sizes_of (lines_in chain.now)) witness.now }
    requires few { length witness.now.frames ≤ most_frames }
    ensures answer { IfOk result (λ a. OfModels chain.now (λ source. OfWitness n source (lines_in chain.now) witness.now a)) }
    ensures stop { IfErr result (λ stop. stop ≡ Stop.NoMemory) }
{
    match lift_smv(alloc, chain, witness) {
        Ok(run) => {
            let text = summary_text(alloc, n, chain, witness, &run)?;
            Ok(Answer::Done(Output::Text(text)))
        }
        Err(LiftEnd::No(step, clause)) => Ok(Answer::No(step, clause)),
        Err(LiftEnd::NoMemory) => Err(Stop::NoMemory),
    }
}

/// Returns the answer to the generated witness of n cells, for a model's chain.
#[tactic(auto, using(crate::proofs::Answering::of_witness, crate::proofs::Answering::refused))]
pub(crate) fn chain_answer(alloc: Global, n: u32, chain: &SmvChain) -> Result<Answer, Stop>
    requires some { 1 ≤ n }
    requires most { n ≤ 1000 }
    requires form { HasForm chain.now }
    ensures answer { IfOk result (λ a. OfModels chain.now (λ source. OfLines n (made_witness n) source (lines_in chain.now) a)) }
    ensures stop { IfErr result (λ stop. stop ≡ Stop.NoMemory) }
{
    match witness_of(alloc, n, chain) {
        Ok(witness) => witness_answer(alloc, n, chain, &witness),
        Err(End::Bad(refusal)) => Ok(Answer::SecondRefused(refusal)),
        Err(End::NoMemory) => Err(Stop::NoMemory),
    }
}
