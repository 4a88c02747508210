// The command that lifts a witness of a MoXI script's BTOR2 text to a response.
ghost use Rattle.std.specs.Prelude.{◌≡◌, [], ◌∷◌, IfOk, IfErr, IsErrAnd};
ghost use Rattle.text_core.specs.Outside.{HasNewFault};
ghost use Rattle.btor_witness.specs.Printing.{IsWitness};
ghost use Rattle.btor_witness.specs.Sizes.{sizes_of};
ghost use Rattle.moxi_scripts.specs.ScriptView.{plain_script};
ghost use Rattle.moxi_flat.specs.FlatSystem.{flat_of};
ghost use Rattle.moxi_lines.specs.Lines.{lines_of};
ghost use Rattle.command_core.specs.declared.answer.Stop.TheVariants as Stop;
ghost use Rattle.command_core.specs.Giving.{MayGive};
ghost use Rattle.command_core.specs.Keeping.{KeepsShelf};
ghost use Rattle.command_core.specs.Reading.{StopsUnread, StopsWith};
ghost use Rattle.btor_commands.specs.Judgement.{witness_too_long};
ghost use Rattle.btor_commands.specs.Lifting.{IsLift, OfLines, OfText};
ghost use Rattle.btor_commands.specs.Limits.{most_witness_bytes};
ghost use Rattle.btor_commands.specs.laws.Lifts.{says as lift_says};
ghost use Rattle.moxi_commands.specs.Limits.{most_script_bytes};
ghost use Rattle.moxi_commands.specs.Scripts.{script_too_long};
ghost use Rattle.moxi_commands.specs.Translation.{btor_text};
ghost use Rattle.moxi_commands.specs.MoxiLift.{IsMoxiLift, OfBytes, OfChecks, TracesAreLifted, lifted_response};

use crate::scripts::{SCRIPT_LIMIT, script_of};
use crate::translate::script_lines_are_laid_out;
use btor_commands::{lines_are_spelled, witness_in};
use btor_tree::{one_reading, printed_spells};
use btor_witness::{MOST_BYTES, Witness};
use command_core::{Answer, FirstFile, LastFile, Output, Stop, answer_file, answer_files, refusal};
use moxi_flat::traces_have_flat_traces;
use moxi_lift::{LiftEnd, MoxiChain, lift_moxi, lifts_meet_queries};
use moxi_responses::print_response;
use moxi_scripts::{Script, spelled_scripts_are_valid};
use std::alloc::Global;
use std::mem::drop;
use text_core::kinds::{moxi, witness};
use text_core::{End, Name, Shelf};

/// Reads a MoXI script and a witness of its BTOR2 text, and lifts the witness to a response.
pub fn lift_moxi_files<F: Shelf>(
    alloc: Global,
    model: &Name,
    second: &Name,
    shelf: &mut F,
) -> Result<Answer, Stop>
    ensures answer { IfOk result (MayGive (F.files shelf.old) (model.now ∷ second.now ∷ []) (λ files. IsMoxiLift files model.now second.now) (HasNewFault (F.faults shelf.old) (F.faults shelf.new))) }
    ensures stop { IfErr result (StopsWith (MayGive (F.files shelf.old) (model.now ∷ second.now ∷ []) (λ files. IsMoxiLift files model.now second.now) (HasNewFault (F.faults shelf.old) (F.faults shelf.new)))) }
    ensures shelf { KeepsShelf (F.files shelf.old) (F.files shelf.new) (F.faults shelf.old) (F.faults shelf.new) (F.begun shelf.old) (F.begun shelf.new) (model.now ∷ second.now ∷ []) (IsErrAnd result StopsUnread) }
{
    answer_files(alloc, model, second, &LiftMoxi, shelf)
}

// The answer of `lift-moxi`, computed from the text of the script.
struct LiftMoxi;

impl FirstFile for LiftMoxi {
    ghost most = { most_script_bytes };

    ghost longer = { script_too_long };

    ghost defines = { λ _ files second. OfBytes files second };

    fn limit(&self) -> usize {
        SCRIPT_LIMIT
    }

    fn too_long(&self) -> Answer {
        Answer::Refused(refusal(moxi::TOO_LONG))
    }

    #[tactic(auto, using(crate::proofs::Moxi::bytes_ok, crate::proofs::Moxi::bytes_stop, command_core::specs::laws::Given::of_each))]
    fn answer<F: Shelf>(
        &self,
        alloc: Global,
        bytes: &[u8],
        second: &Name,
        shelf: &mut F,
    ) -> Result<Answer, Stop> {
        match script_of(alloc, bytes) {
            Ok(script) => {
                let answer = script_answer(alloc, &script, second, shelf);
                drop(script);
                answer
            }
            Err(End::Bad(refusal)) => Ok(Answer::Refused(refusal)),
            Err(End::NoMemory) => Err(Stop::NoMemory),
        }
    }

    ghost longer_says = { tt };
}

// The response of the witness in the second file, or the refusal of the system that the script's check instantiates.
#[tactic(auto, using(crate::proofs::Moxi::checks_ok, crate::proofs::Moxi::checks_stop, command_core::specs::laws::Given::of_each))]
fn script_answer<F: Shelf>(
    alloc: Global,
    script: &Script,
    second: &Name,
    shelf: &mut F,
) -> Result<Answer, Stop>
    ensures answer { IfOk result (MayGive (F.files shelf.old) (second.now ∷ []) (λ files. OfChecks files second.now (plain_script script.now)) (HasNewFault (F.faults shelf.old) (F.faults shelf.new))) }
    ensures stop { IfErr result (StopsWith (MayGive (F.files shelf.old) (second.now ∷ []) (λ files. OfChecks files second.now (plain_script script.now)) (HasNewFault (F.faults shelf.old) (F.faults shelf.new)))) }
    ensures shelf { KeepsShelf (F.files shelf.old) (F.files shelf.new) (F.faults shelf.old) (F.faults shelf.new) (F.begun shelf.old) (F.begun shelf.new) (second.now ∷ []) (IsErrAnd result StopsUnread) }
{
    match MoxiChain::of(alloc, script) {
        Ok(chain) => chain_answer(alloc, script, &chain, second, shelf),
        Err(End::Bad(refusal)) => Ok(Answer::Refused(refusal)),
        Err(End::NoMemory) => Err(Stop::NoMemory),
    }
}

// The response of the witness in the second file. The chain is the script's.
#[tactic(auto, using(crate::proofs::Moxi::lines_ok, crate::proofs::Moxi::lines_stop))]
fn chain_answer<F: Shelf>(
    alloc: Global,
    script: &Script,
    chain: &MoxiChain<'_>,
    second: &Name,
    shelf: &mut F,
) -> Result<Answer, Stop>
    requires chain { chain.now ≡ flat_of (plain_script script.now) }
    ensures answer { IfOk result (MayGive (F.files shelf.old) (second.now ∷ []) (λ files. OfLines files second.now (btor_text (plain_script script.now)) (lifted_response (plain_script script.now))) (HasNewFault (F.faults shelf.old) (F.faults shelf.new))) }
    ensures stop { IfErr result (StopsWith (MayGive (F.files shelf.old) (second.now ∷ []) (λ files. OfLines files second.now (btor_text (plain_script script.now)) (lifted_response (plain_script script.now))) (HasNewFault (F.faults shelf.old) (F.faults shelf.new)))) }
    ensures shelf { KeepsShelf (F.files shelf.old) (F.files shelf.new) (F.faults shelf.old) (F.faults shelf.new) (F.begun shelf.old) (F.begun shelf.new) (second.now ∷ []) (IsErrAnd result StopsUnread) }
{
    lines_are_spelled(chain.nodes());
    answer_file(alloc, second, &WitnessFile { script, chain }, shelf)
}

// The answer of `lift-moxi`, computed from the text of the witness, for a script and its chain.
#[derive(Drop)]
struct WitnessFile<'a, 's> {
    script: &'a Script,
    chain: &'a MoxiChain<'s>,
}

impl<'a, 's> LastFile for WitnessFile<'a, 's> {
    ghost most = { most_witness_bytes };

    ghost longer = { witness_too_long };

    ghost defines = { λ file. OfText (lines_of file.chain.now) (lifted_response (plain_script file.script.now)) };

    ghost fits = { λ file. file.chain.now ≡ flat_of (plain_script file.script.now) };

    fn limit(&self) -> usize {
        MOST_BYTES
    }

    fn too_long(&self) -> Answer {
        Answer::SecondRefused(refusal(witness::TOO_LONG))
    }

    fn answer(&self, alloc: Global, bytes: &[u8]) -> Result<Answer, Stop> {
        let witness = witness_in(alloc, self.chain.nodes(), bytes)?;
        lifted_answer(alloc, self.script, self.chain, &witness)
    }

    ghost longer_says = { tt };

    ghost says = { λ file text a h. lift_says (lines_of file.chain.now) (lifted_response (plain_script file.script.now)) text a h };
}

// The response of a witness's trace, or the judge's rejection of the witness. The chain is the script's.
#[tactic(auto, using(btor_commands::specs::laws::Lifts::rejected))]
fn lifted_answer(
    alloc: Global,
    script: &Script,
    chain: &MoxiChain<'_>,
    witness: &Witness,
) -> Result<Answer, Stop>
    requires chain { chain.now ≡ flat_of (plain_script script.now) }
    requires witness { IsWitness (sizes_of (lines_of chain.now)) witness.now }
    ensures answer { IfOk result (IsLift (lines_of chain.now) (lifted_response (plain_script script.now)) witness.now) }
    ensures stop { IfErr result (λ stop. stop ≡ Stop.NoMemory) }
{
    match lift_moxi(alloc, chain, witness) {
        Ok(trace) => {
            let system = chain.system();
            let text = print_response(alloc, script, system, witness.bad, &trace)?;
            Ok(Answer::Done(Output::Text(text)))
        }
        Err(LiftEnd::No(step, clause)) => Ok(Answer::No(step, clause)),
        Err(LiftEnd::NoMemory) => Err(Stop::NoMemory),
    }
}

/// Proves that an accepted witness of a script's BTOR2 text is lifted to the response of a trace.
///
/// The trace has a step for each frame, and meets the query of the bad line at its last step.
pub fn traces_are_lifted()
    ensures { TracesAreLifted }
{
    spelled_scripts_are_valid();
    script_lines_are_laid_out();
    printed_spells();
    one_reading();
    lifts_meet_queries();
    traces_have_flat_traces();
}
