// The commands on an SMV model and a trace of it, or a witness of its BTOR2 text.
ghost use Rattle.std.specs.Prelude.{◌≡◌, ◌<◌, ◌^◌, ◌-◌, [], ◌∷◌, length, IfOk, IfErr, IsErrAnd};
ghost use Rattle.text_core.specs.Outside.{HasNewFault};
ghost use Rattle.command_core.specs.Giving.{MayGive};
ghost use Rattle.command_core.specs.Keeping.{KeepsShelf};
ghost use Rattle.command_core.specs.Reading.{StopsUnread, StopsWith};
ghost use Rattle.smv_text.specs.Tree.{PlainSource};
ghost use Rattle.smv_flatten.specs.FlatModel.{flat_plain, IsFormOf};
ghost use Rattle.smv_numbered.specs.Runs.{IsNumbered, run_in};
ghost use Rattle.command_core.specs.declared.answer.Stop.TheVariants as Stop;
ghost use Rattle.smv_commands.specs.SmvJudgement.{IsSmvJudgement, verdict_answer};
ghost use Rattle.smv_commands.specs.Traces.{IsRunAnswer, OfForm, trace_too_long, OfBytes};
ghost use Rattle.smv_models.specs.Limits.{most_smv_bytes};
ghost use Rattle.smv_commands.specs.Limits.{most_trace_bytes};
ghost use Rattle.smv_models.specs.Models.{smv_too_long};
ghost use Rattle.smv_commands.specs.Lowering.{IsLowering, lowered_answer};
ghost use Rattle.btor_witness.specs.Printing.{IsWitness};
ghost use Rattle.btor_witness.specs.Sizes.{sizes_of};
ghost use Rattle.witness_lift.specs.Lifting.{lines_in};
ghost use Rattle.btor_commands.specs.Lifting.{IsLift, OfText};
ghost use Rattle.smv_commands.specs.SmvLift.{IsSmvLift, trace_in, OfBytes as OfWitness};
ghost use Rattle.btor_commands.specs.Judgement.{witness_too_long};
ghost use Rattle.btor_commands.specs.Limits.{most_witness_bytes};
ghost use Rattle.btor_commands.specs.laws.Lifts.{says};

use crate::translate::chain_in;
use btor_commands::witness_in;
use btor_witness::{MOST_BYTES as WITNESS_LIMIT, Witness, print_witness};
use command_core::{Answer, FirstFile, LastFile, Output, Stop, answer_file, answer_files, refusal};
use smv_flatten::Flat;
use smv_judge::judge_numbered;
use smv_models::{SMV_LIMIT, flat_in};
use smv_numbered::NumberedRun;
use smv_trace::{MOST_BYTES as TRACE_LIMIT, print_trace, read_numbered};
use std::alloc::Global;
use text_core::kinds::{smv, trace, witness};
use text_core::{End, Name, Shelf, Verdict};
use trace_lower::{LowerEnd, lower_numbered, lowered_are_accepted};
use witness_lift::{
    LiftEnd, SmvChain, lift_smv, model_lines_are_laid_out, model_lines_are_spelled,
};

// Judges a trace for a model of which this is the flat form, and invariant j.
#[derive(Drop)]
struct JudgeTrace<'a> {
    flat: &'a Flat,
    j: u32,
}

impl<'a> LastFile for JudgeTrace<'a> {
    ghost most = { most_trace_bytes };

    ghost longer = { trace_too_long };

    ghost defines = { λ command. OfForm verdict_answer command.flat.now command.j };

    ghost fits = { λ command. (source : PlainSource) × IsFormOf source command.flat.now };

    ghost longer_says = { tt };

    ghost says = { λ command bytes a h. h.0 };

    fn limit(&self) -> usize {
        TRACE_LIMIT
    }

    fn too_long(&self) -> Answer {
        Answer::SecondRefused(refusal(trace::TOO_LONG))
    }

    #[tactic(auto, using(crate::proofs::TraceAnswers::run_answered, crate::proofs::TraceAnswers::trace_refused))]
    fn answer(&self, alloc: Global, bytes: &[u8]) -> Result<Answer, Stop> {
        match read_numbered(alloc, self.flat, bytes) {
            Ok(run) => judged_answer(alloc, self.flat, self.j, &run),
            Err(End::Bad(refusal)) => Ok(Answer::SecondRefused(refusal)),
            Err(End::NoMemory) => Err(Stop::NoMemory),
        }
    }
}

// The answer for the verdict on a run.
#[tactic(auto, using(smv_flatten::proofs::Forms::has_flat, crate::proofs::TraceAnswers::numbered_yes, crate::proofs::TraceAnswers::said_no))]
fn judged_answer(alloc: Global, flat: &Flat, j: u32, run: &NumberedRun) -> Result<Answer, Stop>
    requires model { (source : PlainSource) × IsFormOf source flat.now }
    requires few { length run.now.ends < 2 ^ 32 }
    requires numbered { IsNumbered run.now }
    ensures answer { IfOk result (IsRunAnswer verdict_answer flat.now j (run_in (flat_plain flat.now).items run.now)) }
    ensures stop { IfErr result (λ stop. stop ≡ Stop.NoMemory) }
{
    match judge_numbered(alloc, flat, j, run)? {
        Verdict::Yes => Ok(Answer::Done(Output::Broken(j, last_step(run)))),
        Verdict::No(step, clause) => Ok(Answer::No(step, clause)),
    }
}

// The number of the last step of a run.
fn last_step(run: &NumberedRun) -> u32
    requires { length run.now.ends < 2 ^ 32 }
    ensures { result ≡ length run.now.ends - 1 }
{
    run.ends.len().saturating_sub(1) as u32
}

// Judges a trace of a model, given both files.
#[derive(Drop)]
struct JudgeSmv {
    j: u32,
}

impl FirstFile for JudgeSmv {
    ghost most = { most_smv_bytes };

    ghost longer = { smv_too_long };

    ghost defines = { λ command files second bytes. OfBytes verdict_answer files second command.j bytes };

    ghost longer_says = { tt };

    fn limit(&self) -> usize {
        SMV_LIMIT
    }

    fn too_long(&self) -> Answer {
        Answer::Refused(refusal(smv::TOO_LONG))
    }

    #[tactic(auto, using(smv_models::proofs::Forms::has_form, crate::proofs::TraceAnswers::trace_given, crate::proofs::TraceAnswers::trace_stops, crate::proofs::TraceAnswers::refusal_given))]
    fn answer<F: Shelf>(
        &self,
        alloc: Global,
        bytes: &[u8],
        second: &Name,
        shelf: &mut F,
    ) -> Result<Answer, Stop> {
        match flat_in(alloc, bytes, self.j) {
            Ok(flat) => {
                let trace = JudgeTrace {
                    flat: &flat,
                    j: self.j,
                };
                answer_file(alloc, second, &trace, shelf)
            }
            Err(End::Bad(refusal)) => Ok(Answer::Refused(refusal)),
            Err(End::NoMemory) => Err(Stop::NoMemory),
        }
    }
}

/// Reads an SMV model and a trace of it, and returns the verdict whether the trace is a run whose last state breaks
/// invariant j.
pub fn judge_smv_files<F: Shelf>(
    alloc: Global,
    model: &Name,
    second: &Name,
    j: u32,
    shelf: &mut F,
) -> Result<Answer, Stop>
    ensures answer { IfOk result (MayGive (F.files shelf.old) (model.now ∷ second.now ∷ []) (λ files. IsSmvJudgement files model.now second.now j) (HasNewFault (F.faults shelf.old) (F.faults shelf.new))) }
    ensures stop { IfErr result (StopsWith (MayGive (F.files shelf.old) (model.now ∷ second.now ∷ []) (λ files. IsSmvJudgement files model.now second.now j) (HasNewFault (F.faults shelf.old) (F.faults shelf.new)))) }
    ensures shelf { KeepsShelf (F.files shelf.old) (F.files shelf.new) (F.faults shelf.old) (F.faults shelf.new) (F.begun shelf.old) (F.begun shelf.new) (model.now ∷ second.now ∷ []) (IsErrAnd result StopsUnread) }
{
    answer_files(alloc, model, second, &JudgeSmv { j }, shelf)
}

// Lowers a trace to the witness that states its run, for the chain's model and invariant j.
#[derive(Drop)]
struct LowerTrace<'a> {
    chain: &'a SmvChain,
    j: u32,
}

impl<'a> LastFile for LowerTrace<'a> {
    ghost most = { most_trace_bytes };

    ghost longer = { trace_too_long };

    ghost defines = { λ command. OfForm lowered_answer command.chain.now command.j };

    ghost fits = { λ command. (source : PlainSource) × IsFormOf source command.chain.now };

    ghost longer_says = { tt };

    ghost says = { λ command bytes a h. h.0 };

    fn limit(&self) -> usize {
        TRACE_LIMIT
    }

    fn too_long(&self) -> Answer {
        Answer::SecondRefused(refusal(trace::TOO_LONG))
    }

    #[tactic(auto, using(crate::proofs::TraceAnswers::run_answered, crate::proofs::TraceAnswers::trace_refused))]
    fn answer(&self, alloc: Global, bytes: &[u8]) -> Result<Answer, Stop> {
        match read_numbered(alloc, self.chain.flat(), bytes) {
            Ok(run) => run_answer(alloc, self.chain, self.j, &run),
            Err(End::Bad(refusal)) => Ok(Answer::SecondRefused(refusal)),
            Err(End::NoMemory) => Err(Stop::NoMemory),
        }
    }
}

// The printed witness that states a run, or the judge's verdict No on the run.
fn run_answer(alloc: Global, chain: &SmvChain, j: u32, run: &NumberedRun) -> Result<Answer, Stop>
    requires model { (source : PlainSource) × IsFormOf source chain.now }
    requires few { length run.now.ends < 2 ^ 32 }
    requires numbered { IsNumbered run.now }
    ensures answer { IfOk result (IsRunAnswer lowered_answer chain.now j (run_in (flat_plain chain.now).items run.now)) }
    ensures stop { IfErr result (λ stop. stop ≡ Stop.NoMemory) }
{
    lowered_are_accepted();
    model_lines_are_laid_out();
    match lower_numbered(alloc, chain.flat(), j, run) {
        Ok(witness) => {
            let text = print_witness(alloc, chain.nodes(), &witness)?;
            Ok(Answer::Done(Output::Text(text)))
        }
        Err(LowerEnd::No(step, clause)) => Ok(Answer::No(step, clause)),
        Err(LowerEnd::NoMemory) => Err(Stop::NoMemory),
    }
}

// Lowers a trace of a model, given both files.
#[derive(Drop)]
struct LowerSmv {
    j: u32,
}

impl FirstFile for LowerSmv {
    ghost most = { most_smv_bytes };

    ghost longer = { smv_too_long };

    ghost defines = { λ command files second bytes. OfBytes lowered_answer files second command.j bytes };

    ghost longer_says = { tt };

    fn limit(&self) -> usize {
        SMV_LIMIT
    }

    fn too_long(&self) -> Answer {
        Answer::Refused(refusal(smv::TOO_LONG))
    }

    #[tactic(auto, using(smv_models::proofs::Forms::has_form, crate::proofs::TraceAnswers::refusal_given))]
    fn answer<F: Shelf>(
        &self,
        alloc: Global,
        bytes: &[u8],
        second: &Name,
        shelf: &mut F,
    ) -> Result<Answer, Stop> {
        match chain_in(alloc, bytes, self.j) {
            Ok(chain) => {
                let trace = LowerTrace {
                    chain: &chain,
                    j: self.j,
                };
                answer_file(alloc, second, &trace, shelf)
            }
            Err(End::Bad(refusal)) => Ok(Answer::Refused(refusal)),
            Err(End::NoMemory) => Err(Stop::NoMemory),
        }
    }
}

/// Reads an SMV model and a trace of it, and returns the witness that states the trace.
///
/// The judge must say that the trace is a run whose last state breaks invariant j; otherwise the answer is its verdict.
pub fn lower_smv_files<F: Shelf>(
    alloc: Global,
    model: &Name,
    second: &Name,
    j: u32,
    shelf: &mut F,
) -> Result<Answer, Stop>
    ensures answer { IfOk result (MayGive (F.files shelf.old) (model.now ∷ second.now ∷ []) (λ files. IsLowering files model.now second.now j) (HasNewFault (F.faults shelf.old) (F.faults shelf.new))) }
    ensures stop { IfErr result (StopsWith (MayGive (F.files shelf.old) (model.now ∷ second.now ∷ []) (λ files. IsLowering files model.now second.now j) (HasNewFault (F.faults shelf.old) (F.faults shelf.new)))) }
    ensures shelf { KeepsShelf (F.files shelf.old) (F.files shelf.new) (F.faults shelf.old) (F.faults shelf.new) (F.begun shelf.old) (F.begun shelf.new) (model.now ∷ second.now ∷ []) (IsErrAnd result StopsUnread) }
{
    answer_files(alloc, model, second, &LowerSmv { j }, shelf)
}

// Lifts a witness to the trace of a run, for the chain's model.
#[derive(Drop)]
struct LiftWitness<'a> {
    chain: &'a SmvChain,
}

impl<'a> LastFile for LiftWitness<'a> {
    ghost most = { most_witness_bytes };

    ghost longer = { witness_too_long };

    ghost defines = { λ command. OfText (lines_in command.chain.now) (trace_in command.chain.now) };

    ghost fits = { λ command. Unit {0} };

    ghost longer_says = { tt };

    ghost says = { λ command text a h. says (lines_in command.chain.now) (trace_in command.chain.now) text a h };

    fn limit(&self) -> usize {
        WITNESS_LIMIT
    }

    fn too_long(&self) -> Answer {
        Answer::SecondRefused(refusal(witness::TOO_LONG))
    }

    fn answer(&self, alloc: Global, bytes: &[u8]) -> Result<Answer, Stop> {
        let witness = witness_in(alloc, self.chain.nodes(), bytes)?;
        lifted_answer(alloc, self.chain, &witness)
    }
}

// The trace to which a witness of the chain's model is lifted, or the judge's verdict No on it.
#[tactic(auto, using(btor_commands::specs::laws::Lifts::rejected), unfolding(crate::specs::SmvLift::run_text))]
fn lifted_answer(alloc: Global, chain: &SmvChain, witness: &Witness) -> Result<Answer, Stop>
    requires { IsWitness (sizes_of (lines_in chain.now)) witness.now }
    ensures answer { IfOk result (IsLift (lines_in chain.now) (trace_in chain.now) witness.now) }
    ensures stop { IfErr result (λ stop. stop ≡ Stop.NoMemory) }
{
    match lift_smv(alloc, chain, witness) {
        Ok(run) => {
            let text = print_trace(alloc, chain.flat(), witness.bad, &run)?;
            Ok(Answer::Done(Output::Text(text)))
        }
        Err(LiftEnd::No(step, clause)) => Ok(Answer::No(step, clause)),
        Err(LiftEnd::NoMemory) => Err(Stop::NoMemory),
    }
}

// Lifts a witness of a model's BTOR2 text, given both files.
#[derive(Drop)]
struct LiftSmv;

impl FirstFile for LiftSmv {
    ghost most = { most_smv_bytes };

    ghost longer = { smv_too_long };

    ghost defines = { λ command files second bytes. OfWitness files second bytes };

    ghost longer_says = { tt };

    fn limit(&self) -> usize {
        SMV_LIMIT
    }

    fn too_long(&self) -> Answer {
        Answer::Refused(refusal(smv::TOO_LONG))
    }

    #[tactic(auto, using(crate::proofs::Smv::refusal_given))]
    fn answer<F: Shelf>(
        &self,
        alloc: Global,
        bytes: &[u8],
        second: &Name,
        shelf: &mut F,
    ) -> Result<Answer, Stop> {
        model_lines_are_spelled();
        match chain_in(alloc, bytes, 0) {
            Ok(chain) => answer_file(alloc, second, &LiftWitness { chain: &chain }, shelf),
            Err(End::Bad(refusal)) => Ok(Answer::Refused(refusal)),
            Err(End::NoMemory) => Err(Stop::NoMemory),
        }
    }
}

/// Reads an SMV model and a witness of its BTOR2 text, and returns the trace of the run to which the witness is lifted.
pub fn lift_smv_files<F: Shelf>(
    alloc: Global,
    model: &Name,
    second: &Name,
    shelf: &mut F,
) -> Result<Answer, Stop>
    ensures answer { IfOk result (MayGive (F.files shelf.old) (model.now ∷ second.now ∷ []) (λ files. IsSmvLift files model.now second.now) (HasNewFault (F.faults shelf.old) (F.faults shelf.new))) }
    ensures stop { IfErr result (StopsWith (MayGive (F.files shelf.old) (model.now ∷ second.now ∷ []) (λ files. IsSmvLift files model.now second.now) (HasNewFault (F.faults shelf.old) (F.faults shelf.new)))) }
    ensures shelf { KeepsShelf (F.files shelf.old) (F.files shelf.new) (F.faults shelf.old) (F.faults shelf.new) (F.begun shelf.old) (F.begun shelf.new) (model.now ∷ second.now ∷ []) (IsErrAnd result StopsUnread) }
{
    answer_files(alloc, model, second, &LiftSmv, shelf)
}
