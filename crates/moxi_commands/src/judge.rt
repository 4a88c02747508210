// The command that judges a response to a MoXI script.
ghost use Rattle.std.specs.Prelude.{◌≡◌, ◌<◌, ◌^◌, ◌-◌, [], ◌∷◌, length, IfOk, IfErr, IsErrAnd};
ghost use Rattle.text_core.specs.Outside.{HasNewFault};
ghost use Rattle.moxi_scripts.specs.ScriptView.{plain_script};
ghost use Rattle.moxi_flat.specs.FlatSystem.{flat_of};
ghost use Rattle.moxi_judge.specs.Judging.{IsStatedTrace};
ghost use Rattle.moxi_trace.specs.Texts.{symbol_text};
ghost use Rattle.command_core.specs.declared.answer.Stop.TheVariants as Stop;
ghost use Rattle.command_core.specs.Giving.{MayGive};
ghost use Rattle.command_core.specs.Keeping.{KeepsShelf};
ghost use Rattle.command_core.specs.Reading.{StopsUnread, StopsWith};
ghost use Rattle.moxi_commands.specs.Limits.{most_script_bytes, most_response_bytes};
ghost use Rattle.moxi_commands.specs.Scripts.{script_too_long};
ghost use Rattle.moxi_commands.specs.Judgement.{IsMoxiJudgement, OfBytes, OfChecks, OfText, met_answer, response_too_long, stated_answer};
ghost use Rattle.moxi_commands.specs.laws.Verdicts.{verdict_says};

use crate::scripts::{SCRIPT_LIMIT, script_of};
use command_core::{Answer, FirstFile, LastFile, Output, Stop, answer_file, answer_files, refusal};
use moxi_instantiate::{FlatSystem, instantiate};
use moxi_judge::judge_moxi;
use moxi_responses::read_response;
use moxi_scripts::Script;
use moxi_sexpr::put_symbol;
use moxi_trace::{Answered, MOST_BYTES};
use std::alloc::Global;
use std::mem::drop;
use text_core::kinds::{moxi, trace};
use text_core::{End, Name, NoMemory, Shelf, Text, Verdict};

/// Reads a MoXI script and a response to it, and judges whether the response's trace meets its query at the last step.
pub fn judge_moxi_files<F: Shelf>(
    alloc: Global,
    model: &Name,
    second: &Name,
    shelf: &mut F,
) -> Result<Answer, Stop>
    ensures answer { IfOk result (MayGive (F.files shelf.old) (model.now ∷ second.now ∷ []) (λ files. IsMoxiJudgement files model.now second.now) (HasNewFault (F.faults shelf.old) (F.faults shelf.new))) }
    ensures stop { IfErr result (StopsWith (MayGive (F.files shelf.old) (model.now ∷ second.now ∷ []) (λ files. IsMoxiJudgement files model.now second.now) (HasNewFault (F.faults shelf.old) (F.faults shelf.new)))) }
    ensures shelf { KeepsShelf (F.files shelf.old) (F.files shelf.new) (F.faults shelf.old) (F.faults shelf.new) (F.begun shelf.old) (F.begun shelf.new) (model.now ∷ second.now ∷ []) (IsErrAnd result StopsUnread) }
{
    answer_files(alloc, model, second, &JudgeMoxi, shelf)
}

// The answer of `judge-moxi`, computed from the text of the script.
struct JudgeMoxi;

impl FirstFile for JudgeMoxi {
    ghost most = { most_script_bytes };

    ghost longer = { script_too_long };

    ghost defines = { λ _ files second. OfBytes files second };

    fn limit(&self) -> usize {
        SCRIPT_LIMIT
    }

    fn too_long(&self) -> Answer {
        Answer::Refused(refusal(moxi::TOO_LONG))
    }

    #[tactic(auto, using(crate::proofs::Judged::bytes_ok, crate::proofs::Judged::bytes_stop, command_core::specs::laws::Given::of_each))]
    fn answer<F: Shelf>(
        &self,
        alloc: Global,
        bytes: &[u8],
        second: &Name,
        shelf: &mut F,
    ) -> Result<Answer, Stop> {
        match script_of(alloc, bytes) {
            Ok(script) => {
                let answer = script_answer(alloc, &script, second, shelf);
                drop(script);
                answer
            }
            Err(End::Bad(refusal)) => Ok(Answer::Refused(refusal)),
            Err(End::NoMemory) => Err(Stop::NoMemory),
        }
    }

    ghost longer_says = { tt };
}

// The verdict on the response in the second file, or the refusal of the system that the script's check instantiates.
#[tactic(auto, using(crate::proofs::Judged::checks_ok, crate::proofs::Judged::checks_stop, command_core::specs::laws::Given::of_each))]
fn script_answer<F: Shelf>(
    alloc: Global,
    script: &Script,
    second: &Name,
    shelf: &mut F,
) -> Result<Answer, Stop>
    ensures answer { IfOk result (MayGive (F.files shelf.old) (second.now ∷ []) (λ files. OfChecks files second.now (plain_script script.now)) (HasNewFault (F.faults shelf.old) (F.faults shelf.new))) }
    ensures stop { IfErr result (StopsWith (MayGive (F.files shelf.old) (second.now ∷ []) (λ files. OfChecks files second.now (plain_script script.now)) (HasNewFault (F.faults shelf.old) (F.faults shelf.new)))) }
    ensures shelf { KeepsShelf (F.files shelf.old) (F.files shelf.new) (F.faults shelf.old) (F.faults shelf.new) (F.begun shelf.old) (F.begun shelf.new) (second.now ∷ []) (IsErrAnd result StopsUnread) }
{
    match instantiate(alloc, script) {
        Ok(system) => answer_file(
            alloc,
            second,
            &ResponseFile {
                script,
                system: &system,
            },
            shelf,
        ),
        Err(End::Bad(refusal)) => Ok(Answer::Refused(refusal)),
        Err(End::NoMemory) => Err(Stop::NoMemory),
    }
}

// The answer of `judge-moxi`, computed from the text of the response, for a script and its system.
#[derive(Drop)]
struct ResponseFile<'a, 's> {
    script: &'a Script,
    system: &'a FlatSystem<'s>,
}

impl<'a, 's> LastFile for ResponseFile<'a, 's> {
    ghost most = { most_response_bytes };

    ghost longer = { response_too_long };

    ghost defines = { λ file. OfText (plain_script file.script.now) };

    ghost fits = { λ file. file.system.now ≡ flat_of (plain_script file.script.now) };

    fn limit(&self) -> usize {
        MOST_BYTES
    }

    fn too_long(&self) -> Answer {
        Answer::SecondRefused(refusal(trace::TOO_LONG))
    }

    fn answer(&self, alloc: Global, bytes: &[u8]) -> Result<Answer, Stop> {
        response_answer(alloc, self.script, self.system, bytes)
    }

    ghost longer_says = { tt };

    ghost says = { λ file text a h. verdict_says (plain_script file.script.now) text a h };
}

// The verdict on the trace that a response states, or the response's refusal. The system is the script's.
fn response_answer(
    alloc: Global,
    script: &Script,
    system: &FlatSystem<'_>,
    text: &[u8],
) -> Result<Answer, Stop>
    requires system { system.now ≡ flat_of (plain_script script.now) }
    ensures answer { IfOk result (OfText (plain_script script.now) text.now) }
    ensures stop { IfErr result (λ stop. stop ≡ Stop.NoMemory) }
{
    match read_response(alloc, script, system, text) {
        Ok(answered) => stated_answer(alloc, script, system, &answered),
        Err(End::Bad(refusal)) => Ok(Answer::SecondRefused(refusal)),
        Err(End::NoMemory) => Err(Stop::NoMemory),
    }
}

// The answer for the verdict on a stated trace. The system is the script's.
fn stated_answer(
    alloc: Global,
    script: &Script,
    system: &FlatSystem<'_>,
    answered: &Answered,
) -> Result<Answer, Stop>
    requires system { system.now ≡ flat_of (plain_script script.now) }
    requires query { answered.now.query < length script.now.check.queries }
    requires trace { IsStatedTrace system.now answered.now.trace }
    requires few { length answered.now.trace < 2 ^ 32 }
    ensures answer { IfOk result (λ answer. answer ≡ stated_answer (plain_script script.now) answered.now) }
    ensures stop { IfErr result (λ stop. stop ≡ Stop.NoMemory) }
{
    match judge_moxi(alloc, script, system, answered.query, &answered.trace)? {
        Verdict::Yes => Ok(met_answer(alloc, script, answered)?),
        Verdict::No(step, clause) => Ok(Answer::No(step, clause)),
    }
}

// The answer that the stated trace meets its query.
fn met_answer(alloc: Global, script: &Script, answered: &Answered) -> Result<Answer, NoMemory>
    requires query { answered.now.query < length script.now.check.queries }
    requires few { length answered.now.trace < 2 ^ 32 }
    ensures { IfOk result (λ answer. answer ≡ met_answer (plain_script script.now) answered.now) }
{
    let query = script.check.queries.at(answered.query as usize);
    let symbol = symbol_of(alloc, query.name.bytes())?;
    Ok(Answer::Done(Output::Met(symbol, last_step(answered))))
}

// The number of the stated trace's last step.
fn last_step(answered: &Answered) -> u32
    requires { length answered.now.trace < 2 ^ 32 }
    ensures { result ≡ length answered.now.trace - 1 }
{
    answered.trace.len().saturating_sub(1) as u32
}

// A name printed as a symbol.
fn symbol_of(alloc: Global, name: &[u8]) -> Result<Name, NoMemory>
    ensures { IfOk result (λ symbol. symbol ≡ symbol_text name.now) }
{
    let mut text = Text::new(alloc);
    put_symbol(&mut text, name, false)?;
    Name::of(alloc, text.bytes())
}
