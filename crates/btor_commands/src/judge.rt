// The command `judge-btor`.
ghost use Rattle.std.specs.Prelude.{◌≡◌, ◌≤◌, [], ◌∷◌, length, false, IfOk, IfErr, IsErrAnd};
ghost use Rattle.text_core.specs.Outside.{BeginsOnly, HasNewFault};
ghost use Rattle.btor_tree.specs.Texts.{SpellsLines};
ghost use Rattle.btor_judge.specs.Judging.{Represents, has_ended};
ghost use Rattle.command_core.specs.Giving.{MayGive};
ghost use Rattle.command_core.specs.Keeping.{KeepsShelf};
ghost use Rattle.btor_commands.specs.Judgement.{IsJudgement, IsLinesRefusal, witness_too_long};
ghost use Rattle.btor_commands.specs.Limits.{most_btor_bytes, most_witness_bytes};
ghost use Rattle.btor_commands.specs.Pieces.{IsOfFile, judge_answer};
ghost use Rattle.command_core.specs.Reading.{Instead, OnNoMemory, StopsUnread, StopsWith};

use crate::pieces::{PIECE, PieceEnd, feed_file};
use btor_judge::{Judge, JudgeEnd};
use btor_text::read_btor;
use btor_tree::Nodes;
use command_core::{Answer, Output, Stop, read_file, refusal};
use std::alloc::Global;
use text_core::kinds::{btor, witness};
use text_core::{End, Name, Shelf, Verdict};

/// The most bytes of a BTOR2 text.
pub const BTOR_LIMIT: usize = 134_217_728;

/// Reads a BTOR2 text and a witness for it, and judges the witness.
///
/// It never runs out of memory once it has opened the second file.
#[tactic(auto, using(crate::proofs::Judged::may_judge, command_core::specs::laws::Stops::always))]
pub fn judge_files<F: Shelf>(
    alloc: Global,
    model: &Name,
    second: &Name,
    shelf: &mut F,
) -> Result<Answer, Stop>
    ensures answer { IfOk result (MayGive (F.files shelf.old) (model.now ∷ second.now ∷ []) (λ files. IsJudgement files model.now second.now) (HasNewFault (F.faults shelf.old) (F.faults shelf.new))) }
    ensures stop { IfErr result (StopsWith (MayGive (F.files shelf.old) (model.now ∷ second.now ∷ []) (λ files. IsJudgement files model.now second.now) (HasNewFault (F.faults shelf.old) (F.faults shelf.new)))) }
    ensures shelf { KeepsShelf (F.files shelf.old) (F.files shelf.new) (F.faults shelf.old) (F.faults shelf.new) (F.begun shelf.old) (F.begun shelf.new) (model.now ∷ second.now ∷ []) (IsErrAnd result StopsUnread) }
    ensures memory { IfErr result (OnNoMemory (BeginsOnly (F.files shelf.old) (F.begun shelf.old) (F.begun shelf.new) model.now)) }
{
    let too_long = Answer::Refused(refusal(btor::TOO_LONG));
    let bytes = read_file(alloc, shelf, model, BTOR_LIMIT, too_long)?;
    let nodes = lines_of(alloc, &bytes)?;
    let answer = second_answer(alloc, &nodes, second, shelf)?;
    Ok(answer)
}

// The lines that the bytes parse to.
fn lines_of(alloc: Global, bytes: &[u8]) -> Result<Nodes, Stop>
    requires { length bytes.now ≤ most_btor_bytes }
    ensures lines { IfOk result (SpellsLines bytes.now) }
    ensures stop { IfErr result (StopsWith (IsLinesRefusal bytes.now)) }
{
    match read_btor(alloc, bytes) {
        Ok(nodes) => Ok(nodes),
        Err(End::Bad(refusal)) => Err(Stop::Answered(Answer::Refused(refusal))),
        Err(End::NoMemory) => Err(Stop::NoMemory),
    }
}

// The verdict on the witness in the second file. All memory is allocated before the file is opened.
#[tactic(auto, using(command_core::specs::laws::Stops::never))]
fn second_answer<F: Shelf>(
    alloc: Global,
    nodes: &Nodes,
    second: &Name,
    shelf: &mut F,
) -> Result<Answer, Stop>
    ensures answer { IfOk result (IsOfFile (F.files shelf.old) second.now nodes.now) }
    ensures stop { IfErr result (StopsWith (Instead (F.files shelf.old) (HasNewFault (F.faults shelf.old) (F.faults shelf.new)) second.now most_witness_bytes witness_too_long)) }
    ensures shelf { KeepsShelf (F.files shelf.old) (F.files shelf.new) (F.faults shelf.old) (F.faults shelf.new) (F.begun shelf.old) (F.begun shelf.new) (second.now ∷ []) (IsErrAnd result StopsUnread) }
    ensures memory { IfErr result (OnNoMemory (F.begun shelf.new ≡ F.begun shelf.old)) }
{
    let mut judge = Judge::new(alloc, nodes)?;
    let spare = second.duplicate(alloc)?;
    fed_answer(second, spare, nodes, &mut judge, shelf)
}

// The verdict on the witness in the second file, by a judge that has read nothing, with a spare copy of the name
// for the note. It allocates nothing.
#[tactic(auto, using(crate::proofs::Judged::of_file, crate::proofs::Judged::stands_for_some))]
fn fed_answer<F: Shelf>(
    second: &Name,
    spare: Name,
    nodes: &Nodes,
    judge: &mut Judge,
    shelf: &mut F,
) -> Result<Answer, Stop>
    requires same { spare ≡ second.now }
    requires represents { Represents nodes.now judge.old [] }
    requires going { has_ended judge.old ≡ false }
    ensures answer { IfOk result (IsOfFile (F.files shelf.old) second.now nodes.now) }
    ensures stop { IfErr result (StopsWith (Instead (F.files shelf.old) (HasNewFault (F.faults shelf.old) (F.faults shelf.new)) second.now most_witness_bytes witness_too_long)) }
    ensures memory { IfErr result (OnNoMemory ⊥) }
    ensures shelf { KeepsShelf (F.files shelf.old) (F.files shelf.new) (F.faults shelf.old) (F.faults shelf.new) (F.begun shelf.old) (F.begun shelf.new) (second.now ∷ []) (IsErrAnd result StopsUnread) }
{
    let mut buffer = [0u8; PIECE];
    match feed_file(shelf, second, &mut buffer, nodes, judge) {
        Ok(()) => Ok(judge_answer(judge.end(nodes))),
        Err(PieceEnd::Fault) => Err(Stop::Answered(Answer::Unread(spare))),
        Err(PieceEnd::TooLong) => {
            let too_long = Answer::SecondRefused(refusal(witness::TOO_LONG));
            Err(Stop::Answered(too_long))
        }
    }
}

// The answer for the result of the judge.
fn judge_answer(end: JudgeEnd) -> Answer
    ensures { result ≡ judge_answer end }
{
    match end {
        JudgeEnd::Judged(bad, last, Verdict::Yes) => Answer::Done(Output::Yes(bad, last)),
        JudgeEnd::Judged(_, _, Verdict::No(step, clause)) => Answer::No(step, clause),
        JudgeEnd::Bad(refusal) => Answer::SecondRefused(refusal),
    }
}
