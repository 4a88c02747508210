// The command `simplify`.
ghost use Rattle.std.specs.Prelude.{◌≡◌, ◌≤◌, [], ◌∷◌, List, length, IfOk, IfErr, IsErrAnd};
ghost use Rattle.text_core.specs.Outside.{HasNewFault};
ghost use Rattle.text_core.specs.declared.end.End.TheVariants.{Bad};
ghost use Rattle.btor_tree.specs.Printing.{printed};
ghost use Rattle.btor_tree.specs.declared.lines.Line.{Line};
ghost use Rattle.btor_simplify.specs.Simplified.{IsSimplified};
ghost use Rattle.btor_text.specs.Answer.{IsRefused};
ghost use Rattle.command_core.specs.Giving.{MayGive};
ghost use Rattle.command_core.specs.Keeping.{KeepsShelf};
ghost use Rattle.command_core.specs.Reading.{StopsUnread, StopsWith};
ghost use Rattle.command_core.specs.laws.Texts.{text_says};
ghost use Rattle.btor_commands.specs.Judgement.{btor_too_long};
ghost use Rattle.btor_commands.specs.Limits.{most_btor_bytes};
ghost use Rattle.btor_commands.specs.Simplifying.{IsSimplification, IsSmallerText, OfBytes, SmallerTextsAreCorrect};

use crate::judge::BTOR_LIMIT;
use btor_simplify::{lists_get_smaller, simplify};
use btor_text::{print_btor, read_btor};
use btor_tree::Nodes;
use command_core::{Answer, LastFile, Stop, answer_file, refusal, text_answer};
use std::alloc::Global;
use std::mem::drop;
use text_core::kinds::btor;
use text_core::{End, Name, NoMemory, Shelf, Text};

/// Reads a BTOR2 text, and prints a simplified list of lines with the same witnesses.
pub fn simplify_btor<F: Shelf>(alloc: Global, model: &Name, shelf: &mut F) -> Result<Answer, Stop>
    ensures answer { IfOk result (MayGive (F.files shelf.old) (model.now ∷ []) (λ files. IsSimplification files model.now) (HasNewFault (F.faults shelf.old) (F.faults shelf.new))) }
    ensures stop { IfErr result (StopsWith (MayGive (F.files shelf.old) (model.now ∷ []) (λ files. IsSimplification files model.now) (HasNewFault (F.faults shelf.old) (F.faults shelf.new)))) }
    ensures shelf { KeepsShelf (F.files shelf.old) (F.files shelf.new) (F.faults shelf.old) (F.faults shelf.new) (F.begun shelf.old) (F.begun shelf.new) (model.now ∷ []) (IsErrAnd result StopsUnread) }
{
    answer_file(alloc, model, &SimplifyBtor, shelf)
}

// The simplified text of the lines that a text parses to.
struct SimplifyBtor;

impl LastFile for SimplifyBtor {
    ghost most = { most_btor_bytes };

    ghost longer = { btor_too_long };

    ghost defines = { λ _. OfBytes };

    ghost fits = { λ _. Unit {0} };

    fn limit(&self) -> usize {
        BTOR_LIMIT
    }

    fn too_long(&self) -> Answer {
        Answer::Refused(refusal(btor::TOO_LONG))
    }

    #[tactic(auto, using(command_core::specs::laws::Texts::text_ok, command_core::specs::laws::Texts::text_stop))]
    fn answer(&self, alloc: Global, bytes: &[u8]) -> Result<Answer, Stop> {
        text_answer(smaller_text(alloc, bytes))
    }

    ghost longer_says = { tt };

    ghost says = { λ _ bytes a h. text_says (IsSmallerText bytes) (λ refusal. IsRefused bytes (Bad refusal)) a h };
}

// The printed simplified list of the lines that the bytes parse to, or their refusal.
fn smaller_text(alloc: Global, bytes: &[u8]) -> Result<Text, End>
    requires { length bytes.now ≤ most_btor_bytes }
    ensures text { IfOk result (IsSmallerText bytes.now) }
    ensures refused { IfErr result (IsRefused bytes.now) }
{
    let nodes = read_btor(alloc, bytes)?;
    Ok(text_of_smaller(alloc, nodes)?)
}

// The printed simplified list of lines. The lines themselves are dropped before it is printed.
fn text_of_smaller(alloc: Global, nodes: Nodes) -> Result<Text, NoMemory>
    ensures { IfOk result (λ text. (smaller : List Line) × IsSimplified nodes smaller × (text ≡ printed smaller)) }
{
    let smaller = simplify(alloc, &nodes)?;
    drop(nodes);
    print_btor(alloc, &smaller)
}

/// Proves that the text written for a BTOR2 text parses to one list of lines, which is in normal form and no
/// longer.
///
/// This list keeps the words and the witnesses of the text's lines.
pub fn smaller_texts_are_correct()
    ensures { SmallerTextsAreCorrect }
{
    lists_get_smaller();
}
