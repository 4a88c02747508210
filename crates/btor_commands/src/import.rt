// The command `btor2moxi`.
ghost use Rattle.std.specs.Prelude.{◌≡◌, ◌≤◌, [], ◌∷◌, length, IfOk, IfErr, IsErrAnd};
ghost use Rattle.text_core.specs.Outside.{HasNewFault};
ghost use Rattle.text_core.specs.declared.end.End.TheVariants.{Bad};
ghost use Rattle.btor_text.specs.Answer.{IsRefused};
ghost use Rattle.command_core.specs.Giving.{MayGive};
ghost use Rattle.command_core.specs.Keeping.{KeepsShelf};
ghost use Rattle.command_core.specs.Reading.{StopsUnread, StopsWith};
ghost use Rattle.command_core.specs.laws.Texts.{text_says};
ghost use Rattle.btor_commands.specs.Importing.{IsImport, IsScriptText, OfBytes, ScriptsAreCorrect, script_text};
ghost use Rattle.btor_commands.specs.Judgement.{btor_too_long};
ghost use Rattle.btor_commands.specs.Limits.{most_btor_bytes};

use crate::judge::BTOR_LIMIT;
use btor_import::{import_btor, names_are_spellable, scripts_are_valid};
use btor_import_laws::{brackets_are_few, queries_are_bads, traces_have_frames};
use btor_text::read_btor;
use btor_tree::Nodes;
use command_core::{Answer, LastFile, Stop, answer_file, refusal, text_answer};
use moxi_script_print::{print_script, printed_scripts_are_spelled, valid_scripts_can_be_shown};
use moxi_scripts::one_script;
use moxi_sexpr::readings_are_one;
use moxi_term_print::shown_is_read_back;
use std::alloc::Global;
use text_core::kinds::btor;
use text_core::{End, Name, NoMemory, Shelf, Text};

/// Reads a BTOR2 text, and returns its translation to MoXI.
pub fn btor_to_moxi<F: Shelf>(alloc: Global, model: &Name, shelf: &mut F) -> Result<Answer, Stop>
    ensures answer { IfOk result (MayGive (F.files shelf.old) (model.now ∷ []) (λ files. IsImport files model.now) (HasNewFault (F.faults shelf.old) (F.faults shelf.new))) }
    ensures stop { IfErr result (StopsWith (MayGive (F.files shelf.old) (model.now ∷ []) (λ files. IsImport files model.now) (HasNewFault (F.faults shelf.old) (F.faults shelf.new)))) }
    ensures shelf { KeepsShelf (F.files shelf.old) (F.files shelf.new) (F.faults shelf.old) (F.faults shelf.new) (F.begun shelf.old) (F.begun shelf.new) (model.now ∷ []) (IsErrAnd result StopsUnread) }
{
    answer_file(alloc, model, &BtorToMoxi, shelf)
}

// The translation of the lines that a text parses to.
struct BtorToMoxi;

impl LastFile for BtorToMoxi {
    ghost most = { most_btor_bytes };

    ghost longer = { btor_too_long };

    ghost defines = { λ _. OfBytes };

    ghost fits = { λ _. Unit {0} };

    fn limit(&self) -> usize {
        BTOR_LIMIT
    }

    fn too_long(&self) -> Answer {
        Answer::Refused(refusal(btor::TOO_LONG))
    }

    #[tactic(auto, using(command_core::specs::laws::Texts::text_ok, command_core::specs::laws::Texts::text_stop))]
    fn answer(&self, alloc: Global, bytes: &[u8]) -> Result<Answer, Stop> {
        text_answer(script_text(alloc, bytes))
    }

    ghost longer_says = { tt };

    ghost says = { λ _ bytes a h. text_says (IsScriptText bytes) (λ refusal. IsRefused bytes (Bad refusal)) a h };
}

// The printed script of the lines that the bytes parse to, or their refusal.
fn script_text(alloc: Global, bytes: &[u8]) -> Result<Text, End>
    requires { length bytes.now ≤ most_btor_bytes }
    ensures text { IfOk result (IsScriptText bytes.now) }
    ensures refused { IfErr result (IsRefused bytes.now) }
{
    let nodes = read_btor(alloc, bytes)?;
    Ok(text_of_lines(alloc, &nodes)?)
}

// The printed script of lines.
fn text_of_lines(alloc: Global, nodes: &Nodes) -> Result<Text, NoMemory>
    ensures { IfOk result (λ text. text ≡ script_text nodes.now) }
{
    let script = import_btor(alloc, nodes)?;
    print_script(alloc, &script)
}

/// Proves that the text written for a BTOR2 text parses to one script, except for the place of its check.
///
/// In this script, some trace meets query j at step k exactly where the lines have suitable frames 0 to k. In these
/// frames every constraint is true, and bad line j is true in frame k.
pub fn imports_are_correct()
    ensures { ScriptsAreCorrect }
{
    scripts_are_valid();
    names_are_spellable();
    brackets_are_few();
    valid_scripts_can_be_shown();
    shown_is_read_back();
    printed_scripts_are_spelled();
    readings_are_one();
    one_script();
    traces_have_frames();
    queries_are_bads();
}
