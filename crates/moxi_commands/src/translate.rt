// The command that translates a MoXI script to BTOR2.
ghost use Rattle.std.specs.Prelude.{◌≡◌, ◌≤◌, [], ◌∷◌, None, length, IfOk, IfErr, IsErrAnd};
ghost use Rattle.text_core.specs.Outside.{HasNewFault};
ghost use Rattle.btor_tree.specs.Printing.{printed};
ghost use Rattle.moxi_scripts.specs.ScriptView.{plain_script};
ghost use Rattle.moxi_flat.specs.Limits.{flat_refusal};
ghost use Rattle.moxi_instantiate.specs.Instances.{IsInstEnd};
ghost use Rattle.moxi_lines.specs.Lines.{lines_of};
ghost use Rattle.command_core.specs.Giving.{MayGive};
ghost use Rattle.command_core.specs.Keeping.{KeepsShelf};
ghost use Rattle.command_core.specs.Reading.{StopsUnread, StopsWith};
ghost use Rattle.command_core.specs.laws.Texts.{text_says};
ghost use Rattle.moxi_commands.specs.Limits.{most_script_bytes};
ghost use Rattle.moxi_commands.specs.Scripts.{IsSystemRefusal, script_too_long};
ghost use Rattle.moxi_commands.specs.Translation.{IsBtorText, IsLinesEnd, IsLinesText, LinesAreCorrect, OfBytes, ScriptLinesAreLaidOut, btor_text};

use crate::scripts::{SCRIPT_LIMIT, script_of};
use btor_text::print_btor;
use btor_tree::{one_reading, printed_spells};
use command_core::{Answer, LastFile, Stop, answer_file, refusal, text_answer};
use moxi_flat::{flat_systems_are_sorted, traces_have_flat_traces};
use moxi_instantiate::{FlatSystem, instantiate};
use moxi_layout::{
    bads_are_queries, codes_are_few, flat_sizes_are_script_sizes, lines_lay_out, lines_stay_few,
    no_duplicate_lines, traces_have_frames,
};
use moxi_scripts::{Script, spelled_scripts_are_valid};
use moxi_to_btor::to_btor;
use std::alloc::Global;
use std::mem::drop;
use text_core::kinds::moxi;
use text_core::{End, Name, NoMemory, Shelf, Text};

/// Reads a MoXI script, and returns the BTOR2 text of the system that its check instantiates.
pub fn moxi_to_btor<F: Shelf>(alloc: Global, model: &Name, shelf: &mut F) -> Result<Answer, Stop>
    ensures answer { IfOk result (MayGive (F.files shelf.old) (model.now ∷ []) (λ files. IsBtorText files model.now) (HasNewFault (F.faults shelf.old) (F.faults shelf.new))) }
    ensures stop { IfErr result (StopsWith (MayGive (F.files shelf.old) (model.now ∷ []) (λ files. IsBtorText files model.now) (HasNewFault (F.faults shelf.old) (F.faults shelf.new)))) }
    ensures shelf { KeepsShelf (F.files shelf.old) (F.files shelf.new) (F.faults shelf.old) (F.faults shelf.new) (F.begun shelf.old) (F.begun shelf.new) (model.now ∷ []) (IsErrAnd result StopsUnread) }
{
    answer_file(alloc, model, &MoxiToBtor, shelf)
}

// The answer of `moxi2btor`, computed from the text of the script.
struct MoxiToBtor;

impl LastFile for MoxiToBtor {
    ghost most = { most_script_bytes };

    ghost longer = { script_too_long };

    ghost defines = { λ _. OfBytes };

    ghost fits = { λ _. Unit {0} };

    fn limit(&self) -> usize {
        SCRIPT_LIMIT
    }

    fn too_long(&self) -> Answer {
        Answer::Refused(refusal(moxi::TOO_LONG))
    }

    #[tactic(auto, using(command_core::specs::laws::Texts::text_ok, command_core::specs::laws::Texts::text_stop))]
    fn answer(&self, alloc: Global, bytes: &[u8]) -> Result<Answer, Stop> {
        text_answer(lines_text(alloc, bytes))
    }

    ghost longer_says = { tt };

    ghost says = { λ _ bytes a h. text_says (IsLinesText bytes) (IsSystemRefusal bytes) a h };
}

// The BTOR2 text of the script that the bytes spell, or the reason why there is none.
#[tactic(auto, using(crate::proofs::Translated::of_script, crate::proofs::Translated::no_script, crate::proofs::Translated::no_text))]
fn lines_text(alloc: Global, bytes: &[u8]) -> Result<Text, End>
    requires { length bytes.now ≤ most_script_bytes }
    ensures text { IfOk result (IsLinesText bytes.now) }
    ensures refused { IfErr result (IsLinesEnd bytes.now) }
{
    match script_of(alloc, bytes) {
        Ok(script) => {
            let text = text_of_script(alloc, &script);
            drop(script);
            text
        }
        Err(end) => Err(end),
    }
}

// The BTOR2 text of a script, or the refusal of the system that its check instantiates.
fn text_of_script(alloc: Global, script: &Script) -> Result<Text, End>
    ensures accepted { IfOk result (λ text. flat_refusal (plain_script script.now) ≡ None) }
    ensures text { IfOk result (λ text. text ≡ btor_text (plain_script script.now)) }
    ensures refused { IfErr result (IsInstEnd (plain_script script.now)) }
{
    let system = instantiate(alloc, script)?;
    Ok(text_of_system(alloc, &system)?)
}

// The printed lines of a flat system.
fn text_of_system(alloc: Global, system: &FlatSystem<'_>) -> Result<Text, NoMemory>
    ensures { IfOk result (λ text. text ≡ printed (lines_of system.now)) }
{
    let nodes = to_btor(alloc, system)?;
    print_btor(alloc, &nodes)
}

/// Proves that the lines of the flat system that a script's check instantiates lay the system out.
pub fn script_lines_are_laid_out()
    ensures { ScriptLinesAreLaidOut }
{
    spelled_scripts_are_valid();
    codes_are_few();
    flat_systems_are_sorted();
    flat_sizes_are_script_sizes();
    lines_stay_few();
    lines_lay_out();
}

/// Proves that the BTOR2 text of a script spells one list of lines, no two of which are equal.
///
/// A trace meets query j at step k exactly where the lines have frames 0 to k. In these frames every constraint is true,
/// and bad line j is true in the last one.
pub fn lines_are_correct()
    ensures { LinesAreCorrect }
{
    spelled_scripts_are_valid();
    script_lines_are_laid_out();
    bads_are_queries();
    no_duplicate_lines();
    traces_have_frames();
    traces_have_flat_traces();
    printed_spells();
    one_reading();
}
