// From an SMV model to its BTOR2 text and to its MoXI script.
ghost use Rattle.std.specs.Prelude.{◌≡◌, ◌≤◌, [], ◌∷◌, length, IfOk, IfErr, IsErrAnd};
ghost use Rattle.text_core.specs.Outside.{HasNewFault};
ghost use Rattle.text_core.specs.declared.end.End.TheVariants as End;
ghost use Rattle.command_core.specs.Giving.{MayGive};
ghost use Rattle.command_core.specs.Keeping.{KeepsShelf};
ghost use Rattle.command_core.specs.laws.Texts.{text_says};
ghost use Rattle.command_core.specs.Reading.{StopsUnread, StopsWith};
ghost use Rattle.smv_text.specs.Tree.{PlainSource};
ghost use Rattle.smv_flatten.specs.FlatModel.{IsFormOf, flat_plain};
ghost use Rattle.smv_models.specs.Limits.{most_smv_bytes};
ghost use Rattle.smv_models.specs.Models.{IsCheckRefusal, IsFormIn, IsModelEnd, smv_too_long};
ghost use Rattle.smv_commands.specs.Translation.{IsBtorText, IsTranslation, OfBytes, btor_text};
ghost use Rattle.smv_script.specs.Script.{script_of};
ghost use Rattle.moxi_term_print.specs.Shown.{lines_text};
ghost use Rattle.moxi_script_print.specs.Printing.{shown_script};
ghost use Rattle.smv_commands.specs.Scripts.{IsScript, IsScriptText, OfBytes as OfScript};

use btor_text::print_btor;
use command_core::{Answer, LastFile, Stop, answer_file, refusal, text_answer};
use moxi_script_print::print_script;
use smv_flatten::Flat;
use smv_models::{SMV_LIMIT, flat_in};
use smv_to_moxi::to_moxi;
use std::alloc::Global;
use text_core::kinds::smv;
use text_core::{End, Name, NoMemory, Shelf, Text};
use witness_lift::SmvChain;

/// Returns the flat form of the model to which the bytes parse, with its lines.
///
/// `needed` is the number of the invariant that the model must have, 0 where any will do. `Err` is the first refusal, or
/// out of memory.
pub(crate) fn chain_in(alloc: Global, bytes: &[u8], needed: u32) -> Result<SmvChain, End>
    requires { length bytes.now ≤ most_smv_bytes }
    ensures form { IfOk result (IsFormIn bytes.now needed) }
    ensures refused { IfErr result (IsModelEnd bytes.now needed) }
{
    let flat = flat_in(alloc, bytes, needed)?;
    Ok(SmvChain::over(alloc, flat)?)
}

// Translates a model to its BTOR2 text.
#[derive(Drop)]
struct SmvToBtor;

impl LastFile for SmvToBtor {
    ghost most = { most_smv_bytes };

    ghost longer = { smv_too_long };

    ghost defines = { λ command. OfBytes };

    ghost fits = { λ command. Unit {0} };

    ghost longer_says = { tt };

    ghost says = { λ command bytes a h. text_says (IsBtorText bytes) (IsCheckRefusal bytes 0) a h };

    fn limit(&self) -> usize {
        SMV_LIMIT
    }

    fn too_long(&self) -> Answer {
        Answer::Refused(refusal(smv::TOO_LONG))
    }

    #[tactic(auto, using(command_core::specs::laws::Texts::text_ok, command_core::specs::laws::Texts::text_stop))]
    fn answer(&self, alloc: Global, bytes: &[u8]) -> Result<Answer, Stop> {
        text_answer(translate(alloc, bytes))
    }
}

/// Reads an SMV model, and returns its BTOR2 text.
pub fn smv_to_btor<F: Shelf>(alloc: Global, model: &Name, shelf: &mut F) -> Result<Answer, Stop>
    ensures answer { IfOk result (MayGive (F.files shelf.old) (model.now ∷ []) (λ files. IsTranslation files model.now) (HasNewFault (F.faults shelf.old) (F.faults shelf.new))) }
    ensures stop { IfErr result (StopsWith (MayGive (F.files shelf.old) (model.now ∷ []) (λ files. IsTranslation files model.now) (HasNewFault (F.faults shelf.old) (F.faults shelf.new)))) }
    ensures shelf { KeepsShelf (F.files shelf.old) (F.files shelf.new) (F.faults shelf.old) (F.faults shelf.new) (F.begun shelf.old) (F.begun shelf.new) (model.now ∷ []) (IsErrAnd result StopsUnread) }
{
    answer_file(alloc, model, &SmvToBtor, shelf)
}

// The BTOR2 text of the model to which the bytes parse, or their refusal.
#[tactic(auto, using(crate::proofs::LinesGiven::made_of_bytes, smv_models::proofs::Forms::memory_ends))]
fn translate(alloc: Global, bytes: &[u8]) -> Result<Text, End>
    requires { length bytes.now ≤ most_smv_bytes }
    ensures text { IfOk result (IsBtorText bytes.now) }
    ensures refused { IfErr result (IsModelEnd bytes.now 0) }
{
    match chain_in(alloc, bytes, 0) {
        Ok(chain) => chain_text(alloc, &chain),
        Err(end) => Err(end),
    }
}

// The text of a chain's lines.
fn chain_text(alloc: Global, chain: &SmvChain) -> Result<Text, End>
    ensures text { IfOk result (λ text. (source : PlainSource) → IsFormOf source chain.now → text ≡ btor_text source) }
    ensures stop { IfErr result (λ end. end ≡ End.NoMemory) }
{
    Ok(print_btor(alloc, chain.nodes())?)
}

// Translates a model to its MoXI script.
#[derive(Drop)]
struct SmvToMoxi;

impl LastFile for SmvToMoxi {
    ghost most = { most_smv_bytes };

    ghost longer = { smv_too_long };

    ghost defines = { λ command. OfScript };

    ghost fits = { λ command. Unit {0} };

    ghost longer_says = { tt };

    ghost says = { λ command bytes a h. text_says (IsScriptText bytes) (IsCheckRefusal bytes 0) a h };

    fn limit(&self) -> usize {
        SMV_LIMIT
    }

    fn too_long(&self) -> Answer {
        Answer::Refused(refusal(smv::TOO_LONG))
    }

    #[tactic(auto, using(command_core::specs::laws::Texts::text_ok, command_core::specs::laws::Texts::text_stop))]
    fn answer(&self, alloc: Global, bytes: &[u8]) -> Result<Answer, Stop> {
        text_answer(script_text(alloc, bytes))
    }
}

/// Reads an SMV model, and returns its MoXI script.
pub fn smv_to_moxi<F: Shelf>(alloc: Global, model: &Name, shelf: &mut F) -> Result<Answer, Stop>
    ensures answer { IfOk result (MayGive (F.files shelf.old) (model.now ∷ []) (λ files. IsScript files model.now) (HasNewFault (F.faults shelf.old) (F.faults shelf.new))) }
    ensures stop { IfErr result (StopsWith (MayGive (F.files shelf.old) (model.now ∷ []) (λ files. IsScript files model.now) (HasNewFault (F.faults shelf.old) (F.faults shelf.new)))) }
    ensures shelf { KeepsShelf (F.files shelf.old) (F.files shelf.new) (F.faults shelf.old) (F.faults shelf.new) (F.begun shelf.old) (F.begun shelf.new) (model.now ∷ []) (IsErrAnd result StopsUnread) }
{
    answer_file(alloc, model, &SmvToMoxi, shelf)
}

// The text of the script of the model to which the bytes parse, or their refusal.
fn script_text(alloc: Global, bytes: &[u8]) -> Result<Text, End>
    requires { length bytes.now ≤ most_smv_bytes }
    ensures text { IfOk result (IsScriptText bytes.now) }
    ensures refused { IfErr result (IsModelEnd bytes.now 0) }
{
    let flat = flat_in(alloc, bytes, 0)?;
    Ok(text_of(alloc, &flat)?)
}

// The text of a flat form's script.
fn text_of(alloc: Global, flat: &Flat) -> Result<Text, NoMemory>
    ensures { IfOk result (λ text. text ≡ lines_text (shown_script (script_of (flat_plain flat.now) flat.now.width))) }
{
    let script = to_moxi(alloc, flat)?;
    print_script(alloc, &script)
}
