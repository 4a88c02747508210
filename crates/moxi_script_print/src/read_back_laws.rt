// A printed script reads back.
ghost use Rattle.std.specs.Prelude.{◌≤◌};
ghost use Rattle.moxi_sexpr.specs.Lexing.{limit};
ghost use Rattle.moxi_term_print.specs.Shown.{lines_text, shown_depths};
ghost use Rattle.moxi_scripts.specs.Invariant.{IsSpelled};
ghost use Rattle.moxi_script_print.specs.Printing.{shown_script};
ghost use Rattle.moxi_script_print.specs.ReadBack.{ReadsBackScript};
ghost use Rattle.moxi_scripts.specs.Script.{PlainScript};

use crate::again_laws::printed_scripts_are_spelled;
use crate::name_laws::{printable_forms_give_spellable_names, valid_scripts_can_be_shown};
use moxi_scripts::spelled_scripts_are_valid;
use moxi_term_print::shown_is_read_back;

/// Proves that the printed text of a script that printable forms spell reads back to this script (MoXI, SPIN 2024).
///
/// Brackets must nest no deeper than the reader allows.
pub fn printed_scripts_are_read_back()
    ensures { (s : PlainScript) → ∥ IsSpelled s ∥₁ → shown_depths (shown_script s) ≤ limit → ∥ ReadsBackScript (lines_text (shown_script s)) s ∥₁ }
{
    spelled_scripts_are_valid();
    printable_forms_give_spellable_names();
    valid_scripts_can_be_shown();
    shown_is_read_back();
    printed_scripts_are_spelled();
}
