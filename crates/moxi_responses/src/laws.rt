// Responses of a script's check read back.
ghost use Rattle.std.specs.Prelude.{◌≡◌, None};
ghost use Rattle.moxi_scripts.specs.Invariant.{IsSpelled};
ghost use Rattle.moxi_scripts.specs.Script.{PlainScript};
ghost use Rattle.moxi_flat.specs.Limits.{flat_refusal};
ghost use Rattle.moxi_trace.specs.ReadBack.{CanBeReadBack};
ghost use Rattle.moxi_responses.specs.Declaring.{declared_of};

use moxi_script_print::printable_forms_give_spellable_names;
use moxi_scripts::spelled_scripts_are_valid;

/// Proves that responses to a script's check can be printed and read back.
///
/// Printable forms must spell the script, and it must have a flat system.
pub fn responses_are_read_back()
    ensures { (s : PlainScript) → IsSpelled s → flat_refusal s ≡ None → CanBeReadBack (declared_of s) }
{
    spelled_scripts_are_valid();
    printable_forms_give_spellable_names();
}
