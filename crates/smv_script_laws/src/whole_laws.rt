// Laws of well-formed scripts. These functions do nothing.
ghost use Rattle.smv_script_laws.specs.ValidLaws.{NamesAreSpellable, ScriptsAreSpelled, ScriptsAreValid};

use moxi_script_print::{printed_scripts_are_spelled, valid_scripts_can_be_shown};

/// Proves that the script of a parsed and accepted model is well formed (MoXI, SPIN 2024).
///
/// Its names are distinct and unambiguous. Its terms have their sorts and are allowed in their places. Numbers are in
/// range, and its one system contains no other.
pub fn scripts_are_valid()
    ensures { ScriptsAreValid }
{}

/// Proves that each name of the script can be spelled (SMT-LIB 2.6, section 3.1).
pub fn names_are_spellable()
    ensures { NamesAreSpellable }
{}

/// Proves that printable forms spell the script, with its check at the start of the text.
pub fn scripts_are_spelled()
    ensures { ScriptsAreSpelled }
{
    valid_scripts_can_be_shown();
    printed_scripts_are_spelled();
}
