// Laws of the translation of lines to scripts.
ghost use Rattle.btor_import.specs.Laws.{NamesAreSpellable, ScriptsAreSpelled, ScriptsAreValid};

use moxi_script_print::{printed_scripts_are_spelled, valid_scripts_can_be_shown};

/// Proves that the translation of well-formed lines is a complete script (MoXI, SPIN 2024).
///
/// Its names differ and have one meaning each, its terms have their sorts and may appear in their places, and its
/// numbers are in range. Its one system contains no other.
pub fn scripts_are_valid()
    ensures { ScriptsAreValid }
{}

/// Proves that each name of the script has a printed form (SMT-LIB 2.6, section 3.1).
pub fn names_are_spellable()
    ensures { NamesAreSpellable }
{}

/// Proves that forms that can be printed parse to the script.
///
/// The place of its check is the start of the text.
pub fn scripts_are_spelled()
    ensures { ScriptsAreSpelled }
{
    valid_scripts_can_be_shown();
    printed_scripts_are_spelled();
}
