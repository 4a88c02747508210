// Laws about the names of scripts.
ghost use Rattle.text_core.specs.declared.place.Place.{Place};
ghost use Rattle.moxi_sexpr.specs.Printing.{ArePrintable};
ghost use Rattle.moxi_sexpr.specs.Tree.{Trees};
ghost use Rattle.moxi_term_print.specs.Shown.{AllCanBeShown};
ghost use Rattle.moxi_script_print.specs.NamesOfScripts.{HasSpellableNames};
ghost use Rattle.moxi_script_print.specs.Printing.{shown_script};
ghost use Rattle.moxi_scripts.specs.Script.{PlainScript};
ghost use Rattle.moxi_scripts.specs.Spelling.{SpellsScript};
ghost use Rattle.moxi_scripts.specs.Valid.{IsValid};

/// Proves that the names of a script that printable forms spell can be spelled (SMT-LIB 2.6, section 3.1).
pub fn printable_forms_give_spellable_names()
    ensures { (ts : Trees) (end : Place) (s : PlainScript) → ArePrintable ts → SpellsScript ts end s → HasSpellableNames s }
{}

/// Proves that a valid script can be shown if its names can be spelled.
pub fn valid_scripts_can_be_shown()
    ensures { (s : PlainScript) → IsValid s → HasSpellableNames s → AllCanBeShown (shown_script s) }
{}
