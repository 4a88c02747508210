// A printed whole script reads back.
ghost use Rattle.text_core.specs.declared.place.Place.{Place};
ghost use Rattle.moxi_sexpr.specs.Tree.{Trees};
ghost use Rattle.moxi_term_print.specs.Shown.{ShowEach};
ghost use Rattle.moxi_script_print.specs.Again.{ReadsAs};
ghost use Rattle.moxi_script_print.specs.Printing.{shown_script};
ghost use Rattle.moxi_scripts.specs.Script.{PlainScript};
ghost use Rattle.moxi_scripts.specs.Valid.{IsValid};

/// Proves that forms that show a valid script spell it (MoXI, SPIN 2024).
///
/// The place of its check is the place of its form in the new text.
pub fn printed_scripts_are_spelled()
    ensures { (s : PlainScript) (ts : Trees) (end : Place) → IsValid s → ShowEach ts (shown_script s) → ReadsAs ts end s }
{}
