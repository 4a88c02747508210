// Printed lines read back.
ghost use Rattle.std.specs.Prelude.{◌≤◌};
ghost use Rattle.moxi_sexpr.specs.Lexing.{limit};
ghost use Rattle.moxi_term_print.specs.Shown.{AllCanBeShown, Showns, SpellsShown, lines_text, shown_depths};

use moxi_sexpr::written_forms_read_back;

/// Proves that printed lines spell forms that show what was printed.
///
/// Each atom must have a spelling of its kind, and brackets must nest no deeper than the reader allows.
pub fn shown_is_read_back()
    ensures { (xs : Showns) → AllCanBeShown xs → shown_depths xs ≤ limit → SpellsShown (lines_text xs) xs }
{
    written_forms_read_back();
}
