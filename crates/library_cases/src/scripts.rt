// Printed forms and scripts.
ghost use Rattle.std.specs.Prelude.{◌≤◌, ◌^◌, length, IfOk, OnOk};
ghost use Rattle.moxi_sexpr.specs.Printing.{ArePrintable};
ghost use Rattle.moxi_sexpr.specs.Tree.{plain_forms};

use case_text::{Answer, Fault, Piece, piece_bytes};
use moxi_reading::read_script;
use moxi_script_print::print_script;
use moxi_scripts::Script;
use moxi_sexpr::{Forms, end_of, print_forms, read_forms, readings_are_one};
use std::alloc::Global;

/// Parses a text to forms.
pub fn forms_of(alloc: Global, text: &[u8]) -> Result<Forms, Fault>
    ensures printable { IfOk result (λ forms. ArePrintable (plain_forms forms.items)) }
    ensures short { OnOk result (length text.now ≤ 2 ^ 31) }
{
    if text.len() > 1 << 31 {
        return Err(Fault::from("a text of more than 2 GiB"));
    }
    readings_are_one();
    Ok(read_forms(alloc, text)?)
}

/// Appends the printed forms, one per line.
pub fn put_forms(alloc: Global, out: &mut Answer, pieces: &[Piece]) -> Result<(), Fault> {
    let forms = forms_of(alloc, piece_bytes(pieces, "text")?)?;
    out.put_text(print_forms(alloc, &forms));
    Ok(())
}

/// Parses a text to a script.
pub fn script_of(alloc: Global, text: &[u8]) -> Result<Script, Fault> {
    let forms = forms_of(alloc, text)?;
    Ok(read_script(alloc, &forms, end_of(text))?)
}

/// Appends the printed script.
pub fn put_script(alloc: Global, out: &mut Answer, pieces: &[Piece]) -> Result<(), Fault> {
    let script = script_of(alloc, piece_bytes(pieces, "text")?)?;
    out.put_text(print_script(alloc, &script));
    drop(script);
    Ok(())
}
