// The generated texts: the model, the witness and the summary.
ghost use Rattle.std.specs.Prelude.{◌≡◌, ◌<◌, ◌≤◌, ◌++◌, length, IfOk, OnOk, map};
ghost use Rattle.generate.specs.Made.{cell_line, ended, invariant_line, made_model, below, frame_lines, lines_text, made_witness, true_line};
ghost use Rattle.btor_tree.specs.Fits.{count_of, is_input};
ghost use Rattle.generate.specs.Generating.{count_line, summary_lines};

use btor_tree::Nodes;
use itoa::Buffer;
use std::alloc::Global;
use text_core::{NoMemory, Text};

// Appends the line of the cell after cell i.
fn put_cell(text: &mut Text, i: u32) -> Result<(), NoMemory>
    requires { i < 1000 }
    ensures { OnOk result (text.new ≡ text.old ++ ended (cell_line i)) }
{
    let mut own = Buffer::new();
    let mut left = Buffer::new();
    text.put(b"c")?;
    text.put(own.format(i + 1).as_bytes())?;
    text.put(b" : cell(c")?;
    text.put(left.format(i).as_bytes())?;
    text.put(b".v);\n")?;
    Ok(())
}

// Appends the line of the invariant, that cell i is false.
fn put_invariant(text: &mut Text, i: u32) -> Result<(), NoMemory>
    ensures { OnOk result (text.new ≡ text.old ++ ended (invariant_line i)) }
{
    let mut digits = Buffer::new();
    text.put(b"INVARSPEC !c")?;
    text.put(digits.format(i).as_bytes())?;
    text.put(b".v\n")?;
    Ok(())
}

/// Returns the text of a model of `n` cells in a row (NuSMV 2.6 User Manual, 2.3).
///
/// A cell is false at first and then takes the value of the cell before it. The first cell takes the value TRUE.
/// The invariant says that the last cell is false, and breaks first at step `n`.
pub fn made_model(alloc: Global, n: u32) -> Result<Text, NoMemory>
    requires some { 1 ≤ n }
    requires most { n ≤ 1000 }
    ensures text { IfOk result (λ text. text ≡ made_model n) }
    ensures within { IfOk result (λ text. length text ≤ 1048576) }
{
    let mut text = Text::new(alloc);
    text.put(b"MODULE cell(left) VAR v : boolean; ASSIGN init(v) := FALSE; next(v) := left;\n")?;
    text.put(b"MODULE main VAR c0 : cell(TRUE);\n")?;
    for i in 0..n - 1 {
        put_cell(&mut text, i)?;
    }
    put_invariant(&mut text, n - 1)?;
    Ok(text)
}

// Appends the line that input j is true.
fn put_true(text: &mut Text, j: u32) -> Result<(), NoMemory>
    ensures { OnOk result (text.new ≡ text.old ++ ended (true_line j)) }
{
    let mut digits = Buffer::new();
    text.put(digits.format(j).as_bytes())?;
    text.put(b" 1\n")?;
    Ok(())
}

// Appends the lines of frame i, with those of the cells that are true in it.
fn put_frame(text: &mut Text, n: u32, i: u32, cells: &[u8]) -> Result<(), NoMemory>
    requires { cells.now ≡ lines_text (map true_line (below i)) }
    ensures { OnOk result (text.new ≡ text.old ++ lines_text (frame_lines n i)) }
{
    let mut digits = Buffer::new();
    text.put(b"@")?;
    text.put(digits.format(i).as_bytes())?;
    text.put(b"\n")?;
    text.put(cells)?;
    put_true(text, n)
}

/// Returns a witness for the generated model's BTOR2 lines (BTOR2, CAV 2018, witness format).
///
/// It has `n` + 1 frames. In each, the cells before the frame's number are true, and so is the first cell's
/// parameter, which is input `n`.
pub fn made_witness(alloc: Global, n: u32) -> Result<Text, NoMemory>
    requires some { 1 ≤ n }
    requires most { n ≤ 1000 }
    ensures text { IfOk result (λ text. text ≡ made_witness n) }
    ensures within { IfOk result (λ text. length text ≤ 67108864) }
{
    let mut text = Text::new(alloc);
    let mut cells = Text::new(alloc);
    text.put(b"sat\nb0\n")?;
    for i in 0..n + 1 {
        put_frame(&mut text, n, i, cells.bytes())?;
        put_true(&mut cells, i)?;
    }
    text.put(b".\n")?;
    Ok(text)
}

// Appends a line with a word and a number.
fn put_count(text: &mut Text, word: &[u8], count: usize) -> Result<(), NoMemory>
    ensures { OnOk result (text.new ≡ text.old ++ ended (count_line word.now count)) }
{
    text.put(word)?;
    text.put_unsigned(count as u128)?;
    text.put(b"\n")?;
    Ok(())
}

/// Returns the summary: the cells, the variables, the model's weight, the lines, the witness's frames, and the
/// verdict.
pub(crate) fn summary_of(
    alloc: Global,
    cells: u32,
    nodes: &Nodes,
    weight: u32,
    frames: usize,
) -> Result<Text, NoMemory>
    ensures { IfOk result (λ text. text ≡ lines_text (summary_lines cells (count_of is_input nodes.now) weight (length nodes.now) frames)) }
{
    let mut text = Text::new(alloc);
    put_count(&mut text, b"cells ", cells as usize)?;
    put_count(&mut text, b"variables ", nodes.inputs() as usize)?;
    put_count(&mut text, b"weight ", weight as usize)?;
    put_count(&mut text, b"lines ", nodes.len())?;
    put_count(&mut text, b"frames ", frames)?;
    text.put(b"verdict yes\n")?;
    Ok(text)
}
