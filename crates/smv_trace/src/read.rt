// The reader of a whole trace text.
ghost use Rattle.std.specs.Prelude.{◌≡◌, ◌≤◌, ◌<◌, ◌+◌, ◌^◌, length, true, IfOk};
ghost use Rattle.text_core.specs.Places.{start, after};
ghost use Rattle.smv_numbered.specs.Runs.{IsNumbered, run_in};
ghost use Rattle.smv_trace_text.specs.Lines.{lines_of, behind_line};
ghost use Rattle.smv_numbered.specs.Stated.{IsStatedRun};
ghost use Rattle.smv_trace.specs.Reading.{is_within};
ghost use Rattle.smv_trace.specs.Numbering.{reading_of};
ghost use Rattle.smv_trace.specs.Texts.{lines_read, trace_of};
ghost use Rattle.smv_trace.specs.Answer.{Finishes, StatesRun, declarations_of};
ghost use Rattle.text_core.specs.Answers.{Answers};

use crate::reader::{MOST_BYTES, Reader, refused};
use crate::table::Table;
use smv_flatten::Flat;
use smv_meaning::Run;
use smv_numbered::{NumberedRun, run_of};
use smv_trace_text::{line_length, trim};
use std::alloc::Global;
use text_core::kinds::trace;
use text_core::{End, FIRST_PLACE, Place};

/// The failure of the reader: a refusal, or out of memory.
pub type TraceEnd = End;

// The place of the line after this one.
fn behind_line(at: Place, line: &[u8]) -> Place
    requires line { at.line + 1 < 2 ^ 32 }
    requires offset { at.offset + length line.now + 1 < 2 ^ 32 }
    ensures { result ≡ behind_line at line.now }
{
    Place {
        line: at.line + 1,
        column: 1,
        offset: at.offset + line.len() as u32 + 1,
    }
}

// Reads the lines of a text.
fn read_lines<'a>(alloc: Global, text: &[u8], reader: &mut Reader<'a>) -> Result<(), End>
    requires few { length text.now ≤ MOST_BYTES }
    ensures table { reader.new.table ≡ reader.old.table }
    ensures step { Finishes (lines_read reader.old.table (after start text.now) start (lines_of text.now) (reading_of reader.old)) (reading_of reader.new) result }
{
    let mut rest = text;
    let mut at = FIRST_PLACE;
    'lines: loop {
        let (line, marked) = rest.split_at(line_length(rest));
        match reader.take_line(alloc, at, trim(line)) {
            Ok(()) => {}
            Err(end) => return Err(end),
        }
        let Some((_, more)) = marked.split_first() else {
            return reader.finish(text)
        };
        at = behind_line(at, line);
        rest = more;
    }
}

// The run of a text within the byte limit, against the declarations of a model.
fn read_against<'a>(
    alloc: Global,
    table: &'a Table<'a>,
    text: &[u8],
) -> Result<NumberedRun, TraceEnd>
    requires { length text.now ≤ MOST_BYTES }
    ensures exact { StatesRun table.now.items (trace_of table.now text.now) result }
    ensures numbered { IfOk result IsNumbered }
{
    let mut reader = Reader::new(alloc, table)?;
    read_lines(alloc, text, &mut reader)?;
    Ok(reader.run())
}

// The run of a text within the byte limit.
fn read_text(alloc: Global, flat: &Flat, text: &[u8]) -> Result<NumberedRun, TraceEnd>
    requires { length text.now ≤ MOST_BYTES }
    ensures exact { StatesRun (declarations_of flat.now).items (trace_of (declarations_of flat.now) text.now) result }
    ensures numbered { IfOk result IsNumbered }
{
    let table = Table::of(alloc, flat)?;
    read_against(alloc, &table, text)
}

/// Returns the run that a text states for a model, by the numbers of the model's items.
///
/// It is the run that `read_trace` returns, or its refusal. Its memory is that of the values that the text states.
pub fn read_numbered(alloc: Global, flat: &Flat, text: &[u8]) -> Result<NumberedRun, TraceEnd>
    // The result is the run that the text states, or its first refusal.
    ensures exact { StatesRun (declarations_of flat.now).items (trace_of (declarations_of flat.now) text.now) result }
    // The run names each variable, with values that a trace can state.
    ensures stated { IfOk result (λ run. IsStatedRun (declarations_of flat.now) (run_in (declarations_of flat.now).items run)) }
    // The run is within the limits.
    ensures within { IfOk result (λ run. is_within (declarations_of flat.now) (length run.ends) ≡ true) }
    // No state ends before the one that it follows.
    ensures numbered { IfOk result IsNumbered }
{
    if text.len() > MOST_BYTES {
        return Err(refused(trace::TOO_LONG, FIRST_PLACE));
    }
    read_text(alloc, flat, text)
}

/// Returns the run that a text states for a model.
///
/// Blanks around a line don't count. Blank lines, lines that begin with `--`, all lines before the first heading of a
/// state, and values of definitions are skipped. The first numbers of all headings are the same; the second numbers
/// count states from 1. The heading of a label has the number of the following state. Values are carried forward, and a
/// label after the last state is dropped. (The layout is this translator's own; headings and values look like those of
/// NuSMV's counterexamples.)
///
/// A refusal is at a line. `Y1`: the line has no known shape, or its numbers are wrong. `Y2`: the heading has no
/// variable of this name. `Y3`: the value is not spelled like one of the variable's type, whatever its range. `Y4`: a
/// variable has no value; the place is its heading. `Y5`: more states, more states times variables, or more bytes than
/// the limit.
pub fn read_trace(alloc: Global, flat: &Flat, text: &[u8]) -> Result<Run, TraceEnd>
    // The result is the run that the text states, or its first refusal.
    ensures exact { Answers (trace_of (declarations_of flat.now) text.now) result }
    // The run names each variable, with values that a trace can state.
    ensures stated { IfOk result (IsStatedRun (declarations_of flat.now)) }
    // The run is within the limits.
    ensures within { IfOk result (λ run. is_within (declarations_of flat.now) (length run.states) ≡ true) }
{
    let run = read_numbered(alloc, flat, text)?;
    Ok(run_of(alloc, flat.items().as_slice(), &run)?)
}
