// The reader of a whole text.
ghost use Rattle.std.specs.Prelude.{◌≡◌, ◌≤◌, ◌∷◌, ◌-◌, length, IfOk};
ghost use Rattle.text_core.specs.Places.{start};
ghost use Rattle.moxi_trace.specs.Tokens.{token_of};
ghost use Rattle.moxi_trace.specs.Traces.{HasOwnNames};
ghost use Rattle.moxi_trace.specs.Responses.{token_read, byte_read, read_from, response_of, IsStatedResponse};
ghost use Rattle.moxi_trace.specs.Answer.{Finishes, Passes};
ghost use Rattle.text_core.specs.Answers.{Answers};

use crate::declarations::Declarations;
use crate::point::Answered;
use crate::reader::{Reader, refused};
use crate::table::Table;
use crate::tokens::token;
use moxi_sexpr::is_blank;
use std::alloc::Global;
use text_core::{End, FIRST_PLACE, Place};

/// The most bytes of a response.
pub const MOST_BYTES: usize = 67108864;

/// The reason why a text can't be read as a response.
pub type ResponseEnd = End;

// Reads the token at the front of a text, and returns the number of its bytes after the first.
fn read_token(
    alloc: Global,
    table: &Table,
    at: Place,
    text: &[u8],
    more: &[u8],
    reader: &mut Reader,
) -> Result<usize, End>
    ensures { Passes (token_read table.now at more.now reader.old (token_of text.now)) reader.new result }
{
    let Some((shape, bytes, rest)) = token(text) else {
        return Err(reader.refuse(at))
    };
    match reader.take(alloc, table, shape, bytes, at) {
        Ok(()) => Ok(more.len().saturating_sub(rest.len())),
        Err(end) => Err(end),
    }
}

// Reads the first byte b of a text, and returns the number of bytes of its token that follow.
fn read_byte(
    alloc: Global,
    table: &Table,
    at: Place,
    skip: usize,
    b: u8,
    text: &[u8],
    more: &[u8],
    reader: &mut Reader,
) -> Result<usize, End>
    requires { text.now ≡ b ∷ more.now }
    ensures { Passes (byte_read table.now at b more.now (skip, reader.old)) reader.new result }
{
    if skip != 0 {
        return Ok(skip - 1);
    }
    if is_blank(b) {
        return Ok(0);
    }
    read_token(alloc, table, at, text, more, reader)
}

// Reads the bytes of a text.
fn read_bytes(alloc: Global, table: &Table, text: &[u8], reader: &mut Reader) -> Result<(), End>
    requires few { length text.now ≤ MOST_BYTES }
    ensures { Finishes (read_from table.now start text.now (0, reader.old)) reader.new result }
{
    let mut rest = text;
    let mut at = FIRST_PLACE;
    let mut skip = 0;
    'bytes: loop {
        let Some((b, more)) = rest.split_first() else {
            return reader.finish(at)
        };
        match read_byte(alloc, table, at, skip, *b, rest, more, reader) {
            Ok(next) => skip = next,
            Err(end) => return Err(end),
        }
        at = at.next(*b);
        rest = more;
    }
}

// The response of a text within the byte limit, read against a table of the declarations.
fn read_against(alloc: Global, table: &Table, text: &[u8]) -> Result<Answered, ResponseEnd>
    requires { length text.now ≤ MOST_BYTES }
    ensures { Answers (response_of table.now text.now) result }
{
    let mut reader = Reader::new(alloc, table)?;
    read_bytes(alloc, table, text, &mut reader)?;
    Ok(reader.answer())
}

// The response of a text within the byte limit.
fn read_text(
    alloc: Global,
    declarations: &Declarations,
    text: &[u8],
) -> Result<Answered, ResponseEnd>
    requires names { HasOwnNames declarations.now }
    requires few { length text.now ≤ MOST_BYTES }
    ensures { Answers (response_of declarations.now text.now) result }
{
    let table = Table::of(alloc, declarations)?;
    read_against(alloc, &table, text)
}

/// Parses a response to a check.
///
/// The layout is this translator's own, modelled on MoXI's responses (SPIN 2024): `(check-system-response SYSTEM :query
/// (QUERY :result sat :trace t) :trace (t :prefix p) :trail (p STEP ..))`, where each step is `(N (NAME VALUE) ..)`. Blanks
/// are free. Steps are counted from 0, and each step states every variable once, in any order.
///
/// A refusal is at a line. `Y1`: a token doesn't fit, a step has a wrong number, or a variable is stated again. `Y5`: there
/// are too many steps, too many steps times variables, or too many bytes. `Y2`: the system is another one, or no query or
/// variable has the name. `Y3`: the value is not spelled as one of the variable's sort. `Y4`: a step lacks a value, refused
/// at its bracket. The first line with a failing test decides, and within one line the kinds come in this order.
pub fn read_response(
    alloc: Global,
    declarations: &Declarations,
    text: &[u8],
) -> Result<Answered, ResponseEnd>
    requires { HasOwnNames declarations.now }
    // The response that the text states, or its first refusal.
    ensures exact { Answers (response_of declarations.now text.now) result }
    // The query exists, and the trace gives each variable a value of its sort, within the limits.
    ensures stated { IfOk result (IsStatedResponse declarations.now) }
{
    if text.len() > MOST_BYTES {
        return Err(refused(5, FIRST_PLACE));
    }
    read_text(alloc, declarations, text)
}
