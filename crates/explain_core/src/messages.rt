// The text of an explanation.
ghost use Rattle.std.specs.Prelude.{◌≡◌, ◌≤◌, length, map, take, option_map};
ghost use Rattle.command_core.specs.Notes.{joined};
ghost use Rattle.command_core.specs.Sinks.{Puts};
ghost use Rattle.explain_core.specs.Messages.{before_some, blank_of, caret_text, cause_text, excerpt_text, header_text, help_text, label_text, near_text, place_text, plain_text, shown_text, token_text};
ghost use Rattle.explain_core.specs.Near.{plain_near};

use crate::lines::{WIDTH, window_at};
use crate::near::Near;
use crate::notes::{colon_of, column_of, letter_of, number_of};
use command_core::{Status, note};
use itoa::Buffer;
use text_core::{Refusal, Sink, SinkFault};

const MARKS: [u8; WIDTH] = [b'~'; WIDTH];

/// Writes the line with the file, the place, the kind with its name, the token and the cause.
///
/// An empty token is left out.
#[tactic(auto, using(crate::proofs::Putting::puts_next))]
pub fn put_header<K: Sink>(
    file: &[u8],
    refusal: Refusal,
    token: &[u8],
    cause: &[u8],
    out: &mut K,
) -> Result<(), SinkFault>
    ensures { Puts (K.taken out.old) (K.taken out.new) (K.faults out.old) (K.faults out.new) (header_text file.now refusal token.now cause.now) result }
{
    put_place(file, refusal, out)?;
    put_cause(token, cause, out)
}

// Writes the file, the place, and the kind with its name.
#[tactic(auto, using(crate::proofs::Putting::puts_next))]
fn put_place<K: Sink>(file: &[u8], refusal: Refusal, out: &mut K) -> Result<(), SinkFault>
    ensures { Puts (K.taken out.old) (K.taken out.new) (K.faults out.old) (K.faults out.new) (place_text file.now refusal) result }
{
    put(out, &[file])?;
    put_label(refusal, out)
}

// Writes the place, and the kind with its name.
fn put_label<K: Sink>(refusal: Refusal, out: &mut K) -> Result<(), SinkFault>
    ensures { Puts (K.taken out.old) (K.taken out.new) (K.faults out.old) (K.faults out.new) (label_text refusal) result }
{
    let mut line = Buffer::new();
    let mut column = Buffer::new();
    let mut number = Buffer::new();
    let pieces = [
        b":".as_slice(),
        line.format(refusal.place.line).as_bytes(),
        colon_of(refusal.kind),
        column_of(refusal.kind, column.format(refusal.place.column).as_bytes()),
        b": error: ",
        letter_of(refusal.kind),
        number.format(number_of(refusal.kind)).as_bytes(),
        b" ",
        refusal.kind.name(),
    ];
    put(out, &pieces)
}

// Writes the token, where there is one, and the cause.
fn put_cause<'a, K: Sink>(token: &'a [u8], cause: &'a [u8], out: &mut K) -> Result<(), SinkFault>
    ensures { Puts (K.taken out.old) (K.taken out.new) (K.faults out.old) (K.faults out.new) (cause_text token.now cause.now) result }
{
    let pieces = [
        b": ".as_slice(),
        before_some(b"`", token),
        &*token,
        before_some(b"`: ", token),
        &*cause,
        b"\n",
    ];
    put(out, &pieces)
}

/// Writes the explanation of a note without a place.
pub fn put_plain<'a, K: Sink>(
    file: &'a [u8],
    line: &'a [u8],
    cause: &'a [u8],
    remedy: &'a [u8],
    out: &mut K,
) -> Result<(), SinkFault>
    ensures { Puts (K.taken out.old) (K.taken out.new) (K.faults out.old) (K.faults out.new) (plain_text file.now line.now (cause.now, remedy.now)) result }
{
    let pieces = [
        &*file,
        b": error: ",
        &*line,
        b": ",
        &*cause,
        b"\nhelp: ",
        &*remedy,
        b"\n",
    ];
    put(out, &pieces)
}

// The words, where the piece is not empty.
fn before_some<'a>(words: &'a [u8], piece: &[u8]) -> &'a [u8]
    ensures { result.now ≡ before_some words.now piece.now }
{
    if piece.len() == 0 { b"" } else { words }
}

/// Writes the part of a line around byte `at`, and below it a caret for the marked bytes.
///
/// There is no caret where `marked` is 0.
#[tactic(auto, using(crate::proofs::Putting::excerpt_front))]
pub fn put_excerpt<K: Sink>(
    line: &[u8],
    at: usize,
    marked: usize,
    out: &mut K,
) -> Result<(), SinkFault>
    requires { at ≤ length line.now }
    ensures { Puts (K.taken out.old) (K.taken out.new) (K.faults out.old) (K.faults out.new) (excerpt_text line.now at marked) result }
{
    let part = window_at(line.len(), at);
    put_shown(line, part.start, part.end, out)?;
    if marked == 0 {
        return Ok(());
    }
    let more = (marked - 1).min(part.end - at).min(WIDTH);
    put_caret(&line[part.start..at], more, out)
}

// Writes a part of a line.
fn put_shown<K: Sink>(line: &[u8], start: usize, end: usize, out: &mut K) -> Result<(), SinkFault>
    requires before { start ≤ end }
    requires within { end ≤ length line.now }
    ensures { Puts (K.taken out.old) (K.taken out.new) (K.faults out.old) (K.faults out.new) (shown_text line.now start end) result }
{
    let margin: &[u8] = if start == 0 { b"    " } else { b"... " };
    let rest: &[u8] = if end == line.len() { b"" } else { b" ..." };
    put(out, &[margin, &line[start..end], rest, b"\n"])
}

// Writes the line with the caret, which stands below the byte after these bytes.
fn put_caret<K: Sink>(front: &[u8], more: usize, out: &mut K) -> Result<(), SinkFault>
    requires front { length front.now ≤ 120 }
    requires more { more ≤ 120 }
    ensures { Puts (K.taken out.old) (K.taken out.new) (K.faults out.old) (K.faults out.new) (caret_text front.now more) result }
{
    let blanks = blanks_of(front);
    put(
        out,
        &[b"    ", &blanks[..front.len()], b"^", &MARKS[..more], b"\n"],
    )
}

// A tab for each tab and a blank for each other byte, at the front.
fn blanks_of(front: &[u8]) -> [u8; WIDTH]
    requires { length front.now ≤ 120 }
    ensures { take (length front.now) result ≡ map blank_of front.now }
{
    let mut blanks = [b' '; WIDTH];
    for i in 0..front.len() {
        blanks[i] = blank_of(front[i]);
    }
    blanks
}

fn blank_of(b: u8) -> u8
    ensures { result ≡ blank_of b }
{
    if b == b'\t' { b'\t' } else { b' ' }
}

/// Writes the line about the token near the place, if there is one.
pub fn put_near<K: Sink>(near: Option<Near<'_>>, out: &mut K) -> Result<(), SinkFault>
    ensures { Puts (K.taken out.old) (K.taken out.new) (K.faults out.old) (K.faults out.new) (near_text (option_map plain_near near.entry)) result }
{
    match near {
        Some(near) => put_token(near.words, near.token, near.line, near.column, out),
        None => put(out, &[]),
    }
}

// Writes words about a token and its place.
fn put_token<K: Sink>(
    words: &[u8],
    token: &[u8],
    line: usize,
    column: usize,
    out: &mut K,
) -> Result<(), SinkFault>
    ensures { Puts (K.taken out.old) (K.taken out.new) (K.faults out.old) (K.faults out.new) (token_text words.now token.now line column) result }
{
    let mut row = Buffer::new();
    let mut place = Buffer::new();
    let pieces = [
        b"note: ".as_slice(),
        &*words,
        b"`",
        &*token,
        b"` at ",
        row.format(line).as_bytes(),
        b":",
        place.format(column).as_bytes(),
        b".\n",
    ];
    put(out, &pieces)
}

/// Writes the line with the fix.
pub fn put_help<K: Sink>(remedy: &[u8], out: &mut K) -> Result<(), SinkFault>
    ensures { Puts (K.taken out.old) (K.taken out.new) (K.faults out.old) (K.faults out.new) (help_text remedy.now) result }
{
    put(out, &[b"help: ", &*remedy, b"\n"])
}

/// Writes the pieces in order.
pub fn put<K: Sink>(out: &mut K, pieces: &[&[u8]]) -> Result<(), SinkFault>
    ensures { Puts (K.taken out.old) (K.taken out.new) (K.faults out.old) (K.faults out.new) (joined pieces.now) result }
{
    match note(out, pieces, Status::Done) {
        Status::WriteFault => Err(SinkFault),
        _ => Ok(()),
    }
}
