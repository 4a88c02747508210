// The notes of runs, each explained or passed through.
ghost use Rattle.std.specs.Prelude.{◌≡◌, ◌<◌, ◌≤◌, ◌+◌, ◌-◌, [], length, map, take, drop, get_or, is_some, option_map, IfOk, IfSome};
ghost use Rattle.command_core.specs.Sinks.{Puts};
ghost use Rattle.explain_core.specs.Advice.{plain_advice};
ghost use Rattle.explain_core.specs.Messages.{plain_text};
ghost use Rattle.explain_core.specs.Near.{plain_near};
ghost use Rattle.explain_core.specs.Notes.{note_of};
ghost use Rattle.explain_core.specs.Explaining.{below_text, end_before, explained_line, explained_lines, file_of, found_text, is_explained, line_at_text, marked, remedy_of, note_text, refusal_text, rest_of, rest_text, shown_line, token_of, usage_text};

use crate::advice::{
    Advice, COMMANDS, NO_MEMORY, READ_FAULT, USAGE, WRITE_FAULT, advice_of, clause_advice, hint_for,
};
use crate::lines::line_at;
use crate::messages::{put, put_excerpt, put_header, put_help, put_near, put_plain};
use crate::near::{NEAREST, Near, near_of};
use crate::notes::{Note, read_note};
use crate::tokens::token_length;
use text_core::{Kind, Refusal, Sink, SinkFault};

/// A file of the run that wrote the notes: its name, and its lines where it was read.
#[derive(Clone, Copy)]
pub struct Source<'a, 'b> {
    pub name: &'a [u8],
    pub lines: Option<&'b [&'b [u8]]>,
}

/// Writes each of these lines to `out`: the explanation of a note, and any other line unchanged.
///
/// Returns whether at least one note was explained.
pub fn explain_notes<K: Sink>(
    notes: &[&[u8]],
    model: &Source<'_, '_>,
    second: &Source<'_, '_>,
    out: &mut K,
) -> Result<bool, SinkFault>
    ensures written { Puts (K.taken out.old) (K.taken out.new) (K.faults out.old) (K.faults out.new) (explained_lines (file_of model.now) (file_of second.now) (map (λ note. note.now) notes.now)) result }
    ensures explained { IfOk result (λ explained. explained ≡ is_explained (map (λ note. note.now) notes.now)) }
{
    let mut explained = false;
    for i in 0..notes.len() {
        if explain_at(notes, i, model, second, out)? {
            explained = true;
        }
    }
    Ok(explained)
}

// Writes the line at this index, counted from 0.
fn explain_at<K: Sink>(
    notes: &[&[u8]],
    number: usize,
    model: &Source<'_, '_>,
    second: &Source<'_, '_>,
    out: &mut K,
) -> Result<bool, SinkFault>
    requires { number < length notes.now }
    ensures written { Puts (K.taken out.old) (K.taken out.new) (K.faults out.old) (K.faults out.new) (line_at_text (file_of model.now) (file_of second.now) (map (λ note. note.now) notes.now) number) result }
    ensures explained { IfOk result (λ explained. explained ≡ is_some (note_of (get_or (map (λ note. note.now) notes.now) number []))) }
{
    let line = notes[number];
    explain_line(line, end_of(notes, number), model, second, out)
}

// The line feed after the line at this index, if it has one.
#[tactic(auto, using(crate::proofs::Noting::end_some, crate::proofs::Noting::end_none))]
fn end_of(notes: &[&[u8]], number: usize) -> &'static [u8]
    requires { number < length notes.now }
    ensures { result.now ≡ end_before (drop (number + 1) (map (λ note. note.now) notes.now)) }
{
    if number + 1 < notes.len() { b"\n" } else { b"" }
}

/// Writes one line with this line end: the explanation of a note, and any other line unchanged.
///
/// Returns whether the line is a note.
#[tactic(auto, using(crate::proofs::Putting::puts_next, crate::proofs::Putting::part_front), unfolding(crate::specs::Explaining::explained_line))]
pub fn explain_line<K: Sink>(
    line: &[u8],
    end: &[u8],
    model: &Source<'_, '_>,
    second: &Source<'_, '_>,
    out: &mut K,
) -> Result<bool, SinkFault>
    ensures written { Puts (K.taken out.old) (K.taken out.new) (K.faults out.old) (K.faults out.new) (explained_line (file_of model.now) (file_of second.now) line.now end.now) result }
    ensures explained { IfOk result (λ explained. explained ≡ is_some (note_of line.now)) }
{
    match read_note(line) {
        Some(note) => {
            put_note(note, line, model, second, out)?;
            Ok(true)
        }
        None => {
            put(out, &[line, end])?;
            Ok(false)
        }
    }
}

// Writes the explanation of a note.
#[tactic(auto, using(crate::proofs::Putting::puts_next, crate::proofs::Putting::part_front))]
fn put_note<K: Sink>(
    note: Note,
    line: &[u8],
    model: &Source<'_, '_>,
    second: &Source<'_, '_>,
    out: &mut K,
) -> Result<(), SinkFault>
    ensures { Puts (K.taken out.old) (K.taken out.new) (K.faults out.old) (K.faults out.new) (note_text note line.now (file_of model.now) (file_of second.now)) result }
{
    match note {
        Note::Refused(refusal) => put_refusal(refusal, model, out),
        Note::SecondRefused(refusal) => put_refusal(refusal, second, out),
        Note::No(_, clause) => put_advice(second.name, line, clause_advice(clause), out),
        Note::Usage => put_usage(line, out),
        Note::Unread => put_advice(b"moxi_cli", line, READ_FAULT, out),
        Note::WriteFault => put_advice(b"moxi_cli", line, WRITE_FAULT, out),
        Note::NoMemory => put_advice(b"moxi_cli", line, NO_MEMORY, out),
    }
}

// Writes the advice for words that are no command, and the commands.
#[tactic(auto, using(crate::proofs::Putting::puts_next, crate::proofs::Putting::part_front))]
fn put_usage<K: Sink>(line: &[u8], out: &mut K) -> Result<(), SinkFault>
    ensures { Puts (K.taken out.old) (K.taken out.new) (K.faults out.old) (K.faults out.new) (usage_text line.now) result }
{
    put_advice(b"moxi_cli", line, USAGE, out)?;
    put(out, &COMMANDS)
}

// Writes the advice for a note without a place.
fn put_advice<K: Sink>(
    file: &[u8],
    line: &[u8],
    advice: Advice,
    out: &mut K,
) -> Result<(), SinkFault>
    ensures { Puts (K.taken out.old) (K.taken out.new) (K.faults out.old) (K.faults out.new) (plain_text file.now line.now (plain_advice advice.entry)) result }
{
    let (cause, remedy) = advice;
    put_plain(file, line, cause, remedy, out)
}

/// Writes the explanation of a refusal, with the line of its place where the file has it.
#[tactic(auto, using(crate::proofs::Putting::puts_next, crate::proofs::Putting::part_front), unfolding(crate::specs::Explaining::refusal_text))]
pub fn put_refusal<K: Sink>(
    refusal: Refusal,
    source: &Source<'_, '_>,
    out: &mut K,
) -> Result<(), SinkFault>
    ensures { Puts (K.taken out.old) (K.taken out.new) (K.faults out.old) (K.faults out.new) (refusal_text (file_of source.now) refusal) result }
{
    let (cause, remedy) = advice_of(refusal.kind);
    if let Some(lines) = source.lines {
        if let Some(line) = line_of(lines, refusal) {
            return put_found(refusal, source.name, lines, line, out);
        }
    }
    put_header(source.name, refusal, b"", cause, out)?;
    put_help(remedy, out)
}

// The line of a place, where the line is long enough for the column.
fn line_of<'a>(lines: &[&'a [u8]], refusal: Refusal) -> Option<&'a [u8]>
    ensures there { option_map (λ line. line.now) result ≡ shown_line (map (λ line. line.now) lines.now) refusal.place }
    ensures fits { IfSome result (λ line. refusal.place.column - 1 ≤ length line.now) }
{
    let line = line_at(lines, refusal.place.line as usize)?;
    if (refusal.place.column as usize).saturating_sub(1) <= line.len() {
        Some(line)
    } else {
        None
    }
}

// Writes the explanation of a refusal whose place is on this line.
#[tactic(auto, using(crate::proofs::Putting::puts_next, crate::proofs::Putting::part_front))]
fn put_found<K: Sink>(
    refusal: Refusal,
    file: &[u8],
    lines: &[&[u8]],
    line: &[u8],
    out: &mut K,
) -> Result<(), SinkFault>
    requires { refusal.place.column - 1 ≤ length line.now }
    ensures { Puts (K.taken out.old) (K.taken out.new) (K.faults out.old) (K.faults out.new) (found_text file.now (map (λ line. line.now) lines.now) line.now refusal) result }
{
    let token = token_of(refusal.kind, rest_of(line, refusal));
    let (cause, _) = advice_of(refusal.kind);
    put_header(file, refusal, token, cause, out)?;
    put_below(refusal, lines, line, out)
}

// Writes the excerpt around a place on this line, and the lines below it.
#[tactic(auto, using(crate::proofs::Putting::puts_next, crate::proofs::Putting::part_front))]
fn put_below<K: Sink>(
    refusal: Refusal,
    lines: &[&[u8]],
    line: &[u8],
    out: &mut K,
) -> Result<(), SinkFault>
    requires { refusal.place.column - 1 ≤ length line.now }
    ensures { Puts (K.taken out.old) (K.taken out.new) (K.faults out.old) (K.faults out.new) (below_text (map (λ line. line.now) lines.now) line.now refusal) result }
{
    let at = (refusal.place.column as usize).saturating_sub(1);
    let rest = rest_of(line, refusal);
    let token = token_of(refusal.kind, rest);
    put_excerpt(line, at, marked(refusal.kind, token.len()), out)?;
    put_rest(
        refusal.kind,
        token,
        near_of(refusal.kind, lines, refusal.place, rest),
        out,
    )
}

// The text from the place on, up to the most bytes that are searched.
fn rest_of(line: &[u8], refusal: Refusal) -> &[u8]
    requires { refusal.place.column - 1 ≤ length line.now }
    ensures value { result.now ≡ rest_of line.now refusal }
    ensures few { length result.now ≤ NEAREST }
{
    front_of(
        &line[(refusal.place.column as usize).saturating_sub(1)..],
        NEAREST,
    )
}

// The first bytes of a text, at most `most`.
fn front_of(text: &[u8], most: usize) -> &[u8]
    ensures value { result.now ≡ take most text.now }
    ensures few { length result.now ≤ most }
{
    if text.len() > most {
        &text[..most]
    } else {
        text
    }
}

// The token at the front of a text.
fn token_of(kind: Kind, rest: &[u8]) -> &[u8]
    ensures { result.now ≡ token_of kind rest.now }
{
    &rest[..token_length(kind, rest)]
}

// Writes the hint near a place, and the fix for its token.
#[tactic(auto, using(crate::proofs::Putting::puts_next, crate::proofs::Putting::part_front))]
fn put_rest<K: Sink>(
    kind: Kind,
    token: &[u8],
    near: Option<Near<'_>>,
    out: &mut K,
) -> Result<(), SinkFault>
    ensures { Puts (K.taken out.old) (K.taken out.new) (K.faults out.old) (K.faults out.new) (rest_text kind token.now (option_map plain_near near.entry)) result }
{
    let remedy = remedy_of(kind, token, near);
    put_near(near, out)?;
    put_help(remedy, out)
}

// The fix for a token, or else the fix of the hint near it, or else the fix for the kind.
fn remedy_of(kind: Kind, token: &[u8], near: Option<Near<'_>>) -> &'static [u8]
    ensures { result.now ≡ remedy_of kind token.now (option_map plain_near near.entry) }
{
    if let Some(remedy) = hint_for(kind, token) {
        return remedy;
    }
    match near {
        Some(
            Near {
                remedy: Some(remedy),
                ..
            },
        ) => remedy,
        _ => {
            let (_, remedy) = advice_of(kind);
            remedy
        }
    }
}

// The number of bytes of a token that the caret marks: at least one, where places of the kind have a column.
fn marked(kind: Kind, count: usize) -> usize
    ensures { result ≡ marked kind count }
{
    match kind {
        Kind::S(_) | Kind::M(_) => count.max(1),
        Kind::B(_) | Kind::X(_) | Kind::Y(_) => 0,
    }
}
