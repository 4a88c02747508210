// Writes the output, and the line that says how a run ended. None of it allocates.
ghost use Rattle.std.specs.Prelude.{◌≡◌, ◌≢◌, ◌⊎◌, ◌<◌, OnErr, decimal};
ghost use Rattle.text_core.specs.Outside.{grown, HasNewFault};
ghost use Rattle.command_core.specs.Answers.{line_of, output_text, status_of, text_of};
ghost use Rattle.command_core.specs.Sinks.{IsPart, Noted, Puts, WroteLine, ended};
ghost use Rattle.command_core.specs.Notes.{accepted_line, clause_name, colon_text, column_text, rejected_line, joined, kind_letter, kind_number, refused_line, refused_words, unread_line, write_fault_line};

use crate::answer::{Answer, Output};
use crate::status::Status;
use itoa::Buffer;
use text_core::{Clause, Kind, Name, Refusal, Sink, SinkFault, write_whole};

/// Writes the answer's text to `out`, and then its line to `notes`.
///
/// Returns the answer's status, or `WriteFault` where either stream failed.
pub fn deliver<K: Sink, N: Sink>(answer: &Answer, out: &mut K, notes: &mut N) -> Status
    ensures status { (result ≡ status_of answer.now) ⊎ (result ≡ Status.WriteFault) }
    ensures text { result ≢ Status.WriteFault → K.taken out.new ≡ grown (K.taken out.old) (text_of answer.now) }
    ensures part { IsPart (K.taken out.old) (K.taken out.new) (text_of answer.now) }
    ensures line { result ≢ Status.WriteFault → N.taken notes.new ≡ grown (N.taken notes.old) (line_of answer.now) }
    // Either `out` failed, and `notes` took the line that says so, or a prefix of it where it failed too; or
    // `notes` failed, and `out` is unchanged.
    ensures write_fault { result ≡ Status.WriteFault
        → (HasNewFault (K.faults out.old) (K.faults out.new) × WroteLine (N.taken notes.old) (N.taken notes.new) (N.faults notes.old) (N.faults notes.new) write_fault_line)
        ⊎ ((K.taken out.new ≡ K.taken out.old) × (status_of answer.now ≢ Status.Done) × IsPart (N.taken notes.old) (N.taken notes.new) (line_of answer.now) × HasNewFault (N.faults notes.old) (N.faults notes.new)) }
    ensures out_faulted { K.faults out.old < K.faults out.new → result ≡ Status.WriteFault }
    ensures notes_faulted { N.faults notes.old < N.faults notes.new → result ≡ Status.WriteFault }
{
    match put_text(answer, out) {
        Ok(()) => ended(put_line(answer, notes), answer.status()),
        Err(SinkFault) => note(notes, &[b"write fault\n"], Status::WriteFault),
    }
}

// The status where the line was written, else a write fault.
fn ended(put: Result<(), SinkFault>, status: Status) -> Status
    ensures { result ≡ ended put status }
{
    match put {
        Ok(()) => status,
        Err(SinkFault) => Status::WriteFault,
    }
}

// Writes the answer's text.
fn put_text<K: Sink>(answer: &Answer, out: &mut K) -> Result<(), SinkFault>
    ensures { Puts (K.taken out.old) (K.taken out.new) (K.faults out.old) (K.faults out.new) (text_of answer.now) result }
{
    match answer {
        Answer::Done(output) => put_output(output, out),
        Answer::Usage
        | Answer::Unread(_)
        | Answer::Refused(_)
        | Answer::SecondRefused(_)
        | Answer::No(_, _) => Ok(()),
    }
}

fn put_output<K: Sink>(output: &Output, out: &mut K) -> Result<(), SinkFault>
    ensures { Puts (K.taken out.old) (K.taken out.new) (K.faults out.old) (K.faults out.new) (output_text output.now) result }
{
    match output {
        Output::Text(text) => put_pieces(out, &[text.bytes()]),
        Output::Yes(bad, step) => put_accepted(b"yes: bad ", *bad, *step, out),
        Output::Broken(j, step) => put_accepted(b"yes: invariant ", *j, *step, out),
        Output::Met(symbol, step) => { put_last_step(b"yes: query ", symbol.bytes(), *step, out) },
    }
}

// Writes the line of an accepted witness or trace, after these words.
fn put_accepted<K: Sink>(words: &[u8], number: u32, step: u32, out: &mut K) -> Result<(), SinkFault>
    ensures { Puts (K.taken out.old) (K.taken out.new) (K.faults out.old) (K.faults out.new) (accepted_line words.now (decimal number) step) result }
{
    let mut digits = Buffer::new();
    put_last_step(words, digits.format(number).as_bytes(), step, out)
}

// Writes the line of an accepted run: the words, the name or number of what it breaks or meets, and its last step.
fn put_last_step<K: Sink>(
    words: &[u8],
    name: &[u8],
    step: u32,
    out: &mut K,
) -> Result<(), SinkFault>
    ensures { Puts (K.taken out.old) (K.taken out.new) (K.faults out.old) (K.faults out.new) (accepted_line words.now name.now step) result }
{
    let mut at = Buffer::new();
    let pieces = [words, name, b" at step ", at.format(step).as_bytes(), b"\n"];
    put_pieces(out, &pieces)
}

// Writes the answer's line.
fn put_line<N: Sink>(answer: &Answer, notes: &mut N) -> Result<(), SinkFault>
    ensures put { Puts (N.taken notes.old) (N.taken notes.new) (N.faults notes.old) (N.faults notes.new) (line_of answer.now) result }
    ensures none { OnErr result (status_of answer.now ≢ Status.Done) }
{
    match answer {
        Answer::Usage => put_pieces(
            notes,
            &[b"usage: moxi_cli COMMAND MODEL [SECOND] [--property J]\n"],
        ),
        Answer::Unread(name) => put_unread(name, notes),
        Answer::Refused(refusal) => put_refusal(false, *refusal, notes),
        Answer::SecondRefused(refusal) => put_refusal(true, *refusal, notes),
        Answer::No(step, clause) => put_clause(*step, *clause, notes),
        Answer::Done(_) => Ok(()),
    }
}

// Writes the line with the name of a file that was not read.
fn put_unread<N: Sink>(name: &Name, notes: &mut N) -> Result<(), SinkFault>
    ensures { Puts (N.taken notes.old) (N.taken notes.new) (N.faults notes.old) (N.faults notes.new) (unread_line name.now) result }
{
    let pieces = [b"read fault: ".as_slice(), name.bytes(), b"\n"];
    put_pieces(notes, &pieces)
}

// The words before a refusal of the model, or of the second file.
fn refused_words(second: bool) -> &'static [u8]
    ensures { result.now ≡ refused_words second }
{
    if second {
        b"second refused: "
    } else {
        b"refused: "
    }
}

// Writes the line with the kind and the place of a refusal.
fn put_refusal<N: Sink>(second: bool, refusal: Refusal, notes: &mut N) -> Result<(), SinkFault>
    ensures { Puts (N.taken notes.old) (N.taken notes.new) (N.faults notes.old) (N.faults notes.new) (refused_line (refused_words second) refusal) result }
{
    let mut number = Buffer::new();
    let mut line = Buffer::new();
    let mut column = Buffer::new();
    let pieces = [
        refused_words(second),
        letter_of(refusal.kind),
        number.format(number_of(refusal.kind)).as_bytes(),
        b" ",
        refusal.kind.name(),
        b" at ",
        line.format(refusal.place.line).as_bytes(),
        colon_of(refusal.kind),
        column_of(refusal.kind, column.format(refusal.place.column).as_bytes()),
        b"\n",
    ];
    put_pieces(notes, &pieces)
}

// The colon between line and column, where texts of this kind have places within a line.
fn colon_of(kind: Kind) -> &'static [u8]
    ensures { result.now ≡ colon_text kind }
{
    match kind {
        Kind::S(_) | Kind::M(_) => b":",
        Kind::B(_) | Kind::X(_) | Kind::Y(_) => b"",
    }
}

// The column's digits, where texts of this kind have places within a line.
fn column_of(kind: Kind, digits: &[u8]) -> &[u8]
    ensures { result.now ≡ column_text kind digits.now }
{
    match kind {
        Kind::S(_) | Kind::M(_) => digits,
        Kind::B(_) | Kind::X(_) | Kind::Y(_) => b"",
    }
}

// Writes the line with the step and the clause that fails.
fn put_clause<N: Sink>(step: u32, clause: Clause, notes: &mut N) -> Result<(), SinkFault>
    ensures { Puts (N.taken notes.old) (N.taken notes.new) (N.faults notes.old) (N.faults notes.new) (rejected_line step clause) result }
{
    let mut digits = Buffer::new();
    let pieces = [
        b"no: step ".as_slice(),
        digits.format(step).as_bytes(),
        b": ",
        clause_name(clause),
        b"\n",
    ];
    put_pieces(notes, &pieces)
}

fn clause_name(clause: Clause) -> &'static [u8]
    ensures { result.now ≡ clause_name clause }
{
    match clause {
        Clause::ValueOutside => b"ValueOutside",
        Clause::InitFails => b"InitFails",
        Clause::TransFails => b"TransFails",
        Clause::InvarFails => b"InvarFails",
        Clause::AssumptionFails => b"AssumptionFails",
        Clause::CurrentFails => b"CurrentFails",
        Clause::StateDiffers => b"StateDiffers",
        Clause::ConstraintFails => b"ConstraintFails",
        Clause::NotBroken => b"NotBroken",
    }
}

fn letter_of(kind: Kind) -> &'static [u8]
    ensures { result.now ≡ kind_letter kind }
{
    match kind {
        Kind::S(_) => b"S",
        Kind::M(_) => b"M",
        Kind::B(_) => b"B",
        Kind::X(_) => b"X",
        Kind::Y(_) => b"Y",
    }
}

fn number_of(kind: Kind) -> u8
    ensures { result ≡ kind_number kind }
{
    match kind {
        Kind::S(n) | Kind::M(n) | Kind::B(n) | Kind::X(n) | Kind::Y(n) => n,
    }
}

/// Writes the pieces of a line to `notes`, and returns the status.
///
/// Returns `WriteFault` instead where `notes` failed.
pub fn note<N: Sink>(notes: &mut N, pieces: &[&[u8]], status: Status) -> Status
    ensures { Noted (N.taken notes.old) (N.taken notes.new) (N.faults notes.old) (N.faults notes.new) (joined pieces.now) status result }
{
    ended(put_pieces(notes, pieces), status)
}

// Writes the pieces in order.
fn put_pieces<N: Sink>(notes: &mut N, pieces: &[&[u8]]) -> Result<(), SinkFault>
    ensures { Puts (N.taken notes.old) (N.taken notes.new) (N.faults notes.old) (N.faults notes.new) (joined pieces.now) result }
{
    for piece in pieces {
        if write_whole(notes, piece).is_err() {
            return Err(SinkFault);
        }
    }
    Ok(())
}
