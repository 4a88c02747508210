// Parses the notes of `moxi_cli`.
ghost use Rattle.std.specs.Prelude.{◌≡◌, ◌++◌, ◌<◌, length, drop, option_map, IfSome};
ghost use Rattle.std.specs.Str.{bytes_eq};
ghost use Rattle.command_core.specs.Notes.{clause_name, colon_text, column_text, joined, kind_letter, kind_number};
ghost use Rattle.explain_core.specs.Notes.{behind, clause_named, counted, denial_in, denial_words, IsNoted, kind_in, kind_of, named, note_of, noted_denial, noted_refusal, place_in, place_of_byte, plain_note, refusal_at, refusal_in, refusal_words};

use command_core::invariant_number;
use itoa::Buffer;
use text_core::{Clause, FIRST_PLACE, Kind, Place, Refusal, is_same};

/// A note: a line that `moxi_cli` writes to standard error.
#[derive(Clone, Copy)]
pub enum Note {
    /// The model is refused. The offset of the place is 0, since notes don't have one.
    Refused(Refusal),
    /// The second file is refused.
    SecondRefused(Refusal),
    /// A stated run fails this clause first, at this step.
    No(u32, Clause),
    /// The words are no command.
    Usage,
    /// A file could not be read.
    Unread,
    /// The output could not be written.
    WriteFault,
    /// Out of memory.
    NoMemory,
}

/// Parses a line, without its line feed, as a note, or returns None for any other line.
#[tactic(auto, using(crate::proofs::Reading::refused_is, crate::proofs::Reading::rejected_is), unfolding(crate::specs::Notes::note_of))]
pub fn read_note(line: &[u8]) -> Option<Note>
    ensures value { result ≡ note_of line.now }
    ensures noted { IfSome result (λ note. IsNoted note line.now) }
{
    if let Some(rest) = behind(b"refused: ", line) {
        return Some(Note::Refused(refusal_in(rest)?));
    }
    if let Some(rest) = behind(b"second refused: ", line) {
        return Some(Note::SecondRefused(refusal_in(rest)?));
    }
    if let Some(rest) = behind(b"no: step ", line) {
        let (step, clause) = denial_in(rest)?;
        return Some(Note::No(step, clause));
    }
    plain_note(line)
}

// The rest of the text after the words, where it begins with them.
#[tactic(auto, using(crate::proofs::Joining::begins))]
fn behind<'a>(words: &[u8], text: &'a [u8]) -> Option<&'a [u8]>
    ensures value { option_map (λ rest. rest.now) result ≡ behind words.now text.now }
    ensures whole { IfSome result (λ rest. text.now ≡ words.now ++ rest.now) }
{
    if text.starts_with(words) {
        Some(&text[words.len()..])
    } else {
        None
    }
}

// A note without a number.
fn plain_note(line: &[u8]) -> Option<Note>
    ensures { result ≡ plain_note line.now }
{
    if is_same(
        line,
        b"usage: moxi_cli COMMAND MODEL [SECOND] [--property J]",
    ) {
        Some(Note::Usage)
    } else if line.starts_with(b"read fault: ") {
        Some(Note::Unread)
    } else if is_same(line, b"write fault") {
        Some(Note::WriteFault)
    } else if is_same(line, b"no memory") {
        Some(Note::NoMemory)
    } else {
        None
    }
}

// The refusal with its kind, name and place, where the text is exactly its note.
fn refusal_in(rest: &[u8]) -> Option<Refusal>
    ensures value { result ≡ refusal_in rest.now }
    ensures noted { IfSome result (λ refusal. rest.now ≡ refusal_words refusal) }
{
    let end = place_of_byte(rest, b' ')?;
    let kind = kind_in(&rest[..end])?;
    refusal_at(kind, end, rest)
}

// The refusal of this kind, whose number ends at this byte.
fn refusal_at(kind: Kind, end: usize, rest: &[u8]) -> Option<Refusal>
    requires { end < length rest.now }
    ensures value { result ≡ refusal_at kind end rest.now }
    ensures noted { IfSome result (λ refusal. rest.now ≡ refusal_words refusal) }
{
    let place = place_in(from_byte(&rest[end..], kind.name().len() + 5))?;
    noted_refusal(Refusal { kind, place }, rest)
}

// The refusal, where the text is exactly its note.
fn noted_refusal(refusal: Refusal, rest: &[u8]) -> Option<Refusal>
    ensures value { result ≡ noted_refusal refusal rest.now }
    ensures noted { IfSome result (λ refusal. rest.now ≡ refusal_words refusal) }
{
    let mut number = Buffer::new();
    let mut line = Buffer::new();
    let mut column = Buffer::new();
    let pieces = [
        letter_of(refusal.kind),
        number.format(number_of(refusal.kind)).as_bytes(),
        b" ",
        refusal.kind.name(),
        b" at ",
        line.format(refusal.place.line).as_bytes(),
        colon_of(refusal.kind),
        column_of(refusal.kind, column.format(refusal.place.column).as_bytes()),
    ];
    if is_joined(&pieces, rest) {
        Some(refusal)
    } else {
        None
    }
}

// Whether the text is the concatenation of these pieces.
#[tactic(auto, using(crate::proofs::Joining::joined_on, crate::proofs::Joining::joined_off))]
fn is_joined(pieces: &[&[u8]], text: &[u8]) -> bool
    ensures { result ≡ bytes_eq text.now (joined pieces.now) }
{
    match pieces.split_first() {
        Some((piece, more)) => { text.starts_with(piece) && is_joined(more, &text[piece.len()..]) }
        None => text.is_empty(),
    }
}

// The text from this byte on.
fn from_byte(text: &[u8], at: usize) -> &[u8]
    ensures { result.now ≡ drop at text.now }
{
    if at < text.len() { &text[at..] } else { b"" }
}

// The index of the first such byte.
fn place_of_byte(text: &[u8], wanted: u8) -> Option<usize>
    ensures value { result ≡ place_of_byte wanted text.now }
    ensures within { IfSome result (λ at. at < length text.now) }
{
    let mut rest = text;
    let mut count = 0;
    while let Some((b, more)) = rest.split_first() {
        if *b == wanted {
            return Some(count);
        }
        count += 1;
        rest = more;
    }
    None
}

// The kind with this letter and number, where there is such a kind.
fn kind_in(word: &[u8]) -> Option<Kind>
    ensures { result ≡ kind_in word.now }
{
    let (letter, digits) = word.split_first()?;
    let number = invariant_number(digits)?;
    if number > 255 {
        return None;
    }
    kind_of(*letter, number as u8)
}

/// Returns the kind with this letter and number, or None where there is no such kind.
pub fn kind_of(letter: u8, number: u8) -> Option<Kind>
    ensures { result ≡ kind_of letter number }
{
    match letter {
        b'S' => named(Kind::S(number)),
        b'M' => named(Kind::M(number)),
        b'B' => named(Kind::B(number)),
        b'X' => named(Kind::X(number)),
        b'Y' => named(Kind::Y(number)),
        _ => None,
    }
}

// The kind, where it has a name.
fn named(kind: Kind) -> Option<Kind>
    ensures { result ≡ named kind }
{
    if kind.name().len() == 0 {
        None
    } else {
        Some(kind)
    }
}

/// Returns the letter of a kind.
pub fn letter_of(kind: Kind) -> &'static [u8]
    ensures { result.now ≡ kind_letter kind }
{
    match kind {
        Kind::S(_) => b"S",
        Kind::M(_) => b"M",
        Kind::B(_) => b"B",
        Kind::X(_) => b"X",
        Kind::Y(_) => b"Y",
    }
}

/// Returns the number of a kind.
pub fn number_of(kind: Kind) -> u8
    ensures { result ≡ kind_number kind }
{
    match kind {
        Kind::S(n) | Kind::M(n) | Kind::B(n) | Kind::X(n) | Kind::Y(n) => n,
    }
}

/// Returns the colon between line and column, or nothing where places of the kind have no column.
pub fn colon_of(kind: Kind) -> &'static [u8]
    ensures { result.now ≡ colon_text kind }
{
    match kind {
        Kind::S(_) | Kind::M(_) => b":",
        Kind::B(_) | Kind::X(_) | Kind::Y(_) => b"",
    }
}

/// Returns the column's digits, or nothing where places of the kind have no column.
pub fn column_of(kind: Kind, digits: &[u8]) -> &[u8]
    ensures { result.now ≡ column_text kind digits.now }
{
    match kind {
        Kind::S(_) | Kind::M(_) => digits,
        Kind::B(_) | Kind::X(_) | Kind::Y(_) => b"",
    }
}

// The place from a line, or from a line and a column.
fn place_in(words: &[u8]) -> Option<Place>
    ensures { result ≡ place_in words.now }
{
    match place_of_byte(words, b':') {
        Some(end) => {
            let line = counted(&words[..end])?;
            let column = counted(&words[end + 1..])?;
            Some(Place {
                line,
                column,
                offset: 0,
            })
        }
        None => {
            let line = counted(words)?;
            Some(Place {
                line,
                ..FIRST_PLACE
            })
        }
    }
}

// A number that counts from 1.
fn counted(digits: &[u8]) -> Option<u32>
    ensures { result ≡ counted digits.now }
{
    match invariant_number(digits) {
        Some(number) if number > 0 => Some(number),
        _ => None,
    }
}

// The step and the clause, where the text is exactly their note.
fn denial_in(rest: &[u8]) -> Option<(u32, Clause)>
    ensures value { result ≡ denial_in rest.now }
    ensures noted { IfSome result (λ denial. rest.now ≡ denial_words denial.0 denial.1) }
{
    let end = place_of_byte(rest, b':')?;
    let step = invariant_number(&rest[..end])?;
    let clause = clause_named(behind(b": ", &rest[end..])?, &CLAUSES)?;
    noted_denial(step, clause, rest)
}

// This step and this clause, where the text is exactly their note.
fn noted_denial(step: u32, clause: Clause, rest: &[u8]) -> Option<(u32, Clause)>
    ensures value { result ≡ noted_denial step clause rest.now }
    ensures noted { IfSome result (λ denial. rest.now ≡ denial_words denial.0 denial.1) }
{
    let mut digits = Buffer::new();
    let pieces = [digits.format(step).as_bytes(), b": ", name_of(clause)];
    if is_joined(&pieces, rest) {
        Some((step, clause))
    } else {
        None
    }
}

// The clause with this name.
fn clause_named(name: &[u8], clauses: &[Clause]) -> Option<Clause>
    ensures { result ≡ clause_named name.now clauses.now }
{
    for clause in clauses {
        if is_same(name, name_of(*clause)) {
            return Some(*clause);
        }
    }
    None
}

fn name_of(clause: Clause) -> &'static [u8]
    ensures { result.now ≡ clause_name clause }
{
    match clause {
        Clause::ValueOutside => b"ValueOutside",
        Clause::InitFails => b"InitFails",
        Clause::TransFails => b"TransFails",
        Clause::InvarFails => b"InvarFails",
        Clause::AssumptionFails => b"AssumptionFails",
        Clause::CurrentFails => b"CurrentFails",
        Clause::StateDiffers => b"StateDiffers",
        Clause::ConstraintFails => b"ConstraintFails",
        Clause::NotBroken => b"NotBroken",
    }
}

const CLAUSES: [Clause; 9] = [
    Clause::ValueOutside,
    Clause::InitFails,
    Clause::TransFails,
    Clause::InvarFails,
    Clause::AssumptionFails,
    Clause::CurrentFails,
    Clause::StateDiffers,
    Clause::ConstraintFails,
    Clause::NotBroken,
];
