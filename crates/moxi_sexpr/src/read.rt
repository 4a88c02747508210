// Reading of forms.

ghost use Rattle.std.specs.Prelude.{◌≡◌, ◌≤◌, ◌<◌, ◌+◌, ◌^◌, ◌⊎◌, ℕ, List, [], ◌∷◌, ◌++◌, length, take, drop, map, Some, IfOk, IfErr, OnOk, vec_len, vec_capacity};
ghost use Rattle.text_core.specs.declared.place.Place.{Place};
ghost use Rattle.text_core.specs.declared.place.Refusal.{Refusal};
ghost use Rattle.moxi_sexpr.specs.declared.read.TokenKind.{TokenKind};
ghost use Rattle.moxi_sexpr.specs.declared.read.TokenKind.TheVariants as kind;
ghost use Rattle.text_core.specs.Places.{start, after, Reaches};
ghost use Rattle.moxi_sexpr.specs.Bytes.{is_comment_byte};
ghost use Rattle.moxi_sexpr.specs.Tree as tree;
ghost use Rattle.moxi_sexpr.specs.Tree.{Trees, plain, plain_forms, depths};
ghost use Rattle.moxi_sexpr.specs.Lexing.{refusal, limit};
ghost use Rattle.moxi_sexpr.specs.Grammar.{SpellsForms, RefusesWith};
ghost use Rattle.moxi_sexpr.specs.Reading.{run_length, scan_of, token_from, token_of, symbol_of, past_symbol, front};
ghost use Rattle.moxi_sexpr.specs.Machine.{Frame, step, turn_of, open_lists};
ghost use Rattle.moxi_sexpr.specs.Printing.{ArePrintable};
ghost use Rattle.moxi_sexpr.specs.Answer.{Moves, Turns, IsRefused, Reads, IsAnswered};

use crate::bytes::{ByteSet, is_blank, run_length, starts_simple};
use crate::ends::{last_line, line_ends};
use crate::form::{Atom, Form, FormShape, Forms};
use crate::scan::{make_atom, scan, split_symbol, starts_quoted};
use std::alloc::Global;
use std::mem;
use text_core::kinds::moxi;
use text_core::{End, FIRST_PLACE, Kind, Name, NoMemory, Place, Refusal};

/// The reason why reading failed: a refusal, or out of memory.
///
/// M1 is at a byte that starts no token, at a `)` without an open bracket, or at a bar or quote that is not closed. M2 is
/// at the end of the text, where a bracket is still open. M3 is at the 1,201st open bracket.
pub type FormEnd = End;

/// The most brackets that may be open at once.
const MOST_OPEN: usize = 1200;

/// A bracket or an atom: a token in the contracts.
///
/// The reader handles each token in place and builds no value of this type.
#[derive(Drop)]
pub enum TokenKind {
    Open,
    Close,
    Atom(Atom),
}

/// A list that is still open: the place of its bracket, and the forms before it.
#[derive(Drop)]
struct Opened {
    place: Place,
    before: Forms,
}

fn refusal(kind: Kind, place: Place) -> Refusal
    ensures { result ≡ record { kind = kind; place = place } }
{
    Refusal { kind, place }
}

/// Returns the place and the text after a comment. The given text starts after the comment's first byte.
#[inline(never)]
fn skip_comment(place: Place, text: &[u8]) -> (Place, &[u8])
    requires { Reaches place (length text.now + 1) }
    ensures place { result.0 ≡ after place (59 ∷ take (run_length is_comment_byte text.now) text.now) }
    ensures rest { result.1.now ≡ drop (run_length is_comment_byte text.now) text.now }
{
    let size = run_length(ByteSet::Comment, text);
    let (_, rest) = text.split_at(size);
    (place.along(size + 1), rest)
}

/// Returns the place after the token at the front of a text. Only a token in bars or quotes may contain a line end.
fn place_of_rest(place: Place, text: &[u8], rest: &[u8]) -> Place
    requires reaches { Reaches place (length text.now) }
    requires within { length rest.now ≤ length text.now }
    requires token { (kind : TokenKind) × (token_of text.now ≡ Some (kind, rest.now)) }
    ensures { result ≡ after place (front text.now rest.now) }
{
    let count = text.len() - rest.len();
    if starts_quoted(text) {
        place.after(&text[..count])
    } else {
        place.along(count)
    }
}

/// Makes room for one more form in a full vector.
#[cold]
#[inline(never)]
fn grow(forms: &mut Forms) -> Result<(), NoMemory>
    ensures items { forms.new.items ≡ forms.old.items }
    ensures room { OnOk result (vec_len forms.new < vec_capacity forms.new) }
{
    forms.reserve(1)?;
    Ok(())
}

/// Makes room for one more form. With the room reserved, a form is built where it stays.
#[inline(always)]
fn make_room(forms: &mut Forms) -> Result<(), NoMemory>
    ensures items { forms.new.items ≡ forms.old.items }
    ensures room { OnOk result (vec_len forms.new < vec_capacity forms.new) }
{
    if forms.len() < forms.capacity() {
        Ok(())
    } else {
        grow(forms)
    }
}

/// Opens a list.
fn open_list(
    alloc: Global,
    stack: &mut Vec<Opened>,
    done: &mut Forms,
    place: Place,
) -> Result<(), FormEnd>
    ensures { Moves (step kind.Open place (open_lists stack.old.items) (map plain done.old.items)) result (open_lists stack.new.items) (map plain done.new.items) }
{
    if stack.len() >= MOST_OPEN {
        return Err(FormEnd::Bad(refusal(moxi::TOO_NESTED, place)));
    }
    let before = mem::replace(done, Vec::new(alloc));
    stack.push(Opened { place, before })?;
    Ok(())
}

/// Closes the list that was opened last.
fn close_list(stack: &mut Vec<Opened>, done: &mut Forms, place: Place) -> Result<(), FormEnd>
    ensures { Moves (step kind.Close place (open_lists stack.old.items) (map plain done.old.items)) result (open_lists stack.new.items) (map plain done.new.items) }
{
    match stack.pop() {
        None => Err(FormEnd::Bad(refusal(moxi::BAD_BYTE, place))),
        Some(opened) => {
            let inner = mem::replace(done, opened.before);
            make_room(done)?;
            done.push_reserved(Form {
                place: opened.place,
                shape: FormShape::List(inner),
            });
            Ok(())
        }
    }
}

/// Appends the simple symbol at the front of a text to the forms, and returns the text after it.
fn take_symbol<'a>(
    alloc: Global,
    done: &mut Forms,
    place: Place,
    text: &'a [u8],
) -> Result<&'a [u8], NoMemory>
    ensures form { OnOk result (map plain done.new.items ≡ map plain done.old.items ++ tree.atom place (symbol_of text.now) ∷ []) }
    ensures rest { IfOk result (λ rest. rest.now ≡ past_symbol text.now) }
{
    let (name, primed, rest) = split_symbol(text);
    make_room(done)?;
    let name = Name::of(alloc, name)?;
    done.push_reserved(Form {
        place,
        shape: FormShape::Atom(Atom::Symbol(name, primed)),
    });
    Ok(rest)
}

/// Appends the atom at the front of a text to the forms, and returns the text after it.
#[inline(never)]
fn take_atom<'a>(
    alloc: Global,
    done: &mut Forms,
    place: Place,
    text: &'a [u8],
) -> Result<&'a [u8], FormEnd>
    ensures { (k : List Frame) → Turns (turn_of place (token_from (scan_of text.now)) k (map plain done.old.items)) result k (map plain done.new.items) }
{
    let Some((how, raw, rest)) = scan(text) else {
        return Err(FormEnd::Bad(refusal(moxi::BAD_BYTE, place)))
    };
    make_room(done)?;
    let atom = make_atom(alloc, how, raw)?;
    done.push_reserved(Form {
        place,
        shape: FormShape::Atom(atom),
    });
    Ok(rest)
}

/// Processes the token at the front of a text, and returns the text after it. Most atoms are simple symbols.
fn take_token<'a>(
    alloc: Global,
    stack: &mut Vec<Opened>,
    done: &mut Forms,
    place: Place,
    text: &'a [u8],
) -> Result<&'a [u8], FormEnd>
    ensures { Turns (turn_of place (token_of text.now) (open_lists stack.old.items) (map plain done.old.items)) result (open_lists stack.new.items) (map plain done.new.items) }
{
    let Some((b, rest)) = text.split_first() else {
        return Err(FormEnd::Bad(refusal(moxi::BAD_BYTE, place)))
    };
    if *b == b'(' {
        open_list(alloc, stack, done, place)?;
        return Ok(rest);
    }
    if *b == b')' {
        close_list(stack, done, place)?;
        return Ok(rest);
    }
    if starts_simple(text) {
        return Ok(take_symbol(alloc, done, place, text)?);
    }
    take_atom(alloc, done, place, text)
}

/// Reads the forms of a text, or returns its refusal.
fn forms_of(alloc: Global, text: &[u8]) -> Result<Forms, FormEnd>
    requires { length text.now ≤ 2 ^ 31 }
    ensures spelled { IfOk result (λ forms. SpellsForms text.now (plain_forms forms.items)) }
    ensures refused { IfErr result (IsRefused text.now) }
{
    let mut stack = Vec::new(alloc);
    let mut done = Vec::new(alloc);
    let mut place = FIRST_PLACE;
    let mut rest = text;
    'tokens: loop {
        let Some((b, more)) = rest.split_first() else {
            if stack.is_empty() {
                return Ok(done);
            }
            return Err(FormEnd::Bad(refusal(moxi::UNCLOSED, place)))
        };
        if is_blank(*b) {
            place = place.next(*b);
            rest = more;
        } else if *b == b';' {
            let (behind, last) = skip_comment(place, more);
            place = behind;
            rest = last;
        } else {
            let last = take_token(alloc, &mut stack, &mut done, place, rest)?;
            place = place_of_rest(place, rest, last);
            rest = last;
        }
    }
}

/// Parses a text to its forms.
///
/// A refused text is refused at the first byte at which no forms can go on.
pub fn read_forms(alloc: Global, text: &[u8]) -> Result<Forms, FormEnd>
    requires { length text.now ≤ 2 ^ 31 }
    // The whole text spells the forms.
    ensures spelled { IfOk result (λ forms. SpellsForms text.now (plain_forms forms.items)) }
    // If the text spells forms, they are returned, unless memory runs out.
    ensures read { (ts : Trees) → SpellsForms text.now ts → Reads ts result }
    // A refusal is the text's refusal.
    ensures refused { IfErr result (IsRefused text.now) }
    // If the text is refused, that refusal is returned, unless memory runs out.
    ensures answered { (why : Refusal) → RefusesWith text.now why → IsAnswered why result }
{
    forms_of(alloc, text)
}

/// Returns the place of the end of a text, just past its last byte.
pub fn end_of(text: &[u8]) -> Place
    requires { length text.now ≤ 2 ^ 31 }
    ensures { result ≡ after start text.now }
{
    Place {
        line: line_ends(text) + 1,
        column: last_line(text) as u32 + 1,
        offset: text.len() as u32,
    }
}

/// Proves that each text either spells exactly one list of forms or has exactly one refusal, never both.
///
/// An open bracket is refused at the end of the text. The forms of a text can be printed, and they nest no deeper than the
/// reader allows.
pub fn readings_are_one()
    ensures forms { (text : List ℕ) (ts us : Trees) → SpellsForms text ts → SpellsForms text us → ts ≡ us }
    ensures refusals { (text : List ℕ) (why other : Refusal) → RefusesWith text why → RefusesWith text other → why ≡ other }
    ensures never_both { (text : List ℕ) (ts : Trees) (why : Refusal) → SpellsForms text ts → ¬ RefusesWith text why }
    ensures always_one { (text : List ℕ) → ((ts : Trees) × SpellsForms text ts) ⊎ ((why : Refusal) × RefusesWith text why) }
    ensures unclosed { (text : List ℕ) (place : Place) → RefusesWith text (refusal 2 place) → place ≡ after start text }
    ensures printable { (text : List ℕ) (ts : Trees) → SpellsForms text ts → ArePrintable ts }
    ensures depth { (text : List ℕ) (ts : Trees) → SpellsForms text ts → depths ts ≤ limit }
{}
