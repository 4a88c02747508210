// Printing of forms.

ghost use Rattle.std.specs.Prelude.{◌≡◌, ◌≤◌, ◌++◌, ℕ, List, [], map, IfOk, OnOk};
ghost use Rattle.moxi_sexpr.specs.Atoms.{doubled, spelled};
ghost use Rattle.moxi_sexpr.specs.declared.form.Atom.TheVariants as atoms;
ghost use Rattle.moxi_sexpr.specs.Tree.{Trees, plain, plain_forms, depths};
ghost use Rattle.moxi_sexpr.specs.Printing.{is_among, reserved_words, printed_atom, printed, printed_parts, printed_forms, ArePrintable, ReadsBack};
ghost use Rattle.moxi_sexpr.specs.Lexing.{limit};
ghost use Rattle.moxi_sexpr.specs.Reserved.{may_be_reserved};
ghost use Rattle.moxi_sexpr.specs.Writing.{WritesLines};
ghost use Rattle.text_core.specs.Bytes.{bytes_behind};

use crate::bytes::is_simple;
use crate::form::{Atom, Form, FormShape, Forms};
use crate::scan::Spelling;
use std::alloc::Global;
use text_core::{NoMemory, Text, is_same};

/// The simple symbols that are printed in bars, since SMT-LIB reserves them.
const RESERVED: [&[u8]; 13] = [
    b"_",
    b"!",
    b"as",
    b"let",
    b"exists",
    b"forall",
    b"match",
    b"par",
    b"BINARY",
    b"DECIMAL",
    b"HEXADECIMAL",
    b"NUMERAL",
    b"STRING",
];

fn is_among(name: &[u8], words: &[&[u8]]) -> bool
    ensures { result ≡ is_among name.now (map bytes_behind words.now) }
{
    for word in words {
        if is_same(name, *word) {
            return true;
        }
    }
    false
}

// Whether a name may be reserved, judged by its first byte. Most names are ruled out.
fn may_be_reserved(name: &[u8]) -> bool
    ensures { result ≡ may_be_reserved name.now }
{
    match name {
        [b, ..] => match *b {
            b'_'
            | b'!'
            | b'a'
            | b'l'
            | b'e'
            | b'f'
            | b'm'
            | b'p'
            | b'B'
            | b'D'
            | b'H'
            | b'N'
            | b'S' => true,
            _ => false,
        },
        [] => false,
    }
}

fn is_reserved(name: &[u8]) -> bool
    ensures { result ≡ is_among name.now reserved_words }
{
    if may_be_reserved(name) {
        is_among(name, &RESERVED)
    } else {
        false
    }
}

// Appends bytes between an opening and a closing delimiter.
fn put_between(out: &mut Text, opening: &[u8], bytes: &[u8], closing: &[u8]) -> Result<(), NoMemory>
    ensures { OnOk result (out.new ≡ out.old ++ (opening.now ++ (bytes.now ++ closing.now))) }
{
    out.put(opening)?;
    out.put(bytes)?;
    out.put(closing)
}

/// Appends a symbol, in bars unless it is a simple symbol that is not reserved (SMT-LIB 2.6, section 3.1).
///
/// A primed symbol ends with the prime.
pub fn put_symbol(out: &mut Text, name: &[u8], primed: bool) -> Result<(), NoMemory>
    ensures { OnOk result (out.new ≡ out.old ++ printed_atom (atoms.Symbol name.now primed)) }
{
    if is_simple(name) && !is_reserved(name) {
        out.put(name)?;
    } else {
        put_between(out, b"|", name, b"|")?;
    }
    if primed { out.put_byte(b'\'') } else { Ok(()) }
}

// Appends bytes with each quote doubled.
fn put_doubled(out: &mut Text, bytes: &[u8]) -> Result<(), NoMemory>
    ensures { OnOk result (out.new ≡ out.old ++ doubled bytes.now) }
{
    for b in bytes {
        out.put(&[*b])?;
        if *b == b'"' {
            out.put(b"\"")?;
        }
    }
    Ok(())
}

fn put_quote(out: &mut Text, bytes: &[u8]) -> Result<(), NoMemory>
    ensures { OnOk result (out.new ≡ out.old ++ spelled Spelling.Quote bytes.now) }
{
    out.put(b"\"")?;
    put_doubled(out, bytes)?;
    out.put(b"\"")
}

fn put_atom(out: &mut Text, atom: &Atom) -> Result<(), NoMemory>
    ensures { OnOk result (out.new ≡ out.old ++ printed_atom atom.now) }
{
    match atom {
        Atom::Symbol(name, primed) => put_symbol(out, name.bytes(), *primed),
        Atom::Keyword(name) => put_between(out, b":", name.bytes(), b""),
        Atom::Numeral(name) => out.put(name.bytes()),
        Atom::Binary(name) => put_between(out, b"#b", name.bytes(), b""),
        Atom::Hex(name) => put_between(out, b"#x", name.bytes(), b""),
        Atom::Quote(name) => put_quote(out, name.bytes()),
    }
}

// Appends a form.
#[cycle(put)]
fn put_form(out: &mut Text, form: &Form) -> Result<(), NoMemory>
    ensures { OnOk result (out.new ≡ out.old ++ printed (plain form.now)) }
{
    match &form.shape {
        FormShape::Atom(atom) => put_atom(out, atom),
        FormShape::List(forms) => {
            out.put(b"(")?;
            put_parts(out, forms)?;
            out.put(b")")
        }
    }
}

// Appends forms, separated by single blanks.
#[cycle(put)]
fn put_parts(out: &mut Text, forms: &[Form]) -> Result<(), NoMemory>
    ensures { OnOk result (out.new ≡ out.old ++ printed_parts [] (plain_forms forms.now)) }
{
    let mut separator: &[u8] = b"";
    for form in forms {
        out.put(separator)?;
        put_form(out, form)?;
        separator = b" ";
    }
    Ok(())
}

fn text_of(alloc: Global, forms: &Forms) -> Result<Text, NoMemory>
    ensures { IfOk result (λ text. text ≡ printed_forms (plain_forms forms.now.items)) }
{
    let mut out = Text::new(alloc);
    for form in forms {
        put_form(&mut out, form)?;
        out.put(b"\n")?;
    }
    Ok(out)
}

/// Returns the text of forms, each on its own line.
///
/// The parts of a list are separated by single blanks, with none next to a bracket. A symbol is in bars unless it is a
/// simple symbol that is not reserved. If each atom can be spelled as its kind requires, the text reads back to the same
/// forms, except for their places.
pub fn print_forms(alloc: Global, forms: &Forms) -> Result<Text, NoMemory>
    // The text is the printed form.
    ensures printed { IfOk result (λ text. text ≡ printed_forms (plain_forms forms.now.items)) }
    // It reads back to the same forms except for places, if brackets nest no deeper than the reader allows.
    ensures reads_back { ArePrintable (plain_forms forms.now.items) → depths (plain_forms forms.now.items) ≤ limit → IfOk result (λ text. ReadsBack text (plain_forms forms.now.items)) }
{
    text_of(alloc, forms)
}

/// Proves that a text with one form on each line reads back to the same forms, except for places.
///
/// Each atom may have any of its spellings.
pub fn written_forms_read_back()
    ensures { (text : List ℕ) (ts : Trees) → WritesLines ts text → depths ts ≤ limit → ReadsBack text ts }
{}
