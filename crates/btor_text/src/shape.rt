// The shape of one line by itself.
ghost use Rattle.std.specs.Prelude.{◌≡◌, option_map};
ghost use Rattle.btor_tree.specs.Parts.{parts};
ghost use Rattle.btor_tree.specs.Shapes.{operand_of};
ghost use Rattle.btor_tree.specs.Reading.{sort_args, nullary_args, constant_args, binding_args, property_args, unary_args, binary_args, ite_args, slice_args, extension_args, content_at, content_of, shaped, shape_of};
ghost use Rattle.btor_text.specs.Seen.{seen_base, seen_binding, seen_content, seen_extension, seen_operand, seen_property, seen_read, seen_shape, seen_nullary, seen_word, unknown_content};

use crate::bytes::is_symbol;
use crate::word::{
    Base, Binding, Extension, LineWord, Nullary, Property, is_literal, is_unsupported, word_of,
};
use btor_tree::{GREATEST_ID, first_part, numeral};
use word_core::{Binary, Unary};

/// An operand: a line by its id, or the bitwise not of its word.
#[derive(Clone, Copy, PartialEq, Eq)]
pub struct Operand {
    pub id: u32,
    pub negated: bool,
}

/// The content of a line after its id, with ids for its sort and its operands.
#[derive(Clone, Copy)]
pub enum Content<'a> {
    Sort(u32),
    Nullary(Nullary, u32),
    Constant(Base, u32, &'a [u8]),
    Binding(Binding, u32, u32, Operand),
    Property(Property, Operand),
    Unary(Unary, u32, Operand),
    Binary(Binary, u32, Operand, Operand),
    Ite(u32, Operand, Operand, Operand),
    Slice(u32, Operand, u32, u32),
    Extension(Extension, u32, Operand, u32),
    Unsupported,
}

/// The shape of a line, with ids in place of indices.
#[derive(Clone, Copy)]
pub struct Shape<'a> {
    pub id: u32,
    pub content: Content<'a>,
    pub symbol: Option<&'a [u8]>,
}

/// Parses an id, after `-` where the word is negated.
fn operand_of(part: &[u8]) -> Option<Operand>
    ensures { option_map seen_operand result ≡ operand_of part.now }
{
    let (b, rest) = part.split_first()?;
    if *b == b'-' {
        let id = numeral(rest)?;
        Some(Operand { id, negated: true })
    } else {
        let id = numeral(part)?;
        Some(Operand { id, negated: false })
    }
}

fn sort_args<'a>(rest: &'a [u8]) -> Option<(Content<'a>, &'a [u8])>
    ensures { option_map seen_read result ≡ sort_args (parts rest.now) }
{
    let (kind, rest) = first_part(rest)?;
    if kind == b"array".as_slice() {
        return Some((Content::Unsupported, b""));
    }
    let (width, rest) = first_part(rest)?;
    if kind != b"bitvec".as_slice() {
        return None;
    }
    let width = numeral(width)?;
    Some((Content::Sort(width), rest))
}

fn nullary_args<'a>(kind: Nullary, rest: &'a [u8]) -> Option<(Content<'a>, &'a [u8])>
    ensures { option_map seen_read result ≡ nullary_args (seen_nullary kind) (parts rest.now) }
{
    let (sort, rest) = first_part(rest)?;
    let sort = numeral(sort)?;
    Some((Content::Nullary(kind, sort), rest))
}

fn constant_args<'a>(kind: Base, rest: &'a [u8]) -> Option<(Content<'a>, &'a [u8])>
    ensures { option_map seen_read result ≡ constant_args (seen_base kind) (parts rest.now) }
{
    let (sort, rest) = first_part(rest)?;
    let (digits, rest) = first_part(rest)?;
    if !is_literal(kind, digits) {
        return None;
    }
    let sort = numeral(sort)?;
    Some((Content::Constant(kind, sort, digits), rest))
}

fn binding_args<'a>(kind: Binding, rest: &'a [u8]) -> Option<(Content<'a>, &'a [u8])>
    ensures { option_map seen_read result ≡ binding_args (seen_binding kind) (parts rest.now) }
{
    let (sort, rest) = first_part(rest)?;
    let (state, rest) = first_part(rest)?;
    let (value, rest) = first_part(rest)?;
    let sort = numeral(sort)?;
    let state = numeral(state)?;
    let value = operand_of(value)?;
    Some((Content::Binding(kind, sort, state, value), rest))
}

fn property_args<'a>(kind: Property, rest: &'a [u8]) -> Option<(Content<'a>, &'a [u8])>
    ensures { option_map seen_read result ≡ property_args (seen_property kind) (parts rest.now) }
{
    let (operand, rest) = first_part(rest)?;
    let operand = operand_of(operand)?;
    Some((Content::Property(kind, operand), rest))
}

fn unary_args<'a>(op: Unary, rest: &'a [u8]) -> Option<(Content<'a>, &'a [u8])>
    ensures { option_map seen_read result ≡ unary_args op (parts rest.now) }
{
    let (sort, rest) = first_part(rest)?;
    let (operand, rest) = first_part(rest)?;
    let sort = numeral(sort)?;
    let operand = operand_of(operand)?;
    Some((Content::Unary(op, sort, operand), rest))
}

fn binary_args<'a>(op: Binary, rest: &'a [u8]) -> Option<(Content<'a>, &'a [u8])>
    ensures { option_map seen_read result ≡ binary_args op (parts rest.now) }
{
    let (sort, rest) = first_part(rest)?;
    let (left, rest) = first_part(rest)?;
    let (right, rest) = first_part(rest)?;
    let sort = numeral(sort)?;
    let left = operand_of(left)?;
    let right = operand_of(right)?;
    Some((Content::Binary(op, sort, left, right), rest))
}

fn ite_args<'a>(rest: &'a [u8]) -> Option<(Content<'a>, &'a [u8])>
    ensures { option_map seen_read result ≡ ite_args (parts rest.now) }
{
    let (sort, rest) = first_part(rest)?;
    let (condition, rest) = first_part(rest)?;
    let (left, rest) = first_part(rest)?;
    let (right, rest) = first_part(rest)?;
    let sort = numeral(sort)?;
    let condition = operand_of(condition)?;
    let left = operand_of(left)?;
    let right = operand_of(right)?;
    Some((Content::Ite(sort, condition, left, right), rest))
}

fn slice_args<'a>(rest: &'a [u8]) -> Option<(Content<'a>, &'a [u8])>
    ensures { option_map seen_read result ≡ slice_args (parts rest.now) }
{
    let (sort, rest) = first_part(rest)?;
    let (operand, rest) = first_part(rest)?;
    let (high, rest) = first_part(rest)?;
    let (low, rest) = first_part(rest)?;
    let sort = numeral(sort)?;
    let operand = operand_of(operand)?;
    let high = numeral(high)?;
    let low = numeral(low)?;
    Some((Content::Slice(sort, operand, high, low), rest))
}

fn extension_args<'a>(kind: Extension, rest: &'a [u8]) -> Option<(Content<'a>, &'a [u8])>
    ensures { option_map seen_read result ≡ extension_args (seen_extension kind) (parts rest.now) }
{
    let (sort, rest) = first_part(rest)?;
    let (operand, rest) = first_part(rest)?;
    let (count, rest) = first_part(rest)?;
    let sort = numeral(sort)?;
    let operand = operand_of(operand)?;
    let count = numeral(count)?;
    Some((Content::Extension(kind, sort, operand, count), rest))
}

fn content_at<'a>(word: LineWord, rest: &'a [u8]) -> Option<(Content<'a>, &'a [u8])>
    ensures { option_map seen_read result ≡ content_at (parts rest.now) (seen_word word) }
{
    match word {
        LineWord::Sort => sort_args(rest),
        LineWord::Nullary(kind) => nullary_args(kind, rest),
        LineWord::Base(kind) => constant_args(kind, rest),
        LineWord::Binding(kind) => binding_args(kind, rest),
        LineWord::Property(kind) => property_args(kind, rest),
        LineWord::Unary(op) => unary_args(op, rest),
        LineWord::Binary(op) => binary_args(op, rest),
        LineWord::Ite => ite_args(rest),
        LineWord::Slice => slice_args(rest),
        LineWord::Extension(kind) => extension_args(kind, rest),
    }
}

// The content of a line whose name is none that is read.
fn unknown_content<'a>(text: &[u8]) -> Option<(Content<'a>, &'a [u8])>
    ensures { option_map seen_read result ≡ unknown_content text.now }
{
    if is_unsupported(text) {
        Some((Content::Unsupported, b""))
    } else {
        None
    }
}

/// Returns the content after the id, and the bytes after it.
fn content_of<'a>(rest: &'a [u8]) -> Option<(Content<'a>, &'a [u8])>
    ensures { option_map seen_read result ≡ content_of (parts rest.now) }
{
    let (text, rest) = first_part(rest)?;
    match word_of(text) {
        Some(word) => content_at(word, rest),
        None => unknown_content(text),
    }
}

// The shape with its symbol, if there is one, and nothing after it.
fn shaped<'a>(id: u32, content: Content<'a>, tail: &'a [u8]) -> Option<Shape<'a>>
    ensures { option_map seen_shape result ≡ shaped id (seen_content content.entry, parts tail.now) }
{
    match first_part(tail) {
        None => Some(Shape {
            id,
            content,
            symbol: None,
        }),
        Some((symbol, more)) => {
            if first_part(more).is_some() || !is_symbol(symbol) {
                return None;
            }
            Some(Shape {
                id,
                content,
                symbol: Some(symbol),
            })
        }
    }
}

/// Parses one line to its shape, or returns None where the line has none.
pub fn shape_of<'a>(line: &'a [u8]) -> Option<Shape<'a>>
    ensures { option_map seen_shape result ≡ shape_of (parts line.now) }
{
    let (id, rest) = first_part(line)?;
    let id = numeral(id)?;
    if id == 0 || id > GREATEST_ID {
        return None;
    }
    let (content, tail) = content_of(rest)?;
    shaped(id, content, tail)
}
