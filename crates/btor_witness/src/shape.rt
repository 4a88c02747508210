// The shape of one line of a witness by itself.
ghost use Rattle.std.specs.Prelude.{◌≡◌, ◌≤◌, ◌+◌, ◌-◌, ◌*◌, min, Some, IfSome};
ghost use Rattle.btor_tree.specs.Parts.{cap, parts};
ghost use Rattle.btor_tree.specs.Parts as spec;
ghost use Rattle.btor_witness.specs.Bytes.{IsNumberFront};
ghost use Rattle.btor_witness.specs.Shapes.{number_shape, single_shape, assignment_shape, shape_of, is_passed, marked};

use crate::bytes::{all_binary, word_of};
use btor_tree::{first_part, numeral};
use text_core::is_digit;
use word_core::Word;

/// The shape of a line of a witness.
///
/// A line is `sat`, `.`, one of `b`, `j`, `#` and `@` with a number, or a number and binary digits. The word of an
/// assignment is None where there are more digits than the widest word has.
#[derive(Drop)]
pub enum Shape {
    Sat,
    Property(u32),
    Justice(u32),
    States(u32),
    Inputs(u32),
    End,
    Assignment(u32, Option<Word>),
}

/// Returns the shape of a line that is a mark and a number, or None for an unknown mark.
pub fn marked_shape(mark: u8, number: u32) -> Option<Shape>
    ensures { result ≡ marked mark number }
{
    match mark {
        b'b' => Some(Shape::Property(number)),
        b'j' => Some(Shape::Justice(number)),
        b'#' => Some(Shape::States(number)),
        b'@' => Some(Shape::Inputs(number)),
        _ => None,
    }
}

fn number_shape(part: &[u8]) -> Option<Shape>
    ensures { result ≡ number_shape part.now }
{
    let (mark, digits) = part.split_first()?;
    let number = numeral(digits)?;
    marked_shape(*mark, number)
}

fn single_shape(part: &[u8]) -> Option<Shape>
    ensures { result ≡ single_shape part.now }
{
    if part == b"sat".as_slice() {
        Some(Shape::Sat)
    } else if part == b".".as_slice() {
        Some(Shape::End)
    } else {
        number_shape(part)
    }
}

fn assignment_shape(index: &[u8], digits: &[u8]) -> Option<Shape>
    ensures { result ≡ assignment_shape (spec.numeral index.now) digits.now }
{
    let index = numeral(index)?;
    if digits.is_empty() || !all_binary(digits) {
        return None;
    }
    Some(Shape::Assignment(index, word_of(digits)))
}

// A number, up to 2^31, with one digit more.
fn with_digit(number: u32, digit: u8) -> u32
    requires low { 48 ≤ digit }
    requires high { digit ≤ 57 }
    ensures { result ≡ min (10 * number + (digit - 48)) cap }
{
    let next = 10 * u64::from(number) + u64::from(digit - b'0');
    next.min(1 << 31) as u32
}

// The number that the digits at the front of a line spell, and the bytes behind them.
fn number_front(line: &[u8]) -> (u32, &[u8])
    ensures { IsNumberFront line.now result.0 result.1.now }
{
    let mut number = 0;
    let mut rest = line;
    while let Some((b, more)) = rest.split_first() {
        if !is_digit(*b) {
            return (number, rest);
        }
        number = with_digit(number, *b);
        rest = more;
    }
    (number, rest)
}

// The shape of a line that is a number, a blank and binary digits, as most lines are: each byte is read once or twice.
fn statement_shape(line: &[u8]) -> Option<Shape>
    ensures { IfSome result (λ shape. shape_of (parts line.now) ≡ Some shape) }
{
    let (index, rest) = number_front(line);
    let (blank, digits) = rest.split_first()?;
    if *blank != b' ' || rest.len() == line.len() || digits.is_empty() || !all_binary(digits) {
        return None;
    }
    Some(Shape::Assignment(index, word_of(digits)))
}

/// Returns the shape of a line, or None where it has none.
pub fn shape_of(line: &[u8]) -> Option<Shape>
    ensures { result ≡ shape_of (parts line.now) }
{
    let statement = statement_shape(line);
    if statement.is_some() {
        return statement;
    }
    parted_shape(line)
}

// The same of any line, part by part.
fn parted_shape(line: &[u8]) -> Option<Shape>
    ensures { result ≡ shape_of (parts line.now) }
{
    let (first, rest) = first_part(line)?;
    let Some((second, rest)) = first_part(rest) else {
        return single_shape(first)
    };
    let Some((_, rest)) = first_part(rest) else {
        return assignment_shape(first, second)
    };
    if first_part(rest).is_some() {
        return None;
    }
    assignment_shape(first, second)
}

/// Returns whether a line is skipped: blank lines, and lines that begin with `;`.
pub fn is_passed(line: &[u8]) -> bool
    ensures { result ≡ is_passed (parts line.now) }
{
    match first_part(line) {
        Some((part, _)) => part.first() == Some(&b';'),
        None => true,
    }
}
