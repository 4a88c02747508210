// Values of a trace.
ghost use Rattle.std.specs.Prelude.{◌≡◌, pos, option_map, option_and_then, IfOk};
ghost use Rattle.name_maps.specs.Names.{place_of};
ghost use Rattle.smv_intervals.specs.View.{seen};
ghost use Rattle.smv_text.specs.Numbers.{number_of, literal_of};
ghost use Rattle.smv_trace.specs.Values.{truth_of, negative_of, integer_of, symbol_at, value_of, word_as};
ghost use Rattle.smv_meaning.specs.declared.value.Value.TheVariants.{Truth, Integer};

use crate::table::Table;
use smv_intervals::Ty;
use smv_lex::literal_of;
use smv_meaning::Value;
use std::alloc::Global;
use text_core::{Name, NoMemory};
use word_core::{Word, read_digits};

fn truth_of(text: &[u8]) -> Option<Value>
    ensures { result ≡ option_map Truth (truth_of text.now) }
{
    if text == b"TRUE".as_slice() {
        Some(Value::Truth(true))
    } else if text == b"FALSE".as_slice() {
        Some(Value::Truth(false))
    } else {
        None
    }
}

// The integer that the digits after a `-` spell, at least -2^62.
fn negative_of(digits: &[u8]) -> Option<i64>
    ensures { result ≡ negative_of digits.now }
{
    let word = read_digits(63, 10, digits)?;
    let size = word.bits();
    if size > 1 << 62 {
        return None;
    }
    Some(-(size as i64))
}

// The integer that the digits spell, at most 2^62 - 1.
fn number_of(digits: &[u8]) -> Option<i64>
    ensures { result ≡ option_map pos (number_of digits.now) }
{
    let word = read_digits(62, 10, digits)?;
    Some(word.bits() as i64)
}

fn integer_of(text: &[u8]) -> Option<i64>
    ensures { result ≡ integer_of text.now }
{
    let (first, digits) = text.split_first()?;
    if *first == b'-' {
        negative_of(digits)
    } else {
        number_of(text)
    }
}

fn integer_value(text: &[u8]) -> Option<Value>
    ensures { result ≡ option_map Integer (integer_of text.now) }
{
    let number = integer_of(text)?;
    Some(Value::Integer(number))
}

fn symbol_of(alloc: Global, table: &Table, text: &[u8]) -> Result<Option<Value>, NoMemory>
    ensures { IfOk result (λ value. value ≡ symbol_at text.now (place_of table.now.symbols text.now)) }
{
    if !table.has_symbol(text) {
        return Ok(None);
    }
    Ok(Some(Value::Symbol(Name::of(alloc, text)?)))
}

fn word_as(width: u32, word: Word) -> Option<Value>
    ensures { result ≡ word_as width word }
{
    if word.width() == width {
        Some(Value::Bits(word))
    } else {
        None
    }
}

fn word_of(alloc: Global, width: u32, text: &[u8]) -> Result<Option<Value>, NoMemory>
    ensures { IfOk result (λ value. value ≡ option_and_then (word_as width) (literal_of text.now)) }
{
    match literal_of(alloc, text)? {
        Some(word) => Ok(word_as(width, word)),
        None => Ok(None),
    }
}

/// Parses the value of a variable of this type, or returns None where the text is not one.
///
/// A value is TRUE or FALSE, an integer from -2^62 to 2^62 - 1, a symbol of the model, or a word literal. A word
/// literal has the type's width. The value need not be in the type's range or enumeration.
pub fn value_of(
    alloc: Global,
    table: &Table,
    ty: Ty,
    text: &[u8],
) -> Result<Option<Value>, NoMemory>
    ensures { IfOk result (λ value. value ≡ value_of table.now.symbols (seen ty) text.now) }
{
    match ty {
        Ty::Truth => Ok(truth_of(text)),
        Ty::Integer(_, _) => Ok(integer_value(text)),
        Ty::Symbol => symbol_of(alloc, table, text),
        Ty::Bits(width) => word_of(alloc, width, text),
    }
}
