// Values that borrow their symbols, so that evaluation copies no names.
ghost use Rattle.std.specs.Prelude.{◌≡◌, ◌<◌, IfOk};
ghost use Rattle.smv_meaning.specs.Values.{is_true, value_same, no_value};
ghost use Rattle.smv_operators.specs.View.{seen_value};

use smv_meaning::Value;
use std::alloc::Global;
use text_core::{Name, NoMemory};
use word_core::Word;

/// A value that borrows its symbol.
#[derive(Drop)]
pub enum Seen<'a> {
    Truth(bool),
    Integer(i64),
    Symbol(&'a [u8]),
    Bits(Word),
}

/// Returns the stand-in for a missing value.
pub fn no_seen<'a>() -> Seen<'a>
    ensures { seen_value result ≡ no_value }
{
    Seen::Truth(false)
}

/// Borrows a value.
pub fn borrow_value<'a>(value: &'a Value) -> Seen<'a>
    ensures { seen_value result ≡ value.now }
{
    match value {
        Value::Truth(b) => Seen::Truth(*b),
        Value::Integer(z) => Seen::Integer(*z),
        Value::Symbol(s) => Seen::Symbol(s.bytes()),
        Value::Bits(w) => Seen::Bits(*w),
    }
}

/// Copies a value; the copy borrows the same symbol.
pub fn copy_value<'a>(value: &Seen<'a>) -> Seen<'a>
    ensures { result ≡ value.now }
{
    match value {
        Seen::Truth(b) => Seen::Truth(*b),
        Seen::Integer(z) => Seen::Integer(*z),
        Seen::Symbol(s) => Seen::Symbol(*s),
        Seen::Bits(w) => Seen::Bits(*w),
    }
}

/// Converts the value to one that owns its symbol.
pub fn into_value(alloc: Global, value: Seen) -> Result<Value, NoMemory>
    ensures { IfOk result (λ v. v ≡ seen_value value.entry) }
{
    match value {
        Seen::Truth(b) => Ok(Value::Truth(b)),
        Seen::Integer(z) => Ok(Value::Integer(z)),
        Seen::Symbol(s) => Ok(Value::Symbol(Name::of(alloc, s)?)),
        Seen::Bits(w) => Ok(Value::Bits(w)),
    }
}

/// Returns whether the value is TRUE.
pub fn truth_of(value: &Seen) -> bool
    ensures { result ≡ is_true (seen_value value.now) }
{
    match value {
        Seen::Truth(b) => *b,
        Seen::Integer(_) => false,
        Seen::Symbol(_) => false,
        Seen::Bits(_word) => false,
    }
}

/// Returns whether two values are equal.
pub fn are_same(a: &Seen, b: &Seen) -> bool
    ensures { result ≡ value_same (seen_value a.now) (seen_value b.now) }
{
    match a {
        Seen::Truth(x) => match b {
            Seen::Truth(y) => x == y,
            _ => false,
        },
        Seen::Integer(x) => match b {
            Seen::Integer(y) => x <= y && y <= x,
            _ => false,
        },
        Seen::Symbol(x) => match b {
            Seen::Symbol(y) => *x == *y,
            _ => false,
        },
        Seen::Bits(x) => match b {
            Seen::Bits(y) => x.width() == y.width() && x.bits() == y.bits(),
            _ => false,
        },
    }
}
