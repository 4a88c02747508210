// The operators on words.
ghost use Rattle.std.specs.Prelude.{◌≡◌, ◌<◌, ◌≤◌, ◌+◌, ◌^◌};
ghost use Rattle.word_core.specs.Table.{BinaryFits, binary_of, binary_width, gives_one_bit, ite_of, sext_of, slice_of, uext_of, unary_of, unary_width};

use crate::kinds::{Binary, Unary};
use crate::numbers::{binary_number, is_minus, ones, reduced, unary_number};
use crate::word::{WIDEST, Word, made_word};

/// Returns the result of the operator, by its row in the table of operators.
pub fn unary(op: Unary, a: Word) -> Word
    ensures { result ≡ unary_of op a }
{
    let width = unary_width(op, a.width());
    let number = unary_number(op, a.width(), a.bits());
    made_word(width, number)
}

/// Returns the width of the operator's result, for an argument of this width.
pub fn unary_width(op: Unary, width: u32) -> u32
    ensures { result ≡ unary_width op width }
{
    match op {
        Unary::RedAnd | Unary::RedOr | Unary::RedXor => 1,
        _ => width,
    }
}

/// Returns the result of the operator, by its row in the table of operators.
///
/// The caller ensures that the widths are those that the operator takes.
pub fn binary(op: Binary, a: Word, b: Word) -> Word
    requires { BinaryFits op a.width b.width }
    ensures { result ≡ binary_of op a b }
{
    let width = binary_width(op, a.width(), b.width());
    let number = binary_number(op, a.width(), b.width(), a.bits(), b.bits());
    made_word(width, number)
}

/// Returns whether the operator's result is one bit, whatever the widths of its arguments.
pub fn gives_one_bit(op: Binary) -> bool
    ensures { result ≡ gives_one_bit op }
{
    match op {
        Binary::Iff
        | Binary::Implies
        | Binary::Eq
        | Binary::Neq
        | Binary::Sgt
        | Binary::Sgte
        | Binary::Slt
        | Binary::Slte
        | Binary::Ugt
        | Binary::Ugte
        | Binary::Ult
        | Binary::Ulte => true,
        _ => false,
    }
}

/// Returns the width of the operator's result, for arguments of these widths.
pub fn binary_width(op: Binary, v: u32, w: u32) -> u32
    requires { v + w < 2 ^ 32 }
    ensures { result ≡ binary_width op v w }
{
    match op {
        Binary::Concat => v + w,
        _ => { if gives_one_bit(op) { 1 } else { v } }
    }
}

/// Returns `a` where the one-bit condition `c` is 1, else `b`.
///
/// The caller ensures that `a` and `b` have the same width.
pub fn ite(c: Word, a: Word, b: Word) -> Word
    requires condition { c.width ≡ 1 }
    requires widths { a.width ≡ b.width }
    ensures { result ≡ ite_of c a b }
{
    if c.bits() == 1 { a } else { b }
}

/// Returns the bits of the word from bit `high` down to bit `low`.
pub fn slice(a: Word, high: u32, low: u32) -> Word
    requires order { low ≤ high }
    requires within { high < a.width }
    ensures { result ≡ slice_of a high low }
{
    let _width = a.width();
    let width = high - low + 1;
    made_word(width, reduced(width, a.bits() >> low))
}

/// Returns the word extended by `count` zeros at the high end.
pub fn uext(a: Word, count: u32) -> Word
    requires { a.width + count ≤ WIDEST }
    ensures { result ≡ uext_of a count }
{
    made_word(a.width() + count, a.bits())
}

/// Returns the word extended by `count` copies of its sign bit at the high end.
pub fn sext(a: Word, count: u32) -> Word
    requires { a.width + count ≤ WIDEST }
    ensures { result ≡ sext_of a count }
{
    let width = a.width() + count;
    if is_minus(a.width(), a.bits()) {
        made_word(width, a.bits() + (ones(width) - ones(a.width())))
    } else {
        made_word(width, a.bits())
    }
}
