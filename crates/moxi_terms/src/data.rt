// Sorts, values and operators.

use word_core::{Binary, Unary, Word};

/// The sort of a term: truth values, bit vectors of a width from 1 to `WIDEST`, or the enumeration with this number (MoXI,
/// SPIN 2024; SMT-LIB 2.6, section 3.5).
#[derive(Clone, Copy, PartialEq, Eq)]
pub enum Sort {
    Truth,
    Bits(u32),
    Choice(u32),
}

/// A value.
///
/// `Constant(n, i)` is constant number i of enumeration number n, both counted from 0.
#[derive(Clone, Copy)]
pub enum Datum {
    Truth(bool),
    Bits(Word),
    Constant(u32, u32),
}

/// Whether variables may be primed.
#[derive(Clone, Copy, PartialEq, Eq)]
pub enum Primes {
    Allowed,
    Refused,
}

/// An operator (SMT-LIB 2.6, theories Core and FixedSizeBitVectors).
///
/// `Extract` holds its high and its low index. `BvUnary` is used with `Not` and `Neg` only, and `BvBinary` with the
/// theory's operators only.
#[derive(Clone, Copy, PartialEq, Eq)]
pub enum TermOp {
    Not,
    And,
    Or,
    Xor,
    Implies,
    Equal,
    Distinct,
    Ite,
    Concat,
    Extract(u32, u32),
    ZeroExtend(u32),
    SignExtend(u32),
    BvUnary(Unary),
    BvBinary(Binary),
}
