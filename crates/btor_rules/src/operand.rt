// The operands of an operator line, and the outcome of a rule.
ghost use Rattle.std.specs.Prelude.{◌≡◌, ◌≤◌, ◌-◌};
ghost use Rattle.word_core.specs.declared.word.TheConstants.{WIDEST};
ghost use Rattle.btor_tree.specs.Sharing.{same_arg};
ghost use Rattle.btor_rules.specs.Rules as spec;

use btor_tree::Arg;
use word_core::{Unary, Word, unary};

/// An argument with the width of its word.
///
/// `constant` has the word where the argument is a constant, with the argument's sign applied.
#[derive(Drop)]
pub struct Operand {
    pub arg: Arg,
    pub width: u32,
    pub constant: Option<Word>,
}

/// The operands of a line.
#[derive(Drop)]
pub enum Operands {
    Empty,
    Single(Operand),
    Pair(Operand, Operand),
    Triple(Operand, Operand, Operand),
}

/// The outcome of the rules for an operator line: the line stays, is a constant, or is an argument with a sign.
#[derive(Drop)]
pub enum Outcome {
    Stays,
    Constant(Word),
    Argument(Arg),
}

/// Returns the bitwise not of an argument.
pub fn other_sign(a: &Arg) -> Arg
    ensures { result ≡ spec.other_sign a.now }
{
    Arg {
        line: a.line,
        negated: !a.negated,
    }
}

// Tests whether these are the same line with the same sign.
pub fn is_same(x: &Operand, y: &Operand) -> bool
    ensures { result ≡ same_arg x.now.arg y.now.arg }
{
    x.arg.line == y.arg.line && x.arg.negated == y.arg.negated
}

// Tests whether these are the same line with opposite signs.
pub fn is_opposite(x: &Operand, y: &Operand) -> bool
    ensures { result ≡ same_arg (spec.other_sign x.now.arg) y.now.arg }
{
    x.arg.line == y.arg.line && x.arg.negated != y.arg.negated
}

// Tests whether the operand is the constant of this number.
pub fn is_number(x: &Operand, number: u128) -> bool
    ensures { result ≡ spec.is_number number x.now }
{
    match x.constant {
        Some(word) => word.bits() == number,
        None => false,
    }
}

// Tests whether the operand is the constant of all ones.
pub fn is_ones(x: &Operand) -> bool
    ensures { result ≡ spec.is_ones x.now }
{
    match x.constant {
        Some(word) => unary(Unary::Not, word).bits() == 0,
        None => false,
    }
}

// Returns the word of a width and bits that fit.
fn word_of(width: u32, bits: u128) -> Word
    requires { spec.IsSpelled width bits }
    ensures { result ≡ record { width = width; bits = bits } }
{
    Word::of(width, bits).unwrap()
}

// Returns the constant of all zeros.
pub fn zeros(width: u32) -> Outcome
    requires least { 1 ≤ width }
    requires most { width ≤ WIDEST }
    ensures { result ≡ spec.zeros width }
{
    Outcome::Constant(word_of(width, 0))
}

// Returns the constant of all ones.
pub fn ones(width: u32) -> Outcome
    requires least { 1 ≤ width }
    requires most { width ≤ WIDEST }
    ensures { result ≡ spec.ones width }
{
    Outcome::Constant(unary(Unary::Not, word_of(width, 0)))
}

// Returns the constant of one bit.
pub fn one_bit(bit: bool) -> Outcome
    ensures { result ≡ spec.one_bit bit }
{
    Outcome::Constant(word_of(1, u128::from(bit)))
}
