// Operands that must be written numbers: divisors, shift amounts and widths.
ghost use Rattle.std.specs.Prelude.{◌≡◌};
ghost use Rattle.smv_text.specs.View.{plain};
ghost use Rattle.smv_meaning.specs.Types.{divisor_of, is_divisor, number_of};

use smv_text::{Expr, Prefix, Shape};

// The integer of a divisor: a number, or one `-` and a number.
pub(crate) fn divisor_of(expr: &Expr) -> Option<i128>
    ensures { result ≡ divisor_of (plain expr.now) }
{
    match &expr.shape {
        Shape::Number(n) => Some(*n as i128),
        Shape::Prefix(Prefix::Minus, 1, operand) => match number_of(operand) {
            Some(n) => Some(-(n as i128)),
            None => None,
        },
        _ => None,
    }
}

// The number that is written as an amount, a width or an argument.
pub(crate) fn number_of(expr: &Expr) -> Option<u64>
    ensures { result ≡ number_of (plain expr.now) }
{
    match &expr.shape {
        Shape::Number(n) => Some(*n),
        _ => None,
    }
}

// Whether it is a nonzero number, one `-` and a nonzero number, or a nonzero word literal.
pub(crate) fn is_divisor(expr: &Expr) -> bool
    ensures { result ≡ is_divisor (plain expr.now) }
{
    match &expr.shape {
        Shape::Literal(word) => word.bits() != 0,
        _ => match divisor_of(expr) {
            Some(divisor) => divisor != 0,
            None => false,
        },
    }
}
