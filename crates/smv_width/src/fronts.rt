// Intervals of the prefixes of a left-associative chain. A prefix whose interval exceeds the limit of integers counts
// nothing.
ghost use Rattle.std.specs.Prelude.{◌≡◌, option_map};
ghost use Rattle.smv_meaning.specs.Types.{ExprType, infix_type_by};
ghost use Rattle.smv_intervals.specs.View.{seen};
ghost use Rattle.smv_intervals.specs.Limits.{FitsLimit};
ghost use Rattle.smv_flat.specs.FlatView.{plain_flat};
ghost use Rattle.smv_flat.specs.FlatWidth.{integer_within, front_by, flat_number_of, flat_divisor};

use smv_flat::{FlatExpr, FlatShape};
use smv_intervals::{Ty, infix_type};
use smv_text::{Infix, Prefix};

// The type, if it is an integer type.
fn integer(t: Option<Ty>) -> Option<Ty>
    ensures { (is : ExprType) → FitsLimit t is → option_map seen result ≡ integer_within is }
{
    match t {
        Some(Ty::Integer(_, _)) => t,
        Some(Ty::Truth | Ty::Symbol | Ty::Bits(_)) | None => None,
    }
}

fn joined(op: Infix, t: Ty, u: Ty, divisor: Option<i128>) -> Option<Ty>
    ensures { option_map seen result ≡ integer_within (infix_type_by op (seen t) (seen u) divisor) }
{
    match op {
        // Concatenations, which may be too wide here.
        Infix::Concat => None,
        _ => integer(infix_type(op, t, u, divisor)),
    }
}

/// Returns the type of a chain's prefix that ends with this operand.
///
/// `left` is the type of the part before the operator, `right` that of the operand, and `divisor` the operand's value
/// where it is a divisor. None is a type that is no integer type, or an interval that exceeds the limit.
pub(crate) fn front(
    op: Infix,
    left: Option<Ty>,
    right: Option<Ty>,
    divisor: Option<i128>,
) -> Option<Ty>
    ensures { option_map seen result ≡ front_by op (option_map seen left) (option_map seen right) divisor }
{
    match left {
        None => None,
        Some(t) => match right {
            None => None,
            Some(u) => joined(op, t, u, divisor),
        },
    }
}

fn number_of(expr: &FlatExpr) -> Option<u64>
    ensures { result ≡ flat_number_of (plain_flat expr.now) }
{
    match &expr.shape {
        FlatShape::Number(n) => Some(*n),
        _ => None,
    }
}

/// Returns the integer of a divisor: a number, or one `-` and a number. None is any other expression.
pub(crate) fn divisor_of(expr: &FlatExpr) -> Option<i128>
    ensures { result ≡ flat_divisor (plain_flat expr.now) }
{
    match &expr.shape {
        FlatShape::Number(n) => Some(*n as i128),
        FlatShape::Prefix(Prefix::Minus, 1, operand) => match number_of(operand) {
            Some(n) => Some(-(n as i128)),
            None => None,
        },
        _ => None,
    }
}
