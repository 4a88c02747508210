// Result types of binary operators.
ghost use Rattle.std.specs.Prelude.{◌≡◌, true};
ghost use Rattle.smv_meaning.specs.Types.{infix_type_by, joins};
ghost use Rattle.smv_intervals.specs.View.{seen};
ghost use Rattle.smv_intervals.specs.Limits.{FitsLimit};

use crate::intervals::{
    difference_type, hull, product_type, quotient_type, rest_type, sum_type, type_within_limit,
};
use crate::types::Ty;
use smv_text::Infix;

/// Returns the result type of a binary operator, or None where its interval exceeds the limit (NuSMV 2.6 User Manual,
/// 2.2).
///
/// The operand types must fit the operator. `divisor` is the integer value of the right operand where it is a divisor.
#[inline(always)]
pub fn infix_type(op: Infix, t: Ty, u: Ty, divisor: Option<i128>) -> Option<Ty>
    requires { joins op (seen t) (seen u) ≡ true }
    ensures { FitsLimit result (infix_type_by op (seen t) (seen u) divisor) }
{
    match op {
        Infix::Equal
        | Infix::Unequal
        | Infix::Less
        | Infix::Greater
        | Infix::LessEq
        | Infix::GreaterEq
        | Infix::Member => Some(Ty::Truth),
        Infix::Union => type_within_limit(hull(t, u)),
        Infix::Plus => sum_type(t, u),
        Infix::Minus => difference_type(t, u),
        Infix::Times => product_type(t, u),
        Infix::Divide => quotient_type(t, divisor),
        Infix::Mod => rest_type(t, divisor),
        Infix::Concat => Some(Ty::Bits(t.width() + u.width())),
        // Logical operators and shifts.
        _ => type_within_limit(t),
    }
}
