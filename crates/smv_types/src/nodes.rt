// Checks and types of single nodes, given the types of their operands.
ghost use Rattle.std.specs.Prelude.{◌≡◌, Some, option_map};
ghost use Rattle.smv_meaning.specs.Types.{prefix_fits, prefix_type};
ghost use Rattle.smv_intervals.specs.View.{seen};
ghost use Rattle.smv_types.specs.View.{named_seen, permissions_seen};
ghost use Rattle.smv_intervals.specs.Limits.{FitsLimit};
ghost use Rattle.smv_types.specs.Outcome.{Answers};
ghost use Rattle.smv_types.specs.Steps.{number_step, name_step, prefix_step, select_step, next_step, range_step};

use crate::ends::{check, refusal};
use crate::names::Named;
use crate::positions::Permissions;
use smv_intervals::{
    Ty, interval_within_limit, negation_type, ordered_interval, type_within_limit,
};
use smv_text::Prefix;
use text_core::kinds::smv;
use text_core::{Place, Refusal};

/// Returns the type of a number.
///
/// `Err` is the refusal of its first failing check.
pub fn number(place: Place, n: u64) -> Result<Option<Ty>, Refusal>
    ensures { Answers result (number_step place n) }
{
    match ordered_interval(n as i128, n as i128) {
        Some(t) => Ok(Some(t)),
        None => Err(refusal(smv::INT_TOO_WIDE, place)),
    }
}

/// Returns the type of a name, or None where it has none, given the name's properties.
///
/// `Err` is the refusal of its first failing check.
pub fn name(place: Place, at: Permissions, named: Named) -> Result<Option<Ty>, Refusal>
    ensures { Answers result (name_step place (permissions_seen at) (named_seen named)) }
{
    check(smv::TYPE_CLASH, place, !named.is_instance)?;
    check(smv::INPUT_HERE, place, at.inputs || !named.reaches_input)?;
    Ok(named.ty)
}

// Whether the prefix operator fits the type.
fn sign_fits(sign: Prefix, t: Ty) -> bool
    ensures { result ≡ prefix_fits sign (seen t) }
{
    match sign {
        Prefix::Not => t.is_truth() || t.is_word(),
        Prefix::Minus => t.is_integer() || t.is_word(),
    }
}

fn signed_type(sign: Prefix, count: u32, t: Ty) -> Option<Ty>
    ensures { FitsLimit result (prefix_type sign count (seen t)) }
{
    match sign {
        Prefix::Not => type_within_limit(t),
        Prefix::Minus => {
            if count % 2 == 1 {
                negation_type(t)
            } else {
                type_within_limit(t)
            }
        }
    }
}

/// Returns the type of an operand after `count` repetitions of a prefix operator, or None where the operand has no
/// type.
///
/// `Err` is the refusal of the node's own first failing check.
pub fn check_sign(
    place: Place,
    sign: Prefix,
    count: u32,
    operand: Option<Ty>,
) -> Result<Option<Ty>, Refusal>
    ensures { Answers result (prefix_step place sign count (option_map seen operand)) }
{
    match operand {
        None => Ok(None),
        Some(t) => {
            check(smv::TYPE_CLASH, place, sign_fits(sign, t))?;
            match signed_type(sign, count, t) {
                Some(whole) => Ok(Some(whole)),
                None => Err(refusal(smv::INT_TOO_WIDE, place)),
            }
        }
    }
}

/// Returns the type of a bit selection from the high to the low end, or None where the operand has no type.
///
/// `Err` is the refusal of the node's own first failing check.
pub fn check_selection(
    place: Place,
    operand: Option<Ty>,
    high: u64,
    low: u64,
) -> Result<Option<Ty>, Refusal>
    ensures { Answers result (select_step place high low (option_map seen operand)) }
{
    match operand {
        None => Ok(None),
        Some(t) => {
            check(smv::TYPE_CLASH, place, t.is_word())?;
            check(
                smv::BAD_SELECT,
                place,
                high < t.width() as u64 && low <= high,
            )?;
            Ok(Some(Ty::Bits((high - low + 1) as u32)))
        }
    }
}

/// Returns the type of `next`, given the type of its operand.
///
/// `Err` is the refusal where `next` is not allowed here.
pub fn check_next(place: Place, at: Permissions, operand: Option<Ty>) -> Result<Option<Ty>, Refusal>
    ensures { Answers result (next_step place (permissions_seen at) (option_map seen operand)) }
{
    check(smv::NEXT_HERE, place, at.nexts)?;
    Ok(operand)
}

/// Returns the type of a range in a set.
///
/// `Err` is the refusal of its first failing check.
pub fn check_range(
    place: Place,
    at: Permissions,
    low: i64,
    high: i64,
) -> Result<Option<Ty>, Refusal>
    ensures { Answers result (range_step place (permissions_seen at) low high) }
{
    match interval_within_limit(low, high) {
        None => Err(refusal(smv::INT_TOO_WIDE, place)),
        Some(t) => {
            check(smv::SET_HERE, place, at.sets)?;
            check(smv::EMPTY_RANGE, place, low <= high)?;
            Ok(Some(t))
        }
    }
}
