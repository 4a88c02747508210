// Checks and types of function calls.
ghost use Rattle.std.specs.Prelude.{◌≡◌, ◌-◌, ◌^◌, true, pos, [], map, Some, None, is_some, nat_lt, option_map, MatchResult};
ghost use Rattle.smv_text.specs.Tree.{trees_of};
ghost use Rattle.smv_text.specs.View.{plain};
ghost use Rattle.smv_text.specs.declared.operators.Function.TheVariants as OfFunction;
ghost use Rattle.smv_meaning.specs.Types.{integer_type, numbers_of};
ghost use Rattle.smv_meaning.specs.Checks.{all_types};
ghost use Rattle.smv_meaning.specs.Operators.{is_width};
ghost use Rattle.smv_intervals.specs.View.{seen};
ghost use Rattle.smv_intervals.specs.Limits.{FitsLimit};
ghost use Rattle.smv_types.specs.Outcome.{Answers, Ends, refusal_at};
ghost use Rattle.smv_types.specs.Steps.{call_step};

use crate::arguments::number_of;
use crate::ends::{CheckEnd, answered, check, refusal};
use crate::lists::{all_types, are_truths};
use smv_intervals::{Ty, abs_type, max_type, min_type, ordered_interval};
use smv_text::{Expr, Function};
use std::alloc::Global;
use text_core::kinds::smv;
use text_core::{Place, Refusal};
use word_core::WIDEST;

// The widest word whose values are all within the limit of integers.
const WIDEST_INTEGER: u32 = 62;

// The integer type, or the refusal S17 where its interval exceeds the limit.
fn bounded(place: Place, t: Option<Ty>) -> Result<Option<Ty>, Refusal>
    ensures { MatchResult result (λ o. (o ≡ t) × (is_some t ≡ true)) (λ why. (t ≡ None) × (why ≡ refusal_at 17 place)) }
{
    match t {
        Some(_) => Ok(t),
        None => Err(refusal(smv::INT_TOO_WIDE, place)),
    }
}

// `bool(w)`
fn truth_of_bit(place: Place, types: &[Ty]) -> Result<Option<Ty>, Refusal>
    ensures { Answers result (call_step place OfFunction.Bool (Some (map seen types.now)) []) }
{
    match types {
        [t] => {
            check(smv::TYPE_CLASH, place, t.is_word() && t.width() == 1)?;
            Ok(Some(Ty::Truth))
        }
        _ => Err(refusal(smv::TYPE_CLASH, place)),
    }
}

// `word1(b)`
fn bit_of_truth(place: Place, types: &[Ty]) -> Result<Option<Ty>, Refusal>
    ensures { Answers result (call_step place OfFunction.Word1 (Some (map seen types.now)) []) }
{
    match types {
        [t] => {
            check(smv::TYPE_CLASH, place, t.is_truth())?;
            Ok(Some(Ty::Bits(1)))
        }
        _ => Err(refusal(smv::TYPE_CLASH, place)),
    }
}

// The interval of the values of a word of this width.
fn word_numbers(width: u32) -> Option<Ty>
    ensures { FitsLimit result (integer_type (pos 0) (pos (2 ^ width - 1))) }
{
    if width <= WIDEST_INTEGER {
        Some(Ty::Integer(0, ((1u64 << width) - 1) as i64))
    } else {
        None
    }
}

// `toint(w)`
fn number_of_word(place: Place, types: &[Ty]) -> Result<Option<Ty>, Refusal>
    ensures { Answers result (call_step place OfFunction.Toint (Some (map seen types.now)) []) }
{
    match types {
        [t] => {
            check(smv::TYPE_CLASH, place, t.is_word())?;
            bounded(place, word_numbers(t.width()))
        }
        _ => Err(refusal(smv::TYPE_CLASH, place)),
    }
}

// Whether this is a valid width of a word.
fn is_width(n: u128) -> bool
    ensures { result ≡ is_width n }
{
    1 <= n && n <= WIDEST as u128
}

// `uwconst(v, n)`
fn word_of_numbers(place: Place, types: &[Ty], arguments: &[Expr]) -> Result<Option<Ty>, Refusal>
    ensures { Answers result (call_step place OfFunction.Uwconst (Some (map seen types.now)) (numbers_of (trees_of (map plain arguments.now)))) }
{
    check(smv::TYPE_CLASH, place, types.len() == 2)?;
    match arguments {
        [value, width] => match number_of(value) {
            Some(v) => match number_of(width) {
                Some(n) => {
                    check(
                        smv::BAD_SELECT,
                        place,
                        is_width(n as u128) && is_below(v, n),
                    )?;
                    Ok(Some(Ty::Bits(n as u32)))
                }
                None => Err(refusal(smv::BAD_SELECT, place)),
            },
            None => Err(refusal(smv::BAD_SELECT, place)),
        },
        [] => Err(refusal(smv::BAD_SELECT, place)),
        [_] => Err(refusal(smv::BAD_SELECT, place)),
        [_, _, _, ..] => Err(refusal(smv::BAD_SELECT, place)),
    }
}

// Whether v fits a word of n bits.
fn is_below(v: u64, n: u64) -> bool
    ensures { result ≡ nat_lt v (2 ^ n) }
{
    n >= u64::from(u64::BITS) || v < 1u64 << n
}

// `extend(w, n)`
fn extended(place: Place, types: &[Ty], arguments: &[Expr]) -> Result<Option<Ty>, Refusal>
    ensures { Answers result (call_step place OfFunction.Extend (Some (map seen types.now)) (numbers_of (trees_of (map plain arguments.now)))) }
{
    match types {
        [t, _] => {
            check(smv::TYPE_CLASH, place, t.is_word())?;
            match arguments {
                [_, count] => match number_of(count) {
                    Some(n) => {
                        let width = t.width() as u128 + n as u128;
                        check(smv::BAD_SELECT, place, is_width(width))?;
                        Ok(Some(Ty::Bits(width as u32)))
                    }
                    None => Err(refusal(smv::BAD_SELECT, place)),
                },
                [] => Err(refusal(smv::BAD_SELECT, place)),
                [_] => Err(refusal(smv::BAD_SELECT, place)),
                [_, _, _, ..] => Err(refusal(smv::BAD_SELECT, place)),
            }
        }
        _ => Err(refusal(smv::TYPE_CLASH, place)),
    }
}

// `resize(w, n)`
fn resized(place: Place, types: &[Ty], arguments: &[Expr]) -> Result<Option<Ty>, Refusal>
    ensures { Answers result (call_step place OfFunction.Resize (Some (map seen types.now)) (numbers_of (trees_of (map plain arguments.now)))) }
{
    match types {
        [t, _] => {
            check(smv::TYPE_CLASH, place, t.is_word())?;
            match arguments {
                [_, width] => match number_of(width) {
                    Some(n) => {
                        check(smv::BAD_SELECT, place, is_width(n as u128))?;
                        Ok(Some(Ty::Bits(n as u32)))
                    }
                    None => Err(refusal(smv::BAD_SELECT, place)),
                },
                [] => Err(refusal(smv::BAD_SELECT, place)),
                [_] => Err(refusal(smv::BAD_SELECT, place)),
                [_, _, _, ..] => Err(refusal(smv::BAD_SELECT, place)),
            }
        }
        _ => Err(refusal(smv::TYPE_CLASH, place)),
    }
}

// `count(b, ..)`
fn counted(place: Place, types: &[Ty]) -> Result<Option<Ty>, Refusal>
    ensures { Answers result (call_step place OfFunction.Count (Some (map seen types.now)) []) }
{
    check(
        smv::TYPE_CLASH,
        place,
        !types.is_empty() && are_truths(types),
    )?;
    bounded(place, ordered_interval(0, types.len() as i128))
}

// `max(a, b)`
fn greater(place: Place, types: &[Ty]) -> Result<Option<Ty>, Refusal>
    ensures { Answers result (call_step place OfFunction.Max (Some (map seen types.now)) []) }
{
    match types {
        [t, u] => {
            check(smv::TYPE_CLASH, place, t.is_integer() && u.is_integer())?;
            bounded(place, max_type(*t, *u))
        }
        [] => Err(refusal(smv::TYPE_CLASH, place)),
        [_] => Err(refusal(smv::TYPE_CLASH, place)),
        [_, _, _, ..] => Err(refusal(smv::TYPE_CLASH, place)),
    }
}

// `min(a, b)`
fn lesser(place: Place, types: &[Ty]) -> Result<Option<Ty>, Refusal>
    ensures { Answers result (call_step place OfFunction.Min (Some (map seen types.now)) []) }
{
    match types {
        [t, u] => {
            check(smv::TYPE_CLASH, place, t.is_integer() && u.is_integer())?;
            bounded(place, min_type(*t, *u))
        }
        [] => Err(refusal(smv::TYPE_CLASH, place)),
        [_] => Err(refusal(smv::TYPE_CLASH, place)),
        [_, _, _, ..] => Err(refusal(smv::TYPE_CLASH, place)),
    }
}

// `abs(a)`
fn absolute(place: Place, types: &[Ty]) -> Result<Option<Ty>, Refusal>
    ensures { Answers result (call_step place OfFunction.Abs (Some (map seen types.now)) []) }
{
    match types {
        [t] => {
            check(smv::TYPE_CLASH, place, t.is_integer())?;
            bounded(place, abs_type(*t))
        }
        _ => Err(refusal(smv::TYPE_CLASH, place)),
    }
}

// The checks and the type of a call whose arguments all have a type.
fn applied(
    place: Place,
    function: Function,
    types: &[Ty],
    arguments: &[Expr],
) -> Result<Option<Ty>, Refusal>
    ensures { Answers result (call_step place function (Some (map seen types.now)) (numbers_of (trees_of (map plain arguments.now)))) }
{
    match function {
        Function::Bool => truth_of_bit(place, types),
        Function::Word1 => bit_of_truth(place, types),
        Function::Toint => number_of_word(place, types),
        Function::Uwconst => word_of_numbers(place, types, arguments),
        Function::Extend => extended(place, types, arguments),
        Function::Resize => resized(place, types, arguments),
        Function::Count => counted(place, types),
        Function::Max => greater(place, types),
        Function::Min => lesser(place, types),
        Function::Abs => absolute(place, types),
    }
}

// The checks and the type of a call, given the types of its arguments, if all have one.
fn application(
    place: Place,
    function: Function,
    types: &Option<Vec<Ty>>,
    arguments: &[Expr],
) -> Result<Option<Ty>, Refusal>
    ensures { Answers result (call_step place function (option_map (λ v. map seen v.items) types.now) (numbers_of (trees_of (map plain arguments.now)))) }
{
    match types {
        None => Ok(None),
        Some(types) => applied(place, function, types, arguments),
    }
}

/// Returns the type of a call, or None where an argument has no type.
///
/// `types` are the types of the arguments. `Err` is the refusal of the call's own first failing check, or out of
/// memory.
pub fn check_call(
    alloc: Global,
    place: Place,
    function: Function,
    types: &[Option<Ty>],
    arguments: &[Expr],
) -> Result<Option<Ty>, CheckEnd>
    ensures { Ends result (call_step place function (all_types (map (option_map seen) types.now)) (numbers_of (trees_of (map plain arguments.now)))) }
{
    let types = all_types(alloc, types)?;
    answered(application(place, function, &types, arguments))
}
