// Intervals of integers. Each bound is computed in 128 bits and tested against the limit before it is stored in 64.
ghost use Rattle.std.specs.Prelude.{◌≡◌, ◌≤◌, ◌<◌, ◌≤ℤ◌, ◌^◌, ◌-◌, ◌+ℤ◌, ◌-ℤ◌, ◌*ℤ◌, neg_ℤ, int_div, unsigned_abs, Option, None, Some};
ghost use Rattle.std.specs.Int.{int_min, int_max};
ghost use Rattle.smv_meaning.specs.Operators.{int_abs};
ghost use Rattle.smv_meaning.specs.Types.{integer_type, hull, over_ends, over_both_ends, abs_type, quotient_type, rest_type, rest_low, rest_high};
ghost use Rattle.smv_intervals.specs.View.{seen};
ghost use Rattle.smv_intervals.specs.Limits.{FitsLimit};

use crate::types::Ty;

/// The least integer that an interval may contain, -2^62.
const LEAST: i64 = -4_611_686_018_427_387_904;

/// The greatest integer that an interval may contain, 2^62 - 1.
const GREATEST: i64 = 4_611_686_018_427_387_903;

/// Returns the integer type with these bounds, or None where they exceed the limit.
pub fn interval_within_limit(low: i64, high: i64) -> Option<Ty>
    ensures { FitsLimit result (integer_type low high) }
{
    if LEAST <= low && high <= GREATEST {
        Some(Ty::Integer(low, high))
    } else {
        None
    }
}

/// Returns the integer type with these bounds, or None where they exceed the limit.
///
/// The bounds have 128 bits and must be in order.
pub fn ordered_interval(low: i128, high: i128) -> Option<Ty>
    requires { low ≤ℤ high }
    ensures { FitsLimit result (integer_type low high) }
{
    if LEAST as i128 <= low && high <= GREATEST as i128 {
        Some(Ty::Integer(low as i64, high as i64))
    } else {
        None
    }
}

// The interval from the lesser to the greater of two results.
fn over_two(a: i128, b: i128) -> Option<Ty>
    ensures { FitsLimit result (integer_type (int_min a b) (int_max a b)) }
{
    ordered_interval(a.min(b), a.max(b))
}

fn least(a: i128, b: i128, c: i128, d: i128) -> i128
    ensures value { result ≡ int_min (int_min a b) (int_min c d) }
    ensures bound { result ≤ℤ a }
{
    let first = a.min(b);
    first.min(c.min(d))
}

fn greatest(a: i128, b: i128, c: i128, d: i128) -> i128
    ensures value { result ≡ int_max (int_max a b) (int_max c d) }
    ensures bound { a ≤ℤ result }
{
    let first = a.max(b);
    first.max(c.max(d))
}

// The interval from the least to the greatest of four results.
fn over_four(a: i128, b: i128, c: i128, d: i128) -> Option<Ty>
    ensures { FitsLimit result (integer_type (int_min (int_min a b) (int_min c d)) (int_max (int_max a b) (int_max c d))) }
{
    ordered_interval(least(a, b, c, d), greatest(a, b, c, d))
}

/// Returns the type unchanged, or None where its interval exceeds the limit.
pub fn type_within_limit(t: Ty) -> Option<Ty>
    ensures { FitsLimit result (seen t) }
{
    match t {
        Ty::Integer(low, high) => interval_within_limit(low, high),
        Ty::Truth | Ty::Symbol | Ty::Bits(_) => Some(t),
    }
}

/// Returns the smallest type that contains both types.
///
/// For types other than two integer types, returns the first.
pub fn hull(t: Ty, u: Ty) -> Ty
    ensures { seen result ≡ hull (seen t) (seen u) }
{
    match t {
        Ty::Integer(low, high) => match u {
            Ty::Integer(less, more) => Ty::Integer(low.min(less), high.max(more)),
            Ty::Truth | Ty::Symbol | Ty::Bits(_) => t,
        },
        Ty::Truth | Ty::Symbol | Ty::Bits(_) => t,
    }
}

fn sum(a: i64, b: i64) -> i128
    ensures { result ≡ a +ℤ b }
{
    a as i128 + b as i128
}

fn difference(a: i64, b: i64) -> i128
    ensures { result ≡ a -ℤ b }
{
    a as i128 - b as i128
}

fn product(a: i64, b: i64) -> i128
    ensures { result ≡ a *ℤ b }
{
    a as i128 * b as i128
}

fn negated(a: i64) -> i128
    ensures { result ≡ neg_ℤ a }
{
    -(a as i128)
}

fn magnitude(a: i64) -> i128
    ensures { result ≡ int_abs a }
{
    if a < 0 { negated(a) } else { a as i128 }
}

fn larger(a: i64, b: i64) -> i128
    ensures { result ≡ int_max a b }
{
    a.max(b) as i128
}

fn smaller(a: i64, b: i64) -> i128
    ensures { result ≡ int_min a b }
{
    a.min(b) as i128
}

/// Returns the type of `+`, or None where its interval exceeds the limit.
pub fn sum_type(t: Ty, u: Ty) -> Option<Ty>
    ensures { FitsLimit result (over_both_ends (λ a b. a +ℤ b) (seen t) (seen u)) }
{
    match t {
        Ty::Integer(low, high) => match u {
            Ty::Integer(less, more) => over_four(
                sum(low, less),
                sum(low, more),
                sum(high, less),
                sum(high, more),
            ),
            Ty::Truth | Ty::Symbol | Ty::Bits(_) => interval_within_limit(low, high),
        },
        Ty::Truth | Ty::Symbol | Ty::Bits(_) => Some(t),
    }
}

/// Returns the type of binary `-`, or None where its interval exceeds the limit.
pub fn difference_type(t: Ty, u: Ty) -> Option<Ty>
    ensures { FitsLimit result (over_both_ends (λ a b. a -ℤ b) (seen t) (seen u)) }
{
    match t {
        Ty::Integer(low, high) => match u {
            Ty::Integer(less, more) => over_four(
                difference(low, less),
                difference(low, more),
                difference(high, less),
                difference(high, more),
            ),
            Ty::Truth | Ty::Symbol | Ty::Bits(_) => interval_within_limit(low, high),
        },
        Ty::Truth | Ty::Symbol | Ty::Bits(_) => Some(t),
    }
}

/// Returns the type of `*`, or None where its interval exceeds the limit.
pub fn product_type(t: Ty, u: Ty) -> Option<Ty>
    ensures { FitsLimit result (over_both_ends (λ a b. a *ℤ b) (seen t) (seen u)) }
{
    match t {
        Ty::Integer(low, high) => match u {
            Ty::Integer(less, more) => over_four(
                product(low, less),
                product(low, more),
                product(high, less),
                product(high, more),
            ),
            Ty::Truth | Ty::Symbol | Ty::Bits(_) => interval_within_limit(low, high),
        },
        Ty::Truth | Ty::Symbol | Ty::Bits(_) => Some(t),
    }
}

/// Returns the type of `max`, or None where its interval exceeds the limit.
pub fn max_type(t: Ty, u: Ty) -> Option<Ty>
    ensures { FitsLimit result (over_both_ends int_max (seen t) (seen u)) }
{
    match t {
        Ty::Integer(low, high) => match u {
            Ty::Integer(less, more) => over_four(
                larger(low, less),
                larger(low, more),
                larger(high, less),
                larger(high, more),
            ),
            Ty::Truth | Ty::Symbol | Ty::Bits(_) => interval_within_limit(low, high),
        },
        Ty::Truth | Ty::Symbol | Ty::Bits(_) => Some(t),
    }
}

/// Returns the type of `min`, or None where its interval exceeds the limit.
pub fn min_type(t: Ty, u: Ty) -> Option<Ty>
    ensures { FitsLimit result (over_both_ends int_min (seen t) (seen u)) }
{
    match t {
        Ty::Integer(low, high) => match u {
            Ty::Integer(less, more) => over_four(
                smaller(low, less),
                smaller(low, more),
                smaller(high, less),
                smaller(high, more),
            ),
            Ty::Truth | Ty::Symbol | Ty::Bits(_) => interval_within_limit(low, high),
        },
        Ty::Truth | Ty::Symbol | Ty::Bits(_) => Some(t),
    }
}

/// Returns the type of unary `-`, or None where its interval exceeds the limit.
pub fn negation_type(t: Ty) -> Option<Ty>
    ensures { FitsLimit result (over_ends neg_ℤ (seen t)) }
{
    match t {
        Ty::Integer(low, high) => over_two(negated(low), negated(high)),
        Ty::Truth | Ty::Symbol | Ty::Bits(_) => Some(t),
    }
}

/// Returns the type of `abs`, or None where its interval exceeds the limit.
///
/// For an interval with 0 inside, the least absolute value is 0.
pub fn abs_type(t: Ty) -> Option<Ty>
    ensures { FitsLimit result (abs_type (seen t)) }
{
    match t {
        Ty::Integer(low, high) => {
            if low < 0 && 0 < high {
                ordered_interval(0, magnitude(low).max(magnitude(high)))
            } else {
                over_two(magnitude(low), magnitude(high))
            }
        }
        Ty::Truth | Ty::Symbol | Ty::Bits(_) => Some(t),
    }
}

// Division truncates toward zero. Division by 0, which the checks exclude, returns 0.
fn quotient(a: i64, b: i128) -> i128
    ensures { result ≡ int_div a b }
{
    if b == 0 { 0 } else { a as i128 / b }
}

/// Returns the type of `/`, or None where its interval exceeds the limit.
///
/// `divisor` is the integer value of the right operand.
pub fn quotient_type(t: Ty, divisor: Option<i128>) -> Option<Ty>
    ensures { FitsLimit result (quotient_type (seen t) divisor) }
{
    match divisor {
        None => type_within_limit(t),
        Some(b) => match t {
            Ty::Integer(low, high) => over_two(quotient(low, b), quotient(high, b)),
            Ty::Truth | Ty::Symbol | Ty::Bits(_) => Some(t),
        },
    }
}

// The low bound of a remainder: it has the dividend's sign, and its absolute value is less than the divisor's and at
// most the dividend's.
fn lowest_rest(low: i64, size: u128) -> i64
    ensures { result ≡ rest_low low size }
{
    if 0 <= low {
        0
    } else if size <= low.unsigned_abs() as u128 {
        (1 - size as i128) as i64
    } else {
        low
    }
}

// The high bound of a remainder.
fn highest_rest(high: i64, size: u128) -> i64
    ensures { result ≡ rest_high high size }
{
    if high <= 0 {
        0
    } else if size <= high as u128 {
        (size as i128 - 1) as i64
    } else {
        high
    }
}

/// Returns the type of `mod`, or None where its interval exceeds the limit.
///
/// `divisor` is the integer value of the right operand.
pub fn rest_type(t: Ty, divisor: Option<i128>) -> Option<Ty>
    ensures { FitsLimit result (rest_type (seen t) divisor) }
{
    match divisor {
        None => type_within_limit(t),
        Some(b) => match t {
            Ty::Integer(low, high) => {
                let size = b.unsigned_abs();
                interval_within_limit(lowest_rest(low, size), highest_rest(high, size))
            }
            Ty::Truth | Ty::Symbol | Ty::Bits(_) => Some(t),
        },
    }
}
