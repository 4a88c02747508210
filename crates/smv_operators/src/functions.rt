// Functions of one and of two arguments.
ghost use Rattle.std.specs.Prelude.{◌≡◌, ◌≤◌, ◌<◌, [], ◌∷◌};
ghost use Rattle.smv_meaning.specs.declared.value.Value.TheVariants as OfValue;
ghost use Rattle.smv_text.specs.declared.operators.Function.TheVariants as OfFunction;
ghost use Rattle.smv_meaning.specs.Operators.{called, resized};
ghost use Rattle.smv_meaning.specs.Safety.{Fits};
ghost use Rattle.smv_operators.specs.View.{seen_value, plain_value};

use crate::operators::{Pair, Plain, no_plain, pair_of};
use crate::seen::{Seen, truth_of};
use smv_text::Function;
use word_core::{WIDEST, Word, slice, uext};

/// Returns the value of a function of one argument.
///
/// An integer result must fit 64 bits.
pub fn call_one(f: Function, a: &Seen) -> Plain
    requires { Fits (called f (seen_value a.now ∷ [])) }
    ensures { plain_value result ≡ called f (seen_value a.now ∷ []) }
{
    match f {
        Function::Bool => match a {
            Seen::Truth(_) => no_plain(),
            Seen::Integer(_) => no_plain(),
            Seen::Symbol(_) => no_plain(),
            Seen::Bits(w) => Plain::Truth(w.bits() == 1),
        },
        Function::Word1 => match a {
            Seen::Truth(b) => word_of_truth(*b),
            Seen::Integer(_) => no_plain(),
            Seen::Symbol(_) => no_plain(),
            Seen::Bits(_) => no_plain(),
        },
        Function::Toint => match a {
            Seen::Truth(_) => no_plain(),
            Seen::Integer(_) => no_plain(),
            Seen::Symbol(_) => no_plain(),
            Seen::Bits(w) => Plain::Integer(w.bits() as i64),
        },
        Function::Count => if truth_of(a) {
            Plain::Integer(1)
        } else {
            Plain::Integer(0)
        },
        Function::Abs => match a {
            Seen::Truth(_) => no_plain(),
            Seen::Integer(z) => if *z < 0 {
                Plain::Integer(-*z)
            } else {
                Plain::Integer(*z)
            },
            Seen::Symbol(_) => no_plain(),
            Seen::Bits(_) => no_plain(),
        },
        Function::Uwconst => no_plain(),
        Function::Extend => no_plain(),
        Function::Resize => no_plain(),
        Function::Max => no_plain(),
        Function::Min => no_plain(),
    }
}

// The truth value as a word of one bit.
fn word_of_truth(b: bool) -> Plain
    ensures { plain_value result ≡ called OfFunction.Word1 (OfValue.Truth b ∷ []) }
{
    match Word::of(1, b as u128) {
        None => no_plain(),
        Some(w) => Plain::Bits(w),
    }
}

/// Returns the value of a function of two arguments.
///
/// An integer result must fit 64 bits.
pub fn call_two(f: Function, a: &Seen, b: &Seen) -> Plain
    requires { Fits (called f (seen_value a.now ∷ seen_value b.now ∷ [])) }
    ensures { plain_value result ≡ called f (seen_value a.now ∷ seen_value b.now ∷ []) }
{
    match f {
        Function::Bool => no_plain(),
        Function::Word1 => no_plain(),
        Function::Toint => no_plain(),
        Function::Uwconst => constant(a, b),
        Function::Extend => extended(a, b),
        Function::Resize => with_width(a, b),
        Function::Count => {
            let first = truth_of(a);
            let second = truth_of(b);
            Plain::Integer(first as i64 + second as i64)
        }
        Function::Max => match pair_of(a, b) {
            Pair::Truths(_, _) => no_plain(),
            Pair::Integers(x, y) => Plain::Integer(x.max(y)),
            Pair::Words(_, _) => no_plain(),
            Pair::Mixed => no_plain(),
        },
        Function::Min => match pair_of(a, b) {
            Pair::Truths(_, _) => no_plain(),
            Pair::Integers(x, y) => Plain::Integer(x.min(y)),
            Pair::Words(_, _) => no_plain(),
            Pair::Mixed => no_plain(),
        },
        Function::Abs => no_plain(),
    }
}

// `uwconst`: the number as a word of this width.
fn constant(a: &Seen, b: &Seen) -> Plain
    ensures { plain_value result ≡ called OfFunction.Uwconst (seen_value a.now ∷ seen_value b.now ∷ []) }
{
    match pair_of(a, b) {
        Pair::Truths(_, _) => no_plain(),
        Pair::Integers(v, n) => word_of_number(v, n),
        Pair::Words(_, _) => no_plain(),
        Pair::Mixed => no_plain(),
    }
}

fn word_of_number(v: i64, n: i64) -> Plain
    ensures { plain_value result ≡ called OfFunction.Uwconst (OfValue.Integer v ∷ OfValue.Integer n ∷ []) }
{
    if v < 0 || n < 1 || n > WIDEST as i64 {
        return no_plain();
    }
    let width = n as u32;
    let bits = v as u128;
    match Word::of(width, bits) {
        None => no_plain(),
        Some(w) => Plain::Bits(w),
    }
}

// `extend`: the word with this many leading zeros added.
fn extended(a: &Seen, b: &Seen) -> Plain
    ensures { plain_value result ≡ called OfFunction.Extend (seen_value a.now ∷ seen_value b.now ∷ []) }
{
    match a {
        Seen::Truth(_) => no_plain(),
        Seen::Integer(_) => no_plain(),
        Seen::Symbol(_) => no_plain(),
        Seen::Bits(w) => match b {
            Seen::Truth(_) => no_plain(),
            Seen::Integer(n) => longer(*w, *n),
            Seen::Symbol(_) => no_plain(),
            Seen::Bits(_) => no_plain(),
        },
    }
}

fn longer(w: Word, n: i64) -> Plain
    ensures { plain_value result ≡ called OfFunction.Extend (OfValue.Bits w ∷ OfValue.Integer n ∷ []) }
{
    if n < 0 || n > WIDEST as i64 || w.width() + n as u32 > WIDEST {
        no_plain()
    } else {
        Plain::Bits(uext(w, n as u32))
    }
}

// `resize`: the low bits of the word, or the word with leading zeros.
fn with_width(a: &Seen, b: &Seen) -> Plain
    ensures { plain_value result ≡ called OfFunction.Resize (seen_value a.now ∷ seen_value b.now ∷ []) }
{
    match a {
        Seen::Truth(_) => no_plain(),
        Seen::Integer(_) => no_plain(),
        Seen::Symbol(_) => no_plain(),
        Seen::Bits(w) => match b {
            Seen::Truth(_) => no_plain(),
            Seen::Integer(n) => of_width(*w, *n),
            Seen::Symbol(_) => no_plain(),
            Seen::Bits(_) => no_plain(),
        },
    }
}

fn of_width(w: Word, n: i64) -> Plain
    ensures { plain_value result ≡ called OfFunction.Resize (OfValue.Bits w ∷ OfValue.Integer n ∷ []) }
{
    if n < 1 || n > WIDEST as i64 {
        no_plain()
    } else {
        Plain::Bits(resized_word(w, n as u32))
    }
}

fn resized_word(w: Word, n: u32) -> Word
    requires some { 1 ≤ n }
    requires most { n ≤ WIDEST }
    ensures { result ≡ resized w n }
{
    let width = w.width();
    if n < width {
        slice(w, n - 1, 0)
    } else {
        uext(w, n - width)
    }
}
