// Evaluation of operators.
ghost use Rattle.std.specs.Prelude.{◌≡◌, false, ◌==◌, ◌&&◌, Some, None};
ghost use Rattle.std.specs.List.{list_all, list_any};
ghost use Rattle.moxi_terms.specs.Operators.{all_differ, all_equal, folded, implied, is_comparison, on_words, op_value, parity, same, truth_of, word_of};
ghost use Rattle.moxi_terms.specs.declared.data.Datum.TheVariants as datum;
ghost use Rattle.moxi_terms.specs.Applied.{AreWide, CanApply, IsBits};

use crate::data::{Datum, TermOp};
use word_core::{Binary, Word, binary, sext, slice, uext, unary};

/// Returns the truth value of a value, which is false for any other kind of value.
pub fn truth(d: &Datum) -> bool
    ensures { result ≡ truth_of d.now }
{
    match d {
        Datum::Truth(b) => *b,
        Datum::Bits(_) | Datum::Constant(_, _) => false,
    }
}

// Whether two values are the same.
fn same(a: &Datum, b: &Datum) -> bool
    ensures { result ≡ same a.now b.now }
{
    match a {
        Datum::Truth(x) => match b {
            Datum::Truth(y) => *x == *y,
            Datum::Bits(_) | Datum::Constant(_, _) => false,
        },
        Datum::Bits(v) => match b {
            Datum::Bits(w) => v.width() == w.width() && v.bits() == w.bits(),
            Datum::Truth(_) | Datum::Constant(_, _) => false,
        },
        Datum::Constant(n, i) => match b {
            Datum::Constant(m, j) => *n == *m && *i == *j,
            Datum::Truth(_) | Datum::Bits(_) => false,
        },
    }
}

fn are_all_true(vs: &[Datum]) -> bool
    ensures { result ≡ list_all truth_of vs.now }
{
    for v in vs {
        if !truth(v) {
            return false;
        }
    }
    true
}

fn is_any_true(vs: &[Datum]) -> bool
    ensures { result ≡ list_any truth_of vs.now }
{
    for v in vs {
        if truth(v) {
            return true;
        }
    }
    false
}

fn parity(vs: &[Datum]) -> bool
    ensures { result ≡ parity false vs.now }
{
    let mut odd = false;
    for v in vs {
        odd = odd != truth(v);
    }
    odd
}

// A right-associative chain of implications, of which `first` is the first argument.
fn implied(first: &Datum, rest: &[Datum]) -> bool
    ensures { result ≡ implied first.now rest.now }
{
    let mut before = *first;
    for v in rest {
        if !truth(&before) {
            return true;
        }
        before = *v;
    }
    truth(&before)
}

fn are_all_equal(first: &Datum, rest: &[Datum]) -> bool
    ensures { result ≡ all_equal first.now rest.now }
{
    let mut before = *first;
    for v in rest {
        if !same(&before, v) {
            return false;
        }
        before = *v;
    }
    true
}

fn is_among(v: &Datum, vs: &[Datum]) -> bool
    ensures { result ≡ list_any (same v.now) vs.now }
{
    for w in vs {
        if same(v, w) {
            return true;
        }
    }
    false
}

fn do_all_differ(vs: &[Datum]) -> bool
    ensures { result ≡ all_differ vs.now }
{
    let mut rest = vs;
    while let Some((v, others)) = rest.split_first() {
        if is_among(v, others) {
            return false;
        }
        rest = others;
    }
    true
}

// The operator folded from the left over this word and the words of these values.
fn folded(op: Binary, first: Word, rest: &[Datum]) -> Word
    requires { AreWide op first rest.now }
    ensures { result ≡ folded op first rest.now }
{
    let mut word = first;
    for v in rest {
        if let Datum::Bits(w) = v {
            word = binary(op, word, *w);
        }
    }
    word
}

/// Returns whether a binary operator compares two words.
pub fn is_comparison(op: Binary) -> bool
    ensures { result ≡ is_comparison op }
{
    match op {
        Binary::Ult
        | Binary::Ulte
        | Binary::Ugt
        | Binary::Ugte
        | Binary::Slt
        | Binary::Slte
        | Binary::Sgt
        | Binary::Sgte => true,
        _ => false,
    }
}

// The value of an operator on words.
fn on_words(op: Binary, first: Word, rest: &[Datum]) -> Datum
    requires { AreWide op first rest.now }
    ensures { result ≡ on_words op first rest.now }
{
    let word = folded(op, first, rest);
    if is_comparison(op) {
        Datum::Truth(word.bits() == 1)
    } else {
        Datum::Bits(word)
    }
}

// The value of an operator on values that are words.
fn on_data(op: Binary, first: &Datum, rest: &[Datum]) -> Datum
    requires { IsBits first.now × AreWide op (word_of first.now) rest.now }
    ensures { result ≡ on_words op (word_of first.now) rest.now }
{
    match first {
        Datum::Bits(w) => on_words(op, *w, rest),
        Datum::Truth(_) | Datum::Constant(_, _) => Datum::Truth(false),
    }
}

/// Returns the value of an operator on these arguments.
///
/// The arguments must have sorts that the operator takes.
pub fn operate(op: TermOp, args: &[Datum]) -> Datum
    requires { CanApply op args.now }
    ensures { result ≡ op_value op args.now }
{
    match op {
        TermOp::Not => match args {
            [a] => Datum::Truth(!truth(a)),
            _ => Datum::Truth(false),
        },
        TermOp::And => Datum::Truth(are_all_true(args)),
        TermOp::Or => Datum::Truth(is_any_true(args)),
        TermOp::Xor => Datum::Truth(parity(args)),
        TermOp::Implies => match args.split_first() {
            Some((first, rest)) => Datum::Truth(implied(first, rest)),
            None => Datum::Truth(false),
        },
        TermOp::Equal => match args.split_first() {
            Some((first, rest)) => Datum::Truth(are_all_equal(first, rest)),
            None => Datum::Truth(false),
        },
        TermOp::Distinct => Datum::Truth(do_all_differ(args)),
        TermOp::Ite => match args {
            [c, a, b] => if truth(c) { *a } else { *b },
            _ => Datum::Truth(false),
        },
        TermOp::Concat => match args {
            [Datum::Bits(v), Datum::Bits(w)] => Datum::Bits(binary(Binary::Concat, *v, *w)),
            _ => Datum::Truth(false),
        },
        TermOp::BvBinary(b) => match args.split_first() {
            Some((first, rest)) => on_data(b, first, rest),
            None => Datum::Truth(false),
        },
        TermOp::Extract(high, low) => match args {
            [Datum::Bits(w)] => Datum::Bits(slice(*w, high, low)),
            _ => Datum::Truth(false),
        },
        TermOp::ZeroExtend(count) => match args {
            [Datum::Bits(w)] => Datum::Bits(uext(*w, count)),
            _ => Datum::Truth(false),
        },
        TermOp::SignExtend(count) => match args {
            [Datum::Bits(w)] => Datum::Bits(sext(*w, count)),
            _ => Datum::Truth(false),
        },
        TermOp::BvUnary(u) => match args {
            [Datum::Bits(w)] => Datum::Bits(unary(u, *w)),
            _ => Datum::Truth(false),
        },
    }
}
