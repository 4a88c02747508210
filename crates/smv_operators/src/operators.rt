// Operators on values, each by its definition.
ghost use Rattle.std.specs.Prelude.{◌≡◌, ◌+ℤ◌, ◌-ℤ◌, ◌*ℤ◌, ◌%◌, ◌&&◌, ◌||◌, ◌≤◌, ◌<◌, not, int_div, int_lt, int_le, ℕ};
ghost use Rattle.word_core.specs.Table.{BinaryFits};
ghost use Rattle.word_core.specs.declared.kinds.Binary.TheVariants as OnWords;
ghost use Rattle.smv_meaning.specs.declared.value.Value.TheVariants as OfValue;
ghost use Rattle.smv_meaning.specs.Values.{no_value, bool_eq, value_same};
ghost use Rattle.smv_meaning.specs.Operators.{word, operands_of, words_by, words_compared, logical, compared, calculated, shifted, concatenated, negation, minus, implied, int_mod, applied, signed, selected};
ghost use Rattle.smv_meaning.specs.Safety.{Fits};
ghost use Rattle.smv_operators.specs.View.{seen_value, plain_value, pair_operands};

use crate::seen::{Seen, are_same};
use smv_text::{Infix, Prefix};
use word_core::{Binary, Unary, WIDEST, Word, binary, slice, uext, unary};

/// Two operands of the same kind, or `Mixed` for any others.
#[derive(Clone, Copy)]
pub enum Pair {
    Truths(bool, bool),
    Integers(i64, i64),
    Words(Word, Word),
    Mixed,
}

/// The result of an operator: a value that is not a symbol.
#[derive(Clone, Copy)]
pub enum Plain {
    Truth(bool),
    Integer(i64),
    Bits(Word),
}

/// Converts the value to one that may borrow a symbol.
pub fn seen_of<'a>(value: Plain) -> Seen<'a>
    ensures { seen_value result ≡ plain_value value }
{
    match value {
        Plain::Truth(b) => Seen::Truth(b),
        Plain::Integer(z) => Seen::Integer(z),
        Plain::Bits(w) => Seen::Bits(w),
    }
}

/// Returns whether two values are equal.
pub fn are_same_plain(a: &Plain, b: &Seen) -> bool
    ensures { result ≡ value_same (plain_value a.now) (seen_value b.now) }
{
    match a {
        Plain::Truth(x) => are_same(&Seen::Truth(*x), b),
        Plain::Integer(z) => are_same(&Seen::Integer(*z), b),
        Plain::Bits(w) => are_same(&Seen::Bits(*w), b),
    }
}

/// Returns the stand-in for a missing value.
pub fn no_plain() -> Plain
    ensures { plain_value result ≡ no_value }
{
    Plain::Truth(false)
}

/// Returns the operands as a pair, `Mixed` where they are of different kinds or symbols.
pub fn pair_of(a: &Seen, b: &Seen) -> Pair
    ensures { pair_operands result ≡ operands_of (seen_value a.now) (seen_value b.now) }
{
    match a {
        Seen::Truth(x) => match b {
            Seen::Truth(y) => Pair::Truths(*x, *y),
            _ => Pair::Mixed,
        },
        Seen::Integer(x) => match b {
            Seen::Integer(y) => Pair::Integers(*x, *y),
            _ => Pair::Mixed,
        },
        Seen::Symbol(_) => Pair::Mixed,
        Seen::Bits(x) => match b {
            Seen::Bits(y) => Pair::Words(*x, *y),
            _ => Pair::Mixed,
        },
    }
}

// An operator on two words of the same width.
fn on_words(op: Binary, v: Word, w: Word) -> Plain
    requires { (m n : ℕ) → m ≡ n → BinaryFits op m n }
    ensures { plain_value result ≡ words_by op v w }
{
    if v.width() == w.width() {
        Plain::Bits(binary(op, v, w))
    } else {
        no_plain()
    }
}

// A comparison of two words of the same width.
fn compare_words(op: Binary, v: Word, w: Word) -> Plain
    requires { (m n : ℕ) → m ≡ n → BinaryFits op m n }
    ensures { plain_value result ≡ words_compared op v w }
{
    if v.width() == w.width() {
        Plain::Truth(binary(op, v, w).bits() == 1)
    } else {
        no_plain()
    }
}

/// Returns the value of `!`.
pub fn negate(value: &Seen) -> Plain
    ensures { plain_value result ≡ negation (seen_value value.now) }
{
    match value {
        Seen::Truth(b) => Plain::Truth(!*b),
        Seen::Integer(_) => no_plain(),
        Seen::Symbol(_) => no_plain(),
        Seen::Bits(w) => Plain::Bits(unary(Unary::Not, *w)),
    }
}

/// Returns the value of unary `-`.
///
/// An integer result must fit 64 bits.
pub fn minus_of(value: &Seen) -> Plain
    requires { Fits (minus (seen_value value.now)) }
    ensures { plain_value result ≡ minus (seen_value value.now) }
{
    match value {
        Seen::Truth(_) => no_plain(),
        Seen::Integer(z) => Plain::Integer(-*z),
        Seen::Symbol(_) => no_plain(),
        Seen::Bits(w) => Plain::Bits(unary(Unary::Neg, *w)),
    }
}

/// Returns the value of a prefix operator that is repeated an odd number of times.
///
/// An integer result must fit 64 bits.
pub fn prefix_value(sign: Prefix, count: u32, value: &Seen) -> Plain
    requires odd { count % 2 ≡ 1 }
    requires fits { Fits (signed sign count (seen_value value.now)) }
    ensures { plain_value result ≡ signed sign count (seen_value value.now) }
{
    match sign {
        Prefix::Not => negate(value),
        Prefix::Minus => minus_of(value),
    }
}

/// Returns the value of `->`.
pub fn implication(a: &Seen, b: &Seen) -> Plain
    ensures { plain_value result ≡ implied (seen_value a.now) (seen_value b.now) }
{
    disjunction(&seen_of(negate(a)), b)
}

fn disjunction(a: &Seen, b: &Seen) -> Plain
    ensures { plain_value result ≡ logical (λ p q. p || q) OnWords.Or (seen_value a.now) (seen_value b.now) }
{
    match pair_of(a, b) {
        Pair::Truths(p, q) => Plain::Truth(p || q),
        Pair::Integers(_, _) => no_plain(),
        Pair::Words(v, w) => on_words(Binary::Or, v, w),
        Pair::Mixed => no_plain(),
    }
}

fn conjunction(a: &Seen, b: &Seen) -> Plain
    ensures { plain_value result ≡ logical (λ p q. p && q) OnWords.And (seen_value a.now) (seen_value b.now) }
{
    match pair_of(a, b) {
        Pair::Truths(p, q) => Plain::Truth(p && q),
        Pair::Integers(_, _) => no_plain(),
        Pair::Words(v, w) => on_words(Binary::And, v, w),
        Pair::Mixed => no_plain(),
    }
}

fn difference(a: &Seen, b: &Seen) -> Plain
    ensures { plain_value result ≡ logical (λ p q. not (bool_eq p q)) OnWords.Xor (seen_value a.now) (seen_value b.now) }
{
    match pair_of(a, b) {
        Pair::Truths(p, q) => Plain::Truth(p != q),
        Pair::Integers(_, _) => no_plain(),
        Pair::Words(v, w) => on_words(Binary::Xor, v, w),
        Pair::Mixed => no_plain(),
    }
}

fn equivalence(a: &Seen, b: &Seen) -> Plain
    ensures { plain_value result ≡ logical bool_eq OnWords.Xnor (seen_value a.now) (seen_value b.now) }
{
    match pair_of(a, b) {
        Pair::Truths(p, q) => Plain::Truth(p == q),
        Pair::Integers(_, _) => no_plain(),
        Pair::Words(v, w) => on_words(Binary::Xnor, v, w),
        Pair::Mixed => no_plain(),
    }
}

fn less(a: &Seen, b: &Seen) -> Plain
    ensures { plain_value result ≡ compared int_lt OnWords.Ult (seen_value a.now) (seen_value b.now) }
{
    match pair_of(a, b) {
        Pair::Truths(_, _) => no_plain(),
        Pair::Integers(x, y) => Plain::Truth(x < y),
        Pair::Words(v, w) => compare_words(Binary::Ult, v, w),
        Pair::Mixed => no_plain(),
    }
}

fn greater(a: &Seen, b: &Seen) -> Plain
    ensures { plain_value result ≡ compared (λ x y. int_lt y x) OnWords.Ugt (seen_value a.now) (seen_value b.now) }
{
    match pair_of(a, b) {
        Pair::Truths(_, _) => no_plain(),
        Pair::Integers(x, y) => Plain::Truth(x > y),
        Pair::Words(v, w) => compare_words(Binary::Ugt, v, w),
        Pair::Mixed => no_plain(),
    }
}

fn at_most(a: &Seen, b: &Seen) -> Plain
    ensures { plain_value result ≡ compared int_le OnWords.Ulte (seen_value a.now) (seen_value b.now) }
{
    match pair_of(a, b) {
        Pair::Truths(_, _) => no_plain(),
        Pair::Integers(x, y) => Plain::Truth(x <= y),
        Pair::Words(v, w) => compare_words(Binary::Ulte, v, w),
        Pair::Mixed => no_plain(),
    }
}

fn at_least(a: &Seen, b: &Seen) -> Plain
    ensures { plain_value result ≡ compared (λ x y. int_le y x) OnWords.Ugte (seen_value a.now) (seen_value b.now) }
{
    match pair_of(a, b) {
        Pair::Truths(_, _) => no_plain(),
        Pair::Integers(x, y) => Plain::Truth(x >= y),
        Pair::Words(v, w) => compare_words(Binary::Ugte, v, w),
        Pair::Mixed => no_plain(),
    }
}

fn sum(a: &Seen, b: &Seen) -> Plain
    requires { Fits (calculated (λ x y. x +ℤ y) OnWords.Add (seen_value a.now) (seen_value b.now)) }
    ensures { plain_value result ≡ calculated (λ x y. x +ℤ y) OnWords.Add (seen_value a.now) (seen_value b.now) }
{
    match pair_of(a, b) {
        Pair::Truths(_, _) => no_plain(),
        Pair::Integers(x, y) => Plain::Integer(x + y),
        Pair::Words(v, w) => on_words(Binary::Add, v, w),
        Pair::Mixed => no_plain(),
    }
}

fn subtraction(a: &Seen, b: &Seen) -> Plain
    requires { Fits (calculated (λ x y. x -ℤ y) OnWords.Sub (seen_value a.now) (seen_value b.now)) }
    ensures { plain_value result ≡ calculated (λ x y. x -ℤ y) OnWords.Sub (seen_value a.now) (seen_value b.now) }
{
    match pair_of(a, b) {
        Pair::Truths(_, _) => no_plain(),
        Pair::Integers(x, y) => Plain::Integer(x - y),
        Pair::Words(v, w) => on_words(Binary::Sub, v, w),
        Pair::Mixed => no_plain(),
    }
}

fn product(a: &Seen, b: &Seen) -> Plain
    requires { Fits (calculated (λ x y. x *ℤ y) OnWords.Mul (seen_value a.now) (seen_value b.now)) }
    ensures { plain_value result ≡ calculated (λ x y. x *ℤ y) OnWords.Mul (seen_value a.now) (seen_value b.now) }
{
    match pair_of(a, b) {
        Pair::Truths(_, _) => no_plain(),
        Pair::Integers(x, y) => Plain::Integer(x * y),
        Pair::Words(v, w) => on_words(Binary::Mul, v, w),
        Pair::Mixed => no_plain(),
    }
}

fn quotient(a: &Seen, b: &Seen) -> Plain
    requires { Fits (calculated int_div OnWords.Udiv (seen_value a.now) (seen_value b.now)) }
    ensures { plain_value result ≡ calculated int_div OnWords.Udiv (seen_value a.now) (seen_value b.now) }
{
    match pair_of(a, b) {
        Pair::Truths(_, _) => no_plain(),
        Pair::Integers(x, y) => if y == 0 {
            Plain::Integer(0)
        } else {
            Plain::Integer(x / y)
        },
        Pair::Words(v, w) => on_words(Binary::Udiv, v, w),
        Pair::Mixed => no_plain(),
    }
}

fn rest(a: &Seen, b: &Seen) -> Plain
    ensures { plain_value result ≡ calculated int_mod OnWords.Urem (seen_value a.now) (seen_value b.now) }
{
    match pair_of(a, b) {
        Pair::Truths(_, _) => no_plain(),
        Pair::Integers(x, y) => Plain::Integer(rest_of(x, y)),
        Pair::Words(v, w) => on_words(Binary::Urem, v, w),
        Pair::Mixed => no_plain(),
    }
}

// The remainder of a division that truncates toward zero; it is 0 for the divisor -1.
fn rest_of(x: i64, y: i64) -> i64
    ensures { result ≡ int_mod x y }
{
    if y == 0 {
        x
    } else if y == -1 {
        0
    } else {
        x % y
    }
}

fn shift(op: Binary, a: &Seen, b: &Seen) -> Plain
    requires { (m n : ℕ) → m ≡ n → BinaryFits op m n }
    ensures { plain_value result ≡ shifted op (seen_value a.now) (seen_value b.now) }
{
    match a {
        Seen::Truth(_) => no_plain(),
        Seen::Integer(_) => no_plain(),
        Seen::Symbol(_) => no_plain(),
        Seen::Bits(v) => match b {
            Seen::Truth(_) => no_plain(),
            Seen::Integer(n) => shift_by(op, *v, *n),
            Seen::Symbol(_) => no_plain(),
            Seen::Bits(_) => no_plain(),
        },
    }
}

fn shift_by(op: Binary, v: Word, n: i64) -> Plain
    requires { (m n : ℕ) → m ≡ n → BinaryFits op m n }
    ensures { plain_value result ≡ shifted op (OfValue.Bits v) (OfValue.Integer n) }
{
    if n < 0 || n > v.width() as i64 {
        no_plain()
    } else {
        Plain::Bits(binary(op, v, amount(v, n as u64)))
    }
}

// The number as a word of the same width.
#[tactic(auto, using(smv_meaning::specs::laws::WordLemmas::amount_is_word))]
fn amount(v: Word, n: u64) -> Word
    requires { n ≤ v.width }
    ensures { result ≡ word v.width n }
{
    match Word::of(v.width(), n as u128) {
        None => v,
        Some(w) => w,
    }
}

fn concatenation(a: &Seen, b: &Seen) -> Plain
    ensures { plain_value result ≡ concatenated (seen_value a.now) (seen_value b.now) }
{
    match pair_of(a, b) {
        Pair::Truths(_, _) => no_plain(),
        Pair::Integers(_, _) => no_plain(),
        Pair::Words(v, w) => if v.width() + w.width() <= WIDEST {
            Plain::Bits(binary(Binary::Concat, v, w))
        } else {
            no_plain()
        },
        Pair::Mixed => no_plain(),
    }
}

/// Returns the value of a binary operator on two values; sets are not values.
///
/// An integer result must fit 64 bits.
pub fn apply(op: Infix, a: &Seen, b: &Seen) -> Plain
    requires { Fits (applied op (seen_value a.now) (seen_value b.now)) }
    ensures { plain_value result ≡ applied op (seen_value a.now) (seen_value b.now) }
{
    match op {
        Infix::Implies => implication(a, b),
        Infix::Iff => equivalence(a, b),
        Infix::Or => disjunction(a, b),
        Infix::Xor => difference(a, b),
        Infix::Xnor => equivalence(a, b),
        Infix::And => conjunction(a, b),
        Infix::Equal => Plain::Truth(are_same(a, b)),
        Infix::Unequal => Plain::Truth(!are_same(a, b)),
        Infix::Less => less(a, b),
        Infix::Greater => greater(a, b),
        Infix::LessEq => at_most(a, b),
        Infix::GreaterEq => at_least(a, b),
        Infix::Member => no_plain(),
        Infix::Union => no_plain(),
        Infix::ShiftLeft => shift(Binary::Sll, a, b),
        Infix::ShiftRight => shift(Binary::Srl, a, b),
        Infix::Plus => sum(a, b),
        Infix::Minus => subtraction(a, b),
        Infix::Times => product(a, b),
        Infix::Divide => quotient(a, b),
        Infix::Mod => rest(a, b),
        Infix::Concat => concatenation(a, b),
    }
}

/// Returns the bits of a word from `high` down to `low`.
pub fn selection(high: u64, low: u64, value: &Seen) -> Plain
    ensures { plain_value result ≡ selected high low (seen_value value.now) }
{
    match value {
        Seen::Truth(_) => no_plain(),
        Seen::Integer(_) => no_plain(),
        Seen::Symbol(_) => no_plain(),
        Seen::Bits(w) => if low <= high && high < w.width() as u64 {
            Plain::Bits(slice(*w, high as u32, low as u32))
        } else {
            no_plain()
        },
    }
}
