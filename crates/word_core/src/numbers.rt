// The operators on plain numbers.
ghost use Rattle.std.specs.Prelude.{◌≡◌, ◌<◌, ◌≤◌, ◌+◌, ◌-◌, ◌*◌, ◌/◌, ◌%◌, ◌^◌, int_lt, int_le};
ghost use Rattle.word_core.specs.Table.{BinaryFits, binary_bits, is_minus, magnitude, modulus, negated, negated_if, quotient, rest, signed_value, unary_bits};

use crate::kinds::{Binary, Unary};
use crate::word::WIDEST;

// All bits of the width set. Two to the greatest width itself is not a u128.
pub fn ones(width: u32) -> u128
    requires low { 1 ≤ width }
    requires high { width ≤ WIDEST }
    ensures { result ≡ 2 ^ width - 1 }
{
    u128::MAX >> (u128::BITS - width)
}

// The number modulo two to the width: its low bits.
pub fn reduced(width: u32, n: u128) -> u128
    requires low { 1 ≤ width }
    requires high { width ≤ WIDEST }
    ensures value { result ≡ n % 2 ^ width }
    ensures fits { result < 2 ^ width }
{
    n & ones(width)
}

// The sum modulo two to the width. Wrapping at 128 bits leaves the low bits the same.
fn sum(width: u32, a: u128, b: u128) -> u128
    requires low { 1 ≤ width }
    requires high { width ≤ WIDEST }
    ensures value { result ≡ (a + b) % 2 ^ width }
    ensures fits { result < 2 ^ width }
{
    reduced(width, a.wrapping_add(b))
}

// The difference modulo two to the width.
fn difference(width: u32, a: u128, b: u128) -> u128
    requires low { 1 ≤ width }
    requires high { width ≤ WIDEST }
    requires fits { b < 2 ^ width }
    ensures value { result ≡ (a + (2 ^ width - b)) % 2 ^ width }
    ensures fits { result < 2 ^ width }
{
    reduced(width, a.wrapping_sub(b))
}

// The product modulo two to the width.
fn product(width: u32, a: u128, b: u128) -> u128
    requires low { 1 ≤ width }
    requires high { width ≤ WIDEST }
    ensures { result ≡ (a * b) % 2 ^ width }
{
    reduced(width, a.wrapping_mul(b))
}

// The quotient, rounded down. Where both numbers have at most 64 bits, a 64-bit division is much faster.
fn divided(a: u128, b: u128) -> u128
    requires { 1 ≤ b }
    ensures { result ≡ a / b }
{
    match (u64::try_from(a), u64::try_from(b)) {
        (Ok(short), Ok(by)) => u128::from(short / by),
        _ => a / b,
    }
}

// The remainder of the division.
fn left_over(a: u128, b: u128) -> u128
    requires { 1 ≤ b }
    ensures { result ≡ a % b }
{
    match (u64::try_from(a), u64::try_from(b)) {
        (Ok(short), Ok(by)) => u128::from(short % by),
        _ => a % b,
    }
}

// Whether the signed value is negative.
pub fn is_minus(width: u32, a: u128) -> bool
    requires low { 1 ≤ width }
    requires high { width ≤ WIDEST }
    ensures { result ≡ is_minus width a }
{
    a >= 1u128 << (width - 1)
}

// Whether the first signed value is less than the second.
fn is_less(width: u32, a: u128, b: u128) -> bool
    requires low { 1 ≤ width }
    requires high { width ≤ WIDEST }
    requires a_fits { a < 2 ^ width }
    requires b_fits { b < 2 ^ width }
    ensures { result ≡ int_lt (signed_value width a) (signed_value width b) }
{
    let minus = is_minus(width, a);
    if minus == is_minus(width, b) {
        a < b
    } else {
        minus
    }
}

// Whether the first signed value is at most the second.
fn is_at_most(width: u32, a: u128, b: u128) -> bool
    requires low { 1 ≤ width }
    requires high { width ≤ WIDEST }
    requires a_fits { a < 2 ^ width }
    requires b_fits { b < 2 ^ width }
    ensures { result ≡ int_le (signed_value width a) (signed_value width b) }
{
    let minus = is_minus(width, a);
    if minus == is_minus(width, b) {
        a <= b
    } else {
        minus
    }
}

fn negated(width: u32, a: u128) -> u128
    requires low { 1 ≤ width }
    requires high { width ≤ WIDEST }
    requires fits { a < 2 ^ width }
    ensures value { result ≡ negated width a }
    ensures fits { result < 2 ^ width }
{
    difference(width, 0, a)
}

fn negated_if(minus: bool, width: u32, a: u128) -> u128
    requires low { 1 ≤ width }
    requires high { width ≤ WIDEST }
    requires fits { a < 2 ^ width }
    ensures value { result ≡ negated_if minus width a }
    ensures fits { result < 2 ^ width }
{
    if minus { negated(width, a) } else { a }
}

// The magnitude of the signed value.
fn magnitude(width: u32, a: u128) -> u128
    requires low { 1 ≤ width }
    requires high { width ≤ WIDEST }
    requires fits { a < 2 ^ width }
    ensures value { result ≡ magnitude width a }
    ensures fits { result < 2 ^ width }
{
    negated_if(is_minus(width, a), width, a)
}

fn quotient(width: u32, a: u128, b: u128) -> u128
    requires low { 1 ≤ width }
    requires high { width ≤ WIDEST }
    requires fits { a < 2 ^ width }
    ensures value { result ≡ quotient width a b }
    ensures fits { result < 2 ^ width }
{
    if b == 0 { ones(width) } else { divided(a, b) }
}

fn rest(width: u32, a: u128, b: u128) -> u128
    requires fits { a < 2 ^ width }
    ensures value { result ≡ rest a b }
    ensures fits { result < 2 ^ width }
{
    if b == 0 { a } else { left_over(a, b) }
}

// The signed modulus from the remainder `u` of the magnitudes: it has the divisor's sign.
fn modulus(width: u32, a: u128, b: u128, u: u128) -> u128
    requires low { 1 ≤ width }
    requires high { width ≤ WIDEST }
    requires b_fits { b < 2 ^ width }
    requires u_fits { u < 2 ^ width }
    ensures { result ≡ modulus width a b u }
{
    if u == 0 {
        0
    } else if is_minus(width, a) {
        if is_minus(width, b) {
            negated(width, u)
        } else {
            sum(width, negated(width, u), b)
        }
    } else if is_minus(width, b) {
        sum(width, u, b)
    } else {
        u
    }
}

fn shifted_left(width: u32, a: u128, b: u128) -> u128
    requires low { 1 ≤ width }
    requires high { width ≤ WIDEST }
    requires fits { a < 2 ^ width }
    ensures { result ≡ binary_bits Binary.Sll width width a b }
{
    if b < u128::from(width) {
        reduced(width, a << b)
    } else {
        0
    }
}

fn shifted_right(width: u32, a: u128, b: u128) -> u128
    requires high { width ≤ WIDEST }
    ensures { result ≡ binary_bits Binary.Srl width width a b }
{
    if b < u128::from(width) { a >> b } else { 0 }
}

// A right shift that keeps the sign.
fn shifted_signed(width: u32, a: u128, b: u128) -> u128
    requires low { 1 ≤ width }
    requires high { width ≤ WIDEST }
    requires fits { a < 2 ^ width }
    ensures { result ≡ binary_bits Binary.Sra width width a b }
{
    if is_minus(width, a) {
        let all = ones(width);
        all - shifted_right(width, all - a, b)
    } else {
        shifted_right(width, a, b)
    }
}

fn signed_quotient(width: u32, a: u128, b: u128) -> u128
    requires low { 1 ≤ width }
    requires high { width ≤ WIDEST }
    requires a_fits { a < 2 ^ width }
    requires b_fits { b < 2 ^ width }
    ensures { result ≡ binary_bits Binary.Sdiv width width a b }
{
    let cut = quotient(width, magnitude(width, a), magnitude(width, b));
    let differ = if is_minus(width, a) {
        !is_minus(width, b)
    } else {
        is_minus(width, b)
    };
    negated_if(differ, width, cut)
}

fn signed_rest(width: u32, a: u128, b: u128) -> u128
    requires low { 1 ≤ width }
    requires high { width ≤ WIDEST }
    requires a_fits { a < 2 ^ width }
    requires b_fits { b < 2 ^ width }
    ensures { result ≡ binary_bits Binary.Srem width width a b }
{
    let left = rest(width, magnitude(width, a), magnitude(width, b));
    negated_if(is_minus(width, a), width, left)
}

fn signed_modulus(width: u32, a: u128, b: u128) -> u128
    requires low { 1 ≤ width }
    requires high { width ≤ WIDEST }
    requires a_fits { a < 2 ^ width }
    requires b_fits { b < 2 ^ width }
    ensures { result ≡ binary_bits Binary.Smod width width a b }
{
    let left = rest(width, magnitude(width, a), magnitude(width, b));
    modulus(width, a, b, left)
}

// The concatenation: the bits of a, then those of b.
fn joined(v: u32, w: u32, a: u128, b: u128) -> u128
    requires low { 1 ≤ v }
    requires high { v + w ≤ WIDEST }
    requires a_fits { a < 2 ^ v }
    requires b_fits { b < 2 ^ w }
    ensures { result ≡ a * 2 ^ w + b }
{
    (a << w) + b
}

/// Returns the result of the operator on a word of this width, as a number.
pub fn unary_number(op: Unary, width: u32, a: u128) -> u128
    requires low { 1 ≤ width }
    requires high { width ≤ WIDEST }
    requires fits { a < 2 ^ width }
    ensures { result ≡ unary_bits op width a }
{
    match op {
        Unary::Not => ones(width) - a,
        Unary::Inc => sum(width, a, 1),
        Unary::Dec => sum(width, a, ones(width)),
        Unary::Neg => negated(width, a),
        Unary::RedAnd => u128::from(a == ones(width)),
        Unary::RedOr => u128::from(a != 0),
        Unary::RedXor => u128::from(a.count_ones() % 2),
    }
}

/// Returns the result of the operator on words of widths `v` and `w`, as a number.
///
/// The caller ensures that the widths are those that the operator takes.
#[tactic(auto, using(std::proofs::lemmas::Nat::or_lt, std::proofs::lemmas::Nat::xor_lt))]
pub fn binary_number(op: Binary, v: u32, w: u32, a: u128, b: u128) -> u128
    requires v_low { 1 ≤ v }
    requires v_high { v ≤ WIDEST }
    requires w_low { 1 ≤ w }
    requires w_high { w ≤ WIDEST }
    requires a_fits { a < 2 ^ v }
    requires b_fits { b < 2 ^ w }
    requires fits { BinaryFits op v w }
    ensures { result ≡ binary_bits op v w a b }
{
    match op {
        Binary::Iff | Binary::Eq => u128::from(a == b),
        Binary::Implies => (1 - a) | b,
        Binary::Neq => u128::from(a != b),
        Binary::Sgt => u128::from(is_less(v, b, a)),
        Binary::Sgte => u128::from(is_at_most(v, b, a)),
        Binary::Slt => u128::from(is_less(v, a, b)),
        Binary::Slte => u128::from(is_at_most(v, a, b)),
        Binary::Ugt => u128::from(a > b),
        Binary::Ugte => u128::from(a >= b),
        Binary::Ult => u128::from(a < b),
        Binary::Ulte => u128::from(a <= b),
        Binary::And => a & b,
        Binary::Nand => ones(v) - (a & b),
        Binary::Nor => ones(v) - (a | b),
        Binary::Or => a | b,
        Binary::Xnor => ones(v) - (a ^ b),
        Binary::Xor => a ^ b,
        Binary::Sll => shifted_left(v, a, b),
        Binary::Srl => shifted_right(v, a, b),
        Binary::Sra => shifted_signed(v, a, b),
        Binary::Add => sum(v, a, b),
        Binary::Sub => difference(v, a, b),
        Binary::Mul => product(v, a, b),
        Binary::Udiv => quotient(v, a, b),
        Binary::Sdiv => signed_quotient(v, a, b),
        Binary::Urem => rest(v, a, b),
        Binary::Srem => signed_rest(v, a, b),
        Binary::Smod => signed_modulus(v, a, b),
        Binary::Concat => joined(v, w, a, b),
    }
}
