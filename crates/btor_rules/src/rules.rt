// The table of rules.
ghost use Rattle.std.specs.Prelude.{◌≡◌};
ghost use Rattle.word_core.specs.Table.{binary_of, ite_of};
ghost use Rattle.btor_rules.specs.Rules as spec;
ghost use Rattle.btor_tree.specs.declared.lines.LineOp.TheVariants as op;
ghost use Rattle.btor_rules.specs.declared.operand.Operands.TheVariants.{Pair, Triple};

use crate::operand::{
    Operand, Operands, Outcome, is_number, is_ones, is_opposite, is_same, one_bit, ones,
    other_sign, zeros,
};
use btor_tree::LineOp;
use word_core::{Binary, Unary, Word, binary, ite, sext, slice, uext, unary};

// Returns the operand in place of the line.
fn as_it_is(x: &Operand) -> Outcome
    ensures { result ≡ spec.as_it_is x.now }
{
    Outcome::Argument(x.arg)
}

fn and_rule(x: &Operand, y: &Operand) -> Outcome
    requires { spec.OperandFits x.now }
    ensures { result ≡ spec.and_rule x.now y.now }
{
    if is_same(x, y) || is_ones(y) {
        as_it_is(x)
    } else if is_ones(x) {
        as_it_is(y)
    } else if is_number(x, 0) || is_number(y, 0) || is_opposite(x, y) {
        zeros(x.width)
    } else {
        Outcome::Stays
    }
}

fn or_rule(x: &Operand, y: &Operand) -> Outcome
    requires { spec.OperandFits x.now }
    ensures { result ≡ spec.or_rule x.now y.now }
{
    if is_same(x, y) || is_number(y, 0) {
        as_it_is(x)
    } else if is_number(x, 0) {
        as_it_is(y)
    } else if is_ones(x) || is_ones(y) || is_opposite(x, y) {
        ones(x.width)
    } else {
        Outcome::Stays
    }
}

fn xor_rule(x: &Operand, y: &Operand) -> Outcome
    requires { spec.OperandFits x.now }
    ensures { result ≡ spec.xor_rule x.now y.now }
{
    if is_same(x, y) {
        zeros(x.width)
    } else if is_opposite(x, y) {
        ones(x.width)
    } else if is_number(y, 0) {
        as_it_is(x)
    } else if is_number(x, 0) {
        as_it_is(y)
    } else {
        Outcome::Stays
    }
}

// Applies the rule of equality, or of inequality where `equal` is false.
fn equal_rule(equal: bool, x: &Operand, y: &Operand) -> Outcome
    ensures { result ≡ spec.equal_rule equal x.now y.now }
{
    if is_same(x, y) {
        one_bit(equal)
    } else if is_opposite(x, y) {
        one_bit(!equal)
    } else {
        Outcome::Stays
    }
}

fn implies_rule(x: &Operand, y: &Operand) -> Outcome
    ensures { result ≡ spec.implies_rule x.now y.now }
{
    if is_number(x, 0) || is_number(y, 1) || is_same(x, y) {
        one_bit(true)
    } else if is_number(x, 1) {
        as_it_is(y)
    } else {
        Outcome::Stays
    }
}

fn add_rule(x: &Operand, y: &Operand) -> Outcome
    ensures { result ≡ spec.add_rule x.now y.now }
{
    if is_number(y, 0) {
        as_it_is(x)
    } else if is_number(x, 0) {
        as_it_is(y)
    } else {
        Outcome::Stays
    }
}

fn sub_rule(x: &Operand, y: &Operand) -> Outcome
    requires { spec.OperandFits x.now }
    ensures { result ≡ spec.sub_rule x.now y.now }
{
    if is_number(y, 0) {
        as_it_is(x)
    } else if is_same(x, y) {
        zeros(x.width)
    } else {
        Outcome::Stays
    }
}

fn shift_rule(x: &Operand, y: &Operand) -> Outcome
    ensures { result ≡ spec.shift_rule x.now y.now }
{
    if is_number(y, 0) {
        as_it_is(x)
    } else {
        Outcome::Stays
    }
}

fn pair_rule(op: Binary, x: &Operand, y: &Operand) -> Outcome
    requires { spec.OperandFits x.now }
    ensures { result ≡ spec.pair_rule op x.now y.now }
{
    match op {
        Binary::And => and_rule(x, y),
        Binary::Or => or_rule(x, y),
        Binary::Xor => xor_rule(x, y),
        Binary::Eq | Binary::Iff => equal_rule(true, x, y),
        Binary::Neq => equal_rule(false, x, y),
        Binary::Implies => implies_rule(x, y),
        Binary::Add => add_rule(x, y),
        Binary::Sub => sub_rule(x, y),
        Binary::Sll | Binary::Srl | Binary::Sra => shift_rule(x, y),
        _ => Outcome::Stays,
    }
}

fn ite_rule(c: &Operand, x: &Operand, y: &Operand) -> Outcome
    ensures { result ≡ spec.ite_rule c.now x.now y.now }
{
    if is_number(c, 1) || is_same(x, y) {
        as_it_is(x)
    } else if is_number(c, 0) {
        as_it_is(y)
    } else {
        Outcome::Stays
    }
}

// Returns the operand where the operator changes nothing.
fn kept_where(whole: bool, x: &Operand) -> Outcome
    ensures { result ≡ spec.kept_where whole x.now }
{
    if whole { as_it_is(x) } else { Outcome::Stays }
}

// Applies the rules on one operand.
fn single_rule(op: &LineOp, x: &Operand) -> Outcome
    ensures { result ≡ spec.single_rule op.now x.now }
{
    match op {
        LineOp::Unary(Unary::Not) => Outcome::Argument(other_sign(&x.arg)),
        LineOp::Slice(high, low) => {
            kept_where(*low == 0 && u64::from(*high) + 1 == u64::from(x.width), x)
        },
        LineOp::Uext(count) | LineOp::Sext(count) => kept_where(*count == 0, x),
        _ => Outcome::Stays,
    }
}

// Applies the rules for a line whose operands aren't all constants.
fn rule(op: &LineOp, operands: &Operands) -> Outcome
    requires { spec.OperandsFit op.now operands.now }
    ensures { result ≡ spec.rule op.now operands.now }
{
    match operands {
        Operands::Empty => Outcome::Stays,
        Operands::Single(x) => single_rule(op, x),
        Operands::Pair(x, y) => match op {
            LineOp::Binary(o) => pair_rule(*o, x, y),
            _ => Outcome::Stays,
        },
        Operands::Triple(c, x, y) => match op {
            LineOp::Ite => ite_rule(c, x, y),
            _ => Outcome::Stays,
        },
    }
}

// Returns the result of an operator on one constant.
fn folded_single(op: &LineOp, word: Word) -> Option<Word>
    requires { spec.TakesWidth op.now word.width }
    ensures { result ≡ spec.folded_single op.now word }
{
    match op {
        LineOp::Unary(o) => Some(unary(*o, word)),
        LineOp::Slice(high, low) => Some(slice(word, *high, *low)),
        LineOp::Uext(count) => Some(uext(word, *count)),
        LineOp::Sext(count) => Some(sext(word, *count)),
        _ => None,
    }
}

// Returns the result of an operator on two constants.
fn folded_pair(o: Binary, x: &Operand, y: &Operand) -> Option<Word>
    requires { spec.OperandsFit (op.Binary o) (Pair x.now y.now) }
    ensures { result ≡ spec.both (binary_of o) x.now.constant y.now.constant }
{
    match x.constant {
        Some(a) => match y.constant {
            Some(b) => Some(binary(o, a, b)),
            None => None,
        },
        None => None,
    }
}

// Returns the result of an if-then-else on constants.
fn folded_triple(c: &Operand, x: &Operand, y: &Operand) -> Option<Word>
    requires { spec.OperandsFit op.Ite (Triple c.now x.now y.now) }
    ensures { result ≡ spec.all_three ite_of c.now.constant x.now.constant y.now.constant }
{
    match c.constant {
        Some(condition) => match x.constant {
            Some(a) => match y.constant {
                Some(b) => Some(ite(condition, a, b)),
                None => None,
            },
            None => None,
        },
        None => None,
    }
}

// Returns the result of an operator whose operands are all constants.
fn folded(op: &LineOp, operands: &Operands) -> Option<Word>
    requires { spec.OperandsFit op.now operands.now }
    ensures { result ≡ spec.folded op.now operands.now }
{
    match operands {
        Operands::Empty => None,
        Operands::Single(x) => match x.constant {
            Some(word) => folded_single(op, word),
            None => None,
        },
        Operands::Pair(x, y) => match op {
            LineOp::Binary(o) => folded_pair(*o, x, y),
            _ => None,
        },
        Operands::Triple(c, x, y) => match op {
            LineOp::Ite => folded_triple(c, x, y),
            _ => None,
        },
    }
}

/// Returns the outcome for an operator line with these operands, by the first rule that applies.
///
/// A line of another kind stays.
pub fn outcome(op: &LineOp, operands: &Operands) -> Outcome
    requires { spec.OperandsFit op.now operands.now }
    ensures { result ≡ spec.outcome op.now operands.now }
{
    match folded(op, operands) {
        Some(word) => Outcome::Constant(word),
        None => rule(op, operands),
    }
}
