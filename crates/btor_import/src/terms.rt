// The terms for the words of lines.
ghost use Rattle.std.specs.Prelude.{◌≡◌, ◌-◌, ◌^◌, IfOk, map};
ghost use Rattle.moxi_terms.specs.Tree.{apply, constant};
ghost use Rattle.moxi_terms.specs.View.{plain};
ghost use Rattle.btor_tree.specs.Fits.{sort_at, width_at};
ghost use Rattle.btor_tree.specs.Frame.{constant_word};
ghost use Rattle.word_core.specs.Words.{IsWord};
ghost use Rattle.btor_import.specs.Widths.{HasOperandWidth, IsWidth};
ghost use Rattle.btor_import.specs.Assembling.{number_at};
ghost use Rattle.btor_import.specs.Operators.{argument, binary_term, bits_from, falsity_term, is_one, line_term, not_term, operand_term, parity_term, truth_term, unary_term, word_term};
ghost use Rattle.moxi_terms.specs.Applications.{one, words_term, equal_term, choice_term};

use crate::numbers::{number_at, sort_at, width_at};
use crate::operators::{
    apply_one, apply_two, choice, equal, falsity_term, is_one, negated, ones_term, truth_term,
    word_term,
};
use btor_tree::{Arg, Args, Line, LineOp, Nodes, plain_arg};
use moxi_terms::{Datum, Term, TermOp, Terms};
use std::alloc::Global;
use text_core::NoMemory;
use word_core::{Binary, Unary};

/// Returns the argument at index `i`, or the first line where there is none.
pub(crate) fn argument(args: &Args, i: usize) -> Arg
    ensures { result ≡ argument args.now i }
{
    if i < args.len() {
        *args.at(i)
    } else {
        plain_arg(0)
    }
}

/// Builds the term of an operand, given the number of each line's variable.
pub(crate) fn operand(alloc: Global, numbers: &[u32], a: Arg) -> Result<Term, NoMemory>
    ensures { IfOk result (λ t. plain t ≡ operand_term (number_at numbers.now) a) }
{
    let variable = Term::Variable(number_at(numbers, a.line as usize), false);
    if a.negated {
        negated(alloc, variable)
    } else {
        Ok(variable)
    }
}

// The bits of an operand of this width, the lowest first.
fn bits_of(alloc: Global, width: u32, numbers: &[u32], a: Arg) -> Result<Terms, NoMemory>
    ensures { IfOk result (λ ts. map plain ts.items ≡ bits_from 0 width (operand_term (number_at numbers.now) a)) }
{
    let mut bits = Vec::with_capacity(alloc, width as usize)?;
    for i in 0..width {
        let whole = operand(alloc, numbers, a)?;
        let bit = apply_one(alloc, TermOp::Extract(i, i), whole)?;
        bits.push(bit)?;
    }
    Ok(bits)
}

// The exclusive or of all bits of an operand of this width.
fn parity(alloc: Global, width: u32, numbers: &[u32], a: Arg) -> Result<Term, NoMemory>
    ensures { IfOk result (λ t. plain t ≡ parity_term width (operand_term (number_at numbers.now) a)) }
{
    if width == 1 {
        operand(alloc, numbers, a)
    } else {
        let bits = bits_of(alloc, width, numbers, a)?;
        Ok(Term::Apply(TermOp::BvBinary(Binary::Xor), bits))
    }
}

// An operator on a term and a word of this width.
fn with_word(alloc: Global, op: Binary, a: Term, width: u32, bits: u128) -> Result<Term, NoMemory>
    requires { IsWord (record { width = width; bits = bits }) }
    ensures { IfOk result (λ t. plain t ≡ words_term op (plain a) (word_term width bits)) }
{
    let b = word_term(width, bits);
    apply_two(alloc, TermOp::BvBinary(op), a, b)
}

// One bit: whether all bits of a term of this width are 1.
fn all_ones(alloc: Global, a: Term, width: u32) -> Result<Term, NoMemory>
    requires { IsWord (record { width = width; bits = 0 }) }
    ensures { IfOk result (λ t. plain t ≡ truth_term (equal_term (plain a) (word_term width (2 ^ width - 1)))) }
{
    let ones = ones_term(width);
    let q = equal(alloc, a, ones)?;
    truth_term(alloc, q)
}

// One bit: whether some bit of a term of this width is 1.
fn some_one(alloc: Global, a: Term, width: u32) -> Result<Term, NoMemory>
    requires { IsWord (record { width = width; bits = 0 }) }
    ensures { IfOk result (λ t. plain t ≡ falsity_term (equal_term (plain a) (word_term width 0))) }
{
    let zeros = word_term(width, 0);
    let q = equal(alloc, a, zeros)?;
    falsity_term(alloc, q)
}

// An operator on an operand of this width.
#[tactic(auto, using(crate::proofs::Widths::zero_fits, crate::proofs::Widths::one_fits))]
fn unary_term(
    alloc: Global,
    op: Unary,
    width: u32,
    numbers: &[u32],
    a: Arg,
) -> Result<Term, NoMemory>
    requires { IsWidth width }
    ensures { IfOk result (λ t. plain t ≡ unary_term op width (operand_term (number_at numbers.now) a)) }
{
    let whole = operand(alloc, numbers, a)?;
    match op {
        Unary::Not => negated(alloc, whole),
        Unary::Neg => apply_one(alloc, TermOp::BvUnary(Unary::Neg), whole),
        Unary::Inc => with_word(alloc, Binary::Add, whole, width, 1),
        Unary::Dec => with_word(alloc, Binary::Sub, whole, width, 1),
        Unary::RedAnd => all_ones(alloc, whole, width),
        Unary::RedOr => some_one(alloc, whole, width),
        Unary::RedXor => parity(alloc, width, numbers, a),
    }
}

// One bit: whether a comparison of two terms is true.
fn compared(alloc: Global, op: Binary, a: Term, b: Term) -> Result<Term, NoMemory>
    ensures { IfOk result (λ t. plain t ≡ truth_term (words_term op (plain a) (plain b))) }
{
    let q = apply_two(alloc, TermOp::BvBinary(op), a, b)?;
    truth_term(alloc, q)
}

// The bitwise not of an operator on two terms.
fn negated_words(alloc: Global, op: Binary, a: Term, b: Term) -> Result<Term, NoMemory>
    ensures { IfOk result (λ t. plain t ≡ not_term (words_term op (plain a) (plain b))) }
{
    let whole = apply_two(alloc, TermOp::BvBinary(op), a, b)?;
    negated(alloc, whole)
}

fn implied(alloc: Global, a: Term, b: Term) -> Result<Term, NoMemory>
    ensures { IfOk result (λ t. plain t ≡ binary_term Binary.Implies (plain a) (plain b)) }
{
    let not_a = negated(alloc, a)?;
    apply_two(alloc, TermOp::BvBinary(Binary::Or), not_a, b)
}

// One bit: whether two terms are equal.
fn equal_bit(alloc: Global, a: Term, b: Term) -> Result<Term, NoMemory>
    ensures { IfOk result (λ t. plain t ≡ truth_term (equal_term (plain a) (plain b))) }
{
    let q = equal(alloc, a, b)?;
    truth_term(alloc, q)
}

fn unequal_bit(alloc: Global, a: Term, b: Term) -> Result<Term, NoMemory>
    ensures { IfOk result (λ t. plain t ≡ falsity_term (equal_term (plain a) (plain b))) }
{
    let q = equal(alloc, a, b)?;
    falsity_term(alloc, q)
}

// An operator on two terms.
fn binary_term(alloc: Global, op: Binary, a: Term, b: Term) -> Result<Term, NoMemory>
    ensures { IfOk result (λ t. plain t ≡ binary_term op (plain a) (plain b)) }
{
    match op {
        Binary::Implies => implied(alloc, a, b),
        Binary::Eq => equal_bit(alloc, a, b),
        Binary::Neq => unequal_bit(alloc, a, b),
        Binary::Ult
        | Binary::Ulte
        | Binary::Ugt
        | Binary::Ugte
        | Binary::Slt
        | Binary::Slte
        | Binary::Sgt
        | Binary::Sgte => compared(alloc, op, a, b),
        Binary::Nand => negated_words(alloc, Binary::And, a, b),
        Binary::Nor => negated_words(alloc, Binary::Or, a, b),
        Binary::Iff | Binary::Xnor => negated_words(alloc, Binary::Xor, a, b),
        Binary::Concat => apply_two(alloc, TermOp::Concat, a, b),
        _ => apply_two(alloc, TermOp::BvBinary(op), a, b),
    }
}

// An operator on the first two arguments.
fn binary_of(alloc: Global, op: Binary, numbers: &[u32], args: &Args) -> Result<Term, NoMemory>
    ensures { IfOk result (λ t. plain t ≡ binary_term op (operand_term (number_at numbers.now) (argument args.now 0)) (operand_term (number_at numbers.now) (argument args.now 1))) }
{
    let a = operand(alloc, numbers, argument(args, 0))?;
    let b = operand(alloc, numbers, argument(args, 1))?;
    binary_term(alloc, op, a, b)
}

// The second argument where the first one is 1, else the third.
fn choice_of(alloc: Global, numbers: &[u32], args: &Args) -> Result<Term, NoMemory>
    ensures { IfOk result (λ t. plain t ≡ choice_term (is_one (operand_term (number_at numbers.now) (argument args.now 0))) (operand_term (number_at numbers.now) (argument args.now 1)) (operand_term (number_at numbers.now) (argument args.now 2))) }
{
    let c = operand(alloc, numbers, argument(args, 0))?;
    let q = is_one(alloc, c)?;
    let a = operand(alloc, numbers, argument(args, 1))?;
    let b = operand(alloc, numbers, argument(args, 2))?;
    choice(alloc, q, a, b)
}

// An operator on the first argument.
fn applied(alloc: Global, op: TermOp, numbers: &[u32], args: &Args) -> Result<Term, NoMemory>
    ensures { IfOk result (λ t. plain t ≡ apply op (one (operand_term (number_at numbers.now) (argument args.now 0)))) }
{
    let a = operand(alloc, numbers, argument(args, 0))?;
    apply_one(alloc, op, a)
}

// The word of a constant line of this width.
#[tactic(auto, using(crate::proofs::Widths::zero_fits, crate::proofs::Widths::one_fits))]
fn constant_term(width: u32, op: &LineOp) -> Term
    requires { IsWidth width }
    ensures { plain result ≡ constant (Datum.Bits (constant_word width op.now)) }
{
    match op {
        LineOp::Constant(word) => Term::Constant(Datum::Bits(*word)),
        LineOp::One => word_term(width, 1),
        LineOp::Zero => word_term(width, 0),
        LineOp::Ones => ones_term(width),
        _ => word_term(1, 0),
    }
}

/// Builds the term of a constant or operator line, given the number of each line's variable.
pub(crate) fn line_term(
    alloc: Global,
    nodes: &Nodes,
    numbers: &[u32],
    line: &Line,
) -> Result<Term, NoMemory>
    requires sort { IsWidth (sort_at nodes.now line.now.sort) }
    requires operand { HasOperandWidth (width_at nodes.now) line.now.op line.now.args }
    ensures { IfOk result (λ t. plain t ≡ line_term (number_at numbers.now) (width_at nodes.now) (sort_at nodes.now line.now.sort) line.now.op line.now.args) }
{
    let args = &line.args;
    match &line.op {
        LineOp::Unary(op) => {
            let a = argument(args, 0);
            unary_term(alloc, *op, width_at(nodes, a.line as usize), numbers, a)
        }
        LineOp::Binary(op) => binary_of(alloc, *op, numbers, args),
        LineOp::Ite => choice_of(alloc, numbers, args),
        LineOp::Slice(high, low) => applied(alloc, TermOp::Extract(*high, *low), numbers, args),
        LineOp::Uext(n) => applied(alloc, TermOp::ZeroExtend(*n), numbers, args),
        LineOp::Sext(n) => applied(alloc, TermOp::SignExtend(*n), numbers, args),
        op => Ok(constant_term(sort_at(nodes, line.sort as usize), op)),
    }
}
