// The lines of operators and of values.
ghost use Rattle.std.specs.Prelude.{◌≡◌, ◌<◌, length, IfOk};
ghost use Rattle.word_core.specs.Words.{IsWord};
ghost use Rattle.moxi_terms.specs.declared.data.Datum.TheVariants as datum;
ghost use Rattle.moxi_lines.specs.Codes.{choice_width, code_of};
ghost use Rattle.moxi_lines.specs.TermLines.{with_constant, with_datum, with_operator};
ghost use Rattle.moxi_to_btor.specs.TermPutting.{CanOperate, CanPutConstant, CanPutDatum};

use crate::chains::{neighbours, pairs_of, put_chain, put_compared, put_implied};
use crate::words::{
    put_binary, put_constant, put_ite, put_signs, put_slice, put_unary, put_word, put_zeros,
};
use btor_tree::{Builder, LineOp, no_args};
use moxi_terms::{Datum, Enumeration, TermOp};
use std::alloc::Global;
use text_core::{List, NoMemory};
use word_core::{Binary, Unary, Word};

/// Returns the least width, at least 1, whose words can number this many constants.
pub fn choice_width(count: usize) -> u32
    ensures { result ≡ choice_width count }
{
    let mut width = 1;
    let mut holds = 2;
    while holds < count as u128 {
        width += 1;
        holds *= 2;
    }
    width
}

// The constant line of an enumeration constant, which is the word of its index.
fn put_choice(
    builder: &mut Builder,
    enumerations: &List<Enumeration>,
    n: u32,
    i: u32,
) -> Result<u32, NoMemory>
    requires within { n < length enumerations.now }
    requires word { IsWord (code_of enumerations.now (datum.Constant n i)) }
    requires put { CanPutConstant builder.old (code_of enumerations.now (datum.Constant n i)) }
    ensures { IfOk result (λ p. (builder.new, p) ≡ with_constant builder.old (code_of enumerations.now (datum.Constant n i))) }
{
    let count = enumerations.at(n as usize).constants.len();
    match Word::of(choice_width(count), u128::from(i)) {
        Some(word) => put_constant(builder, word),
        None => Ok(0),
    }
}

/// Adds the constant line of a value, and returns its place.
///
/// A truth value becomes one or zero, and an enumeration constant becomes its index.
pub fn put_datum(
    builder: &mut Builder,
    enumerations: &List<Enumeration>,
    datum: Datum,
) -> Result<u32, NoMemory>
    requires { CanPutDatum enumerations.now builder.old datum }
    ensures { IfOk result (λ p. (builder.new, p) ≡ with_datum enumerations.now builder.old datum) }
{
    match datum {
        Datum::Truth(true) => put_word(builder, LineOp::One, 1, no_args()),
        Datum::Truth(false) => put_word(builder, LineOp::Zero, 1, no_args()),
        Datum::Bits(word) => put_constant(builder, word),
        Datum::Constant(n, i) => put_choice(builder, enumerations, n, i),
    }
}

/// Adds the lines of an operator on the words at these places, and returns the place of the result.
pub fn put_operator(
    alloc: Global,
    builder: &mut Builder,
    op: TermOp,
    places: &[u32],
) -> Result<u32, NoMemory>
    requires { CanOperate op builder.old places.now }
    ensures { IfOk result (λ p. (builder.new, p) ≡ with_operator op builder.old places.now) }
{
    match op {
        TermOp::Not => match places {
            [p] => put_unary(builder, Unary::Not, *p),
            _ => Ok(0),
        },
        TermOp::And => put_chain(builder, Binary::And, places),
        TermOp::Or => put_chain(builder, Binary::Or, places),
        TermOp::Xor => put_chain(builder, Binary::Xor, places),
        TermOp::Implies => put_implied(builder, places),
        TermOp::Equal => match places.split_first() {
            // Most equations have two arguments.
            Some((first, [other])) => put_binary(builder, Binary::Eq, *first, *other),
            Some((first, rest)) => {
                let pairs = neighbours(alloc, *first, rest)?;
                put_compared(alloc, builder, Binary::Eq, &pairs)
            }
            None => Ok(0),
        },
        TermOp::Distinct => {
            let pairs = pairs_of(alloc, places)?;
            put_compared(alloc, builder, Binary::Neq, &pairs)
        }
        TermOp::Ite => match places {
            [c, p, q] => put_ite(builder, *c, *p, *q),
            _ => Ok(0),
        },
        TermOp::Concat => match places {
            [p, q] => put_binary(builder, Binary::Concat, *p, *q),
            _ => Ok(0),
        },
        TermOp::Extract(high, low) => match places {
            [p] => put_slice(builder, high, low, *p),
            _ => Ok(0),
        },
        TermOp::ZeroExtend(count) => match places {
            [p] => put_zeros(builder, count, *p),
            _ => Ok(0),
        },
        TermOp::SignExtend(count) => match places {
            [p] => put_signs(builder, count, *p),
            _ => Ok(0),
        },
        TermOp::BvUnary(unary) => match places {
            [p] => put_unary(builder, unary, *p),
            _ => Ok(0),
        },
        TermOp::BvBinary(binary) => put_chain(builder, binary, places),
    }
}
