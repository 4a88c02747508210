// Single lines. An equal constant or operator line that exists is reused.
ghost use Rattle.std.specs.Prelude.{◌≡◌, ◌+◌, ◌<◌, IfOk};
ghost use Rattle.moxi_lines.specs.TermLines.{with_binary, with_constant, with_ite, with_signs, with_slice, with_unary, with_word, with_zeros};
ghost use Rattle.moxi_to_btor.specs.TermPutting.{CanPut, CanPutBinary, CanPutConstant, CanPutIte, CanPutSigns, CanPutSlice, CanPutUnary, CanPutZeros};

use btor_tree::{Args, Builder, LineOp, no_args, one_arg, plain_arg, three_args, two_args};
use text_core::NoMemory;
use word_core::{Binary, Unary, Word, binary_width};

/// Adds a constant or an operator of this width, after its sort, and returns its place.
pub fn put_word(builder: &mut Builder, op: LineOp, width: u32, args: Args) -> Result<u32, NoMemory>
    requires { CanPut builder.old op width args }
    ensures { IfOk result (λ p. (builder.new, p) ≡ with_word builder.old op width args) }
{
    let sort = builder.sort(width)?;
    builder.push(op, sort, args, None)
}

/// Adds a constant with this word, and returns its place.
pub fn put_constant(builder: &mut Builder, word: Word) -> Result<u32, NoMemory>
    requires { CanPutConstant builder.old word }
    ensures { IfOk result (λ p. (builder.new, p) ≡ with_constant builder.old word) }
{
    let width = word.width();
    put_word(builder, LineOp::Constant(word), width, no_args())
}

/// Adds a unary operator that keeps the width, and returns its place.
pub fn put_unary(builder: &mut Builder, op: Unary, p: u32) -> Result<u32, NoMemory>
    requires { CanPutUnary op builder.old p }
    ensures { IfOk result (λ q. (builder.new, q) ≡ with_unary op builder.old p) }
{
    let width = builder.width_of(p);
    let args = one_arg(plain_arg(p));
    put_word(builder, LineOp::Unary(op), width, args)
}

/// Adds a binary operator, and returns its place.
pub fn put_binary(builder: &mut Builder, op: Binary, p: u32, q: u32) -> Result<u32, NoMemory>
    requires { CanPutBinary op builder.old p q }
    ensures { IfOk result (λ r. (builder.new, r) ≡ with_binary op builder.old p q) }
{
    let width = binary_width(op, builder.width_of(p), builder.width_of(q));
    let args = two_args(plain_arg(p), plain_arg(q));
    put_word(builder, LineOp::Binary(op), width, args)
}

/// Adds a choice between the words at `p` and `q` by the truth value at `c`, and returns its place.
pub fn put_ite(builder: &mut Builder, c: u32, p: u32, q: u32) -> Result<u32, NoMemory>
    requires { CanPutIte builder.old c p q }
    ensures { IfOk result (λ r. (builder.new, r) ≡ with_ite builder.old c p q) }
{
    let width = builder.width_of(p);
    let args = three_args(plain_arg(c), plain_arg(p), plain_arg(q));
    put_word(builder, LineOp::Ite, width, args)
}

/// Adds the slice of a word from bit `high` to bit `low`, and returns its place.
pub fn put_slice(builder: &mut Builder, high: u32, low: u32, p: u32) -> Result<u32, NoMemory>
    requires { CanPutSlice high low builder.old p }
    ensures { IfOk result (λ q. (builder.new, q) ≡ with_slice high low builder.old p) }
{
    let args = one_arg(plain_arg(p));
    put_word(builder, LineOp::Slice(high, low), high - low + 1, args)
}

/// Adds a word extended by this many leading zeros, and returns its place.
///
/// For a count of 0 that is the word itself.
pub fn put_zeros(builder: &mut Builder, count: u32, p: u32) -> Result<u32, NoMemory>
    requires { CanPutZeros count builder.old p }
    ensures { IfOk result (λ q. (builder.new, q) ≡ with_zeros count builder.old p) }
{
    if count == 0 {
        return Ok(p);
    }
    let width = builder.width_of(p) + count;
    let args = one_arg(plain_arg(p));
    put_word(builder, LineOp::Uext(count), width, args)
}

/// Adds a word extended by this many leading copies of its sign bit, and returns its place.
///
/// For a count of 0 that is the word itself.
pub fn put_signs(builder: &mut Builder, count: u32, p: u32) -> Result<u32, NoMemory>
    requires { CanPutSigns count builder.old p }
    ensures { IfOk result (λ q. (builder.new, q) ≡ with_signs count builder.old p) }
{
    if count == 0 {
        return Ok(p);
    }
    let width = builder.width_of(p) + count;
    let args = one_arg(plain_arg(p));
    put_word(builder, LineOp::Sext(count), width, args)
}
