// The content of a line, as a key of an ordered map.
ghost use Rattle.std.specs.Prelude.{◌≡◌, ◌<◌, ◌+◌, ◌*◌, ◌^◌, slice_index_or};
ghost use Rattle.btor_tree.specs.Fits.{plain_arg};
ghost use Rattle.btor_tree.specs.Sharing.{is_equal_line, is_shared, op_kind, op_number, op_second, same_op};
ghost use Rattle.btor_tree.specs.LineKeys as spec;

use crate::args::{Arg, Args, plain_arg};
use crate::lines::{Line, LineOp};
use std::cmp::Reverse;

/// The content of a shared line, as a key.
///
/// It has the first three arguments and their number, the number of the line's kind, the line's own numbers, and
/// its sort. Keys compare the most distinctive fields first. Later lines come first, since most pushes have late
/// lines as arguments.
#[derive(Clone, Copy, PartialEq, Eq, PartialOrd, Ord)]
pub struct LineKey {
    first: Reverse<Arg>,
    second: Reverse<Arg>,
    number: u128,
    kind: u8,
    sort: u32,
    other: u32,
    third: Arg,
    count: u8,
}

/// Returns the key of a line's content.
pub fn line_key(op: &LineOp, sort: u32, args: &Args) -> LineKey
    requires { spec.IsShort args.now }
    ensures { result ≡ spec.key_of op.now sort args.now }
{
    LineKey {
        first: Reverse(arg_at(args, 0)),
        second: Reverse(arg_at(args, 1)),
        number: op_number(op),
        kind: op_kind(op),
        sort,
        other: op_second(op),
        third: arg_at(args, 2),
        count: args.len() as u8,
    }
}

/// Returns a hash of the arguments: twice the line of the first, plus the line of the second.
///
/// It is different for most lists of arguments.
pub fn slot_of(args: &Args) -> usize
    ensures value { result ≡ 2 * (slice_index_or args.now 0 (plain_arg 0)).line + (slice_index_or args.now 1 (plain_arg 0)).line }
    ensures small { result < 2 ^ 63 }
{
    2 * arg_at(args, 0).line as usize + arg_at(args, 1).line as usize
}

/// Returns whether the lines have the same content.
pub fn is_equal_line(line: &Line, other: &Line) -> bool
    ensures { result ≡ is_equal_line line.now.op line.now.sort line.now.args other.now }
{
    line.sort == other.sort && line.args.is_same(&other.args) && is_same_op(&line.op, &other.op)
}

fn is_same_op(op: &LineOp, other: &LineOp) -> bool
    ensures { result ≡ same_op op.now other.now }
{
    op_kind(op) == op_kind(other)
        && op_number(op) == op_number(other)
        && op_second(op) == op_second(other)
}

// The argument at an index, or the first line where there is none.
fn arg_at(args: &Args, i: usize) -> Arg
    ensures { result ≡ slice_index_or args.now i (plain_arg 0) }
{
    if i < args.len() {
        *args.at(i)
    } else {
        plain_arg(0)
    }
}

/// Returns whether lines of this kind are shared: one line is enough for all with the same content.
pub fn is_shared(op: &LineOp) -> bool
    ensures { result ≡ is_shared op.now }
{
    match op {
        LineOp::Input
        | LineOp::State
        | LineOp::Init
        | LineOp::Next
        | LineOp::Bad
        | LineOp::Constraint
        | LineOp::Output => false,
        _ => true,
    }
}

// A number for each kind of line that is shared.
fn op_kind(op: &LineOp) -> u8
    ensures { result ≡ op_kind op.now }
{
    match op {
        LineOp::Sort(_) => 1,
        LineOp::Constant(_) => 2,
        LineOp::One => 3,
        LineOp::Zero => 4,
        LineOp::Ones => 5,
        LineOp::Unary(_) => 6,
        LineOp::Binary(_) => 7,
        LineOp::Ite => 8,
        LineOp::Slice(_, _) => 9,
        LineOp::Uext(_) => 10,
        LineOp::Sext(_) => 11,
        _ => 0,
    }
}

// The first number of the line itself.
fn op_number(op: &LineOp) -> u128
    ensures { result ≡ op_number op.now }
{
    match op {
        LineOp::Sort(width) => u128::from(*width),
        LineOp::Constant(word) => word.bits(),
        LineOp::Unary(operator) => u128::from(*operator as u8),
        LineOp::Binary(operator) => u128::from(*operator as u8),
        LineOp::Slice(high, _) => u128::from(*high),
        LineOp::Uext(count) => u128::from(*count),
        LineOp::Sext(count) => u128::from(*count),
        _ => 0,
    }
}

// The second number of the line itself.
fn op_second(op: &LineOp) -> u32
    ensures { result ≡ op_second op.now }
{
    match op {
        LineOp::Constant(word) => word.width(),
        LineOp::Slice(_, low) => *low,
        _ => 0,
    }
}
