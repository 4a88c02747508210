// The content of a line, as a key of an ordered map.
ghost use Rattle.std.specs.Prelude.{◌≡◌, slice_index_or, IfOk, OnErr};
ghost use Rattle.std.specs.BTreeMap.{IsUnchanged, get};
ghost use Rattle.btor_tree.specs.Fits.{plain_arg};
ghost use Rattle.btor_tree.specs.Sharing.{op_kind, op_number, op_second};
ghost use Rattle.btor_tree.specs.LineKeys.{EntersKey, IsShort};
ghost use Rattle.btor_simplify.specs.Contents as spec;

use btor_tree::{Arg, Args, LineOp, plain_arg};
use std::cmp::Ord;
use std::collections::BTreeMap;
use std::collections::btree_map::Entry;
use text_core::NoMemory;

/// The content of a line: its kind with its own numbers, the index of its sort, and its arguments.
#[derive(Clone, Copy, PartialEq, Eq, PartialOrd, Ord)]
pub struct Content {
    first: Arg,
    second: Arg,
    number: u128,
    kind: u8,
    sort: u32,
    other: u32,
    third: Arg,
    count: u8,
}

/// Returns the content of a line of this kind, with this sort and these arguments.
pub fn content_of(op: &LineOp, sort: u32, args: &Args) -> Content
    requires { IsShort args.now }
    ensures { result ≡ spec.content_of op.now sort args.now }
{
    Content {
        first: arg_at(args, 0),
        second: arg_at(args, 1),
        number: op_number(op),
        kind: op_kind(op),
        sort,
        other: op_second(op),
        third: arg_at(args, 2),
        count: args.len() as u8,
    }
}

// Returns the argument at an index, or the first line where there is none.
fn arg_at(args: &Args, i: usize) -> Arg
    ensures { result ≡ slice_index_or args.now i (plain_arg 0) }
{
    if i < args.len() {
        *args.at(i)
    } else {
        plain_arg(0)
    }
}

// Returns a number for each kind of line.
fn op_kind(op: &LineOp) -> u8
    ensures { result ≡ op_kind op.now }
{
    match op {
        LineOp::Sort(_) => 1,
        LineOp::Constant(_) => 2,
        LineOp::One => 3,
        LineOp::Zero => 4,
        LineOp::Ones => 5,
        LineOp::Unary(_) => 6,
        LineOp::Binary(_) => 7,
        LineOp::Ite => 8,
        LineOp::Slice(_, _) => 9,
        LineOp::Uext(_) => 10,
        LineOp::Sext(_) => 11,
        _ => 0,
    }
}

// Returns the first number of the line itself.
fn op_number(op: &LineOp) -> u128
    ensures { result ≡ op_number op.now }
{
    match op {
        LineOp::Sort(width) => u128::from(*width),
        LineOp::Constant(word) => word.bits(),
        LineOp::Unary(operator) => u128::from(*operator as u8),
        LineOp::Binary(operator) => u128::from(*operator as u8),
        LineOp::Slice(high, _) => u128::from(*high),
        LineOp::Uext(count) => u128::from(*count),
        LineOp::Sext(count) => u128::from(*count),
        _ => 0,
    }
}

// Returns the second number of the line itself.
fn op_second(op: &LineOp) -> u32
    ensures { result ≡ op_second op.now }
{
    match op {
        LineOp::Constant(word) => word.width(),
        LineOp::Slice(_, low) => *low,
        _ => 0,
    }
}

/// Returns the map's value for the key.
///
/// Where there is none, inserts `place` for the key and returns None. The map stays unchanged where the key has a
/// value, and when out of memory.
pub fn enter<K: Ord + Drop>(
    places: &mut BTreeMap<K, u32>,
    key: K,
    place: u32,
) -> Result<Option<u32>, NoMemory>
    ensures found { IfOk result (λ found. found ≡ get K.cmp places.old key) }
    ensures entered { IfOk result (λ found. EntersKey K.cmp found key place places.old places.new) }
    ensures refused { OnErr result (IsUnchanged places.old places.new) }
{
    match places.entry(key) {
        Ok(Entry::Occupied(there)) => Ok(Some(*there.get())),
        Ok(Entry::Vacant(room)) => {
            room.insert(place);
            Ok(None)
        }
        Err(_) => Err(NoMemory),
    }
}
