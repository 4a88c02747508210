// One line.
ghost use Rattle.std.specs.Prelude.{◌≡◌};
ghost use Rattle.btor_tree.specs.Fits as fits;

use crate::args::Args;
use text_core::Name;
use word_core::{Binary, Unary, Word};

/// The greatest id of a line, 2^31 - 1.
pub const GREATEST_ID: u32 = 2147483647;

/// The kind of a line, with its own numbers.
///
/// `Sort` has the width of a bit vector, and `Slice` the highest and the lowest bit that it keeps. `Uext` and
/// `Sext` have the number of added bits.
#[derive(Drop)]
pub enum LineOp {
    Sort(u32),
    Input,
    State,
    Constant(Word),
    One,
    Zero,
    Ones,
    Init,
    Next,
    Bad,
    Constraint,
    Output,
    Unary(Unary),
    Binary(Binary),
    Ite,
    Slice(u32, u32),
    Uext(u32),
    Sext(u32),
}

/// A line of a BTOR2 text.
///
/// `sort` is the index of its sort line, or 0 where its kind has no sort. `symbol` is the symbol in which the line
/// ends, if there is one.
#[derive(Drop)]
pub struct Line {
    pub id: u32,
    pub op: LineOp,
    pub sort: u32,
    pub args: Args,
    pub symbol: Option<Name>,
}

/// Returns whether a line of this kind has a word.
pub fn has_word(op: &LineOp) -> bool
    ensures { result ≡ fits.has_word op.now }
{
    match op {
        LineOp::Sort(_)
        | LineOp::Init
        | LineOp::Next
        | LineOp::Bad
        | LineOp::Constraint
        | LineOp::Output => false,
        _ => true,
    }
}

/// Returns the width of a sort line, or 0 for other lines.
pub fn sort_width(op: &LineOp) -> u32
    ensures { result ≡ fits.sort_width op.now }
{
    match op {
        LineOp::Sort(width) => *width,
        _ => 0,
    }
}
