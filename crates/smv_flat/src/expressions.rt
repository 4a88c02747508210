// Expressions over the numbers of items and symbols.

use smv_intervals::Ty;
use smv_text::{Function, Infix, Prefix};
use word_core::Word;

/// A typed expression of a model, with the number of an item or a symbol in place of each path.
///
/// A set has no type.
#[cycle(flat)]
#[derive(Drop)]
pub struct FlatExpr {
    pub ty: Option<Ty>,
    pub shape: FlatShape,
}

/// The shape of a flat expression.
///
/// It has no `next(e)`; instead the items in `e` are marked.
#[cycle(flat)]
#[derive(Drop)]
pub enum FlatShape {
    True,
    False,
    Number(u64),
    Literal(Word),
    /// The number of a symbol.
    Symbol(u32),
    /// The number of an item, and whether it is under `next`.
    Item(u32, bool),
    Prefix(Prefix, u32, Box<FlatExpr>),
    Chain(Box<FlatExpr>, FlatLinks),
    Choice(FlatBranches, Box<FlatExpr>),
    Case(FlatBranches),
    Select(Box<FlatExpr>, u64, u64),
    Call(Function, FlatExprs),
    Set(FlatExprs),
    Range(i64, i64),
}

/// An operator of a chain, and its right operand.
#[cycle(flat)]
#[derive(Drop)]
pub struct FlatLink {
    pub op: Infix,
    pub operand: FlatExpr,
}

/// A condition, and the value that applies where it is true.
#[cycle(flat)]
#[derive(Drop)]
pub struct FlatBranch {
    pub when: FlatExpr,
    pub value: FlatExpr,
}

/// A list of flat expressions, in order.
pub type FlatExprs = Vec<FlatExpr>;

/// The links of a chain, in order.
pub type FlatLinks = Vec<FlatLink>;

/// A list of branches, in order.
pub type FlatBranches = Vec<FlatBranch>;
