// The levels of the grammar of expressions, from the loosest to the tightest.

use crate::operators::Prefix;

/// The class of operators that join the operands of a chain.
#[derive(Clone, Copy, PartialEq, Eq)]
pub enum OperatorClass {
    /// `->`
    Implications,
    /// `<->`
    Equivalences,
    /// `|`, `xor`, `xnor`
    Disjunctions,
    /// `&`
    Conjunctions,
    /// `=`, `!=`, `<`, `>`, `<=`, `>=`
    Comparisons,
    /// `in`
    Memberships,
    /// `union`
    Unions,
    /// `<<`, `>>`
    Shifts,
    /// `+`, `-`
    Sums,
    /// `*`, `/`, `mod`
    Products,
    /// `::`
    Concatenations,
}

/// A precedence level of the expression grammar.
///
/// The order of the levels is this profile's own choice. It does not matter for an expression with brackets around each
/// operation.
#[derive(Clone, Copy, PartialEq, Eq)]
pub enum Level {
    /// A chain of operators.
    Chain(OperatorClass),
    /// `c ? v : w`
    Choice,
    /// `l..h`
    Range,
    /// A prefix operator before an operand.
    Before(Prefix),
    /// `w[h:l]`
    Selection,
}

/// All levels, from the loosest to the tightest.
///
/// Names, constants, functions, cases, sets and brackets stand below the last level.
pub const LEVELS: [Level; 16] = [
    Level::Chain(OperatorClass::Implications),
    Level::Chain(OperatorClass::Equivalences),
    Level::Choice,
    Level::Chain(OperatorClass::Disjunctions),
    Level::Chain(OperatorClass::Conjunctions),
    Level::Chain(OperatorClass::Comparisons),
    Level::Chain(OperatorClass::Memberships),
    Level::Chain(OperatorClass::Unions),
    Level::Range,
    Level::Chain(OperatorClass::Shifts),
    Level::Chain(OperatorClass::Sums),
    Level::Chain(OperatorClass::Products),
    Level::Before(Prefix::Minus),
    Level::Chain(OperatorClass::Concatenations),
    Level::Before(Prefix::Not),
    Level::Selection,
];
