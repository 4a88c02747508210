// The operators and functions of expressions (NuSMV 2.6 User Manual, 2.2).
ghost use Rattle.std.specs.Prelude.{◌≡◌};
ghost use Rattle.smv_text.specs.Levels.{infix_at, class_of, infix_kind, kind_bytes, function_at, function_word};

use crate::level::OperatorClass;
use crate::token::{Reserved, Sign, TokenKind, sign_bytes, word_bytes};

/// A prefix operator.
#[derive(Clone, Copy, PartialEq, Eq)]
pub enum Prefix {
    /// `!`
    Not,
    /// `-`
    Minus,
}

/// A binary operator (NuSMV 2.6 User Manual, 2.2).
#[derive(Clone, Copy, PartialEq, Eq)]
pub enum Infix {
    /// `->`
    Implies,
    /// `<->`
    Iff,
    /// `|`
    Or,
    /// `xor`
    Xor,
    /// `xnor`
    Xnor,
    /// `&`
    And,
    /// `=`
    Equal,
    /// `!=`
    Unequal,
    /// `<`
    Less,
    /// `>`
    Greater,
    /// `<=`
    LessEq,
    /// `>=`
    GreaterEq,
    /// `in`
    Member,
    /// `union`
    Union,
    /// `<<`
    ShiftLeft,
    /// `>>`
    ShiftRight,
    /// `+`
    Plus,
    /// `-`
    Minus,
    /// `*`
    Times,
    /// `/`
    Divide,
    /// `mod`
    Mod,
    /// `::`
    Concat,
}

/// A built-in function (NuSMV 2.6 User Manual, 2.2).
#[derive(Clone, Copy, PartialEq, Eq)]
pub enum Function {
    /// `bool`
    Bool,
    /// `word1`
    Word1,
    /// `toint`
    Toint,
    /// `uwconst`
    Uwconst,
    /// `extend`
    Extend,
    /// `resize`
    Resize,
    /// `count`
    Count,
    /// `max`
    Max,
    /// `min`
    Min,
    /// `abs`
    Abs,
}

/// Returns the binary operator that a token spells, or None where it spells none.
#[inline(always)]
pub fn infix_at(kind: &TokenKind) -> Option<Infix>
    ensures { result ≡ infix_at kind.now }
{
    match kind {
        TokenKind::Sign(sign) => match sign {
            Sign::Implies => Some(Infix::Implies),
            Sign::Iff => Some(Infix::Iff),
            Sign::Or => Some(Infix::Or),
            Sign::And => Some(Infix::And),
            Sign::Equal => Some(Infix::Equal),
            Sign::Unequal => Some(Infix::Unequal),
            Sign::Less => Some(Infix::Less),
            Sign::Greater => Some(Infix::Greater),
            Sign::LessEqual => Some(Infix::LessEq),
            Sign::GreaterEqual => Some(Infix::GreaterEq),
            Sign::ShiftLeft => Some(Infix::ShiftLeft),
            Sign::ShiftRight => Some(Infix::ShiftRight),
            Sign::Plus => Some(Infix::Plus),
            Sign::Minus => Some(Infix::Minus),
            Sign::Times => Some(Infix::Times),
            Sign::Divide => Some(Infix::Divide),
            Sign::Concat => Some(Infix::Concat),
            _ => None,
        },
        TokenKind::Reserved(word) => match word {
            Reserved::Xor => Some(Infix::Xor),
            Reserved::Xnor => Some(Infix::Xnor),
            Reserved::In => Some(Infix::Member),
            Reserved::Union => Some(Infix::Union),
            Reserved::Mod => Some(Infix::Mod),
            _ => None,
        },
        _ => None,
    }
}

/// Returns the operator's class: the chains of one class form one precedence level.
#[inline(always)]
pub fn class_of(op: Infix) -> OperatorClass
    ensures { result ≡ class_of op }
{
    match op {
        Infix::Implies => OperatorClass::Implications,
        Infix::Iff => OperatorClass::Equivalences,
        Infix::Or => OperatorClass::Disjunctions,
        Infix::Xor => OperatorClass::Disjunctions,
        Infix::Xnor => OperatorClass::Disjunctions,
        Infix::And => OperatorClass::Conjunctions,
        Infix::Equal => OperatorClass::Comparisons,
        Infix::Unequal => OperatorClass::Comparisons,
        Infix::Less => OperatorClass::Comparisons,
        Infix::Greater => OperatorClass::Comparisons,
        Infix::LessEq => OperatorClass::Comparisons,
        Infix::GreaterEq => OperatorClass::Comparisons,
        Infix::Member => OperatorClass::Memberships,
        Infix::Union => OperatorClass::Unions,
        Infix::ShiftLeft => OperatorClass::Shifts,
        Infix::ShiftRight => OperatorClass::Shifts,
        Infix::Plus => OperatorClass::Sums,
        Infix::Minus => OperatorClass::Sums,
        Infix::Times => OperatorClass::Products,
        Infix::Divide => OperatorClass::Products,
        Infix::Mod => OperatorClass::Products,
        Infix::Concat => OperatorClass::Concatenations,
    }
}

/// Returns the operator's spelling.
pub fn infix_bytes(op: Infix) -> &'static [u8]
    ensures { result.now ≡ kind_bytes (infix_kind op) }
{
    match op {
        Infix::Implies => sign_bytes(Sign::Implies),
        Infix::Iff => sign_bytes(Sign::Iff),
        Infix::Or => sign_bytes(Sign::Or),
        Infix::Xor => word_bytes(Reserved::Xor),
        Infix::Xnor => word_bytes(Reserved::Xnor),
        Infix::And => sign_bytes(Sign::And),
        Infix::Equal => sign_bytes(Sign::Equal),
        Infix::Unequal => sign_bytes(Sign::Unequal),
        Infix::Less => sign_bytes(Sign::Less),
        Infix::Greater => sign_bytes(Sign::Greater),
        Infix::LessEq => sign_bytes(Sign::LessEqual),
        Infix::GreaterEq => sign_bytes(Sign::GreaterEqual),
        Infix::Member => word_bytes(Reserved::In),
        Infix::Union => word_bytes(Reserved::Union),
        Infix::ShiftLeft => sign_bytes(Sign::ShiftLeft),
        Infix::ShiftRight => sign_bytes(Sign::ShiftRight),
        Infix::Plus => sign_bytes(Sign::Plus),
        Infix::Minus => sign_bytes(Sign::Minus),
        Infix::Times => sign_bytes(Sign::Times),
        Infix::Divide => sign_bytes(Sign::Divide),
        Infix::Mod => word_bytes(Reserved::Mod),
        Infix::Concat => sign_bytes(Sign::Concat),
    }
}

/// Returns the built-in function that a token names, or None where it names none.
pub fn function_at(kind: &TokenKind) -> Option<Function>
    ensures { result ≡ function_at kind.now }
{
    match kind {
        TokenKind::Reserved(word) => match word {
            Reserved::Bool => Some(Function::Bool),
            Reserved::Word1 => Some(Function::Word1),
            Reserved::Toint => Some(Function::Toint),
            Reserved::Uwconst => Some(Function::Uwconst),
            Reserved::Extend => Some(Function::Extend),
            Reserved::Resize => Some(Function::Resize),
            Reserved::Count => Some(Function::Count),
            Reserved::Max => Some(Function::Max),
            Reserved::Min => Some(Function::Min),
            Reserved::Abs => Some(Function::Abs),
            _ => None,
        },
        _ => None,
    }
}

/// Returns the reserved word of a built-in function.
pub fn function_word(function: Function) -> Reserved
    ensures { result ≡ function_word function }
{
    match function {
        Function::Bool => Reserved::Bool,
        Function::Word1 => Reserved::Word1,
        Function::Toint => Reserved::Toint,
        Function::Uwconst => Reserved::Uwconst,
        Function::Extend => Reserved::Extend,
        Function::Resize => Reserved::Resize,
        Function::Count => Reserved::Count,
        Function::Max => Reserved::Max,
        Function::Min => Reserved::Min,
        Function::Abs => Reserved::Abs,
    }
}
