// The precedence levels, and the tokens that begin or continue an expression.

ghost use Rattle.std.specs.Prelude.{◌≡◌, ◌<◌, option_map, IfSome, suc, length};
ghost use Rattle.smv_text.specs.Levels.{infix_of, function_at, class_number};
ghost use Rattle.smv_grammar.specs.Machine.{calling, leader_of};
ghost use Rattle.smv_grammar.specs.Ranks.{class_rank, rank_of, first_rank, level_at};
ghost use Rattle.smv_grammar.specs.Reading.{operator_after};

use smv_text::{
    Function, Infix, LEVELS, Level, OperatorClass, Reserved, Sign, Token, TokenKind, class_of,
    function_at, infix_at,
};
use word_core::Word;

/// The kind of expression that a token begins, below all precedence levels.
pub enum Leader {
    /// A number.
    Number(u64),
    /// A word literal.
    Literal(Word),
    /// `TRUE` or `FALSE`.
    Truth(bool),
    /// A path of names.
    Path,
    /// An expression in round brackets.
    Bracket,
    /// A set in braces.
    Set,
    /// `next`
    Next,
    /// `case`
    Case,
    /// A built-in function.
    Call(Function),
    /// No expression.
    Nothing,
}

/// Returns the kind of expression that a token begins.
pub fn leader_of(kind: &TokenKind) -> Leader
    ensures { result ≡ leader_of kind.now }
{
    match kind {
        TokenKind::Number(n) => Leader::Number(*n),
        TokenKind::Literal(w) => Leader::Literal(*w),
        TokenKind::Ident(_) => Leader::Path,
        TokenKind::Sign(sign) => match sign {
            Sign::Open => Leader::Bracket,
            Sign::OpenBrace => Leader::Set,
            _ => Leader::Nothing,
        },
        TokenKind::Reserved(word) => match word {
            Reserved::True => Leader::Truth(true),
            Reserved::False => Leader::Truth(false),
            Reserved::Itself => Leader::Path,
            Reserved::Next => Leader::Next,
            Reserved::Case => Leader::Case,
            _ => called(kind),
        },
        TokenKind::Refused => Leader::Nothing,
    }
}

fn called(kind: &TokenKind) -> Leader
    ensures { result ≡ calling (function_at kind.now) }
{
    match function_at(kind) {
        Some(function) => Leader::Call(function),
        None => Leader::Nothing,
    }
}

#[inline(always)]
fn class_number(class: OperatorClass) -> u8
    ensures { result ≡ class_number class }
{
    class as u8
}

#[inline(always)]
fn class_rank(class: OperatorClass) -> usize
    ensures { result ≡ class_rank class }
{
    match class {
        OperatorClass::Concatenations => 3,
        OperatorClass::Products => 5,
        OperatorClass::Sums => 6,
        OperatorClass::Shifts => 7,
        OperatorClass::Unions => 9,
        OperatorClass::Memberships => 10,
        OperatorClass::Comparisons => 11,
        OperatorClass::Conjunctions => 12,
        OperatorClass::Disjunctions => 13,
        OperatorClass::Equivalences => 15,
        OperatorClass::Implications => 16,
    }
}

/// Returns the operator of this class that a token spells.
#[inline(always)]
#[tactic(auto, using(smv_text::specs::laws::Operators::infix_is))]
fn infix_of(class: OperatorClass, kind: &TokenKind) -> Option<Infix>
    ensures { result ≡ infix_of class kind.now }
{
    match infix_at(kind) {
        None => None,
        Some(op) => {
            if class_number(class_of(op)) == class_number(class) {
                Some(op)
            } else {
                None
            }
        }
    }
}

/// Returns the operator of this class that comes first and the tokens after it, or None where no such operator comes
/// first.
#[inline(always)]
pub fn operator_after(tokens: &[Token], class: OperatorClass) -> Option<(Infix, &[Token])>
    ensures found { option_map (λ r. (r.0, r.1.now)) result ≡ operator_after class tokens.now }
    ensures shorter { IfSome result (λ r. length tokens.now ≡ suc (length r.1.now)) }
{
    match tokens.split_first() {
        Some((token, rest)) => match infix_of(class, &token.kind) {
            Some(op) => Some((op, rest)),
            None => None,
        },
        None => None,
    }
}

// The rank of the level that a token continues: 17 where it continues none, 0 where it continues a name or an integer.
#[inline(always)]
fn rank_of(kind: &TokenKind) -> usize
    ensures { result ≡ rank_of kind.now }
{
    match infix_at(kind) {
        Some(op) => class_rank(class_of(op)),
        None => match kind {
            TokenKind::Sign(sign) => match sign {
                Sign::Question => 14,
                Sign::OpenBracket => 1,
                Sign::Dot => 0,
                Sign::Range => 0,
                _ => 17,
            },
            _ => 17,
        },
    }
}

/// Returns the rank of the level that the first token continues, or 17 where there is no token.
#[inline(always)]
pub fn first_rank(tokens: &[Token]) -> usize
    ensures { result ≡ first_rank tokens.now }
{
    match tokens.first() {
        Some(token) => rank_of(&token.kind),
        None => 17,
    }
}

/// Returns the level above n others, so that level 0 binds the tightest.
///
/// Its rank is n + 1.
pub fn level_at(n: usize) -> Level
    requires { n < 16 }
    ensures { result ≡ level_at n }
{
    LEVELS[15 - n]
}
