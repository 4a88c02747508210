// Applications of MoXI operators.
ghost use Rattle.std.specs.Prelude.{◌≡◌, ◌<◌, ◌+◌, ◌++◌, ◌∷◌, [], IfOk, map, vec_len, vec_capacity};
ghost use Rattle.moxi_terms.specs.Tree.{apply, constant, trees_of, variable};
ghost use Rattle.moxi_terms.specs.Operators.{nothing};
ghost use Rattle.moxi_terms.specs.View.{plain};
ghost use Rattle.smv_script.specs.Operators.{not_term, infix_term, repeated, sign_op, logical_op, signed_op, infix_op};
ghost use Rattle.smv_script_terms.specs.Questions.{answered_value, subject_tree};
ghost use Rattle.smv_script_terms.specs.Operands.{several};
ghost use Rattle.smv_text.specs.declared.operators.Infix.TheVariants.{Implies, Iff, Xnor};
ghost use Rattle.moxi_terms.specs.Applications.{one, two, equal_term, choice_term};

use crate::coding::{Question, Subject};
use crate::constants::subject_term;
use moxi_terms::{Datum, Term, TermOp, Terms};
use smv_text::{Infix, Prefix};
use std::alloc::Global;
use text_core::NoMemory;
use word_core::{Binary, Unary};

/// Returns the stand-in for a missing value.
pub(crate) fn nothing() -> Term
    ensures { plain result ≡ constant nothing }
{
    Term::Constant(Datum::Truth(false))
}

pub(crate) fn apply_one(alloc: Global, op: TermOp, a: Term) -> Result<Term, NoMemory>
    ensures { IfOk result (λ t. plain t ≡ apply op (one (plain a))) }
{
    let mut terms = Vec::with_capacity(alloc, 1)?;
    terms.push_reserved(a);
    Ok(Term::Apply(op, terms))
}

pub(crate) fn apply_two(alloc: Global, op: TermOp, a: Term, b: Term) -> Result<Term, NoMemory>
    ensures { IfOk result (λ t. plain t ≡ apply op (two (plain a) (plain b))) }
{
    let mut terms = Vec::with_capacity(alloc, 2)?;
    terms.push_reserved(a);
    terms.push_reserved(b);
    Ok(Term::Apply(op, terms))
}

pub(crate) fn choice(alloc: Global, c: Term, a: Term, b: Term) -> Result<Term, NoMemory>
    ensures { IfOk result (λ t. plain t ≡ choice_term (plain c) (plain a) (plain b)) }
{
    let mut terms = Vec::with_capacity(alloc, 3)?;
    terms.push_reserved(c);
    terms.push_reserved(a);
    terms.push_reserved(b);
    Ok(Term::Apply(TermOp::Ite, terms))
}

pub(crate) fn equal(alloc: Global, a: Term, b: Term) -> Result<Term, NoMemory>
    ensures { IfOk result (λ t. plain t ≡ equal_term (plain a) (plain b)) }
{
    apply_two(alloc, TermOp::Equal, a, b)
}

/// Returns the negation of a truth value.
pub fn negate(alloc: Global, a: Term) -> Result<Term, NoMemory>
    ensures { IfOk result (λ t. plain t ≡ not_term (plain a)) }
{
    apply_one(alloc, TermOp::Not, a)
}

/// Returns one application of the operator to all terms.
///
/// Without terms it is the truth value `empty`; a single term is returned itself.
pub(crate) fn several(op: TermOp, empty: bool, terms: Terms) -> Term
    ensures { plain result ≡ several op empty (trees_of (map plain terms.items)) }
{
    let mut terms = terms;
    if terms.len() > 1 {
        return Term::Apply(op, terms);
    }
    match terms.pop() {
        Some(a) => a,
        None => Term::Constant(Datum::Truth(empty)),
    }
}

/// Returns the term that answers the question for an expression that is not a set, given the term of its value.
pub(crate) fn answer(alloc: Global, question: Question, value: Term) -> Result<Term, NoMemory>
    ensures { IfOk result (λ t. plain t ≡ answered_value question (plain value)) }
{
    match question {
        Question::Value => Ok(value),
        Question::Permits(subject) => equal(alloc, subject_term(subject), value),
    }
}

// Adds the tested term to a list that has room for it.
fn push_subject(terms: &mut Terms, subject: Subject)
    requires { vec_len terms.old < vec_capacity terms.old }
    ensures terms { map plain terms.new.items ≡ map plain terms.old.items ++ subject_tree subject ∷ [] }
    ensures len { vec_len terms.new ≡ vec_len terms.old + 1 }
    ensures capacity { vec_capacity terms.new ≡ vec_capacity terms.old }
{
    match subject {
        Subject::Variable(v, primed) => terms.push_reserved(Term::Variable(v, primed)),
        Subject::Symbol(s) => terms.push_reserved(Term::Constant(Datum::Constant(0, s))),
        Subject::Bound(k) => terms.push_reserved(Term::Bound(k)),
    }
}

// The tested term, with room for another one after it. Terms are large, so each is built in place.
fn tested(alloc: Global, subject: Subject) -> Result<Terms, NoMemory>
    ensures terms { IfOk result (λ ts. map plain ts.items ≡ subject_tree subject ∷ []) }
    ensures room { IfOk result (λ ts. vec_len ts < vec_capacity ts) }
{
    let mut terms = Vec::with_capacity(alloc, 2)?;
    push_subject(&mut terms, subject);
    Ok(terms)
}

/// Returns the term that answers the question for an expression that is this variable.
pub(crate) fn answer_variable(
    alloc: Global,
    question: Question,
    v: u32,
    primed: bool,
) -> Result<Term, NoMemory>
    ensures { IfOk result (λ t. plain t ≡ answered_value question (variable v primed)) }
{
    match question {
        Question::Value => Ok(Term::Variable(v, primed)),
        Question::Permits(subject) => {
            let mut terms = tested(alloc, subject)?;
            terms.push_reserved(Term::Variable(v, primed));
            Ok(Term::Apply(TermOp::Equal, terms))
        }
    }
}

/// Returns the term that answers the question for an expression that is this constant.
pub(crate) fn answer_constant(
    alloc: Global,
    question: Question,
    datum: Datum,
) -> Result<Term, NoMemory>
    ensures { IfOk result (λ t. plain t ≡ answered_value question (constant datum)) }
{
    match question {
        Question::Value => Ok(Term::Constant(datum)),
        Question::Permits(subject) => {
            let mut terms = tested(alloc, subject)?;
            terms.push_reserved(Term::Constant(datum));
            Ok(Term::Apply(TermOp::Equal, terms))
        }
    }
}

// ---- prefix operators

/// Returns the MoXI operator of a prefix operator.
///
/// `words` is whether the operand is a word.
pub(crate) fn sign_operator(sign: Prefix, words: bool) -> TermOp
    ensures { result ≡ sign_op sign words }
{
    match sign {
        Prefix::Not => {
            if words {
                TermOp::BvUnary(Unary::Not)
            } else {
                TermOp::Not
            }
        }
        Prefix::Minus => TermOp::BvUnary(Unary::Neg),
    }
}

/// Returns the term with an operator applied `count` times.
pub(crate) fn repeated(alloc: Global, op: TermOp, count: u32, a: Term) -> Result<Term, NoMemory>
    ensures { IfOk result (λ t. plain t ≡ repeated op count (plain a)) }
{
    let mut whole = a;
    for _ in 0..count {
        whole = apply_one(alloc, op, whole)?;
    }
    Ok(whole)
}

// ---- binary operators

fn logical(words: bool, op: TermOp, binary: Binary) -> TermOp
    ensures { result ≡ logical_op words op binary }
{
    if words { TermOp::BvBinary(binary) } else { op }
}

fn signed(words: bool, signed: Binary, unsigned: Binary) -> TermOp
    ensures { result ≡ signed_op words signed unsigned }
{
    TermOp::BvBinary(if words { unsigned } else { signed })
}

/// Returns the MoXI operator of a binary operator, which also joins a chain of one operator.
///
/// `words` is whether the operands are words.
pub(crate) fn infix_operator(op: Infix, words: bool) -> TermOp
    ensures { result ≡ infix_op op words }
{
    match op {
        Infix::And => logical(words, TermOp::And, Binary::And),
        Infix::Or => logical(words, TermOp::Or, Binary::Or),
        Infix::Xor => logical(words, TermOp::Xor, Binary::Xor),
        Infix::Equal => TermOp::Equal,
        Infix::Less => signed(words, Binary::Slt, Binary::Ult),
        Infix::Greater => signed(words, Binary::Sgt, Binary::Ugt),
        Infix::LessEq => signed(words, Binary::Slte, Binary::Ulte),
        Infix::GreaterEq => signed(words, Binary::Sgte, Binary::Ugte),
        Infix::Plus => TermOp::BvBinary(Binary::Add),
        Infix::Minus => TermOp::BvBinary(Binary::Sub),
        Infix::Times => TermOp::BvBinary(Binary::Mul),
        Infix::Divide => signed(words, Binary::Sdiv, Binary::Udiv),
        Infix::Mod => signed(words, Binary::Srem, Binary::Urem),
        Infix::Concat => TermOp::Concat,
        Infix::ShiftLeft => TermOp::BvBinary(Binary::Sll),
        Infix::ShiftRight => TermOp::BvBinary(Binary::Srl),
        Infix::Implies | Infix::Iff | Infix::Xnor | Infix::Unequal | Infix::Member | Infix::Union =>
            TermOp::And,
    }
}

pub(crate) fn implication(alloc: Global, words: bool, a: Term, b: Term) -> Result<Term, NoMemory>
    ensures { IfOk result (λ t. plain t ≡ infix_term Implies words (plain a) (plain b)) }
{
    if words {
        let c = apply_one(alloc, TermOp::BvUnary(Unary::Not), a)?;
        apply_two(alloc, TermOp::BvBinary(Binary::Or), c, b)
    } else {
        apply_two(alloc, TermOp::Implies, a, b)
    }
}

fn equivalence(alloc: Global, words: bool, a: Term, b: Term) -> Result<Term, NoMemory>
    ensures { IfOk result (λ t. plain t ≡ infix_term Iff words (plain a) (plain b)) }
{
    if words {
        let c = apply_two(alloc, TermOp::BvBinary(Binary::Xor), a, b)?;
        apply_one(alloc, TermOp::BvUnary(Unary::Not), c)
    } else {
        equal(alloc, a, b)
    }
}

fn exclusive_nor(alloc: Global, words: bool, a: Term, b: Term) -> Result<Term, NoMemory>
    ensures { IfOk result (λ t. plain t ≡ infix_term Xnor words (plain a) (plain b)) }
{
    if words {
        let c = apply_two(alloc, TermOp::BvBinary(Binary::Xor), a, b)?;
        apply_one(alloc, TermOp::BvUnary(Unary::Not), c)
    } else {
        let c = apply_two(alloc, TermOp::Xor, a, b)?;
        negate(alloc, c)
    }
}

/// Returns the term of a binary operator.
///
/// `words` is whether the operands are words. `in` and `union` have no meaning here.
pub(crate) fn infix(
    alloc: Global,
    op: Infix,
    words: bool,
    a: Term,
    b: Term,
) -> Result<Term, NoMemory>
    ensures { IfOk result (λ t. plain t ≡ infix_term op words (plain a) (plain b)) }
{
    match op {
        Infix::Implies => implication(alloc, words, a, b),
        Infix::Iff => equivalence(alloc, words, a, b),
        Infix::Xnor => exclusive_nor(alloc, words, a, b),
        Infix::Unequal => {
            let c = equal(alloc, a, b)?;
            negate(alloc, c)
        }
        Infix::Member => Ok(nothing()),
        Infix::Union => Ok(nothing()),
        Infix::Or
        | Infix::Xor
        | Infix::And
        | Infix::Equal
        | Infix::Less
        | Infix::Greater
        | Infix::LessEq
        | Infix::GreaterEq
        | Infix::ShiftLeft
        | Infix::ShiftRight
        | Infix::Plus
        | Infix::Minus
        | Infix::Times
        | Infix::Divide
        | Infix::Mod => apply_two(alloc, infix_operator(op, words), a, b),
        Infix::Concat => apply_two(alloc, TermOp::Concat, a, b),
    }
}
