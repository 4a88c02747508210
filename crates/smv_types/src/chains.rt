// Left-associative chains: each prefix that ends with an operand is checked as a node of its own.
ghost use Rattle.std.specs.Prelude.{◌≡◌, false, map, None, Some, option_map};
ghost use Rattle.smv_text.specs.Tree.{links_of};
ghost use Rattle.smv_text.specs.View.{plain, plain_link};
ghost use Rattle.smv_meaning.specs.Types.{infix_fits, divides, shifts, is_union, logical_fits, number_fits};
ghost use Rattle.smv_meaning.specs.Checks.{across, behind, are_unions};
ghost use Rattle.smv_meaning.specs.Expressions.{is_implies, are_implies, is_from_right};
ghost use Rattle.smv_intervals.specs.View.{seen};
ghost use Rattle.smv_types.specs.View.{permissions_seen};
ghost use Rattle.smv_types.specs.Outcome.{Answers};
ghost use Rattle.smv_types.specs.Steps.{front_step, is_concat};

use crate::arguments::{divisor_of, is_divisor, number_of};
use crate::ends::{check, refusal};
use crate::positions::Permissions;
use smv_intervals::{Ty, infix_type};
use smv_text::{Expr, Infix, Link};
use text_core::kinds::smv;
use text_core::{Place, Refusal};
use word_core::WIDEST;

pub(crate) fn logical_fits(t: Ty, u: Ty) -> bool
    ensures { result ≡ logical_fits (seen t) (seen u) }
{
    (t.is_truth() && u.is_truth()) || t.is_as_wide(u)
}

fn number_fits(t: Ty, u: Ty) -> bool
    ensures { result ≡ number_fits (seen t) (seen u) }
{
    (t.is_integer() && u.is_integer()) || t.is_as_wide(u)
}

// Whether the operand types fit the operator.
fn infix_fits(op: Infix, t: Ty, u: Ty) -> bool
    ensures { result ≡ infix_fits op (seen t) (seen u) }
{
    match op {
        Infix::Equal | Infix::Unequal | Infix::Member | Infix::Union => t.is_same(u),
        Infix::Less
        | Infix::Greater
        | Infix::LessEq
        | Infix::GreaterEq
        | Infix::Plus
        | Infix::Minus
        | Infix::Times
        | Infix::Divide
        | Infix::Mod => number_fits(t, u),
        Infix::ShiftLeft | Infix::ShiftRight => t.is_word(),
        Infix::Concat => t.is_word() && u.is_word(),
        // Logical operators.
        _ => logical_fits(t, u),
    }
}

// The right operand of a division must be a divisor.
fn divides(op: Infix, operand: &Expr) -> bool
    ensures { result ≡ divides op (plain operand.now) }
{
    match op {
        Infix::Divide | Infix::Mod => is_divisor(operand),
        _ => true,
    }
}

// The right operand of a shift must be a number from 0 to the width.
fn shifts(op: Infix, t: Ty, operand: &Expr) -> bool
    ensures { result ≡ shifts op (seen t) (plain operand.now) }
{
    match op {
        Infix::ShiftLeft | Infix::ShiftRight => match number_of(operand) {
            Some(n) => n <= t.width() as u64,
            None => false,
        },
        _ => true,
    }
}

fn is_union(op: Infix) -> bool
    ensures { result ≡ is_union op }
{
    match op {
        Infix::Union => true,
        _ => false,
    }
}

fn is_concat(op: Infix) -> bool
    ensures { result ≡ is_concat op }
{
    match op {
        Infix::Concat => true,
        _ => false,
    }
}

// Concatenation of words.
fn joined(
    at: Permissions,
    place: Place,
    t: Ty,
    u: Ty,
    operand: &Expr,
) -> Result<Option<Ty>, Refusal>
    ensures { Answers result (front_step Infix.Concat (permissions_seen at) place (Some (seen t)) (Some (seen u)) (plain operand.now)) }
{
    check(smv::TYPE_CLASH, place, t.is_word() && u.is_word())?;
    let width = t.width() as u64 + u.width() as u64;
    check(smv::BAD_SELECT, place, 1 <= width && width <= WIDEST as u64)?;
    Ok(Some(Ty::Bits(width as u32)))
}

fn combined(
    op: Infix,
    at: Permissions,
    place: Place,
    t: Ty,
    u: Ty,
    operand: &Expr,
) -> Result<Option<Ty>, Refusal>
    requires { is_concat op ≡ false }
    ensures { Answers result (front_step op (permissions_seen at) place (Some (seen t)) (Some (seen u)) (plain operand.now)) }
{
    check(smv::TYPE_CLASH, place, infix_fits(op, t, u))?;
    match infix_type(op, t, u, divisor_of(operand)) {
        None => Err(refusal(smv::INT_TOO_WIDE, place)),
        Some(whole) => {
            check(smv::SET_HERE, place, !is_union(op) || at.sets)?;
            check(smv::BAD_DIVISOR, place, divides(op, operand))?;
            check(smv::BAD_SHIFT, place, shifts(op, t, operand))?;
            Ok(Some(whole))
        }
    }
}

// Where an operand has no type, only the position of a set and the form of a divisor are checked.
fn untyped(op: Infix, at: Permissions, place: Place, operand: &Expr) -> Result<Option<Ty>, Refusal>
    ensures { Answers result (front_step op (permissions_seen at) place None None (plain operand.now)) }
{
    check(smv::SET_HERE, place, !is_union(op) || at.sets)?;
    check(smv::BAD_DIVISOR, place, divides(op, operand))?;
    Ok(None)
}

/// Returns the type of a chain's prefix that ends with this operand, or None where it has no type.
///
/// `left` is the type of the part before the operator, `right` the type of the operand. `Err` is the refusal of the
/// node's own first failing check.
pub fn check_front(
    op: Infix,
    at: Permissions,
    place: Place,
    left: Option<Ty>,
    right: Option<Ty>,
    operand: &Expr,
) -> Result<Option<Ty>, Refusal>
    ensures { Answers result (front_step op (permissions_seen at) place (option_map seen left) (option_map seen right) (plain operand.now)) }
{
    match left {
        None => untyped(op, at, place, operand),
        Some(t) => match right {
            None => untyped(op, at, place, operand),
            Some(u) => {
                if is_concat(op) {
                    joined(at, place, t, u, operand)
                } else {
                    combined(op, at, place, t, u, operand)
                }
            }
        },
    }
}

/// Returns whether the chain is right-associative: all its operators are `->`.
pub fn is_from_right(links: &[Link]) -> bool
    ensures { result ≡ is_from_right (links_of (map plain_link links.now)) }
{
    match links.split_first() {
        None => false,
        Some((link, rest)) => is_implies(link.op) && are_implies(rest),
    }
}

fn are_implies(links: &[Link]) -> bool
    ensures { result ≡ are_implies (links_of (map plain_link links.now)) }
{
    for link in links {
        if !is_implies(link.op) {
            return false;
        }
    }
    true
}

fn is_implies(op: Infix) -> bool
    ensures { result ≡ is_implies op }
{
    match op {
        Infix::Implies => true,
        _ => false,
    }
}

/// Returns whether all operators of the chain are `union`.
pub fn are_unions(links: &[Link]) -> bool
    ensures { result ≡ are_unions (links_of (map plain_link links.now)) }
{
    for link in links {
        if !is_union(link.op) {
            return false;
        }
    }
    true
}

/// Returns the position of a chain's first operand.
///
/// In a chain of `union` it may be a set where the whole chain may be one.
pub fn first_standing(links: &[Link], at: Permissions) -> Permissions
    ensures { permissions_seen result ≡ across (links_of (map plain_link links.now)) (permissions_seen at) }
{
    if are_unions(links) {
        at
    } else {
        at.without_sets()
    }
}

/// Returns the position of the operand after an operator. After `in`, a set is allowed.
pub fn operand_standing(op: Infix, at: Permissions) -> Permissions
    ensures { permissions_seen result ≡ behind op (permissions_seen at) }
{
    match op {
        Infix::Member => at.with_sets(),
        Infix::Union => at,
        _ => at.without_sets(),
    }
}
