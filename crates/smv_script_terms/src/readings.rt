// The ways to read a chain.
ghost use Rattle.std.specs.Prelude.{◌≡◌, map};
ghost use Rattle.smv_flat.specs.FlatTree.{flat_links_of, flat_are_implies};
ghost use Rattle.smv_flat.specs.FlatView.{plain_flat_link};
ghost use Rattle.smv_meaning.specs.Expressions.{is_implies};
ghost use Rattle.smv_meaning.specs.Types.{is_union};
ghost use Rattle.smv_script.specs.Operators.{joins_with};
ghost use Rattle.smv_script.specs.Terms.{are_flat_unions, all_join_with};
ghost use Rattle.smv_script_terms.specs.Readings.{reading};

use crate::operands::is_word;
use smv_flat::FlatLink;
use smv_text::Infix;

/// The way to read a chain.
///
/// `Single` is one operand and `Union` a set. `Implied` is a right-associative chain of `->`, and `Left` a
/// left-associative chain. `OneOperator` is one application of an operator to all operands, with whether they are
/// words.
#[derive(Clone, Copy)]
pub(crate) enum Reading {
    Single,
    Union,
    Implied,
    OneOperator(Infix, bool),
    Left,
}

fn is_union(op: Infix) -> bool
    ensures { result ≡ is_union op }
{
    match op {
        Infix::Union => true,
        _ => false,
    }
}

fn is_implies(op: Infix) -> bool
    ensures { result ≡ is_implies op }
{
    match op {
        Infix::Implies => true,
        _ => false,
    }
}

fn joins_with(op: Infix, other: Infix) -> bool
    ensures { result ≡ joins_with op other }
{
    match op {
        Infix::And => matches!(other, Infix::And),
        Infix::Or => matches!(other, Infix::Or),
        Infix::Xor => matches!(other, Infix::Xor),
        Infix::Plus => matches!(other, Infix::Plus),
        Infix::Times => matches!(other, Infix::Times),
        _ => false,
    }
}

fn are_unions(links: &[FlatLink]) -> bool
    ensures { result ≡ are_flat_unions (flat_links_of (map plain_flat_link links.now)) }
{
    for link in links {
        if !is_union(link.op) {
            return false;
        }
    }
    true
}

fn are_implies(links: &[FlatLink]) -> bool
    ensures { result ≡ flat_are_implies (flat_links_of (map plain_flat_link links.now)) }
{
    for link in links {
        if !is_implies(link.op) {
            return false;
        }
    }
    true
}

fn all_join_with(op: Infix, links: &[FlatLink]) -> bool
    ensures { result ≡ all_join_with op (flat_links_of (map plain_flat_link links.now)) }
{
    for link in links {
        if !joins_with(op, link.op) {
            return false;
        }
    }
    true
}

/// Returns the way to read a chain with these links after its first operand.
pub(crate) fn reading_of(links: &[FlatLink]) -> Reading
    ensures { result ≡ reading (flat_links_of (map plain_flat_link links.now)) }
{
    match links.first() {
        None => Reading::Single,
        Some(link) => {
            if are_unions(links) {
                Reading::Union
            } else if are_implies(links) {
                Reading::Implied
            } else if all_join_with(link.op, links) {
                Reading::OneOperator(link.op, is_word(&link.operand))
            } else {
                Reading::Left
            }
        }
    }
}
