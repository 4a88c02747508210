// Lines over several words: chains from the left and from the right, and one line for each pair.
ghost use Rattle.std.specs.Prelude.{◌≡◌, ◌∷◌, ◌++◌, [], map, IfOk, OnOk};
ghost use Rattle.moxi_terms.specs.declared.data.TermOp.TheVariants as op;
ghost use Rattle.moxi_lines.specs.TermLines.{chain_lines, compared_lines, folded_lines, neighbours, paired_lines, pairs_of, with_operator};
ghost use Rattle.moxi_to_btor.specs.TermPutting.{CanChain, CanCompare, CanFold, CanImply, CanImplyAll, CanPair, implied_onto};

use crate::words::put_binary;
use btor_tree::Builder;
use std::alloc::Global;
use text_core::NoMemory;
use word_core::Binary;

/// Adds the lines of an operator folded from the left over `first` and the other words, and returns the place of the
/// result.
pub fn put_folded(
    builder: &mut Builder,
    op: Binary,
    first: u32,
    rest: &[u32],
) -> Result<u32, NoMemory>
    requires { CanFold op (builder.old, first) rest.now }
    ensures { IfOk result (λ p. (builder.new, p) ≡ folded_lines op (builder.old, first) rest.now) }
{
    let mut chain = first;
    for p in rest {
        chain = put_binary(builder, op, chain, *p)?;
    }
    Ok(chain)
}

/// Adds the lines of an operator folded from the left over one or more words, and returns the place of the result.
pub fn put_chain(builder: &mut Builder, op: Binary, places: &[u32]) -> Result<u32, NoMemory>
    requires { CanChain op builder.old places.now }
    ensures { IfOk result (λ p. (builder.new, p) ≡ chain_lines op builder.old places.now) }
{
    match places.split_first() {
        Some((first, rest)) => put_folded(builder, op, *first, rest),
        None => Ok(0),
    }
}

// The lines of implications from each of these words, the last one first, to the word at `last`.
fn put_implied_onto(builder: &mut Builder, before: &[u32], last: u32) -> Result<u32, NoMemory>
    requires { CanImply before.now (builder.old, last) }
    ensures { IfOk result (λ p. (builder.new, p) ≡ implied_onto before.now (builder.old, last)) }
{
    let mut chain = last;
    let mut rest = before;
    while let Some((p, more)) = rest.split_last() {
        chain = put_binary(builder, Binary::Implies, *p, chain)?;
        rest = more;
    }
    Ok(chain)
}

/// Adds the lines of a right-associative implication between one or more words, and returns the place of the result.
#[tactic(auto, using(crate::proofs::Folding::implied_is))]
pub fn put_implied(builder: &mut Builder, places: &[u32]) -> Result<u32, NoMemory>
    requires { CanImplyAll builder.old places.now }
    ensures { IfOk result (λ p. (builder.new, p) ≡ with_operator op.Implies builder.old places.now) }
{
    match places.split_last() {
        Some((last, before)) => put_implied_onto(builder, before, *last),
        None => Ok(0),
    }
}

/// Appends a place.
pub fn put_place(places: &mut Vec<u32>, place: u32) -> Result<(), NoMemory>
    ensures { OnOk result (places.new.items ≡ places.old.items ++ place ∷ []) }
{
    Ok(places.push(place)?)
}

fn put_pair(pairs: &mut Vec<(u32, u32)>, p: u32, q: u32) -> Result<(), NoMemory>
    ensures { OnOk result (pairs.new.items ≡ pairs.old.items ++ (p, q) ∷ []) }
{
    Ok(pairs.push((p, q))?)
}

// The lines of an operator on the words of each pair.
fn put_pairs(
    alloc: Global,
    builder: &mut Builder,
    op: Binary,
    pairs: &[(u32, u32)],
) -> Result<Vec<u32>, NoMemory>
    requires { CanPair op builder.old pairs.now }
    ensures { IfOk result (λ places. (builder.new, places.items) ≡ paired_lines op builder.old pairs.now) }
{
    let mut places = Vec::new(alloc);
    for (p, q) in pairs {
        let place = put_binary(builder, op, *p, *q)?;
        put_place(&mut places, place)?;
    }
    Ok(places)
}

/// Adds the lines of whether a comparison holds for the words of all pairs, and returns the place of the result.
pub fn put_compared(
    alloc: Global,
    builder: &mut Builder,
    op: Binary,
    pairs: &[(u32, u32)],
) -> Result<u32, NoMemory>
    requires { CanCompare op builder.old pairs.now }
    ensures { IfOk result (λ p. (builder.new, p) ≡ compared_lines op builder.old pairs.now) }
{
    let places = put_pairs(alloc, builder, op, pairs)?;
    put_chain(builder, Binary::And, &places)
}

/// Returns each place paired with the next one.
pub fn neighbours(alloc: Global, first: u32, rest: &[u32]) -> Result<Vec<(u32, u32)>, NoMemory>
    ensures { IfOk result (λ pairs. pairs.items ≡ neighbours first rest.now) }
{
    let mut pairs = Vec::new(alloc);
    let mut before = first;
    for p in rest {
        put_pair(&mut pairs, before, *p)?;
        before = *p;
    }
    Ok(pairs)
}

// Appends one place paired with each of the others.
fn put_with_each(pairs: &mut Vec<(u32, u32)>, p: u32, others: &[u32]) -> Result<(), NoMemory>
    ensures { OnOk result (pairs.new.items ≡ pairs.old.items ++ map (λ q. (p, q)) others.now) }
{
    for q in others {
        put_pair(pairs, p, *q)?;
    }
    Ok(())
}

/// Returns each place paired with each later one.
pub fn pairs_of(alloc: Global, places: &[u32]) -> Result<Vec<(u32, u32)>, NoMemory>
    ensures { IfOk result (λ pairs. pairs.items ≡ pairs_of places.now) }
{
    let mut pairs = Vec::new(alloc);
    let mut rest = places;
    while let Some((p, others)) = rest.split_first() {
        put_with_each(&mut pairs, *p, others)?;
        rest = others;
    }
    Ok(pairs)
}
