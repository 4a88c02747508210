// The size and the height of a check. The size of each formula is counted once, even if several queries name it.
ghost use Rattle.std.specs.Prelude.{◌≡◌, ◌<◌, ◌≤◌, ◌++◌, ◌∷◌, [], List, ℕ, map, length, IfOk, slice_index_or, false, if◌then◌else◌};
ghost use Rattle.moxi_terms.specs.View.{plain};
ghost use Rattle.moxi_scripts.specs.Script.{plain_check, plain_formula};
ghost use Rattle.moxi_flat.specs.Systems.{check_height, check_size, formulas_height};
ghost use Rattle.moxi_flat.specs.Terms.{term_size};
ghost use Rattle.moxi_instantiate.specs.CheckCounts.{AreMarked, all_numbers, named_sum, numbers_of, queries_sum, query_sum, size_at, unnamed_sum};
ghost use Rattle.moxi_instantiate.specs.Counting.{AreCounted, capped, known};

use crate::counts::{MOST, cap, greater, sum};
use crate::functions::put;
use crate::terms::{term_height, term_size};
use moxi_scripts::{Check, Formula, Query};
use std::alloc::Global;
use text_core::NoMemory;

/// A kind of formulas that queries name.
#[derive(Clone, Copy)]
pub(crate) enum FormulaKind {
    Assumption,
    Current,
    Reachable,
}

fn formula_sizes(alloc: Global, sizes: &[u64], formulas: &[Formula]) -> Result<Vec<u64>, NoMemory>
    ensures { IfOk result (λ counts. counts.items ≡ map (λ f. capped (term_size (known sizes.now) (plain f.term))) formulas.now) }
{
    let mut counts = Vec::new(alloc);
    for formula in formulas {
        let size = term_size(sizes, &formula.term);
        put(&mut counts, size)?;
    }
    Ok(counts)
}

fn size_at(counts: &[u64], number: u64) -> u64
    ensures value { result ≡ capped (size_at counts.now number) }
    ensures bound { result ≤ MOST }
{
    match counts.get(number as usize) {
        Some(count) => cap(*count),
        None => cap(1),
    }
}

fn named_size(counts: &[u64], numbers: &[u64]) -> u64
    ensures value { result ≡ capped (named_sum counts.now numbers.now) }
    ensures bound { result ≤ MOST }
{
    let mut total = 0;
    for number in numbers {
        total = sum(total, size_at(counts, *number));
    }
    total
}

#[tactic(auto, using(crate::proofs::Capping::cap_sum))]
fn query_size(assumptions: &[u64], currents: &[u64], reachables: &[u64], query: &Query) -> u64
    ensures value { result ≡ capped (query_sum assumptions.now currents.now reachables.now query.now) }
    ensures bound { result ≤ MOST }
{
    let reached = named_size(reachables, query.reachables.as_slice());
    let first = sum(named_size(currents, query.currents.as_slice()), reached);
    sum(
        1,
        sum(named_size(assumptions, query.assumptions.as_slice()), first),
    )
}

fn queries_size(assumptions: &[u64], currents: &[u64], reachables: &[u64], queries: &[Query]) -> u64
    ensures value { result ≡ capped (queries_sum assumptions.now currents.now reachables.now queries.now) }
    ensures bound { result ≤ MOST }
{
    let mut total = 0;
    for query in queries {
        total = sum(total, query_size(assumptions, currents, reachables, query));
    }
    total
}

fn numbers_of<'a>(kind: FormulaKind, query: &'a Query) -> &'a [u64]
    ensures { result.now ≡ numbers_of kind query.now }
{
    match kind {
        FormulaKind::Assumption => query.assumptions.as_slice(),
        FormulaKind::Current => query.currents.as_slice(),
        FormulaKind::Reachable => query.reachables.as_slice(),
    }
}

fn mark(marks: &mut Vec<bool>, number: u64)
    ensures long { length marks.new.items ≡ length marks.old.items }
    ensures marked { (named : List ℕ) → AreMarked marks.old.items named → AreMarked marks.new.items (named ++ number ∷ []) }
{
    let i = number as usize;
    if i < marks.len() {
        marks[i] = true;
    }
}

fn mark_all(marks: &mut Vec<bool>, numbers: &[u64])
    ensures long { length marks.new.items ≡ length marks.old.items }
    ensures marked { (named : List ℕ) → AreMarked marks.old.items named → AreMarked marks.new.items (named ++ numbers.now) }
{
    for number in numbers {
        mark(marks, *number);
    }
}

// For each formula of a kind, whether some query names it.
fn marks_of(
    alloc: Global,
    kind: FormulaKind,
    count: usize,
    queries: &[Query],
) -> Result<Vec<bool>, NoMemory>
    ensures long { IfOk result (λ marks. length marks.items ≡ count) }
    ensures marked { IfOk result (λ marks. AreMarked marks.items (all_numbers kind queries.now)) }
{
    let mut marks = vec![in alloc; false; count]?;
    for query in queries {
        mark_all(&mut marks, numbers_of(kind, query));
    }
    Ok(marks)
}

fn is_marked(marks: &[bool], k: usize) -> bool
    requires { k < length marks.now }
    ensures { result ≡ slice_index_or marks.now k false }
{
    marks[k]
}

fn unless(marked: bool, count: u64) -> u64
    requires { count ≤ MOST }
    ensures value { result ≡ (if marked then 0 else count) }
    ensures bound { result ≤ MOST }
{
    if marked { 0 } else { count }
}

fn unmarked_size(counts: &[u64], marks: &[bool]) -> u64
    requires long { length marks.now ≡ length counts.now }
    ensures value { (named : List ℕ) → AreMarked marks.now named → result ≡ capped (unnamed_sum named 0 counts.now) }
    ensures bound { result ≤ MOST }
{
    let mut total = 0;
    for (k, size) in counts.iter().enumerate() {
        let count = cap(*size);
        let marked = is_marked(marks, k);
        total = sum(total, unless(marked, count));
    }
    total
}

// The size of the formulas of a kind that no query names.
fn unnamed_size(
    alloc: Global,
    kind: FormulaKind,
    counts: &[u64],
    queries: &[Query],
) -> Result<u64, NoMemory>
    ensures value { IfOk result (λ size. size ≡ capped (unnamed_sum (all_numbers kind queries.now) 0 counts.now)) }
    ensures bound { IfOk result (λ size. size ≤ MOST) }
{
    let marks = marks_of(alloc, kind, counts.len(), queries)?;
    Ok(unmarked_size(counts, &marks))
}

/// Returns the size of a check, given the sizes of the functions' bodies.
///
/// It is `MOST` where the size is greater.
pub fn check_size(alloc: Global, sizes: &[u64], check: &Check) -> Result<u64, NoMemory>
    ensures value { (calls : ℕ → ℕ) → AreCounted calls sizes.now → IfOk result (λ size. size ≡ capped (check_size calls (plain_check check.now))) }
    ensures bound { IfOk result (λ size. size ≤ MOST) }
{
    let queries = check.queries.as_slice();
    let assumptions = formula_sizes(alloc, sizes, check.assumptions.as_slice())?;
    let currents = formula_sizes(alloc, sizes, check.currents.as_slice())?;
    let reachables = formula_sizes(alloc, sizes, check.reachables.as_slice())?;
    let named = queries_size(&assumptions, &currents, &reachables, queries);
    let assumed = unnamed_size(alloc, FormulaKind::Assumption, &assumptions, queries)?;
    let current = unnamed_size(alloc, FormulaKind::Current, &currents, queries)?;
    let reachable = unnamed_size(alloc, FormulaKind::Reachable, &reachables, queries)?;
    Ok(sum(named, sum(assumed, sum(current, reachable))))
}

fn formulas_height(heights: &[u64], formulas: &[Formula]) -> u64
    ensures value { result ≡ capped (formulas_height (known heights.now) (map plain_formula formulas.now)) }
    ensures bound { result ≤ MOST }
{
    let mut most = 0;
    for formula in formulas {
        most = greater(most, term_height(heights, &formula.term));
    }
    most
}

/// Returns the height of a check, given the heights of the functions' bodies.
///
/// It is `MOST` where the height is greater.
pub fn check_height(heights: &[u64], check: &Check) -> u64
    ensures value { (calls : ℕ → ℕ) → AreCounted calls heights.now → result ≡ capped (check_height calls (plain_check check.now)) }
    ensures bound { result ≤ MOST }
{
    let reachables = formulas_height(heights, check.reachables.as_slice());
    let first = greater(
        formulas_height(heights, check.currents.as_slice()),
        reachables,
    );
    greater(
        formulas_height(heights, check.assumptions.as_slice()),
        first,
    )
}
