// The tests of a query of a flat system at a step.
ghost use Rattle.std.specs.Prelude.{◌≡◌, ◌==◌, ◌<◌, ◌&&◌, ◌||◌, ℕ, Bool, length, map, true, if◌then◌else◌, IfOk, OnOk};
ghost use Rattle.std.specs.List.{AllByRecursion, list_all, list_any};
ghost use Rattle.moxi_terms.specs.Value.{at};
ghost use Rattle.moxi_scripts.specs.Script.{formula_at, plain_formula};
ghost use Rattle.moxi_scripts.specs.Asking.{query_tests};
ghost use Rattle.moxi_scripts.specs.Meeting.{assumptions_hold, currents_hold, ends_reached, first_failing, is_true, reaches};
ghost use Rattle.moxi_judge.specs.FlatTests.{AreMarks, AreTruths, CanJudge, Fits, IsQueryOf, Remember, free_script};

use crate::terms::is_true_at;
use moxi_instantiate::FlatSystem;
use moxi_scripts::{Formulas, Query};
use moxi_terms::Env;
use std::alloc::Global;
use text_core::{Clause, NoMemory};

// Whether all formulas with these numbers are true.
fn all_true(
    alloc: Global,
    system: &FlatSystem<'_>,
    formulas: &Formulas,
    numbers: &[u64],
    now: &Env,
) -> Result<bool, NoMemory>
    requires there { AllByRecursion (λ (i : ℕ). i < length formulas.now) numbers.now }
    requires truths { AreTruths system.now (map plain_formula formulas.now) }
    requires fit { Fits system.now now.now }
    ensures { IfOk result (λ all. all ≡ list_all (λ i. is_true (free_script system.now) (at now.now) (at now.now) (formula_at (map plain_formula formulas.now) i)) numbers.now) }
{
    for number in numbers {
        if !is_true_at(alloc, system, formulas, *number, now)? {
            return Ok(false);
        }
    }
    Ok(true)
}

fn is_assumed(
    alloc: Global,
    system: &FlatSystem<'_>,
    query: &Query,
    now: &Env,
) -> Result<bool, NoMemory>
    requires can { CanJudge system.now }
    requires query { IsQueryOf system.now query.now }
    requires fit { Fits system.now now.now }
    ensures { IfOk result (λ assumed. assumed ≡ assumptions_hold (free_script system.now) query.now (at now.now)) }
{
    all_true(
        alloc,
        system,
        system.assumptions(),
        query.assumptions.as_slice(),
        now,
    )
}

// Current conditions are tested at step 0 only.
fn is_current(
    alloc: Global,
    system: &FlatSystem<'_>,
    query: &Query,
    step: usize,
    now: &Env,
) -> Result<bool, NoMemory>
    requires can { CanJudge system.now }
    requires query { IsQueryOf system.now query.now }
    requires fit { Fits system.now now.now }
    ensures { IfOk result (λ current. current ≡ (if step == 0 then currents_hold (free_script system.now) query.now (at now.now) else true)) }
{
    if step == 0 {
        all_true(
            alloc,
            system,
            system.currents(),
            query.currents.as_slice(),
            now,
        )
    } else {
        Ok(true)
    }
}

// Whether the reachable formula with this number is true now or was before.
fn is_reached(
    alloc: Global,
    system: &FlatSystem<'_>,
    number: u64,
    before: bool,
    now: &Env,
) -> Result<bool, NoMemory>
    requires there { number < length system.now.reachables }
    requires truths { AreTruths system.now system.now.reachables }
    requires fit { Fits system.now now.now }
    ensures { IfOk result (λ reached. reached ≡ (before || reaches (free_script system.now) (at now.now) number)) }
{
    if before {
        return Ok(true);
    }
    let reached = is_true_at(alloc, system, system.reachables(), number, now)?;
    Ok(reached)
}

// Marks those of these reachable formulas that are true now. Earlier marks stay.
fn mark_all(
    alloc: Global,
    system: &FlatSystem<'_>,
    numbers: &[u64],
    now: &Env,
    marks: &mut Vec<bool>,
) -> Result<(), NoMemory>
    requires there { AllByRecursion (λ (r : ℕ). r < length system.now.reachables) numbers.now }
    requires truths { AreTruths system.now system.now.reachables }
    requires fit { Fits system.now now.now }
    requires long { length marks.old.items ≡ length numbers.now }
    ensures { (before : ℕ → Bool) → AreMarks before numbers.now marks.old.items → OnOk result (AreMarks (λ r. before r || reaches (free_script system.now) (at now.now) r) numbers.now marks.new.items) }
{
    for (i, number) in numbers.iter().enumerate() {
        marks[i] = is_reached(alloc, system, *number, marks[i], now)?;
    }
    Ok(())
}

/// Marks those of the query's reachable formulas that are true now, if it has several.
///
/// Earlier marks stay.
pub(crate) fn mark_reached(
    alloc: Global,
    system: &FlatSystem<'_>,
    query: &Query,
    now: &Env,
    marks: &mut Vec<bool>,
) -> Result<(), NoMemory>
    requires can { CanJudge system.now }
    requires query { IsQueryOf system.now query.now }
    requires fit { Fits system.now now.now }
    requires long { length marks.old.items ≡ length query.now.reachables }
    ensures { (before : ℕ → Bool) → Remember before query.now.reachables marks.old.items
        → OnOk result (Remember (λ r. before r || reaches (free_script system.now) (at now.now) r) query.now.reachables marks.new.items) }
{
    let numbers = query.reachables.as_slice();
    if numbers.len() > 1 {
        mark_all(alloc, system, numbers, now, marks)
    } else {
        Ok(())
    }
}

// Whether each of several reachable formulas is true now or marked, and at least one of them is true now.
fn are_reached(
    alloc: Global,
    system: &FlatSystem<'_>,
    numbers: &[u64],
    marks: &[bool],
    now: &Env,
) -> Result<bool, NoMemory>
    requires there { AllByRecursion (λ (r : ℕ). r < length system.now.reachables) numbers.now }
    requires truths { AreTruths system.now system.now.reachables }
    requires fit { Fits system.now now.now }
    requires long { length marks.now ≡ length numbers.now }
    ensures { (before : ℕ → Bool) → AreMarks before numbers.now marks.now
        → IfOk result (λ all. all ≡ (list_all (λ r. before r || reaches (free_script system.now) (at now.now) r) numbers.now && list_any (reaches (free_script system.now) (at now.now)) numbers.now)) }
{
    let mut some = false;
    for (i, number) in numbers.iter().enumerate() {
        let reached = is_true_at(alloc, system, system.reachables(), *number, now)?;
        if !reached && !marks[i] {
            return Ok(false);
        }
        some = some || reached;
    }
    Ok(some)
}

// Whether one of these reachable formulas is true now.
fn some_reached(
    alloc: Global,
    system: &FlatSystem<'_>,
    numbers: &[u64],
    now: &Env,
) -> Result<bool, NoMemory>
    requires there { AllByRecursion (λ (r : ℕ). r < length system.now.reachables) numbers.now }
    requires truths { AreTruths system.now system.now.reachables }
    requires fit { Fits system.now now.now }
    ensures { IfOk result (λ some. some ≡ list_any (reaches (free_script system.now) (at now.now)) numbers.now) }
{
    for number in numbers {
        if is_true_at(alloc, system, system.reachables(), *number, now)? {
            return Ok(true);
        }
    }
    Ok(false)
}

// Whether each of these reachable formulas is true now or was before, and at least one of them is true now. There are marks
// only if there are several.
fn all_reached(
    alloc: Global,
    system: &FlatSystem<'_>,
    numbers: &[u64],
    marks: &[bool],
    now: &Env,
) -> Result<bool, NoMemory>
    requires there { AllByRecursion (λ (r : ℕ). r < length system.now.reachables) numbers.now }
    requires truths { AreTruths system.now system.now.reachables }
    requires fit { Fits system.now now.now }
    requires long { length marks.now ≡ length numbers.now }
    ensures { (before : ℕ → Bool) → Remember before numbers.now marks.now
        → IfOk result (λ all. all ≡ (list_all (λ r. before r || reaches (free_script system.now) (at now.now) r) numbers.now && list_any (reaches (free_script system.now) (at now.now)) numbers.now)) }
{
    if numbers.len() > 1 {
        are_reached(alloc, system, numbers, marks, now)
    } else {
        some_reached(alloc, system, numbers, now)
    }
}

// Reachable formulas are tested at the last step only.
fn ends_reached(
    alloc: Global,
    system: &FlatSystem<'_>,
    query: &Query,
    step: usize,
    last: usize,
    marks: &[bool],
    now: &Env,
) -> Result<bool, NoMemory>
    requires can { CanJudge system.now }
    requires query { IsQueryOf system.now query.now }
    requires fit { Fits system.now now.now }
    requires long { length marks.now ≡ length query.now.reachables }
    ensures { (before : ℕ → Bool) → Remember before query.now.reachables marks.now
        → IfOk result (λ reached. reached ≡ ends_reached (free_script system.now) query.now last before step (at now.now)) }
{
    if last == step {
        all_reached(alloc, system, query.reachables.as_slice(), marks, now)
    } else {
        Ok(true)
    }
}

/// Returns the first clause of the query that fails at a step.
pub(crate) fn query_failing(
    alloc: Global,
    system: &FlatSystem<'_>,
    query: &Query,
    step: usize,
    last: usize,
    marks: &[bool],
    now: &Env,
) -> Result<Option<Clause>, NoMemory>
    requires can { CanJudge system.now }
    requires query { IsQueryOf system.now query.now }
    requires fit { Fits system.now now.now }
    requires long { length marks.now ≡ length query.now.reachables }
    ensures { (before : ℕ → Bool) → Remember before query.now.reachables marks.now
        → IfOk result (λ failing. failing ≡ first_failing (query_tests (free_script system.now) query.now last before step (at now.now))) }
{
    if !is_assumed(alloc, system, query, now)? {
        return Ok(Some(Clause::AssumptionFails));
    }
    if !is_current(alloc, system, query, step, now)? {
        return Ok(Some(Clause::CurrentFails));
    }
    if !ends_reached(alloc, system, query, step, last, marks, now)? {
        return Ok(Some(Clause::NotBroken));
    }
    Ok(None)
}
