// The tests of the parts of a flat system at a step.
ghost use Rattle.std.specs.Prelude.{◌≡◌, ◌<◌, length, map, IfOk};
ghost use Rattle.std.specs.List.{AllByRecursion, list_all};
ghost use Rattle.moxi_terms.specs.Value.{at};
ghost use Rattle.moxi_terms.specs.View.{plain};
ghost use Rattle.moxi_scripts.specs.Meeting.{first_failing, is_true};
ghost use Rattle.moxi_flat.specs.FlatSystem.{PlainPart};
ghost use Rattle.moxi_instantiate.specs.PlainParts.{plain_part};
ghost use Rattle.moxi_judge.specs.FlatTests.{Fits, IsPartOf, free_script, formula_of, later_tests, part_tests, parts_hold, start_tests};
ghost use Rattle.moxi_scripts.specs.Behaviour.{trace_of};

use crate::terms::is_true;
use moxi_instantiate::{FlatSystem, Part};
use moxi_terms::{Env, Term};
use std::alloc::Global;
use text_core::{Clause, NoMemory};

/// A formula of a part.
#[derive(Clone, Copy)]
pub(crate) enum PartFormula {
    Init,
    Trans,
    Inv,
}

impl PartFormula {
    fn of<'a>(self, part: &'a Part) -> &'a Term
        ensures { plain result.now ≡ formula_of self (plain_part part.now) }
    {
        match self {
            PartFormula::Init => &part.init,
            PartFormula::Trans => &part.trans,
            PartFormula::Inv => &part.inv,
        }
    }
}

// Whether this formula is true for each of the parts.
fn all_true(
    alloc: Global,
    system: &FlatSystem<'_>,
    parts: &[Part],
    formula: PartFormula,
    now: &Env,
    later: &Env,
) -> Result<bool, NoMemory>
    requires sorted { AllByRecursion (IsPartOf system.now) (map plain_part parts.now) }
    requires fit { Fits system.now now.now }
    requires fit_later { Fits system.now later.now }
    ensures { IfOk result (λ all. all ≡ list_all (λ (p : PlainPart). is_true (free_script system.now) (at now.now) (at later.now) (formula_of formula p)) (map plain_part parts.now)) }
{
    for part in parts {
        if !is_true(alloc, system, formula.of(part), now, later)? {
            return Ok(false);
        }
    }
    Ok(true)
}

fn parts_hold(
    alloc: Global,
    system: &FlatSystem<'_>,
    formula: PartFormula,
    now: &Env,
    later: &Env,
) -> Result<bool, NoMemory>
    requires sorted { AllByRecursion (IsPartOf system.now) system.now.parts }
    requires fit { Fits system.now now.now }
    requires fit_later { Fits system.now later.now }
    ensures { IfOk result (λ hold. hold ≡ parts_hold system.now formula (at now.now) (at later.now)) }
{
    all_true(
        alloc,
        system,
        system.parts().as_slice(),
        formula,
        now,
        later,
    )
}

// The first clause of the parts that fails at step 0.
fn start_failing(
    alloc: Global,
    system: &FlatSystem<'_>,
    now: &Env,
) -> Result<Option<Clause>, NoMemory>
    requires sorted { AllByRecursion (IsPartOf system.now) system.now.parts }
    requires fit { Fits system.now now.now }
    ensures { IfOk result (λ failing. failing ≡ first_failing (start_tests system.now (at now.now))) }
{
    if !parts_hold(alloc, system, PartFormula::Init, now, now)? {
        return Ok(Some(Clause::InitFails));
    }
    if !parts_hold(alloc, system, PartFormula::Inv, now, now)? {
        return Ok(Some(Clause::InvarFails));
    }
    Ok(None)
}

// The first clause of the parts that fails at a step after another.
fn later_failing(
    alloc: Global,
    system: &FlatSystem<'_>,
    before: &Env,
    now: &Env,
) -> Result<Option<Clause>, NoMemory>
    requires sorted { AllByRecursion (IsPartOf system.now) system.now.parts }
    requires fit_before { Fits system.now before.now }
    requires fit { Fits system.now now.now }
    ensures { IfOk result (λ failing. failing ≡ first_failing (later_tests system.now (at before.now) (at now.now))) }
{
    if !parts_hold(alloc, system, PartFormula::Trans, before, now)? {
        return Ok(Some(Clause::TransFails));
    }
    if !parts_hold(alloc, system, PartFormula::Inv, now, now)? {
        return Ok(Some(Clause::InvarFails));
    }
    Ok(None)
}

/// Returns the first clause of the parts that fails at this step of a trace.
pub(crate) fn parts_failing(
    alloc: Global,
    system: &FlatSystem<'_>,
    trace: &[Env],
    step: usize,
) -> Result<Option<Clause>, NoMemory>
    requires sorted { AllByRecursion (IsPartOf system.now) system.now.parts }
    requires fit { AllByRecursion (Fits system.now) trace.now }
    requires there { step < length trace.now }
    ensures { IfOk result (λ failing. failing ≡ first_failing (part_tests system.now (trace_of trace.now) step)) }
{
    if step == 0 {
        start_failing(alloc, system, &trace[0])
    } else {
        later_failing(alloc, system, &trace[step - 1], &trace[step])
    }
}
