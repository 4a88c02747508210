// The judge of traces.
ghost use Rattle.std.specs.Prelude.{◌≡◌, ◌↔◌, ◌<◌, ◌-◌, ◌^◌, length, IfOk};
ghost use Rattle.std.specs.List.{AllByRecursion};
ghost use Rattle.moxi_scripts.specs.ScriptView.{plain_script};
ghost use Rattle.moxi_scripts.specs.Asking.{query_at};
ghost use Rattle.moxi_scripts.specs.Meeting.{is_reached_before, judged_moxi};
ghost use Rattle.moxi_flat.specs.FlatMeeting.{MeetsFlat, hidden_values};
ghost use Rattle.moxi_flat.specs.FlatSystem.{flat_of};
ghost use Rattle.moxi_judge.specs.FlatTests.{CanJudge, Fits, IsQueryOf, Remember, free_script, failing_at, judged_by_parts};
ghost use Rattle.moxi_judge.specs.Judging.{IsStatedTrace};
ghost use Rattle.moxi_scripts.specs.Behaviour.{trace_of};

use crate::parts::parts_failing;
use crate::queries::{mark_reached, query_failing};
use moxi_instantiate::FlatSystem;
use moxi_scripts::{
    MoxiTrace, Query, Script, queries_are_met_where_nothing_fails, spelled_scripts_are_valid,
};
use moxi_terms::Env;
use std::alloc::Global;
use text_core::{Clause, NoMemory, Verdict};

// The first clause that fails at this step: one of the parts, or else one of the query.
fn step_failing(
    alloc: Global,
    system: &FlatSystem<'_>,
    query: &Query,
    trace: &[Env],
    step: usize,
    marks: &[bool],
) -> Result<Option<Clause>, NoMemory>
    requires can { CanJudge system.now }
    requires query { IsQueryOf system.now query.now }
    requires fit { AllByRecursion (Fits system.now) trace.now }
    requires there { step < length trace.now }
    requires marks { Remember (is_reached_before (free_script system.now) (trace_of trace.now) step) query.now.reachables marks.now }
    ensures { IfOk result (λ failing. failing ≡ failing_at system.now query.now (length trace.now - 1) (trace_of trace.now) step) }
{
    if let Some(clause) = parts_failing(alloc, system, trace, step)? {
        return Ok(Some(clause));
    }
    query_failing(
        alloc,
        system,
        query,
        step,
        trace.len() - 1,
        marks,
        &trace[step],
    )
}

// The verdict on the steps, in order.
fn judge_steps(
    alloc: Global,
    system: &FlatSystem<'_>,
    query: &Query,
    trace: &[Env],
) -> Result<Verdict, NoMemory>
    requires can { CanJudge system.now }
    requires query { IsQueryOf system.now query.now }
    requires trace { IsStatedTrace system.now trace.now }
    requires few { length trace.now < 2 ^ 32 }
    ensures { IfOk result (λ v. v ≡ judged_by_parts system.now query.now (length trace.now - 1) (trace_of trace.now) 0 (length trace.now)) }
{
    let last = trace.len() - 1;
    // For each of the query's reachable formulas, if it has several, whether it was true at an earlier step.
    let mut marks = vec![in alloc; false; query.reachables.len()]?;
    for step in 0..last {
        if let Some(clause) = step_failing(alloc, system, query, trace, step, &marks)? {
            return Ok(Verdict::No(step as u32, clause));
        }
        mark_reached(alloc, system, query, &trace[step], &mut marks)?;
    }
    match step_failing(alloc, system, query, trace, last, &marks)? {
        Some(clause) => Ok(Verdict::No(last as u32, clause)),
        None => Ok(Verdict::Yes),
    }
}

/// Judges a trace against query q of the script's check, counted from 0.
///
/// The verdict is Yes exactly where the trace meets the query at its last step (MoXI, SPIN 2024). Otherwise it is the
/// earliest failing step with its first failing clause. The clauses are tested in the order `InitFails`, `TransFails`,
/// `InvarFails`, `AssumptionFails`, `CurrentFails`, `NotBroken`. A transition belongs to the step that it leads to.
///
/// The system is the one that `instantiate` returned for the script. The trace has a value of each of its variables. The
/// hidden variables, which are the locals of subsystems, come after the check's. No formula of a part is evaluated twice at
/// a step.
pub fn judge_moxi(
    alloc: Global,
    script: &Script,
    system: &FlatSystem<'_>,
    q: u32,
    trace: &MoxiTrace,
) -> Result<Verdict, NoMemory>
    requires system { system.now ≡ flat_of (plain_script script.now) }
    requires query { q < length script.now.check.queries }
    requires trace { IsStatedTrace system.now trace.now }
    requires few { length trace.now < 2 ^ 32 }
    ensures verdict { IfOk result (λ v. v ≡ judged_moxi (plain_script script.now) (query_at script.now.check.queries q) (length trace.now - 1) (trace_of trace.now) (hidden_values (plain_script script.now) (trace_of trace.now))) }
    ensures yes { IfOk result (λ v. (v ≡ Verdict.Yes) ↔ MeetsFlat (flat_of (plain_script script.now)) (query_at script.now.check.queries q) (length trace.now - 1) (trace_of trace.now)) }
{
    spelled_scripts_are_valid();
    queries_are_met_where_nothing_fails();
    system.is_sorted();
    let query = script.check.queries.at(q as usize);
    judge_steps(alloc, system, query, trace.as_slice())
}
