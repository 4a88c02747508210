// The judge of stated runs.
ghost use Rattle.std.specs.Prelude.{◌≡◌, ◌<◌, ◌+◌, ◌^◌, ◌++◌, true, [], ◌∷◌, List, length, map, IfOk, OnOk};
ghost use Rattle.text_core.specs.declared.verdict.Verdict.TheVariants.{Yes};
ghost use Rattle.smv_text.specs.Tree.{PlainSource};
ghost use Rattle.smv_text.specs.View.{plain_source};
ghost use Rattle.smv_meaning.specs.Values.{Valuation, given};
ghost use Rattle.smv_meaning.specs.Instances.{instances_of};
ghost use Rattle.smv_meaning.specs.Phases.{IsAccepted};
ghost use Rattle.smv_meaning.specs.Runs.{judged_smv};
ghost use Rattle.smv_flat.specs.FlatTruth.{Row as PlainRow, IsRow};
ghost use Rattle.smv_flat_laws.specs.FlatOrders.{IsItemOrder};
ghost use Rattle.smv_flatten.specs.FlatModel.{IsRead, flat_plain, IsFlatOf};
ghost use Rattle.smv_flat.specs.FlatParts.{parts_plain};
ghost use Rattle.smv_rows.specs.RowOrders.{IsRowOrder};
ghost use Rattle.smv_judge.specs.Labels.{first_label as label_of};
ghost use Rattle.smv_numbered.specs.Runs.{IsNumbered, run_in};
ghost use Rattle.smv_rows.specs.Places.{IsGiven};
ghost use Rattle.smv_rows.specs.declared.order.RowOrder.{RowOrder as PlainOrder};
ghost use Rattle.smv_judge.specs.Models.{HasModel, IsListedRun, LabelFits, IsStateRow, AreLastRows};
ghost use Rattle.smv_judge.specs.Stated.{states_in, labels_in, label_in, list_at, IsJudgeable, IsCarried, judged_from};
ghost use Rattle.smv_judge.specs.Taken.{HasTaken};

use crate::labels::{first_label, first_values};
use crate::stated::{Stated, give_first, give_label, give_next, label_count, state_count};
use crate::steps::{first_failure, step_failure};
use crate::taken::{NoRows, TakesRows};
use smv_flat::FlatParts;
use smv_flatten::{Flat, FlatEnd, flatten};
use smv_meaning::Run;
use smv_numbered::NumberedRun;
use smv_rows::{Carried, Row, RowOrder, is_broken, row_order};
use smv_text::Source;
use std::alloc::Global;
use std::mem;
use text_core::{Clause, NoMemory, Verdict};

// Passes on the row of the last state under the label whose inputs the other row has.
fn take_last<'a, T: TakesRows>(
    alloc: Global,
    flat: &FlatParts<'a>,
    order: &RowOrder,
    inputs: &Row<'a>,
    row: &mut Row<'a>,
    taker: &mut T,
) -> Result<(), NoMemory>
    requires model { HasModel flat.now }
    requires order { IsRowOrder flat.now order.now }
    requires rows { (s : Valuation) × (l : Valuation) × (after : Valuation) × AreLastRows flat.now s l after row.old.values.items inputs.now.values.items }
    requires taken { (start : T) × (rows : List PlainRow) × T.took start rows taker.old }
    ensures { OnOk result ((s l after : Valuation) → AreLastRows flat.now s l after row.old.values.items inputs.now.values.items → (r : PlainRow) × IsRow (parts_plain flat.now) s l r × ((start : T) (rows : List PlainRow) → T.took start rows taker.old → T.took start (rows ++ r ∷ []) taker.new)) }
{
    row.give_label(flat, order, inputs);
    taker.take_row(alloc, row.values.as_slice())?;
    Ok(())
}

// The verdict on the states after the first one, whose row is given. With Yes, the row of each state is passed on.
fn judge_steps<'a, T: TakesRows>(
    alloc: Global,
    flat: &FlatParts<'a>,
    order: &RowOrder,
    j: u32,
    run: &Stated<'a>,
    inputs: &Row<'a>,
    carried: &mut Carried<'a>,
    row: &mut Row<'a>,
    taker: &mut T,
) -> Result<Verdict, NoMemory>
    requires model { HasModel flat.now }
    requires order { IsRowOrder flat.now order.now }
    requires some { 0 < length (states_in (parts_plain flat.now).items run.now) }
    requires few { length (states_in (parts_plain flat.now).items run.now) < 2 ^ 32 }
    requires row { IsStateRow flat.now (given (list_at (states_in (parts_plain flat.now).items run.now) 0)) row.old.values.items }
    requires label { LabelFits flat.now (given (label_in (parts_plain flat.now).items run.now)) }
    requires inputs { (after : Valuation) × IsGiven flat.now.items.now after (given (label_in (parts_plain flat.now).items run.now)) inputs.now.values.items }
    requires judgeable { IsJudgeable flat.now order.now run.now }
    requires carried { IsCarried (parts_plain flat.now).items run.now 1 carried.old }
    requires none { T.took taker.old [] taker.old }
    ensures taken { IfOk result (λ v. v ≡ Yes → HasTaken (λ rows. T.took taker.old rows taker.new) (parts_plain flat.now) (label_in (parts_plain flat.now).items run.now) (states_in (parts_plain flat.now).items run.now) (labels_in (parts_plain flat.now).items run.now)) }
    ensures verdict { IfOk result (λ v. (source : PlainSource) → IsFlatOf source (parts_plain flat.now) → v ≡ judged_from (instances_of source) j 0 (states_in (parts_plain flat.now).items run.now) (labels_in (parts_plain flat.now).items run.now)) }
{
    let mut before = Row::new(alloc);
    let count = state_count(run);
    let labels = label_count(run);
    let mut step = 0usize;
    while step + 1 < count {
        if labels <= step {
            return Ok(Verdict::No(step as u32 + 1, Clause::ValueOutside));
        }
        mem::swap(&mut before, row);
        give_next(flat, order, run, step, carried, row)?;
        match step_failure(flat, order, &mut before, row) {
            Some(clause) => return Ok(Verdict::No(step as u32 + 1, clause)),
            None => {}
        }
        taker.take_row(alloc, before.values.as_slice())?;
        step += 1;
    }
    if step < labels {
        Ok(Verdict::No(step as u32 + 1, Clause::ValueOutside))
    } else if is_broken(flat, j, row) {
        take_last(alloc, flat, order, inputs, row, taker)?;
        Ok(Verdict::Yes)
    } else {
        Ok(Verdict::No(step as u32, Clause::NotBroken))
    }
}

// The verdict on a run, given a row with the inputs of the label under which the first state is judged.
fn judge_states<'a, T: TakesRows>(
    alloc: Global,
    flat: &FlatParts<'a>,
    order: &RowOrder,
    j: u32,
    run: &Stated<'a>,
    inputs: &Row<'a>,
    taker: &mut T,
) -> Result<Verdict, NoMemory>
    requires model { HasModel flat.now }
    requires order { IsRowOrder flat.now order.now }
    requires some { 0 < length (states_in (parts_plain flat.now).items run.now) }
    requires few { length (states_in (parts_plain flat.now).items run.now) < 2 ^ 32 }
    requires label { LabelFits flat.now (given (label_in (parts_plain flat.now).items run.now)) }
    requires inputs { (after : Valuation) × IsGiven flat.now.items.now after (given (label_in (parts_plain flat.now).items run.now)) inputs.now.values.items }
    requires judgeable { IsJudgeable flat.now order.now run.now }
    requires none { T.took taker.old [] taker.old }
    ensures taken { IfOk result (λ v. v ≡ Yes → HasTaken (λ rows. T.took taker.old rows taker.new) (parts_plain flat.now) (label_in (parts_plain flat.now).items run.now) (states_in (parts_plain flat.now).items run.now) (labels_in (parts_plain flat.now).items run.now)) }
    ensures verdict { IfOk result (λ v. (source : PlainSource) → IsFlatOf source (parts_plain flat.now) → v ≡ judged_smv source j (map given (states_in (parts_plain flat.now).items run.now)) (map given (labels_in (parts_plain flat.now).items run.now))) }
{
    let mut carried = Carried::none(alloc, flat.items.len())?;
    let mut row = Row::new(alloc);
    give_first(flat, order, run, inputs, &mut carried, &mut row)?;
    match first_failure(flat, order, &mut row) {
        Some(clause) => Ok(Verdict::No(0, clause)),
        None => judge_steps(
            alloc,
            flat,
            order,
            j,
            run,
            inputs,
            &mut carried,
            &mut row,
            taker,
        ),
    }
}

// The verdict on a run, given a label whose values are of the declared types.
fn judge_parts<'a, T: TakesRows>(
    alloc: Global,
    flat: &FlatParts<'a>,
    item_order: &'a [usize],
    j: u32,
    run: &Stated<'a>,
    listed: bool,
    taker: &mut T,
) -> Result<Verdict, NoMemory>
    requires model { HasModel flat.now }
    requires order { IsItemOrder (parts_plain flat.now) item_order.now }
    requires few { length (states_in (parts_plain flat.now).items run.now) < 2 ^ 32 }
    requires label { LabelFits flat.now (given (label_in (parts_plain flat.now).items run.now)) }
    requires judgeable { (order : PlainOrder) → order.listed ≡ listed → IsJudgeable flat.now order run.now }
    requires none { T.took taker.old [] taker.old }
    ensures taken { IfOk result (λ v. v ≡ Yes → HasTaken (λ rows. T.took taker.old rows taker.new) (parts_plain flat.now) (label_in (parts_plain flat.now).items run.now) (states_in (parts_plain flat.now).items run.now) (labels_in (parts_plain flat.now).items run.now)) }
    ensures verdict { IfOk result (λ v. (source : PlainSource) → IsFlatOf source (parts_plain flat.now) → v ≡ judged_smv source j (map given (states_in (parts_plain flat.now).items run.now)) (map given (labels_in (parts_plain flat.now).items run.now))) }
{
    if state_count(run) == 0 {
        return Ok(Verdict::No(0, Clause::ValueOutside));
    }
    let order = row_order(alloc, flat, item_order, listed)?;
    let mut inputs = Row::new(alloc);
    give_label(alloc, flat, &order, run, &mut inputs)?;
    judge_states(alloc, flat, &order, j, run, &inputs, taker)
}

/// Returns the verdict of `judge_flat`, and hands on the rows that it fills.
///
/// With Yes, the taker got one row for each state, in order, under the label of the transition that leaves the state. The
/// label of the last state gives each input the first value of its type. With No, it may have got some rows. `listed`
/// says that each state and label names its variables in the order of the items. Then no name is looked up.
pub fn judge_rows<T: TakesRows>(
    alloc: Global,
    flat: &Flat,
    j: u32,
    run: &Run,
    listed: bool,
    taker: &mut T,
) -> Result<Verdict, NoMemory>
    requires model { (source : PlainSource) × IsFlatOf source (flat_plain flat.now) }
    requires few { length run.now.states < 2 ^ 32 }
    requires listed { listed ≡ true → IsListedRun (flat_plain flat.now) run.now }
    requires none { T.took taker.old [] taker.old }
    ensures verdict { IfOk result (λ v. (source : PlainSource) → IsFlatOf source (flat_plain flat.now) → v ≡ judged_smv source j (map given run.now.states) (map given run.now.labels)) }
    // All rows were taken, where the verdict is Yes.
    ensures taken { IfOk result (λ v. v ≡ Yes → HasTaken (λ rows. T.took taker.old rows taker.new) (flat_plain flat.now) (label_of (flat_plain flat.now).items) run.now.states run.now.labels) }
{
    let parts = flat.parts();
    let label = first_label(alloc, parts.items)?;
    judge_parts(
        alloc,
        &parts,
        flat.order(),
        j,
        &Stated::Named(run, &label),
        listed,
        taker,
    )
}

/// Returns the verdict of `judge_numbered`, and hands on the rows that it fills, as `judge_rows` does.
pub fn judge_numbered_rows<T: TakesRows>(
    alloc: Global,
    flat: &Flat,
    j: u32,
    run: &NumberedRun,
    taker: &mut T,
) -> Result<Verdict, NoMemory>
    requires model { (source : PlainSource) × IsFlatOf source (flat_plain flat.now) }
    requires few { length run.now.ends < 2 ^ 32 }
    requires numbered { IsNumbered run.now }
    requires none { T.took taker.old [] taker.old }
    ensures verdict { IfOk result (λ v. (source : PlainSource) → IsFlatOf source (flat_plain flat.now) → v ≡ judged_smv source j (map given (run_in (flat_plain flat.now).items run.now).states) (map given (run_in (flat_plain flat.now).items run.now).labels)) }
    // All rows were taken, where the verdict is Yes.
    ensures taken { IfOk result (λ v. v ≡ Yes → HasTaken (λ rows. T.took taker.old rows taker.new) (flat_plain flat.now) (label_of (flat_plain flat.now).items) (run_in (flat_plain flat.now).items run.now).states (run_in (flat_plain flat.now).items run.now).labels) }
{
    let parts = flat.parts();
    let firsts = first_values(alloc, parts.items)?;
    judge_parts(
        alloc,
        &parts,
        flat.order(),
        j,
        &Stated::Numbered(run, firsts.as_slice()),
        true,
        taker,
    )
}

/// Returns the verdict of `judge_flat` on the run that is stated by the numbers of the flat form's items.
///
/// No name is looked up, and no list of names is made.
pub fn judge_numbered(
    alloc: Global,
    flat: &Flat,
    j: u32,
    run: &NumberedRun,
) -> Result<Verdict, NoMemory>
    requires model { (source : PlainSource) × IsFlatOf source (flat_plain flat.now) }
    requires few { length run.now.ends < 2 ^ 32 }
    requires numbered { IsNumbered run.now }
    ensures { IfOk result (λ v. (source : PlainSource) → IsFlatOf source (flat_plain flat.now) → v ≡ judged_smv source j (map given (run_in (flat_plain flat.now).items run.now).states) (map given (run_in (flat_plain flat.now).items run.now).labels)) }
{
    judge_numbered_rows(alloc, flat, j, run, &mut NoRows)
}

/// Returns the verdict on a stated run for a flat form and invariant j, counted from 0.
///
/// It is the verdict for every accepted model with this flat form. The run has fewer than 2^32 states. Where the model
/// has no invariant j, the verdict is No.
pub fn judge_flat(alloc: Global, flat: &Flat, j: u32, run: &Run) -> Result<Verdict, NoMemory>
    requires model { (source : PlainSource) × IsFlatOf source (flat_plain flat.now) }
    requires few { length run.now.states < 2 ^ 32 }
    ensures { IfOk result (λ v. (source : PlainSource) → IsFlatOf source (flat_plain flat.now) → v ≡ judged_smv source j (map given run.now.states) (map given run.now.labels)) }
{
    judge_rows(alloc, flat, j, run, false, &mut NoRows)
}

/// Returns the verdict of `judge_flat` on a run that names its variables in the order of the items.
///
/// Lifted runs are such. No name is looked up.
pub fn judge_listed(alloc: Global, flat: &Flat, j: u32, run: &Run) -> Result<Verdict, NoMemory>
    requires model { (source : PlainSource) × IsFlatOf source (flat_plain flat.now) }
    requires few { length run.now.states < 2 ^ 32 }
    requires listed { IsListedRun (flat_plain flat.now) run.now }
    ensures { IfOk result (λ v. (source : PlainSource) → IsFlatOf source (flat_plain flat.now) → v ≡ judged_smv source j (map given run.now.states) (map given run.now.labels)) }
{
    judge_rows(alloc, flat, j, run, true, &mut NoRows)
}

/// Returns the verdict on a stated run for invariant j, counted from 0 (NuSMV 2.6 User Manual, 2.3 and 2.4).
///
/// It is Yes exactly where the states and labels are a run of the model whose last state breaks the invariant.
/// Otherwise it is No, with the earliest failing step and its first failing clause. A label and a transition belong to
/// the step to which they lead.
pub fn judge_smv(alloc: Global, source: &Source, j: u32, run: &Run) -> Result<Verdict, NoMemory>
    // A text parses to the model, its checks hold, and it has the invariant.
    requires read { IsRead (plain_source source.now) }
    requires accepted { IsAccepted (plain_source source.now) j }
    requires few { length run.now.states < 2 ^ 32 }
    ensures { IfOk result (λ v. v ≡ judged_smv (plain_source source.now) j (map given run.now.states) (map given run.now.labels)) }
{
    match flatten(alloc, source, j) {
        Ok(flat) => judge_flat(alloc, &flat, j, run),
        Err(FlatEnd::Bad(_)) => unreachable!(),
        Err(FlatEnd::NoMemory) => Err(NoMemory),
    }
}
