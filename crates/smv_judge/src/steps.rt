// Failures at a step of a stated run.
ghost use Rattle.std.specs.Prelude.{◌≡◌, ◌&&◌, None};
ghost use Rattle.smv_text.specs.Tree.{PlainSource};
ghost use Rattle.smv_meaning.specs.Values.{Valuation};
ghost use Rattle.smv_meaning.specs.Instances.{instances_of};
ghost use Rattle.smv_flat.specs.FlatTruth.{IsRow, flat_trans, flat_stay};
ghost use Rattle.smv_flat_evaluation.specs.RowValues.{row_values};
ghost use Rattle.smv_flat.specs.FlatParts.{parts_plain};
ghost use Rattle.smv_rows.specs.RowOrders.{IsRowOrder};
ghost use Rattle.smv_rows.specs.Truths.{AllSafe};
ghost use Rattle.smv_flatten.specs.FlatModel.{IsFlatOf};
ghost use Rattle.smv_judge.specs.Models.{HasModel, failing, first_clauses, step_clauses, IsFirstRow, AreStepRows, IsStateRow};

use crate::fits::items_fit;
use smv_flat::FlatParts;
use smv_rows::{Row, RowOrder, frozen_stay, init_holds, invar_holds, trans_holds};
use text_core::Clause;

/// Returns the first clause that fails at the first state, or None.
///
/// `row` has the values of the variables in this state under some label. With None, it becomes the row of the state.
pub(crate) fn first_failure<'a>(
    flat: &FlatParts<'a>,
    order: &RowOrder,
    row: &mut Row<'a>,
) -> Option<Clause>
    requires model { HasModel flat.now }
    requires order { IsRowOrder flat.now order.now }
    requires rows { (s : Valuation) × (l : Valuation) × IsFirstRow flat.now s l row.old.values.items }
    ensures clause { (s l : Valuation) → IsFirstRow flat.now s l row.old.values.items → (source : PlainSource) → IsFlatOf source (parts_plain flat.now) → result ≡ failing (first_clauses (instances_of source) s) }
    ensures row { (s l : Valuation) → IsFirstRow flat.now s l row.old.values.items → result ≡ None → IsStateRow flat.now s row.new.values.items }
{
    if !items_fit(flat.items, row.values.as_slice()) {
        return Some(Clause::ValueOutside);
    }
    row.evaluate(flat, order);
    if !init_holds(flat, row) {
        return Some(Clause::InitFails);
    }
    if !invar_holds(flat, row) {
        return Some(Clause::InvarFails);
    }
    None
}

// Whether the transition between the rows holds and each frozen variable keeps its value.
fn step_holds<'a>(flat: &FlatParts<'a>, now: &Row<'a>, later: &Row<'a>) -> bool
    requires { AllSafe flat.now now.now.values.items later.now.values.items }
    ensures { result ≡ (flat_trans (parts_plain flat.now) (row_values now.now.values.items) (row_values later.now.values.items) && flat_stay (parts_plain flat.now) (row_values now.now.values.items) (row_values later.now.values.items)) }
{
    trans_holds(flat, now, later) && frozen_stay(flat, now, later)
}

/// Returns the first clause that fails at the step from a state under a label to the following state, or None.
///
/// `before` has the values of the state under some label, and `row` those of the variables in the following state under
/// this label. With None, `before` has the values of the state under this label, and `row` those of the following state.
pub(crate) fn step_failure<'a>(
    flat: &FlatParts<'a>,
    order: &RowOrder,
    before: &mut Row<'a>,
    row: &mut Row<'a>,
) -> Option<Clause>
    requires model { HasModel flat.now }
    requires order { IsRowOrder flat.now order.now }
    requires rows { (s : Valuation) × (l : Valuation) × (u : Valuation) × AreStepRows flat.now s l u before.old.values.items row.old.values.items }
    ensures clause { (s l u : Valuation) → AreStepRows flat.now s l u before.old.values.items row.old.values.items → (source : PlainSource) → IsFlatOf source (parts_plain flat.now) → result ≡ failing (step_clauses (instances_of source) s l u) }
    ensures row { (s l u : Valuation) → AreStepRows flat.now s l u before.old.values.items row.old.values.items → result ≡ None → IsStateRow flat.now u row.new.values.items }
    ensures before { (s l u : Valuation) → AreStepRows flat.now s l u before.old.values.items row.old.values.items → result ≡ None → IsRow (parts_plain flat.now) s l (row_values before.new.values.items) }
{
    if !items_fit(flat.items, row.values.as_slice()) {
        return Some(Clause::ValueOutside);
    }
    before.give_label(flat, order, row);
    row.evaluate(flat, order);
    if !step_holds(flat, before, row) {
        return Some(Clause::TransFails);
    }
    if !invar_holds(flat, row) {
        return Some(Clause::InvarFails);
    }
    None
}
