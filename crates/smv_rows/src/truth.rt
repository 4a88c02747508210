// The truth of a flat form's formulas in rows.
ghost use Rattle.std.specs.Prelude.{◌≡◌, ◌==◌, map, slice_get};
ghost use Rattle.smv_meaning.specs.Values.{is_true as truth};
ghost use Rattle.smv_meaning.specs.Phases.{when_same};
ghost use Rattle.smv_items.specs.FlatItemView.{item_plain};
ghost use Rattle.smv_flat.specs.FlatView.{plain_flat};
ghost use Rattle.smv_flat.specs.FlatFormulas.{form_plain};
ghost use Rattle.smv_flat.specs.FlatTruth.{kind_stays as kind_keeps, items_stay, forms_invariants, flat_init, flat_invar, flat_trans, flat_stay, flat_broken};
ghost use Rattle.smv_flat_evaluation.specs.RowValues.{row_values, row_denote};
ghost use Rattle.smv_flat_evaluation.specs.FlatSafety.{RowSafe};
ghost use Rattle.smv_rows.specs.Filling.{body_plain};
ghost use Rattle.smv_flat.specs.FlatParts.{parts_plain};
ghost use Rattle.smv_rows.specs.Truths.{row_role_holds, row_forms_hold, AllSafe};

use crate::row::Row;
use name_maps::NameSet;
use smv_flat::{FlatExpr, FlatFormula, FlatParts, Role};
use smv_flat_evaluation::{evaluate, item_at, permits};
use smv_items::{FlatItem, ItemKind};
use smv_operators::{Seen, are_same, truth_of};
use smv_text::When;

// Whether the expression is true.
fn is_true<'a>(symbols: &'a NameSet, e: &FlatExpr, now: &[Seen<'a>], later: &[Seen<'a>]) -> bool
    requires { RowSafe symbols.now now.now later.now (plain_flat e.now) }
    ensures { result ≡ truth (row_denote symbols.now now.now later.now (plain_flat e.now)).value }
{
    truth_of(&evaluate(symbols, e, now, later))
}

fn is_same(a: When, b: When) -> bool
    ensures { result ≡ when_same a b }
{
    a == b
}

// Whether the formula holds, if it applies at this time. An assignment must permit the value of its item in `target`.
fn formula_holds<'a>(
    symbols: &'a NameSet,
    formula: &FlatFormula,
    when: When,
    target: &[Seen<'a>],
    now: &[Seen<'a>],
    later: &[Seen<'a>],
) -> bool
    requires { RowSafe symbols.now now.now later.now (plain_flat formula.now.body) }
    ensures { result ≡ row_role_holds symbols.now when target.now now.now later.now (form_plain formula.now) }
{
    match formula.role {
        Role::Body(_) => true,
        Role::Assign(own, k) => if is_same(own, when) {
            permits(
                symbols,
                &formula.body,
                &item_at(target, k as usize),
                now,
                later,
            )
        } else {
            true
        },
        Role::Init => match when {
            When::First => is_true(symbols, &formula.body, now, later),
            When::Always => true,
            When::Following => true,
        },
        Role::Trans => match when {
            When::First => true,
            When::Always => true,
            When::Following => is_true(symbols, &formula.body, now, later),
        },
        Role::Invar => match when {
            When::First => true,
            When::Always => is_true(symbols, &formula.body, now, later),
            When::Following => true,
        },
        Role::Invariant => true,
    }
}

fn formulas_hold<'a>(
    flat: &FlatParts<'a>,
    when: When,
    target: &[Seen<'a>],
    now: &[Seen<'a>],
    later: &[Seen<'a>],
) -> bool
    requires { AllSafe flat.now now.now later.now }
    ensures { result ≡ row_forms_hold flat.now.symbols.now when target.now now.now later.now (map form_plain flat.now.formulas.now) }
{
    let symbols = flat.symbols;
    for formula in flat.formulas {
        if !formula_holds(symbols, formula, when, target, now, later) {
            return false;
        }
    }
    true
}

/// Returns whether all INIT and `init(x) :=` hold in the row.
pub fn init_holds<'a>(flat: &FlatParts<'a>, row: &Row<'a>) -> bool
    // Each intermediate integer fits 64 bits.
    requires { AllSafe flat.now row.now.values.items row.now.values.items }
    ensures { result ≡ flat_init (parts_plain flat.now) (row_values row.now.values.items) (row_values row.now.values.items) }
{
    let values = row.values.as_slice();
    formulas_hold(flat, When::First, values, values, values)
}

/// Returns whether all INVAR and `x :=` hold in the row.
pub fn invar_holds<'a>(flat: &FlatParts<'a>, row: &Row<'a>) -> bool
    // Each intermediate integer fits 64 bits.
    requires { AllSafe flat.now row.now.values.items row.now.values.items }
    ensures { result ≡ flat_invar (parts_plain flat.now) (row_values row.now.values.items) (row_values row.now.values.items) }
{
    let values = row.values.as_slice();
    formulas_hold(flat, When::Always, values, values, values)
}

/// Returns whether all TRANS and `next(x) :=` hold between two rows.
///
/// `now` is the row of a state and its label, and `later` that of the following state.
pub fn trans_holds<'a>(flat: &FlatParts<'a>, now: &Row<'a>, later: &Row<'a>) -> bool
    // Each intermediate integer fits 64 bits.
    requires { AllSafe flat.now now.now.values.items later.now.values.items }
    ensures { result ≡ flat_trans (parts_plain flat.now) (row_values now.now.values.items) (row_values later.now.values.items) }
{
    let values = now.values.as_slice();
    let following = later.values.as_slice();
    formulas_hold(flat, When::Following, following, values, following)
}

// Whether the value is unchanged, if the item is a frozen variable.
fn kind_stays<'a>(kind: ItemKind, k: usize, now: &[Seen<'a>], later: &[Seen<'a>]) -> bool
    ensures { result ≡ kind_keeps (row_values now.now k) (row_values later.now k) kind }
{
    match kind {
        ItemKind::Frozen => are_same(&item_at(now, k), &item_at(later, k)),
        ItemKind::State => true,
        ItemKind::Input => true,
        ItemKind::Define => true,
        ItemKind::Actual => true,
    }
}

fn all_stay<'a>(items: &[FlatItem], now: &[Seen<'a>], later: &[Seen<'a>]) -> bool
    ensures { result ≡ items_stay (row_values now.now) (row_values later.now) 0 (map item_plain items.now) }
{
    for (k, item) in items.iter().enumerate() {
        if !kind_stays(item.kind, k, now, later) {
            return false;
        }
    }
    true
}

/// Returns whether each frozen variable has the same value in both rows.
pub fn frozen_stay<'a>(flat: &FlatParts<'a>, now: &Row<'a>, later: &Row<'a>) -> bool
    ensures { result ≡ flat_stay (parts_plain flat.now) (row_values now.now.values.items) (row_values later.now.values.items) }
{
    all_stay(flat.items, now.values.as_slice(), later.values.as_slice())
}

// The invariant with this number, counted from 0.
fn invariant_at(formulas: &[FlatFormula], j: u32) -> Option<&FlatExpr>
    ensures { body_plain result ≡ slice_get (forms_invariants (map form_plain formulas.now)) j }
{
    let mut left = j;
    for formula in formulas {
        if let Role::Invariant = formula.role {
            if left == 0 {
                return Some(&formula.body);
            }
            left -= 1;
        }
    }
    None
}

/// Returns whether the invariant with this number, counted from 0, is false in the row.
///
/// Returns false where there is no such invariant.
pub fn is_broken<'a>(flat: &FlatParts<'a>, j: u32, row: &Row<'a>) -> bool
    // Each intermediate integer fits 64 bits.
    requires { AllSafe flat.now row.now.values.items row.now.values.items }
    ensures { result ≡ flat_broken (parts_plain flat.now) j (row_values row.now.values.items) (row_values row.now.values.items) }
{
    let values = row.values.as_slice();
    match invariant_at(flat.formulas, j) {
        None => false,
        Some(e) => !is_true(flat.symbols, e, values, values),
    }
}
