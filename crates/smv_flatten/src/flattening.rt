// The flat form of a model that passes its checks.
ghost use Rattle.std.specs.Prelude.{◌≡◌, ◌++◌, List, None, map, length, sum_by, IfOk, IfErr};
ghost use Rattle.std.specs.List.{AllByRecursion};
ghost use Rattle.smv_text.specs.View.{plain_source};
ghost use Rattle.smv_meaning.specs.Instances.{instances_of, weight_of};
ghost use Rattle.smv_meaning.specs.Checked.{path_checks_of};
ghost use Rattle.smv_meaning.specs.Checks.{first_failing, IsBad};
ghost use Rattle.smv_meaning.specs.Settled.{cycle_checks_of};
ghost use Rattle.smv_meaning.specs.Phases.{checks_of, invariants_in, IsAccepted};
ghost use Rattle.smv_meaning.specs.Bodies.{placed_bodies, IsBodyOrder};
ghost use Rattle.smv_instances.specs.View.{instance_plain};
ghost use Rattle.smv_names.specs.Outcome.{Settles};
ghost use Rattle.smv_references.specs.View.{body_plain};
ghost use Rattle.smv_items.specs.FlatItems.{origins_of, symbols_of, flat_item_of};
ghost use Rattle.smv_items.specs.Counts.{AreFew};
ghost use Rattle.smv_items.specs.FlatItemView.{item_plain};
ghost use Rattle.smv_items.specs.laws.Declarations.{DiffersInside};
ghost use Rattle.smv_flat.specs.FlatForms.{forms_of, flat_of, flat_smv};
ghost use Rattle.smv_flat.specs.FlatFormulas.{form_plain};
ghost use Rattle.smv_flat.specs.FlatWidth.{width_of};
ghost use Rattle.smv_flat_laws.specs.FlatOrders.{IsItemOrder};
ghost use Rattle.smv_flatten.specs.Phases.{early_checks};
ghost use Rattle.smv_flatten.specs.FlatModel.{flat_plain, AreOfModel, IsRead};
ghost use Rattle.smv_flatten.specs.Refusing.{Decides};

use crate::contents::{Contents, contents_of};
use crate::ends::FlatEnd;
use crate::form::Flat;
use crate::sequences::{FlatFormulas, FlatItems};
use smv_instances::Table;
use smv_names::{
    NamesEnd, SizedModel, assignments_checked, cycles_checked, declarations_checked,
    invariants_checked, modules_checked, paths_checked, sizes_checked,
};
use smv_references::{Body, bodies_in};
use smv_text::Source;
use smv_width::width_of;
use std::alloc::Global;
use text_core::List;

// The first three phases, which return the table of the instances and the weight.
#[tactic(auto, using(crate::specs::laws::Composing::ends, crate::specs::laws::Composing::ends_behind, crate::specs::laws::Composing::both_pass))]
fn sized<'a>(alloc: Global, source: &'a Source) -> Result<SizedModel<'a>, NamesEnd>
    requires read { IsRead (plain_source source.now) }
    ensures checks { Settles result (early_checks (plain_source source.now)) }
    ensures table { IfOk result (λ s. map instance_plain s.table ≡ instances_of (plain_source source.now)) }
    ensures weight { IfOk result (λ s. s.weight ≡ sum_by (λ at. at.module.tokens) (map instance_plain s.table)) }
    ensures differ { IfOk result (λ s. AllByRecursion DiffersInside (map instance_plain s.table)) }
    ensures few { IfOk result (λ s. AreFew (map instance_plain s.table)) }
{
    modules_checked(alloc, source)?;
    declarations_checked(alloc, source)?;
    let model = sizes_checked(alloc, source)?;
    Ok(model)
}

// The definitions and actuals, and an order in which each comes after those to which it refers.
#[derive(Drop)]
struct Ordered<'a> {
    bodies: Vec<Body<'a>>,
    order: List<usize>,
}

// The phase of cycles. Paths are checked here only where it refuses, since their refusal comes first.
#[tactic(auto, using(crate::specs::laws::Composing::ends, crate::specs::laws::Composing::ends_behind))]
fn ordered_in<'a>(alloc: Global, table: &Table<'a>) -> Result<Ordered<'a>, NamesEnd>
    ensures passes { IfOk result (λ o. first_failing (cycle_checks_of (map instance_plain table.now)) ≡ None) }
    ensures refused { IfErr result (λ e. IsBad e (first_failing (path_checks_of (map instance_plain table.now) ++ cycle_checks_of (map instance_plain table.now)))) }
    ensures bodies { IfOk result (λ o. map body_plain o.bodies.items ≡ placed_bodies (map instance_plain table.now)) }
    ensures order { IfOk result (λ o. IsBodyOrder (map instance_plain table.now) o.order) }
{
    let bodies = bodies_in(alloc, table)?;
    match cycles_checked(alloc, table, bodies.as_slice()) {
        Ok(order) => Ok(Ordered { bodies, order }),
        Err(end) => {
            paths_checked(alloc, table)?;
            Err(end)
        }
    }
}

// The flat form of these instances.
#[tactic(auto, using(crate::proofs::Models::ordered))]
fn flattened(table: &Table, contents: Contents, weight: u32, invariants: u32) -> Flat
    requires items { map item_plain contents.items.items ≡ map (flat_item_of (map instance_plain table.now)) (origins_of (map instance_plain table.now)) }
    requires symbols { contents.symbols ≡ symbols_of (map instance_plain table.now) }
    requires formulas { map form_plain contents.formulas.items ≡ forms_of (map instance_plain table.now) }
    requires order { IsItemOrder (flat_of (map instance_plain table.now)) contents.order }
    requires model { AreOfModel (map instance_plain table.now) }
    requires weight { weight ≡ sum_by (λ at. at.module.tokens) (map instance_plain table.now) }
    requires invariants { invariants ≡ length (invariants_in (map instance_plain table.now)) }
    ensures form { flat_plain result ≡ flat_of (map instance_plain table.now) }
    ensures width { result.width ≡ width_of (flat_of (map instance_plain table.now)) }
    ensures weight { result.weight ≡ sum_by (λ at. at.module.tokens) (map instance_plain table.now) }
    ensures invariants { result.invariants ≡ length (invariants_in (map instance_plain table.now)) }
{
    let width = width_of(&contents.items, &contents.formulas);
    Flat {
        items: FlatItems::of(contents.items),
        symbols: contents.symbols,
        formulas: FlatFormulas::of(contents.formulas),
        order: contents.order,
        width,
        weight,
        invariants,
    }
}

/// Returns the flat form of a parsed model, after all checks in the order of their phases.
///
/// `needed` is the number of the invariant that the model must have, 0 where any will do. `Err` is the refusal of the
/// first failing check, or out of memory.
#[tactic(auto, using(crate::specs::laws::Composing::ends, crate::specs::laws::Composing::ends_behind, crate::specs::laws::Composing::both_pass))]
pub fn flatten(alloc: Global, source: &Source, needed: u32) -> Result<Flat, FlatEnd>
    // A text parses to the model, and none of its expressions is too high.
    requires read { IsRead (plain_source source.now) }
    ensures checks { Decides result (checks_of (plain_source source.now) needed) }
    ensures passes { IfOk result (λ f. IsAccepted (plain_source source.now) needed) }
    ensures form { IfOk result (λ f. flat_plain f ≡ flat_smv (plain_source source.now)) }
    ensures width { IfOk result (λ f. f.width ≡ width_of (flat_smv (plain_source source.now))) }
    ensures weight { IfOk result (λ f. f.weight ≡ weight_of (plain_source source.now)) }
    ensures invariants { IfOk result (λ f. f.invariants ≡ length (invariants_in (instances_of (plain_source source.now)))) }
{
    let model = sized(alloc, source)?;
    flat_in(alloc, source, &model, needed)
}

// The flat form of a model that passes the first three phases.
#[tactic(auto, using(crate::specs::laws::Composing::ends, crate::specs::laws::Composing::ends_behind, crate::specs::laws::Composing::both_pass))]
fn flat_in<'a>(
    alloc: Global,
    source: &Source,
    model: &SizedModel<'a>,
    needed: u32,
) -> Result<Flat, FlatEnd>
    requires read { IsRead (plain_source source.now) }
    requires checks { first_failing (early_checks (plain_source source.now)) ≡ None }
    requires table { map instance_plain model.now.table ≡ instances_of (plain_source source.now) }
    requires weight { model.now.weight ≡ sum_by (λ at. at.module.tokens) (map instance_plain model.now.table) }
    requires differ { AllByRecursion DiffersInside (map instance_plain model.now.table) }
    requires few { AreFew (map instance_plain model.now.table) }
    ensures checks { Decides result (checks_of (plain_source source.now) needed) }
    ensures passes { IfOk result (λ f. IsAccepted (plain_source source.now) needed) }
    ensures form { IfOk result (λ f. flat_plain f ≡ flat_smv (plain_source source.now)) }
    ensures width { IfOk result (λ f. f.width ≡ width_of (flat_smv (plain_source source.now))) }
    ensures weight { IfOk result (λ f. f.weight ≡ weight_of (plain_source source.now)) }
    ensures invariants { IfOk result (λ f. f.invariants ≡ length (invariants_in (instances_of (plain_source source.now)))) }
{
    let ordered = ordered_in(alloc, &model.table)?;
    flat_ordered(alloc, source, model, &ordered, needed)
}

// The flat form of a model that passes the phase of cycles, too.
#[tactic(auto, using(crate::specs::laws::Composing::ends, crate::specs::laws::Composing::ends_behind, crate::specs::laws::Composing::both_pass))]
fn flat_ordered<'a>(
    alloc: Global,
    source: &Source,
    model: &SizedModel<'a>,
    ordered: &Ordered<'a>,
    needed: u32,
) -> Result<Flat, FlatEnd>
    requires read { IsRead (plain_source source.now) }
    requires checks { first_failing (early_checks (plain_source source.now)) ≡ None }
    requires table { map instance_plain model.now.table ≡ instances_of (plain_source source.now) }
    requires weight { model.now.weight ≡ sum_by (λ at. at.module.tokens) (map instance_plain model.now.table) }
    requires differ { AllByRecursion DiffersInside (map instance_plain model.now.table) }
    requires few { AreFew (map instance_plain model.now.table) }
    requires cycles { first_failing (cycle_checks_of (map instance_plain model.now.table)) ≡ None }
    requires bodies { map body_plain ordered.now.bodies.items ≡ placed_bodies (map instance_plain model.now.table) }
    requires order { IsBodyOrder (map instance_plain model.now.table) ordered.now.order }
    ensures checks { Decides result (checks_of (plain_source source.now) needed) }
    ensures passes { IfOk result (λ f. IsAccepted (plain_source source.now) needed) }
    ensures form { IfOk result (λ f. flat_plain f ≡ flat_smv (plain_source source.now)) }
    ensures width { IfOk result (λ f. f.width ≡ width_of (flat_smv (plain_source source.now))) }
    ensures weight { IfOk result (λ f. f.weight ≡ weight_of (plain_source source.now)) }
    ensures invariants { IfOk result (λ f. f.invariants ≡ length (invariants_in (instances_of (plain_source source.now)))) }
{
    let table = &model.table;
    let contents = contents_of(alloc, table, ordered.bodies.as_slice(), &ordered.order)?;
    assignments_checked(alloc, &contents.assigned)?;
    let invariants = invariants_checked(table, source.end, needed)?;
    Ok(flattened(table, contents, model.weight, invariants))
}
