// A lookup table of the names in the instances of large modules.
ghost use Rattle.std.specs.Prelude.{◌≡◌, ◌==◌, ◌-◌, ◌^◌, min, if◌then◌else◌, List, ℕ, Some, map, sum_by, unwrap_or, IfOk, OnOk};
ghost use Rattle.smv_text.specs.Tree.{trees_of};
ghost use Rattle.smv_text.specs.View.{plain, plain_item, plain_definition, plain_element, plain_module};
ghost use Rattle.smv_meaning.specs.Names.{nothing, among_items, among_definitions, among_elements, among_parameters};
ghost use Rattle.smv_instances.specs.NameCounts.{names_of, stored_names_of};
ghost use Rattle.smv_instances.specs.NameMap.{Knows, known_at, stored_in};
ghost use Rattle.smv_instances.specs.View.{instance_plain};

use crate::instances::Instance;
use crate::names::{Known, actual, domain};
use crate::scanning::is_small;
use name_maps::{InstanceRows, add_row_in, no_rows_in};
use smv_text::{Definitions, Element, Elements, Expr, Items, Module, Parameters, VarKind};
use std::alloc::Global;
use text_core::NoMemory;

/// The meaning of names in instances, by instance and name.
pub type KnownNames<'a> = InstanceRows<'a, Known<'a>>;

// The number of names that a module declares, saturated at `usize::MAX`.
fn names_in(module: &Module) -> usize
    ensures { result ≡ min (names_of (plain_module «module».now)) (2 ^ 64 - 1) }
{
    let mut count = module.parameters.len();
    for element in &module.elements {
        match element {
            Element::Vars(_, items) => count = count.saturating_add(items.len()),
            Element::Defines(definitions) => count = count.saturating_add(definitions.len()),
            _ => {}
        }
    }
    count
}

// Iterates from the last to the first, so that the first item with a name counts.
fn put_items<'a>(
    known: &mut KnownNames<'a>,
    i: usize,
    kind: VarKind,
    items: &'a Items,
) -> Result<(), NoMemory>
    ensures { OnOk result ((j : ℕ) (x : List ℕ) → known_at known.new j x ≡ (if i == j then among_items kind (map plain_item items.now) x (known_at known.old j x) else known_at known.old j x)) }
{
    let mut k = items.len();
    while k > 0 {
        k -= 1;
        let item = items.at(k);
        add_row_in(known, i, item.name.bytes(), domain(kind, &item.domain))?;
    }
    Ok(())
}

fn put_definitions<'a>(
    known: &mut KnownNames<'a>,
    i: usize,
    definitions: &'a Definitions,
) -> Result<(), NoMemory>
    ensures { OnOk result ((j : ℕ) (x : List ℕ) → known_at known.new j x ≡ (if i == j then among_definitions i (map plain_definition definitions.now) x (known_at known.old j x) else known_at known.old j x)) }
{
    let mut k = definitions.len();
    while k > 0 {
        k -= 1;
        let definition = definitions.at(k);
        add_row_in(
            known,
            i,
            definition.name.bytes(),
            Known::Body(i, &definition.body),
        )?;
    }
    Ok(())
}

// Adds the names of an instance of which none is known yet.
fn put_elements<'a>(
    known: &mut KnownNames<'a>,
    i: usize,
    elements: &'a Elements,
) -> Result<(), NoMemory>
    requires { (x : List ℕ) → known_at known.old i x ≡ nothing }
    ensures { OnOk result ((j : ℕ) (x : List ℕ) → known_at known.new j x ≡ (if i == j then among_elements i (map plain_element elements.now) x else known_at known.old j x)) }
{
    let mut k = elements.len();
    while k > 0 {
        k -= 1;
        match elements.at(k) {
            Element::Vars(kind, items) => put_items(known, i, *kind, items)?,
            Element::Defines(definitions) => put_definitions(known, i, definitions)?,
            _ => {}
        }
    }
    Ok(())
}

fn put_parameters<'a>(
    known: &mut KnownNames<'a>,
    i: usize,
    parent: usize,
    parameters: &'a Parameters,
    actuals: &'a [Expr],
) -> Result<(), NoMemory>
    ensures { OnOk result ((j : ℕ) (x : List ℕ) → known_at known.new j x ≡ (if i == j then among_parameters parent parameters.now (trees_of (map plain actuals.now)) x (known_at known.old j x) else known_at known.old j x)) }
{
    let mut k = parameters.len().min(actuals.len());
    while k > 0 {
        k -= 1;
        add_row_in(
            known,
            i,
            parameters.at(k).name.bytes(),
            actual(parent, &actuals[k]),
        )?;
    }
    Ok(())
}

// Adds the names of the instance with this number, of which none is known yet. Those of a small module need no rows.
fn put_instance<'a>(
    known: &mut KnownNames<'a>,
    i: usize,
    part: &Instance<'a>,
) -> Result<(), NoMemory>
    requires { (x : List ℕ) → known_at known.old i x ≡ nothing }
    ensures { OnOk result ((j : ℕ) (x : List ℕ) → known_at known.new j x ≡ (if i == j then stored_in i x (Some (instance_plain part.now)) else known_at known.old j x)) }
{
    let module = part.module;
    if is_small(module) {
        return Ok(());
    }
    put_elements(known, i, &module.elements)?;
    put_parameters(
        known,
        i,
        part.parent.unwrap_or(0),
        &module.parameters,
        part.actuals,
    )?;
    Ok(())
}

// The number of names that have rows, saturated at `usize::MAX`.
#[tactic(auto, using(crate::proofs::TableLemmas::stored_names_on))]
fn stored_names_in_all<'a>(table: &[Instance<'a>]) -> usize
    ensures { result ≡ min (sum_by (λ at. stored_names_of at.«module») (map instance_plain table.now)) (2 ^ 64 - 1) }
{
    let mut count: usize = 0;
    for part in table {
        if !is_small(part.module) {
            count = count.saturating_add(names_in(part.module));
        }
    }
    count
}

/// Returns the names of all instances, except of those of small modules.
#[tactic(auto, using(crate::proofs::KnownLemmas::knows_all))]
pub fn known_in_all<'a>(alloc: Global, table: &[Instance<'a>]) -> Result<KnownNames<'a>, NoMemory>
    ensures { IfOk result (Knows table.now) }
{
    let mut known = no_rows_in(alloc, stored_names_in_all(table))?;
    for (i, part) in table.iter().enumerate() {
        put_instance(&mut known, i, part)?;
    }
    Ok(known)
}
