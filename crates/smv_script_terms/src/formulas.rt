// The formulas of a system.
ghost use Rattle.std.specs.Prelude.{◌≡◌, ◌<◌, ◌++◌, IfOk, OnOk, length, map, max};
ghost use Rattle.moxi_terms.specs.View.{plain};
ghost use Rattle.smv_items.specs.FlatItemView.{item_plain};
ghost use Rattle.smv_flat.specs.FlatFormulas.{form_plain};
ghost use Rattle.smv_flat.specs.FlatParts.{parts_plain};
ghost use Rattle.smv_script.specs.Script.{above_forms, above_items, formula_of, instance_parts, item_parts, numbered_parts, parts_upto};
ghost use Rattle.smv_script_terms.specs.Chains.{AreChains};
ghost use Rattle.smv_script_terms.specs.FlatChains.{AreBodyChains, AreFlatChains, instance_count};
ghost use Rattle.smv_script_terms.specs.Parts.{form_number, form_owned, item_number, owned_by};
ghost use Rattle.smv_script_terms.specs.Questions.{codes_of};

use crate::chains::{Chains, chains_of};
use crate::coding::Coding;
use crate::operators::several;
use crate::parts::{add_form, add_invar_item, add_trans_item, body_chains};
use crate::small_flat::SmallFlat;
use moxi_terms::{Term, TermOp, Terms};
use smv_flat::{FlatFormula, FlatParts};
use smv_items::FlatItem;
use smv_text::When;
use std::alloc::Global;
use text_core::NoMemory;

/// The chains of items and of formulas by instance, those of bodies by item, and the number of instances.
#[derive(Drop)]
pub struct FlatChains {
    count: usize,
    items: Chains,
    formulas: Chains,
    bodies: Chains,
}

// One more than the greatest instance number.
fn instances_of(items: &[FlatItem], formulas: &[FlatFormula]) -> usize
    ensures { result ≡ max (above_items (map item_plain items.now)) (above_forms (map form_plain formulas.now)) }
{
    above_items(items).max(above_forms(formulas))
}

fn above_items(items: &[FlatItem]) -> usize
    ensures { result ≡ above_items (map item_plain items.now) }
{
    let mut most = 0;
    for item in items {
        most = most.max(item.instance as usize + 1);
    }
    most
}

fn above_forms(formulas: &[FlatFormula]) -> usize
    ensures { result ≡ above_forms (map form_plain formulas.now) }
{
    let mut most = 0;
    for form in formulas {
        most = most.max(form.instance as usize + 1);
    }
    most
}

fn item_chains(alloc: Global, count: usize, items: &[FlatItem]) -> Result<Chains, NoMemory>
    ensures { IfOk result (λ c. AreChains (map item_number items.now) count c) }
{
    let mut numbers = Vec::with_capacity(alloc, items.len())?;
    for item in items {
        numbers.push(item.instance as usize)?;
    }
    chains_of(alloc, count, numbers)
}

fn form_chains(alloc: Global, count: usize, formulas: &[FlatFormula]) -> Result<Chains, NoMemory>
    ensures { IfOk result (λ c. AreChains (map form_number formulas.now) count c) }
{
    let mut numbers = Vec::with_capacity(alloc, formulas.len())?;
    for form in formulas {
        numbers.push(form.instance as usize)?;
    }
    chains_of(alloc, count, numbers)
}

/// Returns the chains of a flat form, which all its formulas share.
pub fn flat_chains<'f>(alloc: Global, flat: &FlatParts<'f>) -> Result<FlatChains, NoMemory>
    ensures { IfOk result (AreFlatChains flat.now) }
{
    let count = instances_of(flat.items, flat.formulas);
    let items = item_chains(alloc, count, flat.items)?;
    let formulas = form_chains(alloc, count, flat.formulas)?;
    let bodies = body_chains(alloc, flat)?;
    Ok(FlatChains {
        count,
        items,
        formulas,
        bodies,
    })
}

// Adds the constraints on an item.
fn add_item<'f>(
    alloc: Global,
    coding: &Coding,
    when: When,
    flat: &SmallFlat<'f>,
    bodies: &Chains,
    k: usize,
    item: &FlatItem,
    all: &mut Terms,
) -> Result<(), NoMemory>
    requires number { k < length flat.now.parts.items.now }
    requires bodies { AreBodyChains flat.now.parts bodies.now }
    ensures { OnOk result (map plain all.new.items ≡ map plain all.old.items ++ item_parts (parts_plain flat.now.parts) (codes_of coding.now) when k (item_plain item.now)) }
{
    match when {
        When::First => Ok(()),
        When::Always => add_invar_item(alloc, coding, flat, bodies, k, item, all),
        When::Following => add_trans_item(alloc, coding, k, item, all),
    }
}

// Adds the constraints on the items of an instance.
fn add_items<'f>(
    alloc: Global,
    coding: &Coding,
    when: When,
    flat: &SmallFlat<'f>,
    chains: &FlatChains,
    i: usize,
    all: &mut Terms,
) -> Result<(), NoMemory>
    requires number { i < instance_count flat.now.parts }
    requires chains { AreFlatChains flat.now.parts chains.now }
    ensures { OnOk result (map plain all.new.items ≡ map plain all.old.items ++ numbered_parts (parts_plain flat.now.parts) (codes_of coding.now) when i 0 (map item_plain flat.now.parts.items.now)) }
{
    let mut k = chains.items.first(i);
    'items: while k < flat.parts.items.len() {
        let item = &flat.parts.items[k];
        add_item(alloc, coding, when, flat, &chains.bodies, k, item, all)?;
        k = chains.items.next(k);
    }
    Ok(())
}

// Adds the constraints from the formulas of an instance.
fn add_forms<'f>(
    alloc: Global,
    coding: &Coding,
    when: When,
    flat: &SmallFlat<'f>,
    chains: &FlatChains,
    i: usize,
    all: &mut Terms,
) -> Result<(), NoMemory>
    requires number { i < instance_count flat.now.parts }
    requires chains { AreFlatChains flat.now.parts chains.now }
    ensures { OnOk result (map plain all.new.items ≡ map plain all.old.items ++ owned_by i (map (form_owned (codes_of coding.now) when) (map form_plain flat.now.parts.formulas.now))) }
{
    let mut j = chains.formulas.first(i);
    'formulas: while j < flat.parts.formulas.len() {
        add_form(alloc, coding, when, &flat.parts.formulas[j], all)?;
        j = chains.formulas.next(j);
    }
    Ok(())
}

// Adds the parts of an instance.
fn add_instance<'f>(
    alloc: Global,
    coding: &Coding,
    when: When,
    flat: &SmallFlat<'f>,
    chains: &FlatChains,
    i: usize,
    all: &mut Terms,
) -> Result<(), NoMemory>
    requires number { i < instance_count flat.now.parts }
    requires chains { AreFlatChains flat.now.parts chains.now }
    ensures { OnOk result (map plain all.new.items ≡ map plain all.old.items ++ instance_parts (parts_plain flat.now.parts) (codes_of coding.now) when i) }
{
    add_items(alloc, coding, when, flat, chains, i, all)?;
    add_forms(alloc, coding, when, flat, chains, i, all)
}

// The parts of all instances.
fn parts_of<'f>(
    alloc: Global,
    coding: &Coding,
    when: When,
    flat: &SmallFlat<'f>,
    chains: &FlatChains,
) -> Result<Terms, NoMemory>
    requires { AreFlatChains flat.now.parts chains.now }
    ensures { IfOk result (λ ts. map plain ts.items ≡ parts_upto (parts_plain flat.now.parts) (codes_of coding.now) when (instance_count flat.now.parts)) }
{
    let mut all = Vec::with_capacity(alloc, flat.parts.formulas.len())?;
    for i in 0..chains.count {
        add_instance(alloc, coding, when, flat, chains, i, &mut all)?;
    }
    Ok(all)
}

/// Returns a system's formula for the first state, for each state or for each transition (MoXI, SPIN 2024).
///
/// `chains` are those of the flat form.
pub fn formula_of<'f>(
    alloc: Global,
    coding: &Coding,
    when: When,
    flat: &SmallFlat<'f>,
    chains: &FlatChains,
) -> Result<Term, NoMemory>
    requires { AreFlatChains flat.now.parts chains.now }
    ensures { IfOk result (λ t. plain t ≡ formula_of (parts_plain flat.now.parts) (codes_of coding.now) when) }
{
    let parts = parts_of(alloc, coding, when, flat, chains)?;
    Ok(several(TermOp::And, true, parts))
}
