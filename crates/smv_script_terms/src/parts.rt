// The parts of the formulas of a system.
ghost use Rattle.std.specs.Prelude.{◌≡◌, ◌<◌, ◌^◌, ◌++◌, false, IfOk, OnOk, length, map};
ghost use Rattle.moxi_terms.specs.Tree.{constant, variable};
ghost use Rattle.moxi_terms.specs.View.{plain};
ghost use Rattle.smv_intervals.specs.View.{seen};
ghost use Rattle.smv_items.specs.FlatItemView.{item_plain};
ghost use Rattle.smv_flat.specs.FlatFormulas.{form_plain};
ghost use Rattle.smv_flat.specs.FlatParts.{parts_plain};
ghost use Rattle.smv_flat.specs.FlatView.{plain_flat};
ghost use Rattle.smv_script.specs.Codes.{symbol_datum};
ghost use Rattle.smv_script.specs.Script.{body_parts, domain_parts, form_parts, interval_parts, invar_item, is_following, member_term, trans_item};
ghost use Rattle.smv_script.specs.Ranges.{excess};
ghost use Rattle.smv_script.specs.Terms.{translation};
ghost use Rattle.smv_meaning.specs.Phases.{when_same};
ghost use Rattle.smv_script_terms.specs.Depths.{depth};
ghost use Rattle.smv_script_terms.specs.FlatChains.{AreBodyChains};
ghost use Rattle.smv_script_terms.specs.Parts.{body_equation, body_number, body_number_of};
ghost use Rattle.smv_script_terms.specs.Questions.{codes_of};

use crate::chains::{Chains, chains_of};
use crate::coding::{Coding, Question, Subject};
use crate::constants::integer_term;
use crate::functions::between;
use crate::operators::{equal, several};
use crate::small_flat::SmallFlat;
use crate::terms::terms_of;
use moxi_terms::{Datum, Term, TermOp, Terms};
use name_maps::NameSet;
use smv_flat::{FlatExpr, FlatFormula, FlatParts, Role};
use smv_intervals::Ty;
use smv_items::{FlatItem, ItemKind};
use smv_text::{Member, When};
use std::alloc::Global;
use text_core::NoMemory;

// The variable of an item, primed or unprimed.
fn variable(coding: &Coding, k: u32, primed: bool) -> Term
    ensures { plain result ≡ variable ((codes_of coding.now).place k) primed }
{
    Term::Variable(coding.place(k), primed)
}

fn symbol_term(symbols: &NameSet, name: &[u8]) -> Term
    requires few { length symbols.now < 2 ^ 32 }
    ensures { plain result ≡ constant (symbol_datum symbols.now name.now) }
{
    let number = match symbols.place(name) {
        Some(n) => n as u32,
        None => 0,
    };
    Term::Constant(Datum::Constant(0, number))
}

// The test that an item's variable has the value of a member.
fn member_term(
    alloc: Global,
    coding: &Coding,
    symbols: &NameSet,
    k: u32,
    member: &Member,
) -> Result<Term, NoMemory>
    requires few { length symbols.now < 2 ^ 32 }
    ensures { IfOk result (λ t. plain t ≡ member_term coding.now.width symbols.now (variable ((codes_of coding.now).place k) false) member.now) }
{
    let value = match member {
        Member::Symbol(name) => symbol_term(symbols, name.bytes()),
        Member::Integer(z) => integer_term(coding.width, *z as i128),
    };
    equal(alloc, variable(coding, k, false), value)
}

fn member_terms(
    alloc: Global,
    coding: &Coding,
    symbols: &NameSet,
    k: u32,
    members: &[Member],
) -> Result<Terms, NoMemory>
    requires few { length symbols.now < 2 ^ 32 }
    ensures { IfOk result (λ ts. map plain ts.items ≡ map (member_term coding.now.width symbols.now (variable ((codes_of coding.now).place k) false)) members.now) }
{
    let mut all = Vec::with_capacity(alloc, members.len())?;
    for member in members {
        let t = member_term(alloc, coding, symbols, k, member)?;
        all.push(t)?;
    }
    Ok(all)
}

// Adds the test that a variable with a range has a value in the range.
fn add_interval(
    alloc: Global,
    coding: &Coding,
    k: u32,
    ty: Ty,
    all: &mut Terms,
) -> Result<(), NoMemory>
    ensures { OnOk result (map plain all.new.items ≡ map plain all.old.items ++ interval_parts coding.now.width (variable ((codes_of coding.now).place k) false) (seen ty)) }
{
    match ty {
        Ty::Integer(low, high) => {
            let subject = Subject::Variable(coding.place(k), false);
            let t = between(alloc, coding.width, low, high, subject)?;
            Ok(all.push(t)?)
        }
        Ty::Truth | Ty::Symbol | Ty::Bits(_) => Ok(()),
    }
}

// Adds the test that a variable with an enumeration or a range has a value of its type.
fn add_domain(
    alloc: Global,
    coding: &Coding,
    symbols: &NameSet,
    k: u32,
    ty: Ty,
    members: &[Member],
    all: &mut Terms,
) -> Result<(), NoMemory>
    requires few { length symbols.now < 2 ^ 32 }
    ensures { OnOk result (map plain all.new.items ≡ map plain all.old.items ++ domain_parts coding.now.width symbols.now (variable ((codes_of coding.now).place k) false) (seen ty) members.now) }
{
    match members.first() {
        None => add_interval(alloc, coding, k, ty, all),
        Some(_) => {
            let terms = member_terms(alloc, coding, symbols, k, members)?;
            Ok(all.push(several(TermOp::Or, false, terms))?)
        }
    }
}

// The number of the item whose body the formula is, or `none`, which no item has, for any other formula.
fn body_number(role: Role, none: usize) -> usize
    ensures { result ≡ body_number none role }
{
    match role {
        Role::Body(k) => k as usize,
        Role::Assign(_, _) | Role::Init | Role::Trans | Role::Invar | Role::Invariant => none,
    }
}

fn body_numbers(
    alloc: Global,
    none: usize,
    formulas: &[FlatFormula],
) -> Result<Vec<usize>, NoMemory>
    ensures { IfOk result (λ ns. ns.items ≡ map (body_number_of none) formulas.now) }
{
    let mut numbers = Vec::with_capacity(alloc, formulas.len())?;
    for form in formulas {
        numbers.push(body_number(form.role, none))?;
    }
    Ok(numbers)
}

/// Returns the chains of the bodies of each item.
pub(crate) fn body_chains<'f>(alloc: Global, flat: &FlatParts<'f>) -> Result<Chains, NoMemory>
    ensures { IfOk result (λ c. AreBodyChains flat.now c) }
{
    let count = flat.items.len();
    let numbers = body_numbers(alloc, count, flat.formulas)?;
    chains_of(alloc, count, numbers)
}

// Adds the equation of a definition or an actual with its body.
fn add_body(
    alloc: Global,
    coding: &Coding,
    form: &FlatFormula,
    all: &mut Terms,
) -> Result<(), NoMemory>
    requires deep { depth 0 (plain_flat form.now.body) < 2 ^ 32 }
    requires in_range { excess (plain_flat form.now.body) ≡ 0 }
    ensures { OnOk result (map plain all.new.items ≡ map plain all.old.items ++ body_equation (codes_of coding.now) form.now.role (plain_flat form.now.body)) }
{
    match form.role {
        Role::Body(k) => {
            let body = terms_of(alloc, coding, 0, Question::Value, &form.body)?;
            let equation = equal(alloc, variable(coding, k, false), body)?;
            Ok(all.push(equation)?)
        }
        Role::Assign(_, _) | Role::Init | Role::Trans | Role::Invar | Role::Invariant => Ok(()),
    }
}

// Adds the equations of an item's bodies.
fn add_bodies<'f>(
    alloc: Global,
    coding: &Coding,
    flat: &SmallFlat<'f>,
    bodies: &Chains,
    k: usize,
    all: &mut Terms,
) -> Result<(), NoMemory>
    requires number { k < length flat.now.parts.items.now }
    requires bodies { AreBodyChains flat.now.parts bodies.now }
    ensures { OnOk result (map plain all.new.items ≡ map plain all.old.items ++ body_parts (codes_of coding.now) k (map form_plain flat.now.parts.formulas.now)) }
{
    let mut j = bodies.first(k);
    'bodies: while j < flat.parts.formulas.len() {
        add_body(alloc, coding, &flat.parts.formulas[j], all)?;
        j = bodies.next(j);
    }
    Ok(())
}

/// Adds the constraints on an item's value in each state, given the chains of the items' bodies.
pub(crate) fn add_invar_item<'f>(
    alloc: Global,
    coding: &Coding,
    flat: &SmallFlat<'f>,
    bodies: &Chains,
    k: usize,
    item: &FlatItem,
    all: &mut Terms,
) -> Result<(), NoMemory>
    requires number { k < length flat.now.parts.items.now }
    requires bodies { AreBodyChains flat.now.parts bodies.now }
    ensures { OnOk result (map plain all.new.items ≡ map plain all.old.items ++ invar_item (parts_plain flat.now.parts) (codes_of coding.now) k (item_plain item.now) item.now.kind) }
{
    match item.kind {
        ItemKind::Define | ItemKind::Actual => add_bodies(alloc, coding, flat, bodies, k, all),
        ItemKind::State | ItemKind::Frozen | ItemKind::Input => add_domain(
            alloc,
            coding,
            flat.parts.symbols,
            k as u32,
            item.ty,
            item.members.as_slice(),
            all,
        ),
    }
}

/// Adds the constraint that a frozen variable keeps its value.
pub(crate) fn add_trans_item(
    alloc: Global,
    coding: &Coding,
    k: usize,
    item: &FlatItem,
    all: &mut Terms,
) -> Result<(), NoMemory>
    requires number { k < 2 ^ 32 }
    ensures { OnOk result (map plain all.new.items ≡ map plain all.old.items ++ trans_item (codes_of coding.now) k item.now.kind) }
{
    match item.kind {
        ItemKind::Frozen => {
            let k = k as u32;
            let (next, now) = (variable(coding, k, true), variable(coding, k, false));
            let t = equal(alloc, next, now)?;
            Ok(all.push(t)?)
        }
        ItemKind::State | ItemKind::Input | ItemKind::Define | ItemKind::Actual => Ok(()),
    }
}

fn is_same_when(a: When, b: When) -> bool
    ensures { result ≡ when_same a b }
{
    match a {
        When::Always => matches!(b, When::Always),
        When::First => matches!(b, When::First),
        When::Following => matches!(b, When::Following),
    }
}

fn is_following(when: When) -> bool
    ensures { result ≡ is_following when }
{
    match when {
        When::Following => true,
        When::Always | When::First => false,
    }
}

// The constraint of an assignment: its body permits the target's value.
fn assigned(
    alloc: Global,
    coding: &Coding,
    when: When,
    k: u32,
    body: &FlatExpr,
) -> Result<Term, NoMemory>
    requires deep { depth 0 (plain_flat body.now) < 2 ^ 32 }
    requires in_range { excess (plain_flat body.now) ≡ 0 }
    ensures { IfOk result (λ t. plain t ≡ (translation (codes_of coding.now) (plain_flat body.now)).member 0 (variable ((codes_of coding.now).place k) (is_following when))) }
{
    let subject = Subject::Variable(coding.place(k), is_following(when));
    terms_of(alloc, coding, 0, Question::Permits(subject), body)
}

/// Adds the constraints of a formula for the first state, for each state or for each transition.
pub(crate) fn add_form(
    alloc: Global,
    coding: &Coding,
    when: When,
    form: &FlatFormula,
    all: &mut Terms,
) -> Result<(), NoMemory>
    requires deep { depth 0 (plain_flat form.now.body) < 2 ^ 32 }
    requires in_range { excess (plain_flat form.now.body) ≡ 0 }
    ensures { OnOk result (map plain all.new.items ≡ map plain all.old.items ++ form_parts (codes_of coding.now) when form.now.role (plain_flat form.now.body)) }
{
    match (form.role, when) {
        (Role::Assign(w, k), _) => {
            if is_same_when(w, when) {
                let t = assigned(alloc, coding, when, k, &form.body)?;
                Ok(all.push(t)?)
            } else {
                Ok(())
            }
        }
        (Role::Init, When::First) | (Role::Trans, When::Following) | (Role::Invar, When::Always) =>
            {
                let t = terms_of(alloc, coding, 0, Question::Value, &form.body)?;
                Ok(all.push(t)?)
            }
        _ => Ok(()),
    }
}
