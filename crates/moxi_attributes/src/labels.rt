// The named formulas of a check.
ghost use Rattle.std.specs.Prelude.{◌≡◌, ◌<◌, ◌^◌, false, OnOk};
ghost use Rattle.moxi_sexpr.specs.Tree.{all_nodes, nodes, plain as plain_form, plain_forms};
ghost use Rattle.moxi_terms.specs.View.{plain};
ghost use Rattle.moxi_scripts.specs.declared.parts.Turn.TheVariants as turns;
ghost use Rattle.moxi_scripts.specs.Collecting.{also};
ghost use Rattle.moxi_scripts.specs.Labels.{has_name, is_formula_key, is_label, label_tests, labels_after, labels_failures, labels_with, named_tests, no_labels, no_list, with_formula, with_named, with_one};
ghost use Rattle.moxi_attributes.specs.Views.{plain_labels, plain_list};
ghost use Rattle.moxi_scripts.specs.Shapes.{named};

use crate::attributes::turn_after;
use crate::collect::{fail_if, fail_primed, refuse};
use crate::formulas::read_truth;
use crate::shapes::{named_form, place_of, shape_refusal};
use moxi_scripts::{Command, Formula, Formulas, Key, Turn};
use moxi_sexpr::Form;
use moxi_term_reading::Locals;
use moxi_terms::{Primes, Scope, Term};
use name_maps::NameSet;
use std::alloc::Global;
use text_core::kinds::moxi;
use text_core::{Name, NoMemory, Refusal};

/// Formulas of one kind, and their names.
#[derive(Drop)]
pub struct Labelled {
    pub names: NameSet,
    pub formulas: Formulas,
}

/// The formulas of a check, and whether each has its shape.
#[derive(Drop)]
pub struct Labels {
    pub assumptions: Labelled,
    pub currents: Labelled,
    pub reachables: Labelled,
    pub whole: bool,
}

fn no_list(alloc: Global) -> Labelled
    ensures { plain_list result ≡ no_list }
{
    Labelled {
        names: NameSet::new(alloc),
        formulas: Formulas::new(alloc),
    }
}

/// Returns empty lists of formulas.
pub fn no_labels(alloc: Global) -> Labels
    ensures { plain_labels result ≡ no_labels }
{
    Labels {
        assumptions: no_list(alloc),
        currents: no_list(alloc),
        reachables: no_list(alloc),
        whole: true,
    }
}

fn has_name(l: &Labelled, name: &[u8]) -> bool
    ensures { result ≡ has_name (plain_list l.now) name.now }
{
    match l.names.place(name) {
        None => false,
        Some(_) => true,
    }
}

fn is_label(ls: &Labels, name: &[u8]) -> bool
    ensures { result ≡ is_label (plain_labels ls.now) name.now }
{
    has_name(&ls.assumptions, name)
        || has_name(&ls.currents, name)
        || has_name(&ls.reachables, name)
}

// Adds a formula with a new name.
#[tactic(auto, using(moxi_terms::proofs::ScopeLaws::map_end))]
fn add_one(alloc: Global, l: &mut Labelled, name: &[u8], term: Term) -> Result<(), NoMemory>
    requires { has_name (plain_list l.old) name.now ≡ false }
    ensures { OnOk result (plain_list l.new ≡ with_one (plain_list l.old) (record { name = name.now; term = plain term })) }
{
    l.names.declare(alloc, name)?;
    l.formulas.push(Formula {
        name: Name::of(alloc, name)?,
        term,
    })?;
    Ok(())
}

fn is_formula_key(k: Key) -> bool
    ensures { result ≡ is_formula_key k }
{
    match k {
        Key::Assumption => true,
        Key::Current => true,
        Key::Reachable => true,
        Key::Input => false,
        Key::Output => false,
        Key::Local => false,
        Key::Init => false,
        Key::Trans => false,
        Key::Inv => false,
        Key::Subsystem => false,
        Key::Query => false,
        Key::Queries => false,
    }
}

// Adds a formula of this kind with a new name.
fn add_formula(
    alloc: Global,
    k: Key,
    ls: &mut Labels,
    name: &[u8],
    term: Term,
) -> Result<(), NoMemory>
    requires { is_label (plain_labels ls.old) name.now ≡ false }
    ensures { OnOk result (plain_labels ls.new ≡ with_formula k (plain_labels ls.old) (record { name = name.now; term = plain term })) }
{
    match k {
        Key::Assumption => {
            add_one(alloc, &mut ls.assumptions, name, term)?;
            Ok(())
        }
        Key::Current => {
            add_one(alloc, &mut ls.currents, name, term)?;
            Ok(())
        }
        Key::Reachable => {
            add_one(alloc, &mut ls.reachables, name, term)?;
            Ok(())
        }
        Key::Input => Ok(()),
        Key::Output => Ok(()),
        Key::Local => Ok(()),
        Key::Init => Ok(()),
        Key::Trans => Ok(()),
        Key::Inv => Ok(()),
        Key::Subsystem => Ok(()),
        Key::Query => Ok(()),
        Key::Queries => Ok(()),
    }
}

// Reads `(a t)`, a formula of this kind.
#[tactic(auto, using(crate::specs::laws::Collecting::also_append))]
fn read_label(
    alloc: Global,
    scope: &Scope,
    locals: &Locals,
    k: Key,
    form: &Form,
    ls: &mut Labels,
    found: &mut Option<Refusal>,
) -> Result<(), NoMemory>
    requires few { nodes (plain_form form.now) < 2 ^ 32 }
    ensures labels { OnOk result (plain_labels ls.new ≡ with_named scope.now locals.now k (plain_labels ls.old) (named (plain_form form.now))) }
    ensures finds { OnOk result (found.new ≡ also found.old (named_tests scope.now locals.now (plain_labels ls.old) (plain_form form.now) (named (plain_form form.now)))) }
{
    match named_form(form) {
        None => {
            refuse(found, shape_refusal(place_of(form), form));
            ls.whole = false;
            Ok(())
        }
        Some(n) => {
            fail_primed(found, n.primed, n.place);
            let taken = is_label(ls, n.name);
            fail_if(found, taken, moxi::NAME_TWICE, n.place);
            let term = read_truth(alloc, scope, locals, Primes::Refused, n.form, found)?;
            if taken {
                return Ok(());
            }
            add_formula(alloc, k, ls, n.name, term)?;
            Ok(())
        }
    }
}

// Reads a form among the attributes.
#[tactic(auto, using(crate::specs::laws::Collecting::also_none))]
fn read_label_at(
    alloc: Global,
    scope: &Scope,
    locals: &Locals,
    turn: Turn,
    form: &Form,
    ls: &mut Labels,
    found: &mut Option<Refusal>,
) -> Result<(), NoMemory>
    requires few { nodes (plain_form form.now) < 2 ^ 32 }
    ensures labels { OnOk result (plain_labels ls.new ≡ labels_with scope.now locals.now turn (plain_labels ls.old) (plain_form form.now)) }
    ensures finds { OnOk result (found.new ≡ also found.old (label_tests scope.now locals.now turn (plain_labels ls.old) (plain_form form.now))) }
{
    match turn {
        Turn::AtKeyword => Ok(()),
        Turn::Behind(k) => {
            if is_formula_key(k) {
                read_label(alloc, scope, locals, k, form, ls, found)?;
                return Ok(());
            }
            Ok(())
        }
        Turn::Passing => Ok(()),
    }
}

/// Reads the formulas among the attributes of a check.
pub fn read_labels(
    alloc: Global,
    scope: &Scope,
    locals: &Locals,
    forms: &[Form],
    ls: &mut Labels,
    found: &mut Option<Refusal>,
) -> Result<(), NoMemory>
    requires few { all_nodes (plain_forms forms.now) < 2 ^ 32 }
    ensures labels { OnOk result (plain_labels ls.new ≡ labels_after scope.now locals.now (plain_labels ls.old) turns.AtKeyword (plain_forms forms.now)) }
    ensures finds { OnOk result (found.new ≡ also found.old (labels_failures scope.now locals.now (plain_labels ls.old) turns.AtKeyword (plain_forms forms.now))) }
{
    let mut turn = Turn::AtKeyword;
    for form in forms {
        read_label_at(alloc, scope, locals, turn, form, ls, found)?;
        turn = turn_after(Command::Check, turn, form);
    }
    Ok(())
}
