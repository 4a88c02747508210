// The flat forms of a model's expressions, each checked as it is made.
ghost use Rattle.std.specs.Prelude.{◌≡◌, ◌<◌, ◌∷◌, [], ℕ, List, length, map, flat_map, if◌then◌else◌, Some, None, true, false, OnOk};
ghost use Rattle.smv_text.specs.declared.tree.VarKind.{VarKind};
ghost use Rattle.smv_text.specs.Tree.{trees_of};
ghost use Rattle.smv_text.specs.View.{plain, plain_item, plain_definition, plain_assignment, plain_element};
ghost use Rattle.smv_meaning.specs.Checks.{typing};
ghost use Rattle.smv_meaning.specs.Names.{found_in};
ghost use Rattle.smv_meaning.specs.Instances.{Instance as Specified};
ghost use Rattle.smv_meaning.specs.Naming.{in_body};
ghost use Rattle.smv_meaning.specs.Phases.{actual_typing, actuals_typing, formula_typing, assigned_typing, element_typing, type_checks, path_checks, names_in};
ghost use Rattle.smv_meaning.specs.Settled.{types_in};
ghost use Rattle.smv_instances.specs.View.{instance_plain};
ghost use Rattle.smv_types.specs.View.{position_seen};
ghost use Rattle.smv_items.specs.FlatItems.{actual_items, variable_item, definition_item, element_items, items_here, leaf_in};
ghost use Rattle.smv_flat.specs.FlatForms.{flat_in};
ghost use Rattle.smv_flat.specs.FlatView.{EndsTyped};
ghost use Rattle.smv_names.specs.Outcome.{Settles};
ghost use Rattle.smv_model_types.specs.Kept.{AreKept, IsBodyAt};
ghost use Rattle.smv_model_types.specs.Building.{Adds, BodyAdds, InstanceAdds, Finds, IsReady, instances_in, own_items, section_piece, assignment_piece, element_pieces, expression_paths, all_paths, assignment_paths, paths_here};
ghost use Rattle.smv_model_types.specs.Outcome.{is_path, item_typing, definition_typing};

use crate::built::{Building, push};
use crate::context::{Context, InstanceNames, translated};
use crate::domains::declared;
use crate::kept::{Kept, take_at};
use crate::parts::{
    are_same, assigned_item, is_found, is_instance, is_path, is_truth, number, position_of,
};
use smv_flat::{Role, Typed, typed};
use smv_instances::Instance;
use smv_names::{NamesEnd, NumberedAssignment, is_something};
use smv_references::place;
use smv_text::{
    Assignment, Assignments, Definitions, Element, Elements, Expr, Item, Items, Parameters,
};
use smv_types::{Permissions, Position};
use std::alloc::Global;
use text_core::Refusal;
use text_core::kinds::smv;

// Types an expression that is read in the instance with this number, and makes its flat form.
#[tactic(auto, using(crate::proofs::BuildingLaws::known_always))]
fn expression<'s, 'a, 'n>(
    alloc: Global,
    context: &Context<'s, 'a, 'n>,
    i: usize,
    e: &Expr,
    position: Position,
) -> Result<Typed, NamesEnd>
    ensures { EndsTyped (types_in true (instances_in context.now) i) (leaf_in (instances_in context.now) i) (position_seen position) false (plain e.now) result }
{
    let names = InstanceNames {
        context,
        instance: i,
    };
    typed(alloc, &names, e, Permissions::of(position), false)
}

// The body that is this item: what is kept of it, or else what it is typed as here.
fn body_typed<'s, 'a, 'n>(
    alloc: Global,
    context: &Context<'s, 'a, 'n>,
    kept: &mut Kept,
    item: usize,
    reader: usize,
    e: &Expr,
) -> Result<Typed, NamesEnd>
    requires kept { AreKept (instances_in context.now) kept.old.items }
    requires body { IsBodyAt (instances_in context.now) item reader (plain e.now) }
    ensures typed { EndsTyped (types_in true (instances_in context.now) reader) (leaf_in (instances_in context.now) reader) in_body false (plain e.now) result }
    ensures kept { AreKept (instances_in context.now) kept.new.items }
{
    match take_at(kept, item) {
        Some(x) => Ok(x),
        None => expression(alloc, context, reader, e, Position::Define),
    }
}

// Adds a body that is read in the instance `reader`, as the next item.
#[tactic(auto, using(crate::proofs::KeptLemmas::body_low))]
fn add_body<'s, 'a, 'n>(
    alloc: Global,
    context: &Context<'s, 'a, 'n>,
    built: &mut Building,
    i: u32,
    reader: usize,
    e: &Expr,
) -> Result<(), NamesEnd>
    requires kept { AreKept (instances_in context.now) built.old.kept.items }
    requires body { IsBodyAt (instances_in context.now) (length built.old.types.items) reader (plain e.now) }
    ensures checks { Settles result (typing (types_in true (instances_in context.now) reader) in_body (plain e.now)).checks }
    ensures adds { OnOk result (BodyAdds (instances_in context.now) i reader (plain e.now) built.old built.new) }
    ensures found { OnOk result (Finds (expression_paths (instances_in context.now) reader (plain e.now)) built.old built.new) }
{
    let item = built.types.len();
    let x = body_typed(alloc, context, &mut built.kept, item, reader, e)?;
    built.all_found = built.all_found & x.ty.is_some();
    let role = Role::Body(item as u32);
    built.types.push(x.ty)?;
    push(&mut built.forms, i, role, x.expr)?;
    Ok(())
}

// Checks an actual: one that is a path may name anything.
#[tactic(auto, using(crate::proofs::BodyLemmas::path_actual, crate::proofs::BodyLemmas::other_actual))]
fn check_actual<'s, 'a, 'n>(
    alloc: Global,
    context: &Context<'s, 'a, 'n>,
    parent: usize,
    e: &Expr,
) -> Result<(), NamesEnd>
    ensures { Settles result (actual_typing (types_in true (instances_in context.now) parent) (plain e.now)) }
{
    if !is_path(e) {
        expression(alloc, context, parent, e, Position::Define)?;
    }
    Ok(())
}

// Adds an actual. One that is a path is no item.
#[tactic(auto, using(crate::proofs::BodyLemmas::path_actual, crate::proofs::BodyLemmas::other_actual, crate::proofs::Actuals::path_adds, crate::proofs::Actuals::other_adds, crate::proofs::Actuals::other_next))]
fn add_actual<'s, 'a, 'n>(
    alloc: Global,
    context: &Context<'s, 'a, 'n>,
    built: &mut Building,
    i: u32,
    parent: usize,
    e: &Expr,
) -> Result<(), NamesEnd>
    requires ready { IsReady (instances_in context.now) (own_items i parent (plain e.now)) built.old }
    ensures checks { Settles result (actual_typing (types_in true (instances_in context.now) parent) (plain e.now)) }
    ensures adds { OnOk result (Adds (instances_in context.now) (own_items i parent (plain e.now)) [] built.old built.new) }
    ensures found { OnOk result (Finds (expression_paths (instances_in context.now) parent (plain e.now)) built.old built.new) }
{
    if is_path(e) {
        built.all_found = built.all_found & is_found(context, parent, e);
        Ok(())
    } else {
        add_body(alloc, context, built, i, parent, e)
    }
}

// Adds a variable, if it is no instance, after the checks of its declared type.
#[tactic(auto, using(crate::proofs::DomainLemmas::typed, crate::proofs::Actuals::instance_adds, crate::proofs::Actuals::variable_adds))]
fn add_item(built: &mut Building, item: &Item) -> Result<(), NamesEnd>
    ensures checks { Settles result (item_typing (plain_item item.now)) }
    ensures adds { (t : List Specified) (i : ℕ) (kind : VarKind) → OnOk result (Adds t (variable_item i kind (plain_item item.now)) [] built.old built.new) }
    ensures found { OnOk result (Finds [] built.old built.new) }
{
    match declared(&item.domain) {
        Ok(ty) => {
            if !is_instance(&item.domain) {
                built.types.push(ty)?;
            }
            Ok(())
        }
        Err(kind) => Err(NamesEnd::Bad(Refusal {
            kind,
            place: item.domain_place,
        })),
    }
}

fn add_items(built: &mut Building, items: &Items) -> Result<(), NamesEnd>
    ensures checks { Settles result (flat_map item_typing (map plain_item items.now)) }
    ensures adds { (t : List Specified) (i : ℕ) (kind : VarKind) → OnOk result (Adds t (flat_map (variable_item i kind) (map plain_item items.now)) [] built.old built.new) }
    ensures found { OnOk result (Finds [] built.old built.new) }
{
    for item in items {
        add_item(built, item)?;
    }
    Ok(())
}

fn add_definitions<'s, 'a, 'n>(
    alloc: Global,
    context: &Context<'s, 'a, 'n>,
    built: &mut Building,
    i: u32,
    definitions: &Definitions,
) -> Result<(), NamesEnd>
    requires ready { IsReady (instances_in context.now) (map (definition_item i) (map plain_definition definitions.now)) built.old }
    ensures checks { Settles result (flat_map (definition_typing (types_in true (instances_in context.now) i)) (map plain_definition definitions.now)) }
    ensures adds { OnOk result (Adds (instances_in context.now) (map (definition_item i) (map plain_definition definitions.now)) [] built.old built.new) }
    ensures found { OnOk result (Finds (flat_map (λ d. expression_paths (instances_in context.now) i d.body) (map plain_definition definitions.now)) built.old built.new) }
{
    for definition in definitions {
        add_body(alloc, context, built, i, i as usize, &definition.body)?;
    }
    Ok(())
}

// Adds a section's formula, which must be a truth value.
fn add_formula<'s, 'a, 'n>(
    alloc: Global,
    context: &Context<'s, 'a, 'n>,
    built: &mut Building,
    i: u32,
    role: Role,
    e: &Expr,
    position: Position,
) -> Result<(), NamesEnd>
    ensures checks { Settles result (formula_typing (types_in true (instances_in context.now) i) (position_seen position) (plain e.now)) }
    ensures adds { OnOk result (Adds (instances_in context.now) [] (section_piece (record { instance = i; role = role; body = flat_in (instances_in context.now) i (position_seen position) (plain e.now) }) ∷ []) built.old built.new) }
    ensures found { OnOk result (Finds (expression_paths (instances_in context.now) i (plain e.now)) built.old built.new) }
{
    let x = expression(alloc, context, i as usize, e, position)?;
    built.all_found = built.all_found & x.ty.is_some();
    if !is_truth(x.ty) {
        return Err(NamesEnd::Bad(Refusal {
            kind: smv::TYPE_CLASH,
            place: place(e),
        }));
    }
    push(&mut built.rest, i, role, x.expr)?;
    Ok(())
}

// Adds an assignment, whose value must fit its target.
fn add_assignment<'s, 'a, 'n>(
    alloc: Global,
    context: &Context<'s, 'a, 'n>,
    built: &mut Building,
    i: u32,
    assignment: &Assignment,
) -> Result<(), NamesEnd>
    ensures checks { Settles result (assigned_typing (types_in true (instances_in context.now) i) (plain_assignment assignment.now)) }
    ensures adds { OnOk result (Adds (instances_in context.now) [] (assignment_piece (instances_in context.now) i (plain_assignment assignment.now) ∷ []) built.old built.new) }
    ensures found { OnOk result (Finds (assignment_paths (instances_in context.now) i (plain_assignment assignment.now)) built.old built.new) }
{
    let path = &assignment.target;
    let found = context.model.table.target(i as usize, path);
    let target = translated(alloc, context.model, context.entries, found)?;
    let position = position_of(assignment.when);
    let value = expression(alloc, context, i as usize, &assignment.body, position)?;
    built.all_found = built.all_found & is_something(found) & value.ty.is_some();
    if !are_same(target.named.ty, value.ty) {
        return Err(NamesEnd::Bad(Refusal {
            kind: smv::TYPE_CLASH,
            place: place(&assignment.body),
        }));
    }
    let item = number(target.leaf);
    let role = Role::Assign(assignment.when, item);
    push(&mut built.rest, i, role, value.expr)?;
    built.assigned.push(NumberedAssignment {
        when: assignment.when,
        item: assigned_item(assignment.when, &found, item),
        place: path.place,
    })?;
    Ok(())
}

fn add_assignments<'s, 'a, 'n>(
    alloc: Global,
    context: &Context<'s, 'a, 'n>,
    built: &mut Building,
    i: u32,
    assignments: &Assignments,
) -> Result<(), NamesEnd>
    ensures checks { Settles result (flat_map (assigned_typing (types_in true (instances_in context.now) i)) (map plain_assignment assignments.now)) }
    ensures adds { OnOk result (Adds (instances_in context.now) [] (map (assignment_piece (instances_in context.now) i) (map plain_assignment assignments.now)) built.old built.new) }
    ensures found { OnOk result (Finds (flat_map (assignment_paths (instances_in context.now) i) (map plain_assignment assignments.now)) built.old built.new) }
{
    for assignment in assignments {
        add_assignment(alloc, context, built, i, assignment)?;
    }
    Ok(())
}

fn add_element<'s, 'a, 'n>(
    alloc: Global,
    context: &Context<'s, 'a, 'n>,
    built: &mut Building,
    i: u32,
    element: &Element,
) -> Result<(), NamesEnd>
    requires ready { IsReady (instances_in context.now) (element_items i (plain_element element.now)) built.old }
    ensures checks { Settles result (element_typing (types_in true (instances_in context.now) i) (plain_element element.now)) }
    ensures adds { OnOk result (Adds (instances_in context.now) (element_items i (plain_element element.now)) (element_pieces (instances_in context.now) i (plain_element element.now)) built.old built.new) }
    ensures found { OnOk result (Finds (paths_here (instances_in context.now) i (plain_element element.now)) built.old built.new) }
{
    match element {
        Element::Vars(_, items) => add_items(built, items),
        Element::Defines(definitions) => add_definitions(alloc, context, built, i, definitions),
        Element::Constants(_) => Ok(()),
        Element::Assigns(assignments) => add_assignments(alloc, context, built, i, assignments),
        Element::Init(e) => add_formula(alloc, context, built, i, Role::Init, e, Position::Now),
        Element::Trans(e) => add_formula(alloc, context, built, i, Role::Trans, e, Position::Step),
        Element::Invar(e) => add_formula(alloc, context, built, i, Role::Invar, e, Position::Now),
        Element::Spec(_, e) => {
            add_formula(alloc, context, built, i, Role::Invariant, e, Position::Now)
        }
    }
}

fn add_elements<'s, 'a, 'n>(
    alloc: Global,
    context: &Context<'s, 'a, 'n>,
    built: &mut Building,
    i: u32,
    elements: &Elements,
) -> Result<(), NamesEnd>
    requires ready { IsReady (instances_in context.now) (flat_map (element_items i) (map plain_element elements.now)) built.old }
    ensures checks { Settles result (flat_map (element_typing (types_in true (instances_in context.now) i)) (map plain_element elements.now)) }
    ensures adds { OnOk result (Adds (instances_in context.now) (flat_map (element_items i) (map plain_element elements.now)) (flat_map (element_pieces (instances_in context.now) i) (map plain_element elements.now)) built.old built.new) }
    ensures found { OnOk result (Finds (flat_map (paths_here (instances_in context.now) i) (map plain_element elements.now)) built.old built.new) }
{
    for element in elements {
        add_element(alloc, context, built, i, element)?;
    }
    Ok(())
}

// Adds the actuals that have a parameter.
fn add_own<'s, 'a, 'n>(
    alloc: Global,
    context: &Context<'s, 'a, 'n>,
    built: &mut Building,
    i: u32,
    parent: usize,
    actuals: &[Expr],
) -> Result<(), NamesEnd>
    requires ready { IsReady (instances_in context.now) (flat_map (own_items i parent) (map plain actuals.now)) built.old }
    ensures checks { Settles result (flat_map (actual_typing (types_in true (instances_in context.now) parent)) (map plain actuals.now)) }
    ensures adds { OnOk result (Adds (instances_in context.now) (flat_map (own_items i parent) (map plain actuals.now)) [] built.old built.new) }
    ensures found { OnOk result (Finds (flat_map (expression_paths (instances_in context.now) parent) (map plain actuals.now)) built.old built.new) }
{
    for actual in actuals {
        add_actual(alloc, context, built, i, parent, actual)?;
    }
    Ok(())
}

// Checks the actuals that have none.
#[tactic(auto, using(smv_meaning::specs::laws::Lists::front_is, smv_meaning::specs::laws::Lists::end_is, smv_meaning::specs::laws::Composing::goes, smv_meaning::specs::laws::Composing::ends))]
fn check_others<'s, 'a, 'n>(
    alloc: Global,
    context: &Context<'s, 'a, 'n>,
    parent: usize,
    actuals: &[Expr],
) -> Result<(), NamesEnd>
    ensures { Settles result (flat_map (actual_typing (types_in true (instances_in context.now) parent)) (map plain actuals.now)) }
{
    for actual in actuals {
        check_actual(alloc, context, parent, actual)?;
    }
    Ok(())
}

// Adds the actuals of an instance, which are read in its parent. One without a parameter is checked alone.
fn add_actuals<'s, 'a, 'n>(
    alloc: Global,
    context: &Context<'s, 'a, 'n>,
    built: &mut Building,
    i: u32,
    parent: usize,
    parameters: &Parameters,
    actuals: &[Expr],
) -> Result<(), NamesEnd>
    requires ready { IsReady (instances_in context.now) (actual_items i parent parameters.now (trees_of (map plain actuals.now))) built.old }
    ensures checks { Settles result (actuals_typing (types_in true (instances_in context.now) parent) (trees_of (map plain actuals.now))) }
    ensures adds { OnOk result (Adds (instances_in context.now) (actual_items i parent parameters.now (trees_of (map plain actuals.now))) [] built.old built.new) }
    ensures found { OnOk result (Finds (all_paths (instances_in context.now) parent (trees_of (map plain actuals.now))) built.old built.new) }
{
    if parameters.len() < actuals.len() {
        let (own, others) = actuals.split_at(parameters.len());
        add_own(alloc, context, built, i, parent, own)?;
        check_others(alloc, context, parent, others)?;
        built.all_found = false;
        Ok(())
    } else {
        add_own(alloc, context, built, i, parent, actuals)
    }
}

// Adds an instance: first its actuals, then its own elements. Its bodies come before its assignments and sections.
#[tactic(auto, using(smv_meaning::specs::laws::Composing::both_pass, smv_meaning::specs::laws::Composing::ends, smv_meaning::specs::laws::Composing::ends_behind))]
pub(crate) fn add_instance<'s, 'a, 'n>(
    alloc: Global,
    context: &Context<'s, 'a, 'n>,
    built: &mut Building,
    i: u32,
    at: &Instance<'a>,
) -> Result<(), NamesEnd>
    requires ready { IsReady (instances_in context.now) (items_here i (instance_plain at.now)) built.old }
    requires none { built.old.rest.items ≡ [] }
    ensures checks { Settles result (type_checks (names_in (instances_in context.now)) i (instance_plain at.now)) }
    ensures adds { OnOk result (InstanceAdds (instances_in context.now) i (instance_plain at.now) built.old built.new) }
    ensures found { OnOk result (Finds (path_checks (found_in (instances_in context.now)) i (instance_plain at.now)) built.old built.new) }
{
    let parent = at.parent.unwrap_or(0);
    let module = at.module;
    add_actuals(
        alloc,
        context,
        built,
        i,
        parent,
        &module.parameters,
        at.actuals,
    )?;
    add_elements(alloc, context, built, i, &module.elements)?;
    built.forms.append(&mut built.rest)?;
    Ok(())
}
