// The types of definitions and actuals, each after those to which it refers.
ghost use Rattle.std.specs.Prelude.{◌≡◌, ◌<◌, true, [], Some, length, map, slice_index_or, IfOk, OnOk};
ghost use Rattle.std.specs.List.{AllByRecursion, list_any};
ghost use Rattle.smv_text.specs.View.{plain};
ghost use Rattle.smv_meaning.specs.Names.{body_at, local};
ghost use Rattle.smv_meaning.specs.Naming.{named_found};
ghost use Rattle.smv_meaning.specs.Bodies.{placed_bodies, IsBodyOrder};
ghost use Rattle.smv_instances.specs.View.{instance_plain};
ghost use Rattle.smv_references.specs.View.{body_plain, path_seen, key_of};
ghost use Rattle.smv_types.specs.View.{named_seen};
ghost use Rattle.smv_items.specs.FlatItems.{leaf_in};
ghost use Rattle.smv_items.specs.laws.Declarations.{DiffersInside};
ghost use Rattle.smv_model_types.specs.Kept.{AreKept, HasReferred, IsBodyOf, IsTried, has_own_body};
ghost use Rattle.smv_model_types.specs.Entries.{entries_seen, entries_names, Becomes, IsPut, HasEach};
ghost use Rattle.smv_model_types.specs.Reading.{entries_of, instances_of, names_of};

use crate::context::{EnteredNames, Model};
use crate::kept::{Kept, put_at};
use crate::names::{Entries, target_reaches};
use name_maps::row_value_in;
use smv_flat::{Typed, typed};
use smv_instances::Known;
use smv_laws::{
    names_settle, order_is_complete, references_come_before, refused_have_no_type,
    types_hang_on_paths, types_settle,
};
use smv_references::{Body, paths_in};
use smv_text::{Expr, Path};
use smv_types::{CheckEnd, Named, Permissions, Position};
use std::alloc::Global;
use text_core::{List, NoMemory};

// Whether one of the paths reaches an input.
fn one_reaches<'c, 's, 'a, 'n>(names: &EnteredNames<'c, 's, 'a, 'n>, paths: &[&Path]) -> bool
    ensures { result ≡ list_any (λ q. (names_of names.now q).reaches_input) (map path_seen paths.now) }
{
    let model = names.model;
    for path in paths {
        let target = model.table.target(names.instance, path);
        if target_reaches(model, names.entries, target) {
            return true;
        }
    }
    false
}

// The type and the flat form of a body, or None where one of its checks fails.
#[tactic(auto, using(crate::proofs::BuildingLaws::known_always))]
fn body_typed<'c, 's, 'a, 'n>(
    alloc: Global,
    names: &EnteredNames<'c, 's, 'a, 'n>,
    e: &Expr,
) -> Result<Option<Typed>, NoMemory>
    ensures { IfOk result (IsTried (names_of names.now) (leaf_in (instances_of names.now) names.now.instance) (plain e.now)) }
{
    refused_have_no_type();
    match typed(alloc, names, e, Permissions::of(Position::Define), false) {
        Ok(x) => Ok(Some(x)),
        Err(CheckEnd::Bad(_)) => Ok(None),
        Err(CheckEnd::NoMemory) => Err(NoMemory),
    }
}

// The properties of a body, given what typing it came to.
fn body_named<'c, 's, 'a, 'n>(
    alloc: Global,
    names: &EnteredNames<'c, 's, 'a, 'n>,
    e: &Expr,
    found: &Option<Typed>,
) -> Result<Named, NoMemory>
    requires { IsTried (names_of names.now) (leaf_in (instances_of names.now) names.now.instance) (plain e.now) found.now }
    ensures { IfOk result (λ n. named_seen n ≡ named_found true (entries_names (instances_of names.now) (entries_of names.now)) (body_at 0 [] names.now.instance (plain e.now))) }
{
    match found {
        Some(x) => Ok(Named {
            ty: x.ty,
            is_instance: false,
            reaches_input: x.reaches_input,
        }),
        None => {
            let paths = paths_in(alloc, e)?;
            Ok(Named {
                ty: None,
                is_instance: false,
                reaches_input: one_reaches(names, paths.as_slice()),
            })
        }
    }
}

// Stores the properties of the body of this instance and name, and the body itself if it was typed, under the number of
// its item.
fn store<'s, 'a, 'n>(
    model: &Model<'s, 'a, 'n>,
    entries: &mut Entries,
    kept: &mut Kept,
    i: usize,
    x: &[u8],
    named: Named,
    found: Option<Typed>,
) -> Result<(), NoMemory>
    requires differ { AllByRecursion DiffersInside (map instance_plain model.now.table.now) }
    requires is_body { has_own_body (local (map instance_plain model.now.table.now) i x.now) ≡ true }
    requires kept { AreKept (map instance_plain model.now.table.now) kept.old.items }
    requires found { IsBodyOf (map instance_plain model.now.table.now) i x.now found }
    ensures put { OnOk result (Becomes (entries_seen model.now.numbers.now.bodies entries.old.items) (i, x.now) (Some (named_seen named)) (entries_seen model.now.numbers.now.bodies entries.new.items)) }
    ensures kept { OnOk result (AreKept (map instance_plain model.now.table.now) kept.new.items) }
{
    match row_value_in(&model.numbers.bodies, i, x) {
        Some(k) => {
            put_at(entries, k, Some(named))?;
            put_at(kept, k, found)?;
            Ok(())
        }
        None => Ok(()),
    }
}

// Types a definition or an actual that is no path, and stores it.
fn put_body<'s, 'a, 'n>(
    alloc: Global,
    model: &Model<'s, 'a, 'n>,
    entries: &mut Entries,
    kept: &mut Kept,
    body: &Body<'a>,
) -> Result<(), NoMemory>
    requires differ { AllByRecursion DiffersInside (map instance_plain model.now.table.now) }
    requires referred { HasReferred (map instance_plain model.now.table.now) (entries_seen model.now.numbers.now.bodies entries.old.items) (key_of body.now) }
    requires kept { AreKept (map instance_plain model.now.table.now) kept.old.items }
    ensures put { OnOk result (IsPut (map instance_plain model.now.table.now) (key_of body.now) (entries_seen model.now.numbers.now.bodies entries.old.items) (entries_seen model.now.numbers.now.bodies entries.new.items)) }
    ensures kept { OnOk result (AreKept (map instance_plain model.now.table.now) kept.new.items) }
{
    match model.table.local(body.instance, body.name) {
        Known::Body(j, e) => {
            let names = EnteredNames {
                model,
                entries,
                instance: j,
            };
            let found = body_typed(alloc, &names, e)?;
            let named = body_named(alloc, &names, e, &found)?;
            store(model, entries, kept, body.instance, body.name, named, found)
        }
        Known::Alias(_, _) => Ok(()),
        Known::Variable(_, _) => Ok(()),
        Known::Instance => Ok(()),
        Known::Nothing => Ok(()),
    }
}

fn numbered_body<'f, 'a>(bodies: &'f [Body<'a>], n: usize) -> &'f Body<'a>
    requires { n < length bodies.now }
    ensures { result.now ≡ slice_index_or bodies.now n result.now }
{
    &bodies[n]
}

/// The properties of the definitions and actuals of a model, and the bodies that passed their checks, by the numbers of
/// their items.
#[derive(Drop)]
pub(crate) struct TypedBodies {
    pub(crate) entries: Entries,
    pub(crate) kept: Kept,
}

/// Types the bodies of a model in this order, in which each comes after those to which it refers.
pub(crate) fn bodies_typed<'s, 'a, 'n>(
    alloc: Global,
    model: &Model<'s, 'a, 'n>,
    bodies: &[Body<'a>],
    order: &List<usize>,
) -> Result<TypedBodies, NoMemory>
    requires bodies { map body_plain bodies.now ≡ placed_bodies (map instance_plain model.now.table.now) }
    requires order { IsBodyOrder (map instance_plain model.now.table.now) order.now }
    requires differ { AllByRecursion DiffersInside (map instance_plain model.now.table.now) }
    ensures entries { IfOk result (λ b. HasEach (map instance_plain model.now.table.now) (entries_seen model.now.numbers.now.bodies b.entries.items)) }
    ensures kept { IfOk result (λ b. AreKept (map instance_plain model.now.table.now) b.kept.items) }
{
    names_settle();
    types_settle();
    types_hang_on_paths();
    references_come_before();
    order_is_complete();
    let mut entries = Vec::new(alloc);
    let mut kept = Vec::new(alloc);
    for number in order.as_slice() {
        let body = numbered_body(bodies, *number);
        put_body(alloc, model, &mut entries, &mut kept, body)?;
    }
    Ok(TypedBodies { entries, kept })
}
