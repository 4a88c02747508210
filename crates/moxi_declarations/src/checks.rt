// The check of a script, as read before its system is looked up.
ghost use Rattle.std.specs.Prelude.{◌≡◌, ◌<◌, ◌^◌, ◌++◌, [], true, Some, IfOk, OnOk};
ghost use Rattle.std.specs.Option.{option_map};
ghost use Rattle.moxi_sexpr.specs.Tree.{all_nodes, plain_forms};
ghost use Rattle.moxi_scripts.specs.declared.parts.Command.TheVariants as commands;
ghost use Rattle.moxi_scripts.specs.declared.parts.Turn.TheVariants as turns;
ghost use Rattle.moxi_attributes.specs.Views.{value_now, headed_here, plain_labels};
ghost use Rattle.moxi_scripts.specs.Checks.{check_failures, check_in, check_of, content_failures, content_of, headed_failures};
ghost use Rattle.moxi_scripts.specs.Checks.{label_failures_over, labels_in, labels_over, place_or, places_in, query_failures_over};
ghost use Rattle.moxi_scripts.specs.Checks.{variables_in};
ghost use Rattle.moxi_scripts.specs.Labels.{no_labels};
ghost use Rattle.moxi_scripts.specs.QueryReading.{queries_after};
ghost use Rattle.moxi_declarations.specs.Views.{plain_check_reading};
ghost use Rattle.moxi_scripts.specs.Attributes.{shape_holds};
ghost use Rattle.moxi_scripts.specs.Collecting.{also};
ghost use Rattle.moxi_scripts.specs.Lists.{all_entries, lists_in};
ghost use Rattle.moxi_scripts.specs.Shapes.{headed};

use crate::queries::read_queries;
use crate::systems::{ReadVariables, read_variables};
use moxi_attributes::{
    Headed, Labels, fail, fail_primed, headed_forms, no_labels, place_of, read_labels, shape_holds,
    value_of,
};
use moxi_scripts::{Command, Entries, Key, ListPlaces, Lists, Queries};
use moxi_sexpr::Form;
use moxi_term_reading::Locals;
use moxi_terms::Scope;
use std::alloc::Global;
use std::mem::drop;
use text_core::kinds::moxi;
use text_core::{Name, NoMemory, Place, Refusal};

/// A check whose system is not yet looked up.
#[derive(Drop)]
pub struct ReadCheck {
    pub place: Place,
    pub target: Name,
    pub target_place: Place,
    pub lists: Lists,
    pub places: ListPlaces,
    pub labels: Labels,
    pub queries: Queries,
}

fn place_or(p: Place, value: Option<&Form>) -> Place
    ensures { result ≡ place_or p (value_now value.entry) }
{
    match value {
        None => p,
        Some(form) => place_of(form),
    }
}

fn places_in(p: Place, forms: &[Form]) -> ListPlaces
    ensures { result ≡ places_in p (plain_forms forms.now) }
{
    ListPlaces {
        inputs: place_or(p, value_of(Command::Check, Key::Input, forms)),
        outputs: place_or(p, value_of(Command::Check, Key::Output, forms)),
        locals: place_or(p, value_of(Command::Check, Key::Local, forms)),
    }
}

// Reads the formulas and the queries of a check, given its variables.
fn read_named(
    alloc: Global,
    scope: &Scope,
    locals: &Locals,
    forms: &[Form],
    labels: &mut Labels,
    queries: &mut Queries,
    found: &mut Option<Refusal>,
) -> Result<(), NoMemory>
    requires labels { plain_labels labels.old ≡ no_labels }
    requires queries { queries.old ≡ [] }
    requires few { all_nodes (plain_forms forms.now) < 2 ^ 32 }
    ensures labels { OnOk result (plain_labels labels.new ≡ labels_over scope.now locals.now (plain_forms forms.now)) }
    ensures queries { OnOk result (queries.new ≡ queries_after (labels_over scope.now locals.now (plain_forms forms.now)) turns.AtKeyword (plain_forms forms.now)) }
    ensures finds { OnOk result (found.new ≡ also (also found.old (label_failures_over scope.now locals.now (plain_forms forms.now))) (query_failures_over (labels_over scope.now locals.now (plain_forms forms.now)) (plain_forms forms.now))) }
{
    read_labels(alloc, scope, locals, forms, labels, found)?;
    read_queries(alloc, labels, forms, queries, found)?;
    Ok(())
}

// Reads the lists, the formulas and the queries of a check with well-shaped attributes.
fn read_parts(
    alloc: Global,
    scope: &Scope,
    forms: &[Form],
    labels: &mut Labels,
    queries: &mut Queries,
    variables: &mut Entries,
    found: &mut Option<Refusal>,
) -> Result<Lists, NoMemory>
    requires labels { plain_labels labels.old ≡ no_labels }
    requires queries { queries.old ≡ [] }
    requires shape { shape_holds commands.Check (plain_forms forms.now) ≡ true }
    requires few { all_nodes (plain_forms forms.now) < 2 ^ 32 }
    ensures lists { IfOk result (λ l. l ≡ lists_in scope.now commands.Check (plain_forms forms.now)) }
    ensures labels { OnOk result (plain_labels labels.new ≡ labels_in scope.now (plain_forms forms.now)) }
    ensures queries { OnOk result (queries.new ≡ queries_after (labels_in scope.now (plain_forms forms.now)) turns.AtKeyword (plain_forms forms.now)) }
    ensures adds { OnOk result (variables.new ≡ variables.old ++ all_entries (lists_in scope.now commands.Check (plain_forms forms.now))) }
    ensures finds { OnOk result (found.new ≡ also found.old (content_failures scope.now (plain_forms forms.now))) }
{
    let v = read_variables(alloc, scope, Command::Check, forms, variables, found)?;
    let ReadVariables { lists, locals } = v;
    let named = read_named(alloc, scope, &locals, forms, labels, queries, found);
    drop(locals);
    match named {
        Ok(()) => Ok(lists),
        Err(e) => {
            drop(lists);
            Err(e)
        }
    }
}

// Reads a check with well-shaped attributes.
fn read_content(
    alloc: Global,
    scope: &Scope,
    p: Place,
    h: Headed,
    variables: &mut Entries,
    found: &mut Option<Refusal>,
) -> Result<ReadCheck, NoMemory>
    requires shape { shape_holds commands.Check (headed_here h).rest ≡ true }
    requires few { all_nodes (headed_here h).rest < 2 ^ 32 }
    ensures check { IfOk result (λ r. plain_check_reading r ≡ content_of scope.now p (headed_here h.entry)) }
    ensures adds { OnOk result (variables.new ≡ variables.old ++ all_entries (lists_in scope.now commands.Check (headed_here h.entry).rest)) }
    ensures finds { OnOk result (found.new ≡ also found.old (content_failures scope.now (headed_here h.entry).rest)) }
{
    let target = Name::of(alloc, h.name)?;
    let mut labels = no_labels(alloc);
    let mut queries = Queries::new(alloc);
    match read_parts(
        alloc,
        scope,
        h.rest,
        &mut labels,
        &mut queries,
        variables,
        found,
    ) {
        Ok(lists) => Ok(ReadCheck {
            place: p,
            target,
            target_place: h.place,
            lists,
            places: places_in(p, h.rest),
            labels,
            queries,
        }),
        Err(e) => {
            drop(target);
            drop(labels);
            drop(queries);
            Err(e)
        }
    }
}

// Tests the shape of a check's attributes, and reads the check.
#[tactic(auto, using(moxi_attributes::specs::laws::Collecting::also_append, moxi_attributes::specs::laws::Collecting::nothing_more))]
fn read_shaped(
    alloc: Global,
    scope: &Scope,
    p: Place,
    h: Headed,
    variables: &mut Entries,
    found: &mut Option<Refusal>,
) -> Result<Option<ReadCheck>, NoMemory>
    requires few { all_nodes (headed_here h).rest < 2 ^ 32 }
    ensures check { IfOk result (λ o. option_map plain_check_reading o ≡ check_in scope.now p (Some (headed_here h.entry))) }
    ensures adds { OnOk result (variables.new ≡ variables.old ++ variables_in scope.now (Some (headed_here h.entry))) }
    ensures finds { OnOk result (found.new ≡ also found.old (headed_failures scope.now p (Some (headed_here h.entry)))) }
{
    if shape_holds(Command::Check, h.rest) {
        fail_primed(found, h.primed, h.place);
        let r = read_content(alloc, scope, p, h, variables, found)?;
        return Ok(Some(r));
    }
    fail(found, moxi::ARITY, p);
    Ok(None)
}

/// Reads `(check-system S ..)` at `p`, given the forms after its head.
///
/// Returns None where its shape is wrong.
#[tactic(auto, using(moxi_attributes::specs::laws::Collecting::nothing_more))]
pub fn read_check(
    alloc: Global,
    scope: &Scope,
    p: Place,
    forms: &[Form],
    variables: &mut Entries,
    found: &mut Option<Refusal>,
) -> Result<Option<ReadCheck>, NoMemory>
    requires few { all_nodes (plain_forms forms.now) < 2 ^ 32 }
    ensures check { IfOk result (λ o. option_map plain_check_reading o ≡ check_of scope.now p (plain_forms forms.now)) }
    ensures adds { OnOk result (variables.new ≡ variables.old ++ variables_in scope.now (headed (plain_forms forms.now))) }
    ensures finds { OnOk result (found.new ≡ also found.old (check_failures scope.now p (plain_forms forms.now))) }
{
    match headed_forms(forms) {
        None => {
            fail(found, moxi::ARITY, p);
            Ok(None)
        }
        Some(h) => {
            let r = read_shaped(alloc, scope, p, h, variables, found)?;
            Ok(r)
        }
    }
}
