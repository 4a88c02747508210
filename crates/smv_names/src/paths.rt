// The check that each path has a target.
ghost use Rattle.std.specs.Prelude.{◌≡◌, ◌++◌, List, map, flat_map, OnOk, unwrap_or};
ghost use Rattle.smv_text.specs.View.{plain_definition, plain_assignment, plain_element};
ghost use Rattle.smv_meaning.specs.Instances.{Instance as Specified};
ghost use Rattle.smv_meaning.specs.Names.{found_in};
ghost use Rattle.smv_meaning.specs.Phases.{is_something, path_check, path_checks, element_paths, over_instances};
ghost use Rattle.smv_instances.specs.View.{instance_plain, found_plain};
ghost use Rattle.smv_references.specs.View.{path_seen};
ghost use Rattle.smv_names.specs.Outcome.{Settles};
ghost use Rattle.smv_names.specs.Paths.{assignment_paths, definition_paths};

use crate::ends::NamesEnd;
use smv_instances::{Instance, Table, Target};
use smv_references::{put_all_paths, put_paths};
use smv_text::{Assignments, Definitions, Element, Elements, Path};
use std::alloc::Global;
use text_core::kinds::smv;
use text_core::{NoMemory, Refusal};

/// Returns whether a path with this target leads to something.
pub fn is_something(target: Target) -> bool
    ensures { (t : List Specified) → result ≡ is_something (found_plain t target.entry) }
{
    match target {
        Target::Variable(_, _, _, _) => true,
        Target::Body(_, _, _, _) => true,
        Target::Instance(_) => true,
        Target::Symbol(_) => true,
        Target::Cyclic => true,
        Target::Missing => false,
    }
}

// Checks the paths, read in the instance with this number.
fn all_checked<'a>(table: &Table<'a>, i: usize, paths: &[&'a Path]) -> Result<(), NamesEnd>
    ensures { Settles result (map (path_check (found_in (map instance_plain table.now)) i) (map path_seen paths.now)) }
{
    for path in paths {
        let path = *path;
        if !is_something(table.target(i, path)) {
            return Err(NamesEnd::Bad(Refusal {
                kind: smv::UNKNOWN,
                place: path.place,
            }));
        }
    }
    Ok(())
}

#[tactic(auto, using(crate::proofs::PathLemmas::joined))]
fn put_assignment_paths<'a>(
    paths: &mut Vec<&'a Path>,
    assignments: &'a Assignments,
) -> Result<(), NoMemory>
    ensures { OnOk result (map path_seen paths.new.items ≡ map path_seen paths.old.items ++ flat_map assignment_paths (map plain_assignment assignments.now)) }
{
    for assignment in assignments {
        paths.push(&assignment.target)?;
        put_paths(paths, &assignment.body)?;
    }
    Ok(())
}

#[tactic(auto, using(crate::proofs::PathLemmas::joined))]
fn put_definition_paths<'a>(
    paths: &mut Vec<&'a Path>,
    definitions: &'a Definitions,
) -> Result<(), NoMemory>
    ensures { OnOk result (map path_seen paths.new.items ≡ map path_seen paths.old.items ++ flat_map definition_paths (map plain_definition definitions.now)) }
{
    for definition in definitions {
        put_paths(paths, &definition.body)?;
    }
    Ok(())
}

fn put_element_paths<'a>(paths: &mut Vec<&'a Path>, element: &'a Element) -> Result<(), NoMemory>
    ensures { OnOk result (map path_seen paths.new.items ≡ map path_seen paths.old.items ++ element_paths (plain_element element.now)) }
{
    match element {
        Element::Vars(_, _) => {}
        Element::Defines(definitions) => put_definition_paths(paths, definitions)?,
        Element::Constants(_) => {}
        Element::Assigns(assignments) => put_assignment_paths(paths, assignments)?,
        Element::Init(e) => put_paths(paths, e)?,
        Element::Trans(e) => put_paths(paths, e)?,
        Element::Invar(e) => put_paths(paths, e)?,
        Element::Spec(_, e) => put_paths(paths, e)?,
    }
    Ok(())
}

#[tactic(auto, using(crate::proofs::PathLemmas::joined))]
fn put_elements_paths<'a>(paths: &mut Vec<&'a Path>, elements: &'a Elements) -> Result<(), NoMemory>
    ensures { OnOk result (map path_seen paths.new.items ≡ map path_seen paths.old.items ++ flat_map element_paths (map plain_element elements.now)) }
{
    for element in elements {
        put_element_paths(paths, element)?;
    }
    Ok(())
}

// Checks the paths of the actuals, read in the parent, then those of the instance's own elements. The list `paths` is
// reused for both.
#[tactic(auto, using(smv_meaning::specs::laws::Composing::both_pass, smv_meaning::specs::laws::Composing::ends, smv_meaning::specs::laws::Composing::ends_behind))]
fn instance_checked<'a>(
    table: &Table<'a>,
    i: usize,
    at: &Instance<'a>,
    paths: &mut Vec<&'a Path>,
) -> Result<(), NamesEnd>
    ensures { Settles result (path_checks (found_in (map instance_plain table.now)) i (instance_plain at.now)) }
{
    paths.clear();
    put_all_paths(paths, at.actuals)?;
    all_checked(table, at.parent.unwrap_or(0), paths.as_slice())?;
    paths.clear();
    put_elements_paths(paths, &at.module.elements)?;
    all_checked(table, i, paths.as_slice())?;
    Ok(())
}

/// Checks that each path of an instantiated module has a target.
///
/// Otherwise `Err` is S14 at the first path that has none.
#[tactic(auto, using(smv_meaning::specs::laws::Lists::front_is, smv_meaning::specs::laws::Lists::end_is, smv_meaning::specs::laws::Composing::goes, smv_meaning::specs::laws::Composing::ends))]
pub fn paths_checked<'a>(alloc: Global, table: &Table<'a>) -> Result<(), NamesEnd>
    ensures { Settles result (over_instances (path_checks (found_in (map instance_plain table.now))) 0 (map instance_plain table.now)) }
{
    let mut paths = Vec::new(alloc);
    for (i, part) in table.list().iter().enumerate() {
        instance_checked(table, i, part, &mut paths)?;
    }
    Ok(())
}
