// Lists of variables.
ghost use Rattle.std.specs.Prelude.{◌≡◌, ◌<◌, ◌^◌, ◌++◌, length, OnOk, IfOk, is_some};
ghost use Rattle.moxi_sexpr.specs.Tree.{plain, plain_forms};
ghost use Rattle.moxi_scripts.specs.Collecting.{also};
ghost use Rattle.moxi_scripts.specs.Declarations.{clash_failures};
ghost use Rattle.moxi_scripts.specs.Entries.{are_entries, entries_failures, entries_of, entry_failures, entry_of, known_sort};
ghost use Rattle.moxi_scripts.specs.Entries.{locals_among, locals_found, names_after, names_with, sort_among, sort_failures};
ghost use Rattle.moxi_scripts.specs.Entries.{twice_failures, twice_tests, variable_of, variables_of};
ghost use Rattle.moxi_scripts.specs.Shapes.{named};

use crate::collect::{fail, fail_if, fail_primed, note, refuse};
use crate::constants::both;
use crate::shapes::{named_form, place_of, shape_refusal};
use moxi_scripts::{Declared, Entries};
use moxi_sexpr::Form;
use moxi_term_reading::{Locals, sort_of};
use moxi_terms::{Scope, Sort, Variable, Variables};
use name_maps::NameSet;
use std::alloc::Global;
use text_core::kinds::moxi;
use text_core::{List, Name, NoMemory, Place, Refusal};

/// Records the test of a sort.
#[tactic(auto, using(crate::specs::laws::Collecting::also_none))]
pub fn note_sort(found: &mut Option<Refusal>, sort: Result<Sort, Refusal>)
    ensures { found.new ≡ also found.old (sort_failures sort) }
{
    match sort {
        Ok(_) => {}
        Err(f) => refuse(found, f),
    }
}

/// Returns the sort if it is known.
pub fn known_sort(sort: Result<Sort, Refusal>) -> Option<Sort>
    ensures { result ≡ known_sort sort }
{
    match sort {
        Ok(s) => Some(s),
        Err(_) => None,
    }
}

// Reads an entry of a list at `around`, and returns whether it has its shape.
#[tactic(auto, using(crate::specs::laws::Collecting::also_append))]
fn read_entry(
    alloc: Global,
    scope: &Scope,
    around: Place,
    form: &Form,
    all: &mut Entries,
    found: &mut Option<Refusal>,
) -> Result<bool, NoMemory>
    ensures shaped { IfOk result (λ b. b ≡ is_some (named (plain form.now))) }
    ensures adds { OnOk result (all.new ≡ all.old ++ entry_of scope.now (plain form.now)) }
    ensures finds { OnOk result (found.new ≡ also found.old (entry_failures scope.now around (plain form.now))) }
{
    match named_form(form) {
        None => {
            refuse(found, shape_refusal(around, form));
            Ok(false)
        }
        Some(n) => {
            let sort = sort_of(scope, place_of(form), n.form);
            fail_primed(found, n.primed, n.place);
            note_sort(found, sort);
            all.push(Declared {
                name: Name::of(alloc, n.name)?,
                place: n.place,
                sort: known_sort(sort),
            })?;
            Ok(true)
        }
    }
}

/// Appends the variables of a list at `around`, and returns whether each of its forms is `(x S)`.
pub fn read_entries(
    alloc: Global,
    scope: &Scope,
    around: Place,
    forms: &[Form],
    all: &mut Entries,
    found: &mut Option<Refusal>,
) -> Result<bool, NoMemory>
    ensures shaped { IfOk result (λ b. b ≡ are_entries (plain_forms forms.now)) }
    ensures adds { OnOk result (all.new ≡ all.old ++ entries_of scope.now (plain_forms forms.now)) }
    ensures finds { OnOk result (found.new ≡ also found.old (entries_failures scope.now around (plain_forms forms.now))) }
{
    let mut shaped = true;
    for form in forms {
        let entry = read_entry(alloc, scope, around, form, all, found)?;
        shaped = both(shaped, entry);
    }
    Ok(shaped)
}

// Declares one more name of its list, and tests that it was not declared before.
#[tactic(auto, using(crate::specs::laws::Collecting::also_none))]
fn test_twice_one(
    alloc: Global,
    names: &mut NameSet,
    entry: &Declared,
    found: &mut Option<Refusal>,
) -> Result<(), NoMemory>
    ensures names { OnOk result (names.new ≡ names_with names.old entry.now.name) }
    ensures finds { OnOk result (found.new ≡ also found.old (twice_tests names.old entry.now)) }
{
    if !names.declare(alloc, entry.name.bytes())? {
        fail(found, moxi::NAME_TWICE, entry.place);
    }
    Ok(())
}

/// Tests that no name is declared twice: in the list, or once there and once in `names`.
#[tactic(auto, using(crate::specs::laws::Collecting::also_append))]
pub fn test_twice(
    alloc: Global,
    names: &mut NameSet,
    entries: &Entries,
    found: &mut Option<Refusal>,
) -> Result<(), NoMemory>
    ensures names { OnOk result (names.new ≡ names_after names.old entries.now) }
    ensures finds { OnOk result (found.new ≡ also found.old (twice_failures names.old entries.now)) }
{
    for entry in entries {
        test_twice_one(alloc, names, entry, found)?;
    }
    Ok(())
}

/// Returns the variables as an index by name, numbered with 32 bits.
pub fn locals_among(alloc: Global, entries: &Entries) -> Result<Locals, NoMemory>
    requires few { length entries.now < 2 ^ 32 }
    ensures { IfOk result (λ l. l ≡ locals_among entries.now) }
{
    let mut locals = Locals::new(alloc);
    for entry in entries {
        locals.add(Name::of(alloc, entry.name.bytes())?, entry.sort)?;
    }
    Ok(locals)
}

// The sort of a name among variables.
fn sort_among(locals: &Locals, name: &[u8]) -> Option<Sort>
    ensures { result ≡ sort_among locals.now name.now }
{
    match locals.find(name) {
        None => None,
        Some((_, sort)) => sort,
    }
}

/// Returns the variables as an index by name, each with the sort that its name has in `text`.
///
/// There the variables are in the order of the text. The variables are numbered with 32 bits.
pub fn locals_found(alloc: Global, text: &Locals, entries: &Entries) -> Result<Locals, NoMemory>
    requires few { length entries.now < 2 ^ 32 }
    ensures { IfOk result (λ l. l ≡ locals_found text.now entries.now) }
{
    let mut locals = Locals::new(alloc);
    for entry in entries {
        let sort = sort_among(text, entry.name.bytes());
        locals.add(Name::of(alloc, entry.name.bytes())?, sort)?;
    }
    Ok(locals)
}

/// Returns the variables that have a sort.
pub fn variables_of(alloc: Global, entries: &Entries) -> Result<Variables, NoMemory>
    ensures { IfOk result (λ vs. vs ≡ variables_of entries.now) }
{
    let mut variables = Variables::new(alloc);
    for entry in entries {
        add_variable(alloc, entry.name.bytes(), entry.sort, &mut variables)?;
    }
    Ok(variables)
}

fn add_variable(
    alloc: Global,
    name: &[u8],
    sort: Option<Sort>,
    variables: &mut Variables,
) -> Result<(), NoMemory>
    ensures { OnOk result (variables.new ≡ variables.old ++ variable_of name.now sort) }
{
    match sort {
        None => Ok(()),
        Some(sort) => {
            variables.push(Variable {
                name: Name::of(alloc, name)?,
                sort,
            })?;
            Ok(())
        }
    }
}

/// Appends entries.
pub fn append(alloc: Global, all: &mut Entries, more: &Entries) -> Result<(), NoMemory>
    ensures { OnOk result (all.new ≡ all.old ++ more.now) }
{
    for entry in more {
        all.push(Declared {
            name: Name::of(alloc, entry.name.bytes())?,
            place: entry.place,
            sort: entry.sort,
        })?;
    }
    Ok(())
}

/// Tests that two sorts are equal, if both are known.
///
/// The test fails at `p`.
#[tactic(auto, using(crate::specs::laws::Collecting::also_none))]
pub fn test_clash(found: &mut Option<Refusal>, a: Option<Sort>, b: Option<Sort>, p: Place)
    ensures { found.new ≡ also found.old (clash_failures a b p) }
{
    match a {
        None => {}
        Some(s) => match b {
            None => {}
            Some(t) => fail_if(found, s != t, moxi::SORT_CLASH, p),
        },
    }
}
