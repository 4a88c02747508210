// Enumerations and defined sorts.
ghost use Rattle.std.specs.Prelude.{◌≡◌, ◌<◌, ◌+◌, ◌-◌, ◌^◌, OnOk, IfSome, Some, if◌then◌else◌, not, ◌++◌, length};
ghost use Rattle.moxi_sexpr.specs.Tree.{all_nodes, nodes, plain, plain_forms};
ghost use Rattle.moxi_terms.specs.Names.{is_sort_name};
ghost use Rattle.moxi_term_reading.specs.Reading.{prime_failures};
ghost use Rattle.moxi_terms.specs.Sorts.{IsSort};
ghost use Rattle.moxi_scripts.specs.Collecting.{also, fails_if};
ghost use Rattle.moxi_scripts.specs.Declarations.{constants_in, defined_sort_tests, enumeration_failures, listed_failures};
ghost use Rattle.moxi_scripts.specs.Declarations.{sort_definition_failures, with_defined_sort};
ghost use Rattle.moxi_scripts.specs.Declarations.{with_enumeration_names, with_listed, with_listed_names, with_read_enumeration};
ghost use Rattle.moxi_scripts.specs.Declarations.{with_constants, with_new_enumeration, with_read_sort, with_sort_if};
ghost use Rattle.moxi_scripts.specs.Declarations.{constants_failures, may_be_constants, symbols_in};
ghost use Rattle.moxi_scripts.specs.Shapes.{headed, named_in};
ghost use Rattle.moxi_attributes.specs.Views.{headed_here, named_here};
ghost use Rattle.moxi_declarations.specs.Sizes.{scope_size};

use moxi_attributes::{
    Headed, Named, fail, fail_if, fail_primed, headed_forms, is_empty_list, known_sort,
    misshapen_place, named_in, note_sort, parts_of, place_of, read_constants,
};
use moxi_sexpr::Form;
use moxi_term_reading::{pair, read_sorts_are_of_the_scope, sort_of};
use moxi_terms::{Scope, Sort};
use name_maps::NameSet;
use std::alloc::Global;
use text_core::kinds::moxi;
use text_core::{Name, Names, NoMemory, Place, Refusal};

// Tests the name of a new sort.
#[tactic(auto, using(moxi_attributes::specs::laws::Collecting::also_append))]
fn test_sort_name(
    scope: &Scope,
    name: &[u8],
    primed: bool,
    place: Place,
    found: &mut Option<Refusal>,
)
    ensures { found.new ≡ also found.old (prime_failures primed place ++ fails_if (is_sort_name scope.now name.now) 9 place) }
{
    fail_primed(found, primed, place);
    fail_if(found, scope.is_sort_name(name), moxi::NAME_TWICE, place);
}

/// Reads `(declare-enum-sort N (c ..))` at `p`, given the forms after its head.
pub fn read_enumeration(
    alloc: Global,
    scope: &mut Scope,
    names: &mut NameSet,
    p: Place,
    forms: &[Form],
    found: &mut Option<Refusal>,
) -> Result<(), NoMemory>
    requires few { scope_size scope.old + all_nodes (plain_forms forms.now) < 2 ^ 32 }
    ensures scope { OnOk result (scope.new ≡ with_read_enumeration scope.old (plain_forms forms.now)) }
    ensures names { OnOk result (names.new ≡ with_enumeration_names scope.old names.old (named_in (headed (plain_forms forms.now)))) }
    ensures finds { OnOk result (found.new ≡ also found.old (enumeration_failures scope.old names.old p (plain_forms forms.now))) }
{
    match named_in(forms) {
        None => {
            fail(found, moxi::ARITY, p);
            Ok(())
        }
        Some(n) => read_listed(alloc, scope, names, p, n, found),
    }
}

// Reads an enumeration, given its name and its list.
#[tactic(auto, using(moxi_attributes::specs::laws::Collecting::also_append))]
fn read_listed(
    alloc: Global,
    scope: &mut Scope,
    names: &mut NameSet,
    p: Place,
    n: Named,
    found: &mut Option<Refusal>,
) -> Result<(), NoMemory>
    requires few { scope_size scope.old + nodes (named_here n).form < 2 ^ 32 - 1 }
    ensures scope { OnOk result (scope.new ≡ with_listed scope.old (named_here n.entry) (constants_in (named_here n.entry))) }
    ensures names { OnOk result (names.new ≡ with_listed_names scope.old names.old (constants_in (named_here n.entry))) }
    ensures finds { OnOk result (found.new ≡ also found.old (listed_failures scope.old names.old p (named_here n.entry) (constants_in (named_here n.entry)))) }
{
    match parts_of(n.form) {
        None => {
            fail(found, moxi::ARITY, p);
            Ok(())
        }
        Some(parts) => {
            test_sort_name(scope, n.name, n.primed, n.place, found);
            add_constants(alloc, scope, names, n.name, place_of(n.form), parts, found)?;
            Ok(())
        }
    }
}

// Reads the constants of an enumeration with this name, whose list is at `q`.
#[tactic(auto, using(moxi_attributes::specs::laws::Collecting::also_append))]
fn add_constants(
    alloc: Global,
    scope: &mut Scope,
    names: &mut NameSet,
    name: &[u8],
    q: Place,
    forms: &[Form],
    found: &mut Option<Refusal>,
) -> Result<(), NoMemory>
    requires few { scope_size scope.old + length (symbols_in (plain_forms forms.now)) < 2 ^ 32 - 1 }
    ensures scope { OnOk result (scope.new ≡ (if may_be_constants (plain_forms forms.now) then with_new_enumeration scope.old name.now (symbols_in (plain_forms forms.now)) else scope.old)) }
    ensures names { OnOk result (names.new ≡ with_constants scope.old names.old (plain_forms forms.now)) }
    ensures finds { OnOk result (found.new ≡ also found.old (constants_failures scope.old names.old (plain_forms forms.now) ++ fails_if (not (may_be_constants (plain_forms forms.now))) 12 q)) }
{
    let mut constants = Names::new(alloc);
    let symbols = read_constants(alloc, scope, names, forms, &mut constants, found)?;
    let whole = symbols && 0 < constants.len();
    fail_if(found, !whole, moxi::ARITY, q);
    if whole {
        add_enumeration(alloc, scope, name, constants)?;
        return Ok(());
    }
    Ok(())
}

// Adds an enumeration unless one of its names is already in use.
fn add_enumeration(
    alloc: Global,
    scope: &mut Scope,
    name: &[u8],
    constants: Names,
) -> Result<(), NoMemory>
    requires some { 0 < length constants }
    requires few { scope_size scope.old + length constants < 2 ^ 32 - 1 }
    ensures { OnOk result (scope.new ≡ with_new_enumeration scope.old name.now constants) }
{
    scope.add_enumeration(Name::of(alloc, name)?, constants)?;
    Ok(())
}

/// Reads `(define-sort N () S)` at `p`, given the forms after its head.
pub fn read_sort(
    alloc: Global,
    scope: &mut Scope,
    p: Place,
    forms: &[Form],
    found: &mut Option<Refusal>,
) -> Result<(), NoMemory>
    requires few { scope_size scope.old < 2 ^ 32 - 1 }
    ensures scope { OnOk result (scope.new ≡ with_read_sort scope.old p (plain_forms forms.now)) }
    ensures finds { OnOk result (found.new ≡ also found.old (sort_definition_failures scope.old p (plain_forms forms.now))) }
{
    match headed_forms(forms) {
        None => {
            fail(found, moxi::ARITY, p);
            Ok(())
        }
        Some(h) => match pair(h.rest) {
            None => {
                fail(found, moxi::ARITY, p);
                Ok(())
            }
            Some((parameters, form)) => {
                define_sort(alloc, scope, p, h, parameters, form, found)?;
                Ok(())
            }
        },
    }
}

// Defines a name for the sort that a form spells.
#[tactic(auto, using(moxi_attributes::specs::laws::Collecting::also_append))]
fn define_sort(
    alloc: Global,
    scope: &mut Scope,
    p: Place,
    h: Headed,
    parameters: &Form,
    form: &Form,
    found: &mut Option<Refusal>,
) -> Result<(), NoMemory>
    requires few { scope_size scope.old < 2 ^ 32 - 1 }
    ensures scope { OnOk result (scope.new ≡ with_defined_sort scope.old p (headed_here h.entry) (Some (plain parameters.now, plain form.now))) }
    ensures finds { OnOk result (found.new ≡ also found.old (defined_sort_tests scope.old p (headed_here h.entry) (Some (plain parameters.now, plain form.now)))) }
{
    let sort = sort_of(scope, p, form);
    test_sort_name(scope, h.name, h.primed, h.place, found);
    fail_if(
        found,
        !is_empty_list(parameters),
        moxi::ARITY,
        misshapen_place(p, parameters),
    );
    note_sort(found, sort);
    let _functions = scope.functions();
    read_sorts_are_of_the_scope();
    add_sort(alloc, scope, h.name, known_sort(sort))?;
    Ok(())
}

// Adds a defined sort, if there is one, unless its name is already in use.
fn add_sort(
    alloc: Global,
    scope: &mut Scope,
    name: &[u8],
    sort: Option<Sort>,
) -> Result<(), NoMemory>
    requires sort { IfSome sort (IsSort scope.old.enumerations) }
    requires few { scope_size scope.old < 2 ^ 32 - 1 }
    ensures { OnOk result (scope.new ≡ with_sort_if scope.old name.now sort) }
{
    match sort {
        None => Ok(()),
        Some(sort) => {
            scope.add_sort(Name::of(alloc, name)?, sort)?;
            Ok(())
        }
    }
}
