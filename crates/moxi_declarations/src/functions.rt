// Functions.
ghost use Rattle.std.specs.Prelude.{◌≡◌, ◌<◌, ◌+◌, ◌-◌, ◌^◌, ◌++◌, [], true, length, Some, IfOk, IfSome, OnOk, if◌then◌else◌};
ghost use Rattle.moxi_sexpr.specs.Tree.{all_nodes, nodes, plain as plain_form, plain_forms};
ghost use Rattle.moxi_term_reading.specs.Answer.{IsRead};
ghost use Rattle.moxi_terms.specs.Sorted.{IsFunction};
ghost use Rattle.moxi_terms.specs.View.{plain};
ghost use Rattle.moxi_term_reading.specs.Reading.{prime_failures};
ghost use Rattle.moxi_scripts.specs.Collecting.{also};
ghost use Rattle.moxi_scripts.specs.Declarations.{body_reading, function_failures, function_forms, function_tests};
ghost use Rattle.moxi_scripts.specs.Declarations.{parameters_in, part_failures, read_over, result_sort};
ghost use Rattle.moxi_scripts.specs.Declarations.{term_name_tests, typed_function, with_function_name, with_function_of};
ghost use Rattle.moxi_scripts.specs.Declarations.{with_read_function, with_term_name, with_typed};
ghost use Rattle.moxi_scripts.specs.Entries.{entries_of, known_sort, twice_failures, variables_of};
ghost use Rattle.moxi_declarations.specs.FunctionView.{function_here, function_now};
ghost use Rattle.moxi_declarations.specs.Sizes.{scope_size};

use moxi_attributes::{
    Headed, append, declare_term_name, fail, fail_if, fail_primed, headed_forms, is_nothing,
    known_sort, locals_among, note, note_sort, parts_of, place_of, read_entries, test_clash,
    test_twice, triple_of, variables_of,
};
use moxi_scripts::Entries;
use moxi_sexpr::Form;
use moxi_term_reading::{
    ReadTerm, read_sorts_are_of_the_scope, read_term, read_terms_have_sorts, sort_of,
};
use moxi_terms::{Function, Primes, Scope, Sort, Term};
use name_maps::NameSet;
use std::alloc::Global;
use text_core::kinds::moxi;
use text_core::{Name, NoMemory, Place, Refusal};

/// The parts of `f ((x S) ..) S t`, with the place of its list of parameters.
#[derive(Clone, Copy)]
pub struct FunctionParts<'a> {
    pub name: Headed<'a>,
    pub place: Place,
    pub parameters: &'a [Form],
    pub result: &'a Form,
    pub body: &'a Form,
}

/// Returns the parts of a function's definition, or None where it has another shape.
pub fn function_parts<'a>(forms: &'a [Form]) -> Option<FunctionParts<'a>>
    ensures { function_now result ≡ function_forms (plain_forms forms.now) }
{
    match headed_forms(forms) {
        None => None,
        Some(name) => match triple_of(name.rest) {
            None => None,
            Some((list, result, body)) => match parts_of(list) {
                None => None,
                Some(parameters) => Some(FunctionParts {
                    name,
                    place: place_of(list),
                    parameters,
                    result,
                    body,
                }),
            },
        },
    }
}

// Tests the names of a function and of its parameters.
#[tactic(auto, using(moxi_attributes::specs::laws::Collecting::also_append))]
fn test_names(
    alloc: Global,
    scope: &Scope,
    names: &mut NameSet,
    name: Headed,
    parameters: &Entries,
    found: &mut Option<Refusal>,
) -> Result<(), NoMemory>
    ensures names { OnOk result (names.new ≡ with_term_name scope.now names.old name.entry.name.now) }
    ensures finds { OnOk result (found.new ≡ also found.old ((prime_failures name.entry.primed name.entry.place ++ term_name_tests scope.now names.old name.entry.name.now name.entry.place) ++ twice_failures [] parameters.now)) }
{
    fail_primed(found, name.primed, name.place);
    declare_term_name(alloc, scope, names, name.name, name.place, found)?;
    let mut parameter_names = NameSet::new(alloc);
    test_twice(alloc, &mut parameter_names, parameters, found)?;
    Ok(())
}

// Reads the body over the parameters.
fn read_body(
    alloc: Global,
    scope: &Scope,
    parameters: &Entries,
    body: &Form,
) -> Result<ReadTerm, NoMemory>
    requires parameters { length parameters.now < 2 ^ 32 }
    requires body { nodes (plain_form body.now) < 2 ^ 32 }
    ensures { IfOk result (IsRead (read_over scope.now parameters.now (plain_form body.now))) }
{
    let locals = locals_among(alloc, parameters)?;
    read_term(alloc, scope, &locals, body, Primes::Refused)
}

// Reads and tests the parts of a function's definition at `p`. Returns the sort of its result and its body.
fn read_parts(
    alloc: Global,
    scope: &Scope,
    p: Place,
    f: FunctionParts,
    parameters: &mut Entries,
    found: &mut Option<Refusal>,
) -> Result<(Option<Sort>, Term), NoMemory>
    requires parameters { parameters.old ≡ [] }
    requires few { all_nodes (function_here f).parameters + nodes (function_here f).body < 2 ^ 32 }
    ensures parameters { OnOk result (parameters.new ≡ entries_of scope.now (function_here f.entry).parameters) }
    ensures result { IfOk result (λ r. r.0 ≡ known_sort (result_sort scope.now p (function_here f.entry))) }
    ensures body { IfOk result (λ r. plain r.1 ≡ (body_reading scope.now (function_here f.entry)).term) }
    ensures finds { OnOk result (found.new ≡ also found.old (part_failures scope.now p (function_here f.entry))) }
{
    read_entries(alloc, scope, f.place, f.parameters, parameters, found)?;
    let sort = sort_of(scope, p, f.result);
    note_sort(found, sort);
    let result = known_sort(sort);
    let body = read_body(alloc, scope, parameters, f.body)?;
    note(found, body.failure);
    test_clash(found, result, body.sort, place_of(f.body));
    Ok((result, body.term))
}

// Adds a function unless its name is already in use.
fn add_function(
    alloc: Global,
    scope: &mut Scope,
    name: &[u8],
    parameters: &Entries,
    sort: Option<Sort>,
    body: Term,
) -> Result<(), NoMemory>
    requires function { IfSome sort (λ r. IsFunction scope.old.enumerations scope.old.functions (typed_function name.now parameters.now (plain body) r)) }
    requires few { scope_size scope.old < 2 ^ 32 - 1 }
    ensures { OnOk result (scope.new ≡ with_typed scope.old name.now parameters.now (plain body) sort) }
{
    match sort {
        None => Ok(()),
        Some(sort) => {
            scope.add_function(Function {
                name: Name::of(alloc, name)?,
                parameters: variables_of(alloc, parameters)?,
                result: sort,
                body,
            })?;
            Ok(())
        }
    }
}

/// Reads `(define-fun f ((x S) ..) S t)` at `p`, given the forms after its head.
pub fn read_function(
    alloc: Global,
    scope: &mut Scope,
    names: &mut NameSet,
    variables: &mut Entries,
    p: Place,
    forms: &[Form],
    found: &mut Option<Refusal>,
) -> Result<(), NoMemory>
    requires few { scope_size scope.old < 2 ^ 32 - 1 }
    requires form { all_nodes (plain_forms forms.now) < 2 ^ 32 }
    ensures scope { OnOk result (scope.new ≡ with_read_function scope.old p (plain_forms forms.now)) }
    ensures names { OnOk result (names.new ≡ with_function_name scope.old names.old (function_forms (plain_forms forms.now))) }
    ensures adds { OnOk result (variables.new ≡ variables.old ++ parameters_in scope.old (function_forms (plain_forms forms.now))) }
    ensures finds { OnOk result (found.new ≡ also found.old (function_failures scope.old names.old p (plain_forms forms.now))) }
{
    match function_parts(forms) {
        None => {
            fail(found, moxi::ARITY, p);
            Ok(())
        }
        Some(f) => {
            define_function(alloc, scope, names, variables, p, f, found)?;
            Ok(())
        }
    }
}

// Reads a function, given its parts.
fn define_function(
    alloc: Global,
    scope: &mut Scope,
    names: &mut NameSet,
    variables: &mut Entries,
    p: Place,
    f: FunctionParts,
    found: &mut Option<Refusal>,
) -> Result<(), NoMemory>
    requires few { scope_size scope.old < 2 ^ 32 - 1 }
    requires parts { all_nodes (function_here f).parameters + nodes (function_here f).body < 2 ^ 32 }
    ensures scope { OnOk result (scope.new ≡ with_function_of scope.old p (Some (function_here f.entry))) }
    ensures names { OnOk result (names.new ≡ with_function_name scope.old names.old (Some (function_here f.entry))) }
    ensures adds { OnOk result (variables.new ≡ variables.old ++ parameters_in scope.old (Some (function_here f.entry))) }
    ensures finds { OnOk result (found.new ≡ also found.old (function_tests scope.old names.old p (Some (function_here f.entry)))) }
{
    let mut parameters = Entries::new(alloc);
    let mut failure = None;
    let (sort, body) = read_parts(alloc, scope, p, f, &mut parameters, &mut failure)?;
    test_names(alloc, scope, names, f.name, &parameters, found)?;
    note(found, failure);
    append(alloc, variables, &parameters)?;
    let _functions = scope.functions();
    read_sorts_are_of_the_scope();
    read_terms_have_sorts();
    let whole = is_nothing(failure);
    add_whole(alloc, scope, whole, f.name.name, &parameters, sort, body)?;
    Ok(())
}

// Adds a function if none of its parts fails a test.
fn add_whole(
    alloc: Global,
    scope: &mut Scope,
    whole: bool,
    name: &[u8],
    parameters: &Entries,
    sort: Option<Sort>,
    body: Term,
) -> Result<(), NoMemory>
    requires function { whole ≡ true → IfSome sort (λ r. IsFunction scope.old.enumerations scope.old.functions (typed_function name.now parameters.now (plain body) r)) }
    requires few { scope_size scope.old < 2 ^ 32 - 1 }
    ensures { OnOk result (scope.new ≡ (if whole then with_typed scope.old name.now parameters.now (plain body) sort else scope.old)) }
{
    if whole {
        add_function(alloc, scope, name, parameters, sort, body)?;
    }
    Ok(())
}
