// Printing of sorts and of lists of variables.
ghost use Rattle.std.specs.Prelude.{◌≡◌, ◌++◌, ◌∷◌, if◌then◌else◌, [], OnOk};
ghost use Rattle.moxi_term_print.specs.Shown.{group, parts_text, text_of};
ghost use Rattle.moxi_term_print.specs.Terms.{shown_sort, shown_variable, shown_variables};

use crate::named::enumeration_name;
use crate::operators::put_indexed;
use moxi_sexpr::put_symbol;
use moxi_terms::{Scope, Sort, Variable, Variables};
use text_core::{NoMemory, Text};

/// Appends a sort: `Bool`, `(_ BitVec n)`, or the name of its enumeration (SMT-LIB 2.6, section 3.5).
pub fn put_sort(out: &mut Text, scope: &Scope, sort: Sort) -> Result<(), NoMemory>
    ensures { OnOk result (out.new ≡ out.old ++ text_of (shown_sort scope.now sort)) }
{
    match sort {
        Sort::Truth => out.put(b"Bool"),
        Sort::Bits(width) => put_indexed(out, b"BitVec", width),
        Sort::Choice(n) => put_symbol(out, enumeration_name(scope, n), false),
    }
}

// Appends a blank, a sort and a closing bracket.
fn put_last_sort(out: &mut Text, scope: &Scope, sort: Sort) -> Result<(), NoMemory>
    ensures { OnOk result (out.new ≡ out.old ++ 32 ∷ (text_of (shown_sort scope.now sort) ++ 41 ∷ [])) }
{
    match sort {
        Sort::Truth => out.put(b" Bool)"),
        _ => {
            out.put_byte(b' ')?;
            put_sort(out, scope, sort)?;
            out.put_byte(b')')
        }
    }
}

// Appends the opening bracket of a variable, after a blank unless it is the first one.
fn put_opening(out: &mut Text, first: bool) -> Result<(), NoMemory>
    ensures { OnOk result (out.new ≡ out.old ++ ((if first then [] else 32 ∷ []) ++ 40 ∷ [])) }
{
    if !first {
        out.put_byte(b' ')?;
    }
    out.put_byte(b'(')
}

fn put_variable(
    out: &mut Text,
    scope: &Scope,
    first: bool,
    variable: &Variable,
) -> Result<(), NoMemory>
    ensures { OnOk result (out.new ≡ out.old ++ ((if first then [] else 32 ∷ []) ++ text_of (shown_variable scope.now variable.now))) }
{
    put_opening(out, first)?;
    put_symbol(out, variable.name.bytes(), false)?;
    put_last_sort(out, scope, variable.sort)
}

fn put_each_variable(out: &mut Text, scope: &Scope, variables: &Variables) -> Result<(), NoMemory>
    ensures { OnOk result (out.new ≡ out.old ++ parts_text [] (shown_variables scope.now variables.now)) }
{
    let mut first = true;
    for variable in variables {
        put_variable(out, scope, first, variable)?;
        first = false;
    }
    Ok(())
}

/// Appends a list of variables, `((x S) ..)`.
pub fn put_variables(out: &mut Text, scope: &Scope, variables: &Variables) -> Result<(), NoMemory>
    ensures { OnOk result (out.new ≡ out.old ++ text_of (group (shown_variables scope.now variables.now))) }
{
    out.put_byte(b'(')?;
    put_each_variable(out, scope, variables)?;
    out.put_byte(b')')
}
