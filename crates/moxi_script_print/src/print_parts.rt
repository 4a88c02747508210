// Parts of printed commands: keywords, lists of variables, names by number.
ghost use Rattle.std.specs.Prelude.{◌≡◌, ◌++◌, ◌∷◌, [], map, OnOk, IfOk};
ghost use Rattle.moxi_terms.specs.View.{plain};
ghost use Rattle.moxi_term_print.specs.Shown.{parts_text, text_of};
ghost use Rattle.moxi_term_print.specs.Terms.{name_at, symbol, variable_names};
ghost use Rattle.moxi_script_print.specs.Printing.{attribute, formula_attribute, list_attribute, names_of, shown_lists, shown_names};
ghost use Rattle.text_core.specs.Bytes.{bytes_behind};

use moxi_sexpr::put_symbol;
use moxi_term_print::{push_variable_names, put_symbols, put_term_over, put_variables};
use moxi_terms::{Scope, Term, Variables};
use std::alloc::Global;
use text_core::{NoMemory, Numbers, Text};

/// Appends the start of a command, `(word name`.
pub fn put_head(out: &mut Text, word: &[u8], name: &[u8]) -> Result<(), NoMemory>
    ensures { OnOk result (out.new ≡ out.old ++ 40 ∷ (word.now ++ 32 ∷ text_of (symbol name.now))) }
{
    out.put(b"(")?;
    out.put(word)?;
    out.put(b" ")?;
    put_symbol(out, name, false)
}

/// Appends a keyword between blanks.
pub fn put_keyword(out: &mut Text, keyword: &[u8]) -> Result<(), NoMemory>
    ensures { OnOk result (out.new ≡ out.old ++ 32 ∷ (58 ∷ (keyword.now ++ 32 ∷ []))) }
{
    out.put(b" :")?;
    out.put(keyword)?;
    out.put(b" ")
}

#[tactic(auto, using(crate::proofs::Pieces::pieces))]
fn put_list(
    out: &mut Text,
    scope: &Scope,
    keyword: &[u8],
    variables: &Variables,
) -> Result<(), NoMemory>
    ensures { OnOk result (out.new ≡ out.old ++ parts_text (32 ∷ []) (list_attribute scope.now keyword.now variables.now)) }
{
    put_keyword(out, keyword)?;
    put_variables(out, scope, variables)
}

/// Appends the three lists of variables, as attributes.
#[tactic(auto, using(crate::proofs::Pieces::pieces), unfolding(crate::specs::Printing::shown_lists))]
pub fn put_lists(
    out: &mut Text,
    scope: &Scope,
    inputs: &Variables,
    outputs: &Variables,
    locals: &Variables,
) -> Result<(), NoMemory>
    ensures { OnOk result (out.new ≡ out.old ++ parts_text (32 ∷ []) (shown_lists scope.now inputs.now outputs.now locals.now)) }
{
    put_list(out, scope, b"input", inputs)?;
    put_list(out, scope, b"output", outputs)?;
    put_list(out, scope, b"local", locals)
}

/// Returns the names of the inputs, then the outputs, then the locals.
pub fn variables_of<'a>(
    alloc: Global,
    inputs: &'a Variables,
    outputs: &'a Variables,
    locals: &'a Variables,
) -> Result<Vec<&'a [u8]>, NoMemory>
    ensures { IfOk result (λ names. map bytes_behind names.items ≡ variable_names (inputs.now ++ (outputs.now ++ locals.now))) }
{
    let mut names = Vec::new(alloc);
    push_variable_names(&mut names, inputs)?;
    push_variable_names(&mut names, outputs)?;
    push_variable_names(&mut names, locals)?;
    Ok(names)
}

/// Appends a keyword and a term.
#[tactic(auto, using(crate::proofs::Pieces::pieces))]
pub fn put_formula(
    alloc: Global,
    out: &mut Text,
    scope: &Scope,
    variables: &[&[u8]],
    keyword: &[u8],
    term: &Term,
) -> Result<(), NoMemory>
    ensures { OnOk result (out.new ≡ out.old ++ parts_text (32 ∷ []) (formula_attribute scope.now (map bytes_behind variables.now) keyword.now (plain term.now))) }
{
    put_keyword(out, keyword)?;
    put_term_over(alloc, out, scope, variables, term)
}

/// Returns name number i, or the empty name where there is none.
pub fn name_in<'a>(names: &[&'a [u8]], i: u64) -> &'a [u8]
    ensures { result.now ≡ name_at (map bytes_behind names.now) i }
{
    match names.get(i as usize) {
        Some(name) => *name,
        None => b"",
    }
}

/// Appends a name.
pub fn push<'a>(names: &mut Vec<&'a [u8]>, name: &'a [u8]) -> Result<(), NoMemory>
    ensures { OnOk result (names.new.items ≡ names.old.items ++ name.entry ∷ []) }
{
    Ok(names.push(name)?)
}

/// Appends the names with these numbers.
pub fn push_names_of<'a>(
    names: &mut Vec<&'a [u8]>,
    all: &[&'a [u8]],
    numbers: &Numbers,
) -> Result<(), NoMemory>
    ensures { OnOk result (map bytes_behind names.new.items ≡ map bytes_behind names.old.items ++ names_of (map bytes_behind all.now) numbers.now) }
{
    for number in numbers {
        push(names, name_in(all, *number))?;
    }
    Ok(())
}

// Appends a name and a list of names, `(name (n ..))`.
fn put_named(out: &mut Text, name: &[u8], names: &[&[u8]]) -> Result<(), NoMemory>
    ensures { OnOk result (out.new ≡ out.old ++ text_of (shown_names name.now (map bytes_behind names.now))) }
{
    out.put(b"(")?;
    put_symbol(out, name, false)?;
    out.put(b" (")?;
    put_symbols(out, names)?;
    out.put(b"))")
}

/// Appends a keyword, then a name and a list of names, `(name (n ..))`.
#[tactic(auto, using(crate::proofs::Pieces::pieces))]
pub fn put_names(
    out: &mut Text,
    keyword: &[u8],
    name: &[u8],
    names: &[&[u8]],
) -> Result<(), NoMemory>
    ensures { OnOk result (out.new ≡ out.old ++ parts_text (32 ∷ []) (attribute keyword.now (shown_names name.now (map bytes_behind names.now)))) }
{
    put_keyword(out, keyword)?;
    put_named(out, name, names)
}
