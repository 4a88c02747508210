// Printing of terms.
ghost use Rattle.std.specs.Prelude.{◌≡◌, ◌++◌, ◌∷◌, if◌then◌else◌, [], map, take, length, OnOk};
ghost use Rattle.moxi_terms.specs.Tree.{trees_of};
ghost use Rattle.moxi_terms.specs.View.{plain};
ghost use Rattle.moxi_term_print.specs.Shown.{parts_text, text_of};
ghost use Rattle.moxi_term_print.specs.Bindings.{shown_binding};
ghost use Rattle.moxi_term_print.specs.Terms.{name_at, shown_bindings, shown_call, shown_term, shown_terms, variable_names};
ghost use Rattle.text_core.specs.Bytes.{bytes_behind};

use crate::named::function_name;
use crate::operators::put_head;
use crate::values::put_value;
use moxi_sexpr::put_symbol;
use moxi_terms::{Scope, Term, Variables};
use std::alloc::Global;
use text_core::{Names, NoMemory, Text};

// The names of a term, except those that a `let` binds.
#[derive(Clone, Copy)]
struct Scene<'a> {
    scope: &'a Scope,
    variables: &'a [&'a [u8]],
}

/// Appends a term over these variables (SMT-LIB 2.6, section 3.6).
///
/// A name that a `let` binds is printed bare wherever the term has its number.
pub fn put_term(
    alloc: Global,
    out: &mut Text,
    scope: &Scope,
    variables: &Variables,
    term: &Term,
) -> Result<(), NoMemory>
    ensures { OnOk result (out.new ≡ out.old ++ text_of (shown_term scope.now (variable_names variables.now) [] (plain term.now))) }
{
    let mut names = Vec::new(alloc);
    push_variable_names(&mut names, variables)?;
    put_term_over(alloc, out, scope, &names, term)
}

/// Appends a term over variables with these names, like `put_term`.
///
/// It is meant for many terms over the same variables.
pub fn put_term_over(
    alloc: Global,
    out: &mut Text,
    scope: &Scope,
    variables: &[&[u8]],
    term: &Term,
) -> Result<(), NoMemory>
    ensures { OnOk result (out.new ≡ out.old ++ text_of (shown_term scope.now (map bytes_behind variables.now) [] (plain term.now))) }
{
    let scene = Scene { scope, variables };
    let mut bound = Vec::new(alloc);
    put_tree(out, scene, &mut bound, false, term)
}

/// Appends the names of variables.
pub fn push_variable_names<'a>(
    names: &mut Vec<&'a [u8]>,
    variables: &'a Variables,
) -> Result<(), NoMemory>
    ensures { OnOk result (map bytes_behind names.new.items ≡ map bytes_behind names.old.items ++ variable_names variables.now) }
{
    for variable in variables {
        push(names, variable.name.bytes())?;
    }
    Ok(())
}

fn name_in<'a>(names: &[&'a [u8]], i: u32) -> &'a [u8]
    ensures { result.now ≡ name_at (map bytes_behind names.now) i }
{
    match names.get(i as usize) {
        Some(name) => *name,
        None => b"",
    }
}

fn push<'a>(bound: &mut Vec<&'a [u8]>, name: &'a [u8]) -> Result<(), NoMemory>
    ensures { OnOk result (bound.new.items ≡ bound.old.items ++ name.entry ∷ []) }
{
    Ok(bound.push(name)?)
}

fn push_names<'a>(bound: &mut Vec<&'a [u8]>, names: &'a Names) -> Result<(), NoMemory>
    ensures names { OnOk result (map bytes_behind bound.new.items ≡ map bytes_behind bound.old.items ++ names.now) }
    ensures front { OnOk result (take (length bound.old.items) bound.new.items ≡ bound.old.items) }
{
    for name in names {
        push(bound, name.bytes())?;
    }
    Ok(())
}

// Appends a blank if `behind` is true.
fn put_blank(out: &mut Text, behind: bool) -> Result<(), NoMemory>
    ensures { OnOk result (out.new ≡ out.old ++ (if behind then 32 ∷ [] else [])) }
{
    if behind { out.put_byte(b' ') } else { Ok(()) }
}

// Appends a term, after a blank if `behind` is true.
#[cycle(put)]
#[inline(never)]
fn put_tree<'a>(
    out: &mut Text,
    scene: Scene,
    bound: &mut Vec<&'a [u8]>,
    behind: bool,
    term: &'a Term,
) -> Result<(), NoMemory>
    ensures text { OnOk result (out.new ≡ out.old ++ ((if behind then 32 ∷ [] else []) ++ text_of (shown_term scene.entry.scope.now (map bytes_behind scene.entry.variables.now) (map bytes_behind bound.old.items) (plain term.now)))) }
    ensures kept { OnOk result (bound.new.items ≡ bound.old.items) }
{
    match term {
        Term::Constant(value) => {
            put_blank(out, behind)?;
            put_value(out, scene.scope, value)
        }
        Term::Variable(v, primed) => {
            put_blank(out, behind)?;
            put_symbol(out, name_in(scene.variables, *v), *primed)
        }
        Term::Bound(i) => {
            put_blank(out, behind)?;
            put_symbol(out, name_in(bound, *i), false)
        }
        Term::Apply(op, terms) => {
            put_head(out, behind, *op)?;
            put_trees(out, scene, bound, terms)?;
            out.put_byte(b')')
        }
        Term::Let(names, terms, body) => {
            put_blank(out, behind)?;
            out.put(b"(let (")?;
            put_bindings(out, scene, bound, names, terms)?;
            out.put(b") ")?;
            put_body(out, scene, bound, names, body)?;
            out.put_byte(b')')
        }
        Term::Call(n, terms) => {
            put_blank(out, behind)?;
            put_call(out, scene, bound, function_name(scene.scope, *n), terms)
        }
    }
}

// Appends terms, each after a blank.
#[cycle(put)]
#[inline(never)]
fn put_trees<'a>(
    out: &mut Text,
    scene: Scene,
    bound: &mut Vec<&'a [u8]>,
    terms: &'a [Term],
) -> Result<(), NoMemory>
    ensures text { OnOk result (out.new ≡ out.old ++ parts_text (32 ∷ []) (shown_terms scene.entry.scope.now (map bytes_behind scene.entry.variables.now) (map bytes_behind bound.old.items) (trees_of (map plain terms.now)))) }
    ensures kept { OnOk result (bound.new.items ≡ bound.old.items) }
{
    for term in terms {
        put_tree(out, scene, bound, true, term)?;
    }
    Ok(())
}

// Appends a call. A call of a parameterless function is its bare name.
#[cycle(put)]
fn put_call<'a>(
    out: &mut Text,
    scene: Scene,
    bound: &mut Vec<&'a [u8]>,
    name: &[u8],
    terms: &'a [Term],
) -> Result<(), NoMemory>
    ensures text { OnOk result (out.new ≡ out.old ++ text_of (shown_call name.now (shown_terms scene.entry.scope.now (map bytes_behind scene.entry.variables.now) (map bytes_behind bound.old.items) (trees_of (map plain terms.now))))) }
    ensures kept { OnOk result (bound.new.items ≡ bound.old.items) }
{
    if terms.is_empty() {
        return put_symbol(out, name, false);
    }
    out.put_byte(b'(')?;
    put_symbol(out, name, false)?;
    put_trees(out, scene, bound, terms)?;
    out.put_byte(b')')
}

// Appends a term with these additional names bound.
#[cycle(put)]
#[inline(never)]
fn put_body<'a>(
    out: &mut Text,
    scene: Scene,
    bound: &mut Vec<&'a [u8]>,
    names: &'a Names,
    term: &'a Term,
) -> Result<(), NoMemory>
    ensures text { OnOk result (out.new ≡ out.old ++ text_of (shown_term scene.entry.scope.now (map bytes_behind scene.entry.variables.now) (map bytes_behind bound.old.items ++ names.now) (plain term.now))) }
    ensures kept { OnOk result (bound.new.items ≡ bound.old.items) }
{
    let before = bound.len();
    push_names(bound, names)?;
    put_tree(out, scene, bound, false, term)?;
    bound.truncate(before);
    Ok(())
}

// Appends `(name term)`.
#[cycle(put)]
#[inline(never)]
fn put_binding<'a>(
    out: &mut Text,
    scene: Scene,
    bound: &mut Vec<&'a [u8]>,
    name: &[u8],
    term: &'a Term,
) -> Result<(), NoMemory>
    ensures text { OnOk result (out.new ≡ out.old ++ text_of (shown_binding scene.entry.scope.now (map bytes_behind scene.entry.variables.now) (map bytes_behind bound.old.items) name.now (plain term.now))) }
    ensures kept { OnOk result (bound.new.items ≡ bound.old.items) }
{
    out.put_byte(b'(')?;
    put_symbol(out, name, false)?;
    out.put_byte(b' ')?;
    put_tree(out, scene, bound, false, term)?;
    out.put_byte(b')')
}

// Appends the bindings of these names to these terms. There are as many names as terms.
#[cycle(put)]
#[inline(never)]
fn put_bindings<'a>(
    out: &mut Text,
    scene: Scene,
    bound: &mut Vec<&'a [u8]>,
    names: &'a Names,
    terms: &'a [Term],
) -> Result<(), NoMemory>
    ensures text { OnOk result (out.new ≡ out.old ++ parts_text [] (shown_bindings scene.entry.scope.now (map bytes_behind scene.entry.variables.now) (map bytes_behind bound.old.items) names.now (trees_of (map plain terms.now)))) }
    ensures kept { OnOk result (bound.new.items ≡ bound.old.items) }
{
    let mut separator: &[u8] = b"";
    for (i, term) in terms.iter().enumerate() {
        if i >= names.len() {
            return Ok(());
        }
        out.put(separator)?;
        put_binding(out, scene, bound, names.at(i).bytes(), term)?;
        separator = b" ";
    }
    Ok(())
}
