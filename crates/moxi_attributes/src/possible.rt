// Names that a misshapen list could declare.
ghost use Rattle.std.specs.Prelude.{◌≡◌, ◌<◌, ◌+◌, ◌^◌, ◌++◌, length, IfOk, OnOk, is_none};
ghost use Rattle.moxi_sexpr.specs.Tree.{plain, plain_forms};
ghost use Rattle.moxi_term_reading.specs.Forms.{place_in, symbol_of};
ghost use Rattle.moxi_scripts.specs.Entries.{locals_among, locals_found};
ghost use Rattle.moxi_scripts.specs.Lists.{is_free, possible_among, possible_entries, possible_in, possible_symbol};

use crate::entries::{locals_among, locals_found};
use crate::shapes::place_of;
use moxi_scripts::{Declared, Entries};
use moxi_sexpr::{Form, FormShape};
use moxi_term_reading::{Locals, symbol_of};
use moxi_terms::{Meaning, Scope};
use std::alloc::Global;
use std::mem::drop;
use text_core::{Name, NoMemory};

fn is_nothing(meaning: Option<Meaning>) -> bool
    ensures { result ≡ is_none meaning }
{
    match meaning {
        None => true,
        Some(_) => false,
    }
}

// Whether the name is neither a constant nor a parameterless function.
fn is_free(scope: &Scope, name: &[u8]) -> bool
    ensures { result ≡ is_free scope.now name.now }
{
    is_nothing(scope.constant_or_function(name))
}

// Adds a symbol unless it has another meaning.
#[tactic(auto, using(crate::specs::laws::Collecting::nothing_more))]
fn add_symbol(
    alloc: Global,
    scope: &Scope,
    form: &Form,
    entries: &mut Entries,
) -> Result<(), NoMemory>
    ensures { OnOk result (entries.new ≡ entries.old ++ possible_symbol scope.now (place_in (plain form.now)) (symbol_of (plain form.now))) }
{
    match symbol_of(form) {
        None => Ok(()),
        Some((name, _)) => {
            if !is_free(scope, name) {
                return Ok(());
            }
            entries.push(Declared {
                name: Name::of(alloc, name)?,
                place: place_of(form),
                sort: None,
            })?;
            Ok(())
        }
    }
}

// Adds each symbol of a form that has no other meaning.
#[cycle(possible)]
#[inline(never)]
fn add_form(
    alloc: Global,
    scope: &Scope,
    form: &Form,
    entries: &mut Entries,
) -> Result<(), NoMemory>
    ensures { OnOk result (entries.new ≡ entries.old ++ possible_in scope.now (plain form.now)) }
{
    match &form.shape {
        FormShape::Atom(_) => add_symbol(alloc, scope, form, entries),
        FormShape::List(parts) => add_forms(alloc, scope, parts, entries),
    }
}

#[cycle(possible)]
#[inline(never)]
fn add_forms(
    alloc: Global,
    scope: &Scope,
    forms: &[Form],
    entries: &mut Entries,
) -> Result<(), NoMemory>
    ensures { OnOk result (entries.new ≡ entries.old ++ possible_among scope.now (plain_forms forms.now)) }
{
    for form in forms {
        add_form(alloc, scope, form, entries)?;
    }
    Ok(())
}

// Adds each symbol of these forms that has no other meaning, if a list is misshapen.
#[tactic(auto, using(crate::specs::laws::Collecting::nothing_more))]
fn add_possible(
    alloc: Global,
    scope: &Scope,
    shaped: bool,
    forms: &[Form],
    entries: &mut Entries,
) -> Result<(), NoMemory>
    ensures { OnOk result (entries.new ≡ entries.old ++ possible_entries scope.now shaped (plain_forms forms.now)) }
{
    if shaped {
        return Ok(());
    }
    add_forms(alloc, scope, forms, entries)
}

/// Returns the variables among which names are looked up, given those in the order of the text and those in the order of
/// their numbers.
///
/// If `shaped` is false, each symbol of the forms that has no other meaning counts as a variable without a sort. The
/// variables are numbered with 32 bits.
pub fn possible_locals(
    alloc: Global,
    scope: &Scope,
    shaped: bool,
    forms: &[Form],
    text: &mut Entries,
    all: &mut Entries,
) -> Result<Locals, NoMemory>
    requires text { length text.old + length (possible_entries scope.now shaped (plain_forms forms.now)) < 2 ^ 32 }
    requires all { length all.old + length (possible_entries scope.now shaped (plain_forms forms.now)) < 2 ^ 32 }
    ensures { IfOk result (λ l. l ≡ locals_found (locals_among (text.old ++ possible_entries scope.now shaped (plain_forms forms.now))) (all.old ++ possible_entries scope.now shaped (plain_forms forms.now))) }
{
    add_possible(alloc, scope, shaped, forms, text)?;
    add_possible(alloc, scope, shaped, forms, all)?;
    let sorts = locals_among(alloc, text)?;
    let locals = locals_found(alloc, &sorts, all);
    drop(sorts);
    locals
}
