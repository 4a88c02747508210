// The constants of enumerations.
ghost use Rattle.std.specs.Prelude.{◌≡◌, ◌++◌, ◌&&◌, IfOk, OnOk, is_some};
ghost use Rattle.moxi_sexpr.specs.Tree.{plain, plain_forms};
ghost use Rattle.moxi_term_reading.specs.Forms.{place_in, symbol_of};
ghost use Rattle.moxi_scripts.specs.Collecting.{also};
ghost use Rattle.moxi_scripts.specs.Declarations.{are_symbols, constant_tests, constants_failures, symbol_name, symbols_in, term_name_tests, with_constant, with_constants, with_term_name};

use crate::collect::{fail, fail_primed};
use crate::shapes::place_of;
use moxi_sexpr::Form;
use moxi_term_reading::symbol_of;
use moxi_terms::Scope;
use name_maps::NameSet;
use std::alloc::Global;
use text_core::kinds::moxi;
use text_core::{Name, Names, NoMemory, Place, Refusal};

/// Declares the name of a constant or a function, and tests that it is not yet in use.
#[tactic(auto, using(crate::specs::laws::Collecting::also_none))]
pub fn declare_term_name(
    alloc: Global,
    scope: &Scope,
    names: &mut NameSet,
    name: &[u8],
    place: Place,
    found: &mut Option<Refusal>,
) -> Result<(), NoMemory>
    ensures names { OnOk result (names.new ≡ with_term_name scope.now names.old name.now) }
    ensures finds { OnOk result (found.new ≡ also found.old (term_name_tests scope.now names.old name.now place)) }
{
    if scope.is_term_name(name) {
        fail(found, moxi::NAME_TWICE, place);
        return Ok(());
    }
    if !names.declare(alloc, name)? {
        fail(found, moxi::NAME_TWICE, place);
    }
    Ok(())
}

// Reads a constant, and returns whether it is a symbol.
#[tactic(auto, using(crate::specs::laws::Collecting::also_none, crate::specs::laws::Collecting::also_append))]
fn read_constant(
    alloc: Global,
    scope: &Scope,
    names: &mut NameSet,
    form: &Form,
    constants: &mut Names,
    found: &mut Option<Refusal>,
) -> Result<bool, NoMemory>
    ensures symbol { IfOk result (λ b. b ≡ is_some (symbol_of (plain form.now))) }
    ensures adds { OnOk result (constants.new ≡ constants.old ++ symbol_name (symbol_of (plain form.now))) }
    ensures names { OnOk result (names.new ≡ with_constant scope.now names.old (symbol_of (plain form.now))) }
    ensures finds { OnOk result (found.new ≡ also found.old (constant_tests scope.now names.old (place_in (plain form.now)) (symbol_of (plain form.now)))) }
{
    match symbol_of(form) {
        None => Ok(false),
        Some((name, primed)) => {
            let place = place_of(form);
            fail_primed(found, primed, place);
            declare_term_name(alloc, scope, names, name, place, found)?;
            constants.push(Name::of(alloc, name)?)?;
            Ok(true)
        }
    }
}

/// Appends the constants of a list, and returns whether each of its forms is one.
pub fn read_constants(
    alloc: Global,
    scope: &Scope,
    names: &mut NameSet,
    forms: &[Form],
    constants: &mut Names,
    found: &mut Option<Refusal>,
) -> Result<bool, NoMemory>
    ensures symbols { IfOk result (λ b. b ≡ are_symbols (plain_forms forms.now)) }
    ensures adds { OnOk result (constants.new ≡ constants.old ++ symbols_in (plain_forms forms.now)) }
    ensures names { OnOk result (names.new ≡ with_constants scope.now names.old (plain_forms forms.now)) }
    ensures finds { OnOk result (found.new ≡ also found.old (constants_failures scope.now names.old (plain_forms forms.now))) }
{
    let mut symbols = true;
    for form in forms {
        let symbol = read_constant(alloc, scope, names, form, constants, found)?;
        symbols = both(symbols, symbol);
    }
    Ok(symbols)
}

/// Returns whether both are true.
pub fn both(a: bool, b: bool) -> bool
    ensures { result ≡ (a && b) }
{
    a && b
}
