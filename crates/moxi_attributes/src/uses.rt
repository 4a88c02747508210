// Subsystems as written: the systems that they name, and their actuals.
ghost use Rattle.std.specs.Prelude.{◌≡◌, ◌++◌, [], IfOk, OnOk, is_none, is_some, if◌then◌else◌};
ghost use Rattle.moxi_sexpr.specs.Tree.{plain, plain_forms};
ghost use Rattle.moxi_term_reading.specs.Finding.{found as found_now};
ghost use Rattle.moxi_term_reading.specs.Forms.{symbol_of};
ghost use Rattle.moxi_scripts.specs.declared.parts.Key.TheVariants as keys;
ghost use Rattle.moxi_scripts.specs.declared.parts.Turn.TheVariants as turns;
ghost use Rattle.moxi_scripts.specs.declared.parts.Command.TheVariants as commands;
ghost use Rattle.moxi_scripts.specs.Attributes.{is_behind};
ghost use Rattle.moxi_scripts.specs.Collecting.{also};
ghost use Rattle.moxi_scripts.specs.Declarations.{are_symbols};
ghost use Rattle.moxi_attributes.specs.Views.{headed_here, named_here};
ghost use Rattle.moxi_scripts.specs.Uses.{actual_at, actual_failures, actual_in, actuals_failures, actuals_in, names_with_use, target_failures, use_at, use_failures, use_in, use_of, use_tests, uses_failures, uses_in};

use crate::attributes::{is_behind, turn_after};
use crate::collect::{fail, fail_if, fail_primed, refuse};
use crate::constants::both;
use crate::shapes::{Headed, Named, headed_forms, named_form, parts_of, place_of, shape_refusal};
use moxi_scripts::{Actual, Command, Key, Turn, Use};
use moxi_sexpr::Form;
use moxi_term_reading::{Locals, symbol_of};
use moxi_terms::Sort;
use name_maps::NameSet;
use std::alloc::Global;
use text_core::kinds::moxi;
use text_core::{List, Name, NoMemory, Place, Refusal};

fn actual_at(found: Option<(u32, Option<Sort>)>, place: Place) -> Actual
    ensures { result ≡ actual_at (found_now found) place }
{
    match found {
        None => Actual {
            number: 0,
            sort: None,
            place,
        },
        Some((number, sort)) => Actual {
            number,
            sort,
            place,
        },
    }
}

// Reads one actual, which is a variable, and returns whether it is a symbol.
#[tactic(auto, using(crate::specs::laws::Collecting::also_append, crate::specs::laws::Collecting::also_none, crate::specs::laws::Collecting::nothing_more))]
fn read_actual(
    locals: &Locals,
    form: &Form,
    actuals: &mut List<Actual>,
    found: &mut Option<Refusal>,
) -> Result<bool, NoMemory>
    ensures symbol { IfOk result (λ b. b ≡ is_some (symbol_of (plain form.now))) }
    ensures adds { OnOk result (actuals.new ≡ actuals.old ++ actual_in locals.now (plain form.now)) }
    ensures finds { OnOk result (found.new ≡ also found.old (actual_failures locals.now (plain form.now))) }
{
    match symbol_of(form) {
        None => Ok(false),
        Some((name, primed)) => {
            let place = place_of(form);
            let variable = locals.find(name);
            fail_primed(found, primed, place);
            fail_if(found, is_missing(variable), moxi::UNKNOWN, place);
            actuals.push(actual_at(variable, place))?;
            Ok(true)
        }
    }
}

fn is_missing(variable: Option<(u32, Option<Sort>)>) -> bool
    ensures { result ≡ is_none (found_now variable) }
{
    match variable {
        None => true,
        Some(_) => false,
    }
}

// Reads actuals, and returns whether each form is a symbol.
fn read_actuals(
    locals: &Locals,
    forms: &[Form],
    actuals: &mut List<Actual>,
    found: &mut Option<Refusal>,
) -> Result<bool, NoMemory>
    ensures symbols { IfOk result (λ b. b ≡ are_symbols (plain_forms forms.now)) }
    ensures adds { OnOk result (actuals.new ≡ actuals.old ++ actuals_in locals.now (plain_forms forms.now)) }
    ensures finds { OnOk result (found.new ≡ also found.old (actuals_failures locals.now (plain_forms forms.now))) }
{
    let mut symbols = true;
    for form in forms {
        let symbol = read_actual(locals, form, actuals, found)?;
        symbols = both(symbols, symbol);
    }
    Ok(symbols)
}

// Reads the use `(S x ..)` at `q` for the subsystem with this name.
#[tactic(auto, using(crate::specs::laws::Collecting::also_append, crate::specs::laws::Collecting::nothing_more))]
fn read_target(
    alloc: Global,
    locals: &Locals,
    name: &[u8],
    q: Place,
    h: Headed,
    uses: &mut List<Use>,
    found: &mut Option<Refusal>,
) -> Result<(), NoMemory>
    ensures adds { OnOk result (uses.new ≡ uses.old ++ use_at locals.now name.now q (headed_here h.entry)) }
    ensures finds { OnOk result (found.new ≡ also found.old (target_failures locals.now q (headed_here h.entry))) }
{
    let mut actuals = List::new(alloc);
    fail_primed(found, h.primed, h.place);
    let symbols = read_actuals(locals, h.rest, &mut actuals, found)?;
    fail_if(found, !symbols, moxi::ARITY, q);
    if symbols {
        uses.push(Use {
            name: Name::of(alloc, name)?,
            target: Name::of(alloc, h.name)?,
            place: h.place,
            list: q,
            actuals,
        })?;
        return Ok(());
    }
    Ok(())
}

// Reads the list with a subsystem's system and its actuals.
fn read_target_list(
    alloc: Global,
    locals: &Locals,
    p: Place,
    n: Named,
    uses: &mut List<Use>,
    found: &mut Option<Refusal>,
) -> Result<(), NoMemory>
    ensures adds { OnOk result (uses.new ≡ uses.old ++ use_in locals.now (named_here n.entry)) }
    ensures finds { OnOk result (found.new ≡ also found.old (use_failures locals.now p (named_here n.entry))) }
{
    match parts_of(n.form) {
        None => {
            fail(found, moxi::ARITY, p);
            Ok(())
        }
        Some(parts) => match headed_forms(parts) {
            None => {
                fail(found, moxi::ARITY, place_of(n.form));
                Ok(())
            }
            Some(h) => {
                read_target(alloc, locals, n.name, place_of(n.form), h, uses, found)?;
                Ok(())
            }
        },
    }
}

// Reads `(n (S x ..))`.
#[tactic(auto, using(crate::specs::laws::Collecting::also_append, crate::specs::laws::Collecting::nothing_more))]
fn read_use(
    alloc: Global,
    locals: &Locals,
    names: &mut NameSet,
    form: &Form,
    uses: &mut List<Use>,
    found: &mut Option<Refusal>,
) -> Result<(), NoMemory>
    ensures adds { OnOk result (uses.new ≡ uses.old ++ use_of locals.now (plain form.now)) }
    ensures names { OnOk result (names.new ≡ names_with_use names.old (plain form.now)) }
    ensures finds { OnOk result (found.new ≡ also found.old (use_tests names.old locals.now (plain form.now))) }
{
    let p = place_of(form);
    match named_form(form) {
        None => {
            refuse(found, shape_refusal(p, form));
            Ok(())
        }
        Some(n) => {
            fail_primed(found, n.primed, n.place);
            let fresh = names.declare(alloc, n.name)?;
            fail_if(found, !fresh, moxi::NAME_TWICE, n.place);
            read_target_list(alloc, locals, p, n, uses, found)?;
            Ok(())
        }
    }
}

// Reads a value among the attributes.
#[tactic(auto, using(crate::specs::laws::Collecting::also_none, crate::specs::laws::Collecting::nothing_more))]
fn read_use_at(
    alloc: Global,
    locals: &Locals,
    turn: Turn,
    names: &mut NameSet,
    form: &Form,
    uses: &mut List<Use>,
    found: &mut Option<Refusal>,
) -> Result<(), NoMemory>
    ensures adds { OnOk result (uses.new ≡ uses.old ++ (if is_behind keys.Subsystem turn then use_of locals.now (plain form.now) else [])) }
    ensures names { OnOk result (names.new ≡ (if is_behind keys.Subsystem turn then names_with_use names.old (plain form.now) else names.old)) }
    ensures finds { OnOk result (found.new ≡ also found.old (if is_behind keys.Subsystem turn then use_tests names.old locals.now (plain form.now) else [])) }
{
    if is_behind(Key::Subsystem, turn) {
        read_use(alloc, locals, names, form, uses, found)?;
        return Ok(());
    }
    Ok(())
}

/// Reads the subsystems among the attributes of a system.
pub fn read_uses(
    alloc: Global,
    locals: &Locals,
    forms: &[Form],
    uses: &mut List<Use>,
    found: &mut Option<Refusal>,
) -> Result<(), NoMemory>
    ensures adds { OnOk result (uses.new ≡ uses.old ++ uses_in locals.now turns.AtKeyword (plain_forms forms.now)) }
    ensures finds { OnOk result (found.new ≡ also found.old (uses_failures locals.now [] turns.AtKeyword (plain_forms forms.now))) }
{
    let mut names = NameSet::new(alloc);
    let mut turn = Turn::AtKeyword;
    for form in forms {
        read_use_at(alloc, locals, turn, &mut names, form, uses, found)?;
        turn = turn_after(Command::System, turn, form);
    }
    Ok(())
}
