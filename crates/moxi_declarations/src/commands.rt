// The commands of a script.
ghost use Rattle.std.specs.Str.{bytes_eq};
ghost use Rattle.std.specs.Prelude.{codes, ◌≡◌, ◌<◌, ◌+◌, ◌^◌, suc, Some, OnOk};
ghost use Rattle.moxi_sexpr.specs.Tree.{all_nodes, nodes, plain, plain_forms};
ghost use Rattle.moxi_term_reading.specs.Forms.{only_of, symbol_now};
ghost use Rattle.moxi_scripts.specs.declared.parts.CommandName.TheVariants as name;
ghost use Rattle.moxi_scripts.specs.Collecting.{also};
ghost use Rattle.moxi_scripts.specs.Commands.{command_failures, command_named, commands_failures, declaring_name, form_failures};
ghost use Rattle.moxi_scripts.specs.Commands.{headed_failures, logic_failures, logic_of, logic_symbol};
ghost use Rattle.moxi_scripts.specs.Commands.{logic_symbol_failures, nothing_read, other_name, reading_after, system_name};
ghost use Rattle.moxi_scripts.specs.Commands.{with_command, with_form, with_headed};
ghost use Rattle.moxi_scripts.specs.Systems.{system_tests};
ghost use Rattle.moxi_declarations.specs.Commands.{with_headed_system};
ghost use Rattle.moxi_declarations.specs.Sizes.{reading_size};
ghost use Rattle.moxi_declarations.specs.Views.{plain_draft};
ghost use Rattle.moxi_attributes.specs.Views.{headed_here};

use crate::checks::{ReadCheck, read_check};
use crate::functions::read_function;
use crate::sorts::{read_enumeration, read_sort};
use crate::systems::{ReadSystem, append_system, read_system};
use moxi_attributes::{Headed, fail, fail_if, fail_primed, headed_forms, place_of};
use moxi_scripts::{CommandName, Entries};
use moxi_sexpr::{Form, FormShape};
use moxi_term_reading::{only_form, symbol_of};
use moxi_terms::Scope;
use name_maps::NameSet;
use std::alloc::Global;
use std::mem::{self, drop};
use text_core::kinds::moxi;
use text_core::{Name, NoMemory, Place, Refusal, is_same};

/// The declarations of the commands so far.
///
/// A system whose name is already in use is in `repeated`.
#[derive(Drop)]
pub struct Draft {
    pub logic: Option<Name>,
    pub scope: Scope,
    pub term_names: NameSet,
    pub system_names: NameSet,
    pub variables: Entries,
    pub systems: Vec<ReadSystem>,
    pub repeated: Vec<ReadSystem>,
    pub checked: bool,
    pub check: Option<ReadCheck>,
}

/// Returns a draft without declarations.
pub fn nothing_read(alloc: Global) -> Draft
    ensures { plain_draft result ≡ nothing_read }
{
    Draft {
        logic: None,
        scope: Scope::new(alloc),
        term_names: NameSet::new(alloc),
        system_names: NameSet::new(alloc),
        variables: Entries::new(alloc),
        systems: Vec::new(alloc),
        repeated: Vec::new(alloc),
        checked: false,
        check: None,
    }
}

fn is_enumeration(n: &[u8]) -> bool
    ensures { result ≡ bytes_eq n.now (codes "declare-enum-sort") }
{
    is_same(n, b"declare-enum-sort")
}

fn declaring_name(n: &[u8]) -> Option<CommandName>
    ensures { result ≡ declaring_name n.now }
{
    if is_enumeration(n) {
        Some(CommandName::Enumeration)
    } else if is_same(n, b"define-sort") {
        Some(CommandName::Sort)
    } else if is_same(n, b"define-fun") {
        Some(CommandName::Function)
    } else {
        None
    }
}

fn other_name(n: &[u8]) -> Option<CommandName>
    ensures { result ≡ other_name n.now }
{
    if is_same(n, b"set-logic") {
        Some(CommandName::Logic)
    } else if is_same(n, b"set-info") {
        Some(CommandName::PassedOver)
    } else if is_same(n, b"set-option") {
        Some(CommandName::PassedOver)
    } else {
        None
    }
}

fn system_name(n: &[u8]) -> Option<CommandName>
    ensures { result ≡ system_name n.now }
{
    if is_same(n, b"define-system") {
        Some(CommandName::System)
    } else if is_same(n, b"check-system") {
        Some(CommandName::Check)
    } else {
        None
    }
}

/// Returns the command with this name.
fn command_named(n: &[u8]) -> Option<CommandName>
    ensures { result ≡ command_named n.now }
{
    match declaring_name(n) {
        Some(c) => Some(c),
        None => match other_name(n) {
            Some(c) => Some(c),
            None => system_name(n),
        },
    }
}

// Reads `(set-logic L)` at `p`.
#[tactic(auto, using(moxi_attributes::specs::laws::Collecting::also_none))]
fn read_logic(
    alloc: Global,
    logic: &mut Option<Name>,
    p: Place,
    forms: &[Form],
    found: &mut Option<Refusal>,
) -> Result<(), NoMemory>
    ensures logic { OnOk result (logic.new ≡ logic_of logic.old (only_of (plain_forms forms.now))) }
    ensures finds { OnOk result (found.new ≡ also found.old (logic_failures p (only_of (plain_forms forms.now)))) }
{
    match only_form(forms) {
        None => {
            fail(found, moxi::ARITY, p);
            Ok(())
        }
        Some(form) => read_logic_name(alloc, logic, p, place_of(form), symbol_of(form), found),
    }
}

// Reads the symbol at `q` of a `set-logic` at `p`.
fn read_logic_name(
    alloc: Global,
    logic: &mut Option<Name>,
    p: Place,
    q: Place,
    symbol: Option<(&[u8], bool)>,
    found: &mut Option<Refusal>,
) -> Result<(), NoMemory>
    ensures logic { OnOk result (logic.new ≡ logic_symbol logic.old (symbol_now symbol.entry)) }
    ensures finds { OnOk result (found.new ≡ also found.old (logic_symbol_failures p q (symbol_now symbol.entry))) }
{
    match symbol {
        None => {
            fail(found, moxi::ARITY, p);
            Ok(())
        }
        Some((name, primed)) => {
            fail_primed(found, primed, q);
            *logic = Some(Name::of(alloc, name)?);
            Ok(())
        }
    }
}

// Reads a system, given its name and the forms after it, and tests its name.
#[tactic(auto, using(moxi_attributes::specs::laws::Collecting::also_append))]
fn define_system(
    alloc: Global,
    draft: &mut Draft,
    p: Place,
    h: Headed,
    found: &mut Option<Refusal>,
) -> Result<(), NoMemory>
    requires few { all_nodes (headed_here h).rest < 2 ^ 32 }
    ensures draft { OnOk result (plain_draft draft.new ≡ with_headed_system (plain_draft draft.old) (Some (headed_here h.entry))) }
    ensures finds { OnOk result (found.new ≡ also found.old (system_tests draft.old.scope draft.old.system_names p (headed_here h.entry))) }
{
    fail_primed(found, h.primed, h.place);
    let new = draft.system_names.declare(alloc, h.name)?;
    fail_if(found, !new, moxi::NAME_TWICE, h.place);
    let r = read_system(alloc, &draft.scope, p, h, &mut draft.variables, found)?;
    append_system(new, &mut draft.systems, &mut draft.repeated, r)?;
    Ok(())
}

// Reads a system. One whose name is already in use is read like any other, and appended to `repeated`.
#[tactic(auto, using(moxi_attributes::specs::laws::Collecting::nothing_more))]
fn add_system(
    alloc: Global,
    draft: &mut Draft,
    p: Place,
    forms: &[Form],
    found: &mut Option<Refusal>,
) -> Result<(), NoMemory>
    requires few { all_nodes (plain_forms forms.now) < 2 ^ 32 }
    ensures draft { OnOk result (plain_draft draft.new ≡ with_command name.System (plain_draft draft.old) p (plain_forms forms.now)) }
    ensures finds { OnOk result (found.new ≡ also found.old (command_failures name.System (plain_draft draft.old) p (plain_forms forms.now))) }
{
    match headed_forms(forms) {
        None => {
            fail(found, moxi::ARITY, p);
            Ok(())
        }
        Some(h) => {
            define_system(alloc, draft, p, h, found)?;
            Ok(())
        }
    }
}

// Reads a check. A second one fails.
#[tactic(auto, using(moxi_attributes::specs::laws::Collecting::also_append))]
fn add_check(
    alloc: Global,
    draft: &mut Draft,
    p: Place,
    forms: &[Form],
    found: &mut Option<Refusal>,
) -> Result<(), NoMemory>
    requires few { all_nodes (plain_forms forms.now) < 2 ^ 32 }
    ensures draft { OnOk result (plain_draft draft.new ≡ with_command name.Check (plain_draft draft.old) p (plain_forms forms.now)) }
    ensures finds { OnOk result (found.new ≡ also found.old (command_failures name.Check (plain_draft draft.old) p (plain_forms forms.now))) }
{
    let check = read_check(alloc, &draft.scope, p, forms, &mut draft.variables, found)?;
    fail_if(found, draft.checked, moxi::CHECK_COUNT, p);
    if draft.checked {
        drop(check);
        return Ok(());
    }
    draft.checked = true;
    drop(mem::replace(&mut draft.check, check));
    Ok(())
}

// Reads a command at `p`, given the forms after its head.
#[tactic(auto, using(moxi_attributes::specs::laws::Collecting::also_none, moxi_attributes::specs::laws::Collecting::nothing_more))]
fn read_command(
    alloc: Global,
    c: CommandName,
    draft: &mut Draft,
    p: Place,
    forms: &[Form],
    found: &mut Option<Refusal>,
) -> Result<(), NoMemory>
    requires few { reading_size (plain_draft draft.old) + suc (all_nodes (plain_forms forms.now)) < 2 ^ 32 }
    ensures draft { OnOk result (plain_draft draft.new ≡ with_command c (plain_draft draft.old) p (plain_forms forms.now)) }
    ensures finds { OnOk result (found.new ≡ also found.old (command_failures c (plain_draft draft.old) p (plain_forms forms.now))) }
{
    match c {
        CommandName::Logic => {
            read_logic(alloc, &mut draft.logic, p, forms, found)?;
            Ok(())
        }
        CommandName::PassedOver => Ok(()),
        CommandName::Enumeration => {
            read_enumeration(
                alloc,
                &mut draft.scope,
                &mut draft.term_names,
                p,
                forms,
                found,
            )?;
            Ok(())
        }
        CommandName::Sort => {
            read_sort(alloc, &mut draft.scope, p, forms, found)?;
            Ok(())
        }
        CommandName::Function => {
            read_function(
                alloc,
                &mut draft.scope,
                &mut draft.term_names,
                &mut draft.variables,
                p,
                forms,
                found,
            )?;
            Ok(())
        }
        CommandName::System => {
            add_system(alloc, draft, p, forms, found)?;
            Ok(())
        }
        CommandName::Check => {
            add_check(alloc, draft, p, forms, found)?;
            Ok(())
        }
    }
}

// Reads a list at `p` that begins with a symbol.
#[tactic(auto, using(moxi_attributes::specs::laws::Collecting::also_append))]
fn read_headed(
    alloc: Global,
    draft: &mut Draft,
    p: Place,
    h: Headed,
    found: &mut Option<Refusal>,
) -> Result<(), NoMemory>
    requires few { reading_size (plain_draft draft.old) + suc (all_nodes (headed_here h).rest) < 2 ^ 32 }
    ensures draft { OnOk result (plain_draft draft.new ≡ with_headed (plain_draft draft.old) p (Some (headed_here h.entry))) }
    ensures finds { OnOk result (found.new ≡ also found.old (headed_failures (plain_draft draft.old) p (Some (headed_here h.entry)))) }
{
    fail_primed(found, h.primed, h.place);
    match command_named(h.name) {
        None => {
            fail(found, moxi::NOT_SUPPORTED, p);
            Ok(())
        }
        Some(c) => {
            read_command(alloc, c, draft, p, h.rest, found)?;
            Ok(())
        }
    }
}

// Reads a form of a script.
fn read_form(
    alloc: Global,
    draft: &mut Draft,
    form: &Form,
    found: &mut Option<Refusal>,
) -> Result<(), NoMemory>
    requires few { reading_size (plain_draft draft.old) + nodes (plain form.now) < 2 ^ 32 }
    ensures draft { OnOk result (plain_draft draft.new ≡ with_form (plain_draft draft.old) (plain form.now)) }
    ensures finds { OnOk result (found.new ≡ also found.old (form_failures (plain_draft draft.old) (plain form.now))) }
{
    match &form.shape {
        FormShape::Atom(_) => {
            fail(found, moxi::ARITY, form.place);
            Ok(())
        }
        FormShape::List(parts) => match headed_forms(parts) {
            None => {
                fail(found, moxi::ARITY, form.place);
                Ok(())
            }
            Some(h) => {
                read_headed(alloc, draft, form.place, h, found)?;
                Ok(())
            }
        },
    }
}

/// Reads the commands of a script, and records their failing test with the least place and number.
///
/// What the commands declare is numbered with 32 bits. No command declares more than its form has nodes.
pub fn read_commands(
    alloc: Global,
    forms: &[Form],
    draft: &mut Draft,
    found: &mut Option<Refusal>,
) -> Result<(), NoMemory>
    requires few { reading_size (plain_draft draft.old) + all_nodes (plain_forms forms.now) < 2 ^ 32 }
    ensures draft { OnOk result (plain_draft draft.new ≡ reading_after (plain_draft draft.old) (plain_forms forms.now)) }
    ensures finds { OnOk result (found.new ≡ also found.old (commands_failures (plain_draft draft.old) (plain_forms forms.now))) }
{
    for form in forms {
        read_form(alloc, draft, form, found)?;
    }
    Ok(())
}
