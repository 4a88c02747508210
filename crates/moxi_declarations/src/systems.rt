// Systems, as read before their subsystems' systems are looked up.
ghost use Rattle.std.specs.Prelude.{◌≡◌, ◌<◌, ◌^◌, ◌++◌, ◌∷◌, [], true, IfOk, OnOk, map};
ghost use Rattle.moxi_sexpr.specs.Tree.{all_nodes, plain_forms};
ghost use Rattle.moxi_terms.specs.View.{plain};
ghost use Rattle.moxi_terms.specs.declared.data.Primes.TheVariants as may;
ghost use Rattle.moxi_scripts.specs.declared.parts.Key.TheVariants as keys;
ghost use Rattle.moxi_scripts.specs.declared.parts.Turn.TheVariants as turns;
ghost use Rattle.moxi_scripts.specs.declared.parts.Command.TheVariants as commands;
ghost use Rattle.moxi_scripts.specs.Attributes.{shape_holds};
ghost use Rattle.moxi_scripts.specs.Collecting.{also};
ghost use Rattle.moxi_scripts.specs.Formulas.{formula_term};
ghost use Rattle.moxi_scripts.specs.Lists.{all_entries, lists_in, value_at};
ghost use Rattle.moxi_attributes.specs.Views.{headed_here};
ghost use Rattle.moxi_scripts.specs.Systems.{bare_system, content_failures, content_of, formula_failures_in, formulas_failures, locals_of};
ghost use Rattle.moxi_scripts.specs.Systems.{no_list, shaped_failures, shaped_system, shaped_variables};
ghost use Rattle.moxi_scripts.specs.Systems.{use_failures_in, variables_failures, with_new_system, with_repeated_system};
ghost use Rattle.moxi_declarations.specs.Views.{plain_reading};
ghost use Rattle.moxi_scripts.specs.Uses.{uses_failures, uses_in};

use crate::once::read_locals;
use moxi_attributes::{
    Headed, append_lists, fail, read_formula, read_lists, read_uses, shape_holds, test_keywords,
    true_term, value_of,
};
use moxi_scripts::{Command, DeclaredList, Entries, Key, Lists, Use};
use moxi_sexpr::Form;
use moxi_term_reading::Locals;
use moxi_terms::{Primes, Scope, Term};
use std::alloc::Global;
use std::mem::drop;
use text_core::kinds::moxi;
use text_core::{List, Name, NoMemory, Place, Refusal};

/// A system whose subsystems' systems are not yet looked up.
#[derive(Drop)]
pub struct ReadSystem {
    pub name: Name,
    pub lists: Lists,
    pub init: Term,
    pub trans: Term,
    pub inv: Term,
    pub uses: List<Use>,
}

/// The variables of a system or a check.
#[derive(Drop)]
pub struct ReadVariables {
    pub lists: Lists,
    pub locals: Locals,
}

/// The formulas of a system.
#[derive(Drop)]
pub struct SystemFormulas {
    pub init: Term,
    pub trans: Term,
    pub inv: Term,
}

/// Reads the variables of a system or a check, and tests its keywords.
#[tactic(auto, using(moxi_attributes::specs::laws::Collecting::also_append))]
pub fn read_variables(
    alloc: Global,
    scope: &Scope,
    command: Command,
    forms: &[Form],
    variables: &mut Entries,
    found: &mut Option<Refusal>,
) -> Result<ReadVariables, NoMemory>
    requires shape { shape_holds command (plain_forms forms.now) ≡ true }
    requires few { all_nodes (plain_forms forms.now) < 2 ^ 32 }
    ensures lists { IfOk result (λ r. r.lists ≡ lists_in scope.now command (plain_forms forms.now)) }
    ensures locals { IfOk result (λ r. r.locals ≡ locals_of scope.now command (plain_forms forms.now)) }
    ensures adds { OnOk result (variables.new ≡ variables.old ++ all_entries (lists_in scope.now command (plain_forms forms.now))) }
    ensures finds { OnOk result (found.new ≡ also found.old (variables_failures scope.now command (plain_forms forms.now))) }
{
    test_keywords(command, forms, found);
    let lists = read_lists(alloc, scope, command, forms, found)?;
    let before = variables.len();
    append_lists(alloc, variables, &lists)?;
    let all = &variables.as_slice()[before..];
    let locals = read_locals(alloc, scope, &lists, command, forms, all, found)?;
    Ok(ReadVariables { lists, locals })
}

// Reads the formulas of a system.
#[tactic(auto, using(moxi_attributes::specs::laws::Collecting::also_append))]
fn read_formulas(
    alloc: Global,
    scope: &Scope,
    locals: &Locals,
    forms: &[Form],
    found: &mut Option<Refusal>,
) -> Result<SystemFormulas, NoMemory>
    requires few { all_nodes (plain_forms forms.now) < 2 ^ 32 }
    ensures init { IfOk result (λ r. plain r.init ≡ formula_term scope.now locals.now may.Refused (value_at commands.System keys.Init (plain_forms forms.now))) }
    ensures trans { IfOk result (λ r. plain r.trans ≡ formula_term scope.now locals.now may.Allowed (value_at commands.System keys.Trans (plain_forms forms.now))) }
    ensures inv { IfOk result (λ r. plain r.inv ≡ formula_term scope.now locals.now may.Refused (value_at commands.System keys.Inv (plain_forms forms.now))) }
    ensures finds { OnOk result (found.new ≡ also found.old (formulas_failures scope.now locals.now (plain_forms forms.now))) }
{
    let init = read_formula(
        alloc,
        scope,
        locals,
        Primes::Refused,
        value_of(Command::System, Key::Init, forms),
        found,
    )?;
    let trans = read_formula(
        alloc,
        scope,
        locals,
        Primes::Allowed,
        value_of(Command::System, Key::Trans, forms),
        found,
    )?;
    let inv = read_formula(
        alloc,
        scope,
        locals,
        Primes::Refused,
        value_of(Command::System, Key::Inv, forms),
        found,
    )?;
    Ok(SystemFormulas { init, trans, inv })
}

// Reads the formulas and the subsystems of a system, given its variables.
fn read_parts(
    alloc: Global,
    scope: &Scope,
    locals: &Locals,
    forms: &[Form],
    uses: &mut List<Use>,
    found: &mut Option<Refusal>,
) -> Result<SystemFormulas, NoMemory>
    requires uses { uses.old ≡ [] }
    requires few { all_nodes (plain_forms forms.now) < 2 ^ 32 }
    ensures init { IfOk result (λ r. plain r.init ≡ formula_term scope.now locals.now may.Refused (value_at commands.System keys.Init (plain_forms forms.now))) }
    ensures trans { IfOk result (λ r. plain r.trans ≡ formula_term scope.now locals.now may.Allowed (value_at commands.System keys.Trans (plain_forms forms.now))) }
    ensures inv { IfOk result (λ r. plain r.inv ≡ formula_term scope.now locals.now may.Refused (value_at commands.System keys.Inv (plain_forms forms.now))) }
    ensures uses { OnOk result (uses.new ≡ uses_in locals.now turns.AtKeyword (plain_forms forms.now)) }
    ensures finds { OnOk result (found.new ≡ also (also found.old (formulas_failures scope.now locals.now (plain_forms forms.now))) (uses_failures locals.now [] turns.AtKeyword (plain_forms forms.now))) }
{
    let formulas = read_formulas(alloc, scope, locals, forms, found)?;
    match read_uses(alloc, locals, forms, uses, found) {
        Ok(()) => Ok(formulas),
        Err(e) => {
            drop(formulas);
            Err(e)
        }
    }
}

// Reads a system with this name and these lists, given the variables that they declare.
fn read_over(
    alloc: Global,
    scope: &Scope,
    name: Name,
    lists: Lists,
    locals: &Locals,
    forms: &[Form],
    found: &mut Option<Refusal>,
) -> Result<ReadSystem, NoMemory>
    requires lists { lists ≡ lists_in scope.now commands.System (plain_forms forms.now) }
    requires locals { locals.now ≡ locals_of scope.now commands.System (plain_forms forms.now) }
    requires few { all_nodes (plain_forms forms.now) < 2 ^ 32 }
    ensures system { IfOk result (λ r. plain_reading r ≡ content_of scope.now name (plain_forms forms.now)) }
    ensures finds { OnOk result (found.new ≡ also (also found.old (formula_failures_in scope.now (plain_forms forms.now))) (use_failures_in scope.now (plain_forms forms.now))) }
{
    let mut uses = List::new(alloc);
    match read_parts(alloc, scope, locals, forms, &mut uses, found) {
        Ok(formulas) => Ok(ReadSystem {
            name,
            lists,
            init: formulas.init,
            trans: formulas.trans,
            inv: formulas.inv,
            uses,
        }),
        Err(e) => {
            drop(name);
            drop(lists);
            drop(uses);
            Err(e)
        }
    }
}

// Reads a system with well-shaped attributes.
fn read_content(
    alloc: Global,
    scope: &Scope,
    name: &[u8],
    forms: &[Form],
    variables: &mut Entries,
    found: &mut Option<Refusal>,
) -> Result<ReadSystem, NoMemory>
    requires shape { shape_holds commands.System (plain_forms forms.now) ≡ true }
    requires few { all_nodes (plain_forms forms.now) < 2 ^ 32 }
    ensures system { IfOk result (λ r. plain_reading r ≡ content_of scope.now name.now (plain_forms forms.now)) }
    ensures adds { OnOk result (variables.new ≡ variables.old ++ all_entries (lists_in scope.now commands.System (plain_forms forms.now))) }
    ensures finds { OnOk result (found.new ≡ also found.old (content_failures scope.now (plain_forms forms.now))) }
{
    let name = Name::of(alloc, name)?;
    match read_variables(alloc, scope, Command::System, forms, variables, found) {
        Ok(v) => {
            let ReadVariables { lists, locals } = v;
            let system = read_over(alloc, scope, name, lists, &locals, forms, found);
            drop(locals);
            Ok(system?)
        }
        Err(e) => {
            drop(name);
            Err(e)
        }
    }
}

fn no_list(alloc: Global) -> DeclaredList
    ensures { result ≡ no_list }
{
    DeclaredList {
        entries: Entries::new(alloc),
        shaped: false,
        whole: false,
    }
}

// A system with only a name, for one without its shape.
fn bare_system(alloc: Global, name: &[u8]) -> Result<ReadSystem, NoMemory>
    ensures { IfOk result (λ r. plain_reading r ≡ bare_system name.now) }
{
    Ok(ReadSystem {
        name: Name::of(alloc, name)?,
        lists: Lists {
            inputs: no_list(alloc),
            outputs: no_list(alloc),
            locals: no_list(alloc),
        },
        init: true_term(),
        trans: true_term(),
        inv: true_term(),
        uses: List::new(alloc),
    })
}

/// Reads `(define-system S ..)` at `p`, given its name and the forms after it.
#[tactic(auto, using(moxi_attributes::specs::laws::Collecting::nothing_more))]
pub fn read_system(
    alloc: Global,
    scope: &Scope,
    p: Place,
    h: Headed,
    variables: &mut Entries,
    found: &mut Option<Refusal>,
) -> Result<ReadSystem, NoMemory>
    requires few { all_nodes (headed_here h).rest < 2 ^ 32 }
    ensures system { IfOk result (λ r. plain_reading r ≡ shaped_system scope.now (headed_here h.entry).name (headed_here h.entry).rest) }
    ensures adds { OnOk result (variables.new ≡ variables.old ++ shaped_variables scope.now (headed_here h.entry).rest) }
    ensures finds { OnOk result (found.new ≡ also found.old (shaped_failures scope.now p (headed_here h.entry).rest)) }
{
    if shape_holds(Command::System, h.rest) {
        let r = read_content(alloc, scope, h.name, h.rest, variables, found)?;
        return Ok(r);
    }
    fail(found, moxi::ARITY, p);
    let r = bare_system(alloc, h.name)?;
    Ok(r)
}

// Appends an element.
fn put<T>(all: &mut Vec<T>, x: T) -> Result<(), NoMemory>
where
    T: Drop,
    ensures { OnOk result (all.new.items ≡ all.old.items ++ x ∷ []) }
{
    Ok(all.push(x)?)
}

/// Appends a system to those with new names, or to those whose names are already in use.
#[tactic(auto, using(moxi_terms::proofs::ScopeLaws::map_end))]
pub fn append_system(
    new: bool,
    systems: &mut Vec<ReadSystem>,
    repeated: &mut Vec<ReadSystem>,
    r: ReadSystem,
) -> Result<(), NoMemory>
    ensures adds { OnOk result (map plain_reading systems.new.items ≡ with_new_system new (map plain_reading systems.old.items) (plain_reading r)) }
    ensures repeats { OnOk result (map plain_reading repeated.new.items ≡ with_repeated_system new (map plain_reading repeated.old.items) (plain_reading r)) }
{
    if new {
        return put(systems, r);
    }
    put(repeated, r)
}
