// Scripts as values.
ghost use Rattle.std.specs.Prelude.{◌≡◌, ◌<◌, ◌^◌, IfErr, IfOk, Some, length, map};
ghost use Rattle.text_core.specs.declared.place.Refusal.{Refusal};
ghost use Rattle.moxi_sexpr.specs.Printing.{ArePrintable};
ghost use Rattle.moxi_sexpr.specs.Tree.{all_nodes, plain_forms};
ghost use Rattle.moxi_term_reading.specs.Failures.{least};
ghost use Rattle.name_maps.specs.Names.{place_of};
ghost use Rattle.moxi_terms.specs.View.{plain};
ghost use Rattle.moxi_scripts.specs.Entries.{variables_of};
ghost use Rattle.moxi_reading.specs.Answer.{IsFirstFailure, IsFirstOf, IsRefusal, IsScript};
ghost use Rattle.moxi_declarations.specs.Views.{plain_check_reading, plain_draft, plain_reading};
ghost use Rattle.moxi_scripts.specs.Commands.{nothing_read};
ghost use Rattle.moxi_scripts.specs.Script.{PlainScript, plain_check, plain_system};
ghost use Rattle.moxi_scripts.specs.ScriptView.{plain_script};
ghost use Rattle.moxi_scripts.specs.Spelling.{SpellsScript, actual_numbers, check_of, number_or_none, script_failures, subsystem_of, system_of};

use crate::cycles::read_whole_script;
use crate::outcome::ScriptEnd;
use moxi_attributes::{Labelled, variables_of};
use moxi_declarations::{Draft, ReadCheck, ReadSystem, nothing_read};
use moxi_scripts::{
    Actual, Check, Formulas, Lists, Script, Subsystem, Subsystems, System, Systems, Use,
};
use moxi_sexpr::{Forms, MANY_NODES, count_all_nodes};
use moxi_terms::{Scope, Variables};
use name_maps::NameSet;
use std::alloc::Global;
use std::mem::{self, drop};
use text_core::{List, Name, NoMemory, Numbers, Place};

// The number of the system with this name.
fn number_of(names: &NameSet, name: &[u8]) -> u32
    requires { length names.now < 2 ^ 32 }
    ensures { result ≡ number_or_none (place_of names.now name.now) }
{
    match names.place(name) {
        None => 0,
        Some(i) => i as u32,
    }
}

// The numbers of actuals.
fn actual_numbers(alloc: Global, actuals: &List<Actual>) -> Result<Numbers, NoMemory>
    ensures { IfOk result (λ ns. ns ≡ actual_numbers actuals.now) }
{
    let mut numbers = Numbers::new(alloc);
    for actual in actuals {
        numbers.push(actual.number as u64)?;
    }
    Ok(numbers)
}

// A subsystem, given the names of the systems.
fn subsystem_of(alloc: Global, names: &NameSet, u: &Use) -> Result<Subsystem, NoMemory>
    requires { length names.now < 2 ^ 32 }
    ensures { IfOk result (λ s. s ≡ subsystem_of names.now u.now) }
{
    Ok(Subsystem {
        name: Name::of(alloc, u.name.bytes())?,
        system: number_of(names, u.target.bytes()),
        actuals: actual_numbers(alloc, &u.actuals)?,
    })
}

fn subsystems_of(alloc: Global, names: &NameSet, uses: &List<Use>) -> Result<Subsystems, NoMemory>
    requires { length names.now < 2 ^ 32 }
    ensures { IfOk result (λ ss. ss ≡ map (subsystem_of names.now) uses.now) }
{
    let mut subsystems = Subsystems::new(alloc);
    for u in uses {
        let subsystem = subsystem_of(alloc, names, u)?;
        subsystems.push(subsystem)?;
    }
    Ok(subsystems)
}

// The variables of the three lists of a system or a check.
#[derive(Drop)]
struct ListVariables {
    inputs: Variables,
    outputs: Variables,
    locals: Variables,
}

fn list_variables(alloc: Global, lists: &Lists) -> Result<ListVariables, NoMemory>
    ensures inputs { IfOk result (λ v. v.inputs ≡ variables_of lists.now.inputs.entries) }
    ensures outputs { IfOk result (λ v. v.outputs ≡ variables_of lists.now.outputs.entries) }
    ensures locals { IfOk result (λ v. v.locals ≡ variables_of lists.now.locals.entries) }
{
    let inputs = variables_of(alloc, &lists.inputs.entries)?;
    let outputs = variables_of(alloc, &lists.outputs.entries)?;
    let locals = variables_of(alloc, &lists.locals.entries)?;
    Ok(ListVariables {
        inputs,
        outputs,
        locals,
    })
}

// A system with these variables and subsystems. Its terms are moved.
fn system_with(r: ReadSystem, v: ListVariables, subsystems: Subsystems) -> System
    ensures { plain_system result ≡ record { name = r.name; inputs = v.inputs; outputs = v.outputs; locals = v.locals; init = plain r.init; trans = plain r.trans; inv = plain r.inv; subsystems = subsystems } }
{
    System {
        name: r.name,
        inputs: v.inputs,
        outputs: v.outputs,
        locals: v.locals,
        init: r.init,
        trans: r.trans,
        inv: r.inv,
        subsystems,
    }
}

// A system, given the names of the systems.
fn system_of(alloc: Global, names: &NameSet, r: ReadSystem) -> Result<System, NoMemory>
    requires { length names.now < 2 ^ 32 }
    ensures { IfOk result (λ s. plain_system s ≡ system_of names.now (plain_reading r)) }
{
    match system_parts(alloc, names, &r) {
        Ok((v, subsystems)) => Ok(system_with(r, v, subsystems)),
        Err(e) => {
            drop(r);
            Err(e)
        }
    }
}

// The variables and the subsystems of a system, given the names of the systems.
fn system_parts(
    alloc: Global,
    names: &NameSet,
    r: &ReadSystem,
) -> Result<(ListVariables, Subsystems), NoMemory>
    requires { length names.now < 2 ^ 32 }
    ensures inputs { IfOk result (λ x. x.0.inputs ≡ variables_of r.now.lists.inputs.entries) }
    ensures outputs { IfOk result (λ x. x.0.outputs ≡ variables_of r.now.lists.outputs.entries) }
    ensures locals { IfOk result (λ x. x.0.locals ≡ variables_of r.now.lists.locals.entries) }
    ensures subsystems { IfOk result (λ x. x.1 ≡ map (subsystem_of names.now) r.now.uses) }
{
    let subsystems = subsystems_of(alloc, names, &r.uses)?;
    match list_variables(alloc, &r.lists) {
        Ok(v) => Ok((v, subsystems)),
        Err(e) => {
            drop(subsystems);
            Err(e)
        }
    }
}

// All systems. Their terms are moved.
fn systems_of(
    alloc: Global,
    names: &NameSet,
    systems: &mut Vec<ReadSystem>,
) -> Result<Systems, NoMemory>
    requires { length names.now < 2 ^ 32 }
    ensures { IfOk result (λ ss. map plain_system ss ≡ map (system_of names.now) (map plain_reading systems.old.items)) }
{
    systems.reverse();
    let mut all = Systems::new(alloc);
    'systems: while let Some(r) = systems.pop() {
        let system = system_of(alloc, names, r)?;
        all.push(system)?;
    }
    Ok(all)
}

fn formulas_of(l: Labelled) -> Formulas
    ensures { result ≡ l.formulas }
{
    let Labelled { names, formulas } = l;
    drop(names);
    formulas
}

// The number of a check's system, and the check's variables, given the names of the systems.
fn check_parts(
    alloc: Global,
    names: &NameSet,
    c: &ReadCheck,
) -> Result<(u32, ListVariables), NoMemory>
    requires { length names.now < 2 ^ 32 }
    ensures system { IfOk result (λ x. x.0 ≡ number_or_none (place_of names.now c.now.target)) }
    ensures inputs { IfOk result (λ x. x.1.inputs ≡ variables_of c.now.lists.inputs.entries) }
    ensures outputs { IfOk result (λ x. x.1.outputs ≡ variables_of c.now.lists.outputs.entries) }
    ensures locals { IfOk result (λ x. x.1.locals ≡ variables_of c.now.lists.locals.entries) }
{
    let system = number_of(names, c.target.bytes());
    let v = list_variables(alloc, &c.lists)?;
    Ok((system, v))
}

// A check of this system with these variables. Its formulas are moved.
fn check_with(c: ReadCheck, system: u32, v: ListVariables) -> Check
    ensures place { result.place ≡ c.place }
    ensures system { result.system ≡ system }
    ensures inputs { result.inputs ≡ v.inputs }
    ensures outputs { result.outputs ≡ v.outputs }
    ensures locals { result.locals ≡ v.locals }
    ensures assumptions { result.assumptions ≡ c.labels.assumptions.formulas }
    ensures currents { result.currents ≡ c.labels.currents.formulas }
    ensures reachables { result.reachables ≡ c.labels.reachables.formulas }
    ensures queries { result.queries ≡ c.queries }
{
    let labels = c.labels;
    drop(c.target);
    drop(c.lists);
    Check {
        place: c.place,
        system,
        inputs: v.inputs,
        outputs: v.outputs,
        locals: v.locals,
        assumptions: formulas_of(labels.assumptions),
        currents: formulas_of(labels.currents),
        reachables: formulas_of(labels.reachables),
        queries: c.queries,
    }
}

// A check, given the names of the systems.
fn check_of(alloc: Global, names: &NameSet, c: ReadCheck) -> Result<Check, NoMemory>
    requires { length names.now < 2 ^ 32 }
    ensures { IfOk result (λ x. plain_check x ≡ check_of names.now (plain_check_reading c)) }
{
    match check_parts(alloc, names, &c) {
        Ok((system, v)) => Ok(check_with(c, system, v)),
        Err(e) => {
            drop(c);
            Err(e)
        }
    }
}

// Reads into an empty draft, and takes the script out of it.
fn script_in(
    alloc: Global,
    forms: &Forms,
    end: Place,
    draft: &mut Draft,
) -> Result<Script, ScriptEnd>
    requires printable { ArePrintable (plain_forms forms.now.items) }
    requires few { all_nodes (plain_forms forms.now.items) < 2 ^ 32 }
    requires nothing { plain_draft draft.old ≡ nothing_read }
    ensures spelled { IfOk result (λ s. SpellsScript (plain_forms forms.now.items) end (plain_script s)) }
    ensures refused { IfErr result (IsFirstFailure (plain_forms forms.now.items) end) }
{
    let mut found = None;
    read_whole_script(alloc, forms, end, draft, &mut found)?;
    if let Some(r) = found {
        return Err(ScriptEnd::Bad(r));
    }
    let Some(read) = draft.check.take() else {
        unreachable!()
    };
    let check = check_of(alloc, &draft.system_names, read)?;
    match systems_of(alloc, &draft.system_names, &mut draft.systems) {
        Ok(systems) => {
            let scope = mem::replace(&mut draft.scope, Scope::new(alloc));
            Ok(Script {
                logic: draft.logic.take(),
                scope,
                systems,
                check,
            })
        }
        Err(e) => {
            drop(check);
            Err(ScriptEnd::from(e))
        }
    }
}

/// Reads the script that forms spell, given the end of their text.
///
/// If tests fail, the refusal is the one with the least place, and at one place the one with the least number. The kinds
/// are M4 to M14. A script without a check fails at `end`. Systems, sorts, constants and functions are numbered with 32 bits, so
/// forms of 2^32 or more atoms and lists count as out of memory. No text of up to 2^31 bytes has as many.
pub fn read_script(alloc: Global, forms: &Forms, end: Place) -> Result<Script, ScriptEnd>
    requires { ArePrintable (plain_forms forms.now.items) }
    // The forms spell the script that is returned: no test fails.
    ensures spelled { IfOk result (λ s. SpellsScript (plain_forms forms.now.items) end (plain_script s)) }
    // The script that the forms spell is returned, unless memory runs out.
    ensures read { (s : PlainScript) → SpellsScript (plain_forms forms.now.items) end s → IsScript s result }
    // A refusal is the least of the failing tests.
    ensures refused { IfErr result (IsFirstFailure (plain_forms forms.now.items) end) }
    // It is one of M4 to M14, at the least place of a failing test, with the least number there.
    ensures first { IfErr result (IsFirstOf (plain_forms forms.now.items) end) }
    // The least of the failing tests is returned, unless memory runs out.
    ensures answered { (r : Refusal) → least (script_failures (plain_forms forms.now.items) end) ≡ Some r → IsRefusal r result }
{
    if count_all_nodes(forms) == MANY_NODES {
        return Err(ScriptEnd::NoMemory);
    }
    let mut draft = nothing_read(alloc);
    let script = script_in(alloc, forms, end, &mut draft);
    drop(draft);
    script
}
