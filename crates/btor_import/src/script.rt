// The translation of lines to a script.
ghost use Rattle.std.specs.Prelude.{◌≡◌, IfOk, codes, map};
ghost use Rattle.btor_tree.specs.Fits.{is_bad};
ghost use Rattle.moxi_scripts.specs.Invariant.{IsSpelled};
ghost use Rattle.moxi_scripts.specs.Script.{plain_check, plain_formula, plain_system};
ghost use Rattle.moxi_scripts.specs.ScriptView.{plain_script};
ghost use Rattle.btor_import.specs.Assembling.{check_form, number_at, script_with, system_form};
ghost use Rattle.btor_import.specs.Script.{import_of, lines_in, number_of, queries_from, reachable_of, reachables_from};

use crate::laws::scripts_are_spelled;
use crate::numbers::numbers_of;
use crate::parts::{Part, formula_of, is_bad, is_true};
use crate::variables::{Group, variables_in};
use btor_tree::{Line, Nodes};
use moxi_scripts::{
    Check, Formula, Formulas, Queries, Script, Subsystems, System, Systems, numbered, query_of,
    variables_again,
};
use moxi_terms::Scope;
use std::alloc::Global;
use text_core::{FIRST_PLACE, Name, NoMemory, Place};

// The system, given the number of each line's variable.
fn system_of(alloc: Global, nodes: &Nodes, numbers: &[u32]) -> Result<System, NoMemory>
    requires { number_at numbers.now ≡ number_of nodes.now }
    ensures { IfOk result (λ s. plain_system s ≡ system_form nodes.now) }
{
    let name = Name::of(alloc, b"main")?;
    let inputs = variables_in(alloc, nodes, Group::Inputs)?;
    let outputs = variables_in(alloc, nodes, Group::Outputs)?;
    let locals = variables_in(alloc, nodes, Group::Locals)?;
    let init = formula_of(alloc, Part::Init, nodes, numbers)?;
    let trans = formula_of(alloc, Part::Trans, nodes, numbers)?;
    let inv = formula_of(alloc, Part::Inv, nodes, numbers)?;
    Ok(System {
        name,
        inputs,
        outputs,
        locals,
        init,
        trans,
        inv,
        subsystems: Subsystems::new(alloc),
    })
}

// The formula that a bad line is true.
fn reachable_of(alloc: Global, numbers: &[u32], j: usize, line: &Line) -> Result<Formula, NoMemory>
    ensures { IfOk result (λ f. plain_formula f ≡ reachable_of (number_at numbers.now) j line.now) }
{
    let name = numbered(alloc, b"b.", j)?;
    let term = is_true(alloc, numbers, &line.args)?;
    Ok(Formula { name, term })
}

// The formula of each bad line.
fn reachables_of(alloc: Global, nodes: &Nodes, numbers: &[u32]) -> Result<Formulas, NoMemory>
    ensures { IfOk result (λ fs. map plain_formula fs ≡ reachables_from (number_at numbers.now) 0 (lines_in is_bad nodes.now)) }
{
    let mut all = Formulas::new(alloc);
    for line in nodes.as_slice() {
        if is_bad(&line.op) {
            let formula = reachable_of(alloc, numbers, all.len(), line)?;
            all.push(formula)?;
        }
    }
    Ok(all)
}

// The query for each bad line.
fn queries_of(alloc: Global, nodes: &Nodes) -> Result<Queries, NoMemory>
    ensures { IfOk result (λ qs. qs ≡ queries_from 0 (lines_in is_bad nodes.now)) }
{
    let mut all = Queries::new(alloc);
    for line in nodes.as_slice() {
        if is_bad(&line.op) {
            let query = query_of(alloc, all.len())?;
            all.push(query)?;
        }
    }
    Ok(all)
}

// The check, which has the variables of the system.
fn check_of(
    alloc: Global,
    nodes: &Nodes,
    numbers: &[u32],
    system: &System,
) -> Result<Check, NoMemory>
    requires numbers { number_at numbers.now ≡ number_of nodes.now }
    requires system { plain_system system.now ≡ system_form nodes.now }
    ensures { IfOk result (λ c. plain_check c ≡ check_form nodes.now) }
{
    let inputs = variables_again(alloc, &system.inputs)?;
    let outputs = variables_again(alloc, &system.outputs)?;
    let locals = variables_again(alloc, &system.locals)?;
    let reachables = reachables_of(alloc, nodes, numbers)?;
    let queries = queries_of(alloc, nodes)?;
    Ok(Check {
        place: FIRST_PLACE,
        system: 0,
        inputs,
        outputs,
        locals,
        assumptions: Formulas::new(alloc),
        currents: Formulas::new(alloc),
        reachables,
        queries,
    })
}

// The script with these parts.
fn assembled(alloc: Global, logic: Name, system: System, check: Check) -> Result<Script, NoMemory>
    requires { ∥ IsSpelled (script_with logic (plain_system system) (plain_check check)) ∥₁ }
    ensures { IfOk result (λ s. plain_script s ≡ script_with logic (plain_system system) (plain_check check)) }
{
    let mut systems = Systems::new(alloc);
    systems.push(system)?;
    Ok(Script {
        logic: Some(logic),
        scope: Scope::new(alloc),
        systems,
        check,
    })
}

// The name of the logic of bit vectors.
fn logic_of(alloc: Global) -> Result<Name, NoMemory>
    ensures { IfOk result (λ n. n ≡ codes "QF_BV") }
{
    Name::of(alloc, b"QF_BV")
}

/// Returns the translation of lines to a MoXI script (MoXI, SPIN 2024; BTOR2, CAV 2018).
///
/// Its one system has an input for each input line, an output for each state line, and a local for each constant
/// and operator line. Its traces are the runs of frames, and it has a query for each bad line. It fails only when
/// out of memory.
pub fn import_btor(alloc: Global, nodes: &Nodes) -> Result<Script, NoMemory>
    ensures { IfOk result (λ s. plain_script s ≡ import_of nodes.now) }
{
    scripts_are_spelled();
    let numbers = numbers_of(alloc, nodes)?;
    let logic = logic_of(alloc)?;
    let system = system_of(alloc, nodes, &numbers)?;
    let check = check_of(alloc, nodes, &numbers, &system)?;
    assembled(alloc, logic, system, check)
}
