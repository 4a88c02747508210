// The flat system of a flat form's script, reduced to the parts that lifting needs, with the system's lines.
ghost use Rattle.std.specs.Prelude.{◌≡◌, IfOk};
ghost use Rattle.smv_flatten.specs.FlatModel.{flat_plain};
ghost use Rattle.smv_script.specs.Script.{script_of};
ghost use Rattle.moxi_scripts.specs.Script.{plain_check, plain_system};
ghost use Rattle.moxi_flat.specs.FlatSystem.{flat_of};
ghost use Rattle.moxi_instantiate.specs.Instances.{IsSingle, single_script};
ghost use Rattle.moxi_lines.specs.Lines.{lines_of};
ghost use Rattle.witness_lift.specs.Lifting.{AreOfFlat};

use crate::line_laws::models_have_flat_systems;
use btor_tree::Nodes;
use moxi_instantiate::{FlatSystem, flat_of_single};
use moxi_scripts::{Check, System};
use moxi_terms::{Scope, Variable, Variables};
use moxi_to_btor::to_btor;
use smv_flatten::Flat;
use smv_script_laws::scripts_are_valid;
use smv_to_moxi::{SingleScript, to_single};
use std::alloc::Global;
use text_core::NoMemory;

/// The variables and the lines of a flat system.
#[derive(Drop)]
pub(crate) struct OwnLines {
    pub(crate) variables: Variables,
    pub(crate) nodes: Nodes,
}

/// The scope, the variables and the lines of a flat system.
#[derive(Drop)]
pub(crate) struct SystemLines {
    pub(crate) scope: Scope,
    pub(crate) own: OwnLines,
}

fn copied_variables(alloc: Global, variables: &Variables) -> Result<Variables, NoMemory>
    ensures { IfOk result (λ copy. copy ≡ variables.now) }
{
    let mut copy = Variables::with_capacity(alloc, variables.len())?;
    for variable in variables {
        let name = variable.name.duplicate(alloc)?;
        copy.push(Variable {
            name,
            sort: variable.sort,
        })?;
    }
    Ok(copy)
}

fn own_lines(alloc: Global, system: &FlatSystem<'_>) -> Result<OwnLines, NoMemory>
    ensures variables { IfOk result (λ own. own.variables ≡ system.now.variables) }
    ensures nodes { IfOk result (λ own. own.nodes ≡ lines_of system.now) }
{
    let nodes = to_btor(alloc, system)?;
    let variables = copied_variables(alloc, system.variables())?;
    Ok(OwnLines { variables, nodes })
}

// The variables and the lines of the script with this scope, this system and this check.
fn single_lines(
    alloc: Global,
    scope: &Scope,
    system: System,
    check: &Check,
) -> Result<OwnLines, NoMemory>
    requires { ∥ IsSingle (single_script scope.now (plain_system system) (plain_check check.now)) ∥₁ }
    ensures variables { IfOk result (λ own. own.variables ≡ (flat_of (single_script scope.now (plain_system system) (plain_check check.now))).variables) }
    ensures nodes { IfOk result (λ own. own.nodes ≡ lines_of (flat_of (single_script scope.now (plain_system system) (plain_check check.now)))) }
{
    let flat = flat_of_single(alloc, scope, system, check)?;
    own_lines(alloc, &flat)
}

// Proves that the script of a flat form is well formed, has a flat system, and has only one system.
fn is_single(flat: &Flat)
    ensures { ∥ IsSingle (script_of (flat_plain flat.now) flat.now.width) ∥₁ }
{
    flat.is_of_model();
    scripts_are_valid();
    models_have_flat_systems();
}

/// Returns the scope, the variables and the lines of the flat system of a flat form's script.
///
/// The script's formulas are not copied on the way.
pub(crate) fn system_lines(alloc: Global, flat: &Flat) -> Result<SystemLines, NoMemory>
    ensures { IfOk result (λ lines. AreOfFlat flat.now lines.scope lines.own.variables lines.own.nodes) }
{
    is_single(flat);
    let SingleScript {
        logic: _,
        scope,
        system,
        check,
    } = to_single(alloc, flat)?;
    let own = single_lines(alloc, &scope, system, &check)?;
    Ok(SystemLines { scope, own })
}
