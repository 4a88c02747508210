// The flat system of a script.
ghost use Rattle.std.specs.Prelude.{◌≡◌, ◌≤◌, ◌+◌, [], None, true, length, map, IfOk, IfErr};
ghost use Rattle.name_maps.specs.Names.{are_fresh};
ghost use Rattle.moxi_term_print.specs.Terms.{variable_names};
ghost use Rattle.moxi_scripts.specs.Script.{plain_check, plain_formula, plain_system};
ghost use Rattle.moxi_scripts.specs.ScriptView.{plain_script};
ghost use Rattle.moxi_flat.specs.declared.limits.TheConstants as limits;
ghost use Rattle.moxi_flat.specs.FlatSorts.{IsSortedFlat};
ghost use Rattle.moxi_flat.specs.FlatSystem.{flat_of};
ghost use Rattle.moxi_flat.specs.Limits.{flat_refusal};
ghost use Rattle.moxi_instantiate.specs.Instances.{IsInstEnd, IsInstance, IsSingle, flat_height, flat_size, single_script};
ghost use Rattle.moxi_instantiate.specs.PlainParts.{plain_part};

use crate::instances::flat_parts;
use crate::measures::script_is_valid;
use crate::parts::{Parts, own_parts};
use crate::refusals::accepted_variables;
use crate::variables::own_variables;
use moxi_scripts::{Check, Formulas, Queries, Script, System};
use moxi_terms::{Scope, Variables};
use std::alloc::Global;
use std::marker::Model;
use text_core::{End, NoMemory};

/// The reason why a script has no flat system.
pub type InstEnd = End;

/// The flat system of a script: its variables, one part for each system instance, and the check's formulas and queries.
///
/// Formulas refer to variables by number, and call the functions of the scope.
#[derive(Drop)]
pub struct FlatSystem<'a> {
    scope: &'a Scope,
    check: &'a Check,
    variables: Variables,
    parts: Parts,
}

impl<'a> Model for FlatSystem<'a> {
    ghost use Rattle.moxi_terms.specs.Code.{Node, tree_code};
    ghost use Rattle.moxi_flat.specs.FlatSystem.{PlainFlatSystem};
    ghost use Rattle.moxi_instantiate.specs.Instances.{IsInstance, flat_form};
    ghost use Rattle.std.specs.Coded.{Coded, codes};

    ghost Value = { PlainFlatSystem };

    ghost coded = { let node : Coded Node = Prim.hlevel codes in Prim.hlevel (codes, tree_code node) };

    ghost view = { λ f. flat_form f.scope.now f.check.now f.variables f.parts };

    ghost invariant = { λ f. ∥ IsInstance (flat_form f.scope.now f.check.now f.variables f.parts) ∥₁ };
}

impl<'a> FlatSystem<'a> {
    /// Returns the declarations of the script.
    pub fn scope(&self) -> &Scope
        ensures { result.now ≡ self.now.scope }
    {
        self.scope
    }

    /// Returns the variables.
    ///
    /// First come the check's inputs, outputs and locals under the check's names, then the locals of all instances in
    /// preorder under dotted names.
    pub fn variables(&self) -> &Variables
        ensures { result.now ≡ self.now.variables }
    {
        &self.variables
    }

    /// Returns the formulas of each instance, in preorder.
    pub fn parts(&self) -> &Parts
        ensures { map plain_part result.now ≡ self.now.parts }
    {
        &self.parts
    }

    /// Returns the assumptions of the check.
    pub fn assumptions(&self) -> &Formulas
        ensures { map plain_formula result.now ≡ self.now.assumptions }
    {
        &self.check.assumptions
    }

    /// Returns the current conditions of the check.
    pub fn currents(&self) -> &Formulas
        ensures { map plain_formula result.now ≡ self.now.currents }
    {
        &self.check.currents
    }

    /// Returns the reachable formulas of the check.
    pub fn reachables(&self) -> &Formulas
        ensures { map plain_formula result.now ≡ self.now.reachables }
    {
        &self.check.reachables
    }

    /// Returns the queries of the check.
    pub fn queries(&self) -> &Queries
        ensures { result.now ≡ self.now.queries }
    {
        &self.check.queries
    }

    /// Proves that this is the flat system of a valid script that is not refused.
    pub fn is_instance(&self)
        ensures { ∥ IsInstance self.now ∥₁ }
    {
        // Reading a field brings the invariant into scope.
        let _ = &self.parts;
    }

    /// Proves that the variables have sorts of the scope, and that the formulas are truth values over them.
    pub fn is_sorted(&self)
        ensures { ∥ IsSortedFlat self.now ∥₁ }
    {
        self.is_instance();
    }

    /// Proves that the flat system is within the limits.
    ///
    /// Its size and its height are, and variables and parts together are at most as many as the greatest size. The names of
    /// its variables are distinct.
    pub fn is_within_limits(&self)
        ensures size { flat_size self.now ≤ limits.LARGEST }
        ensures height { flat_height self.now ≤ limits.HIGHEST }
        ensures count { length self.now.variables + length self.now.parts ≤ limits.LARGEST }
        ensures names { are_fresh [] (variable_names self.now.variables) ≡ true }
    {
        self.is_instance();
    }
}

/// Builds the flat system of a script, in time and memory linear in its size.
///
/// A script is refused at its check. `M15`: the size is above 2,000,000, the height above 4,000 or the nesting above 1,000,
/// which is tested before anything is built. `M9`: two variables have the same name.
pub fn instantiate<'a>(alloc: Global, script: &'a Script) -> Result<FlatSystem<'a>, InstEnd>
    ensures flat { IfOk result (λ f. f ≡ flat_of (plain_script script.now)) }
    ensures accepted { IfOk result (λ _. flat_refusal (plain_script script.now) ≡ None) }
    ensures refused { IfErr result (IsInstEnd (plain_script script.now)) }
{
    let variables = accepted_variables(alloc, script)?;
    let parts = flat_parts(alloc, script)?;
    script_is_valid(script);
    Ok(FlatSystem {
        scope: &script.scope,
        check: &script.check,
        variables,
        parts,
    })
}

/// Builds the flat system of a script with this scope, this only system and this check.
///
/// The script is known to have a flat system, and the system has no subsystems. So nothing is counted, and the system's
/// formulas are moved into the only part.
pub fn flat_of_single<'a>(
    alloc: Global,
    scope: &'a Scope,
    system: System,
    check: &'a Check,
) -> Result<FlatSystem<'a>, NoMemory>
    requires { ∥ IsSingle (single_script scope.now (plain_system system) (plain_check check.now)) ∥₁ }
    ensures { IfOk result (λ f. f ≡ flat_of (single_script scope.now (plain_system system) (plain_check check.now))) }
{
    let parts = own_parts(alloc, system)?;
    let variables = own_variables(alloc, check)?;
    Ok(FlatSystem {
        scope,
        check,
        variables,
        parts,
    })
}
