// Which scripts have no flat system.
ghost use Rattle.std.specs.Prelude.{◌≡◌, [], not, nat_eq, None, true, false, length, IfOk, IfErr};
ghost use Rattle.text_core.specs.declared.end.End.TheVariants.{Bad};
ghost use Rattle.text_core.specs.declared.place.Kind.TheVariants.{M};
ghost use Rattle.name_maps.specs.Names.{are_fresh};
ghost use Rattle.moxi_term_print.specs.Terms.{variable_names};
ghost use Rattle.moxi_scripts.specs.Script.{system_at};
ghost use Rattle.moxi_scripts.specs.ScriptView.{plain_script};
ghost use Rattle.moxi_flat.specs.FlatSystem.{flat_of};
ghost use Rattle.moxi_flat.specs.Limits.{flat_refusal, has_name_twice};
ghost use Rattle.moxi_instantiate.specs.Instances.{IsInstEnd};

use crate::measures::{is_too_large, script_is_ranked, script_is_valid};
use crate::variables::{add_locals, own_variables};
use moxi_scripts::Script;
use moxi_terms::Variables;
use name_maps::NameSet;
use std::alloc::Global;
use text_core::{End, Kind, NoMemory, Refusal};

/// Returns the variables of the flat system: the check's under the check's names, then the locals of all instances under
/// dotted names.
pub fn flat_variables(alloc: Global, script: &Script) -> Result<Variables, NoMemory>
    ensures { IfOk result (λ variables. variables ≡ (flat_of (plain_script script.now)).variables) }
{
    script_is_ranked(script);
    let mut all = own_variables(alloc, &script.check)?;
    add_locals(alloc, &script.systems, b"", script.check.system, &mut all)?;
    Ok(all)
}

fn has_name_twice(alloc: Global, variables: &Variables) -> Result<bool, NoMemory>
    ensures { IfOk result (λ twice. twice ≡ not (are_fresh [] (variable_names variables.now))) }
{
    let mut names = NameSet::new(alloc);
    for variable in variables {
        if !names.declare(alloc, variable.name.bytes())? {
            return Ok(true);
        }
    }
    Ok(false)
}

// Whether the checked system has no subsystems. The variables of the flat system are then the check's, whose names are
// distinct in a script.
fn is_single_system(script: &Script) -> bool
    ensures single { result ≡ nat_eq (length (system_at (plain_script script.now).systems script.now.check.system).subsystems) 0 }
    ensures names { result ≡ true → has_name_twice (plain_script script.now) ≡ false }
{
    script_is_valid(script);
    script_is_ranked(script);
    let checked = script.systems.at(script.check.system as usize);
    checked.subsystems.len() == 0
}

// Whether two of the flat system's variables have the same name. They are compared only where instances add some of them.
fn script_has_name_twice(
    alloc: Global,
    script: &Script,
    variables: &Variables,
) -> Result<bool, NoMemory>
    requires { variables.now ≡ (flat_of (plain_script script.now)).variables }
    ensures { IfOk result (λ twice. twice ≡ has_name_twice (plain_script script.now)) }
{
    if is_single_system(script) {
        return Ok(false);
    }
    has_name_twice(alloc, variables)
}

fn refused(kind: u8, script: &Script) -> End
    ensures { result ≡ Bad (record { kind = M kind; place = script.now.check.place }) }
{
    End::Bad(Refusal {
        kind: Kind::M(kind),
        place: script.check.place,
    })
}

/// Returns the variables of the flat system, or the refusal of the script at its check.
///
/// `M15`: the flat system is too large, which is tested before any of it is built. `M9`: two variables have the same name.
pub fn accepted_variables(alloc: Global, script: &Script) -> Result<Variables, End>
    ensures variables { IfOk result (λ variables. variables ≡ (flat_of (plain_script script.now)).variables) }
    ensures accepted { IfOk result (λ _. flat_refusal (plain_script script.now) ≡ None) }
    ensures refused { IfErr result (IsInstEnd (plain_script script.now)) }
{
    if is_too_large(alloc, script)? {
        return Err(refused(15, script));
    }
    let variables = flat_variables(alloc, script)?;
    if script_has_name_twice(alloc, script, &variables)? {
        return Err(refused(9, script));
    }
    Ok(variables)
}
