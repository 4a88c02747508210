// The declarations that the responses of a script's check are printed and read against.
ghost use Rattle.std.specs.Prelude.{◌≡◌, IfOk};
ghost use Rattle.moxi_flat.specs.FlatSystem.{flat_of};
ghost use Rattle.moxi_scripts.specs.Script.{system_at};
ghost use Rattle.moxi_scripts.specs.ScriptView.{plain_script};
ghost use Rattle.moxi_scripts.specs.Valid.{query_names};
ghost use Rattle.moxi_responses.specs.Declaring.{declared_of};
ghost use Rattle.moxi_trace.specs.ReadBack.{CanBeReadBack};
ghost use Rattle.moxi_trace.specs.Traces.{HasOwnNames};

use moxi_instantiate::FlatSystem;
use moxi_script_print::printable_forms_give_spellable_names;
use moxi_scripts::{Queries, Script, spelled_scripts_are_valid};
use moxi_trace::Declarations;
use std::alloc::Global;
use text_core::{Name, Names, NoMemory};

/// Returns the names of queries, in order.
pub(crate) fn names_of(alloc: Global, queries: &Queries) -> Result<Names, NoMemory>
    ensures { IfOk result (λ names. names ≡ query_names queries.now) }
{
    let mut names = Names::new(alloc);
    for query in queries {
        let name = query.name.duplicate(alloc)?;
        names.push(name)?;
    }
    Ok(names)
}

/// Returns the name of the checked system.
pub(crate) fn checked_name(script: &Script) -> &Name
    ensures { result.now ≡ (system_at (plain_script script.now).systems script.now.check.system).name }
{
    spelled_scripts_are_valid();
    &script.systems.at(script.check.system as usize).name
}

/// What a script's check declares: the queries have these names.
pub(crate) fn declarations_of<'a>(
    script: &'a Script,
    system: &'a FlatSystem<'_>,
    queries: &'a Names,
) -> Declarations<'a>
    requires system { system.now ≡ flat_of (plain_script script.now) }
    requires queries { queries.now ≡ query_names script.now.check.queries }
    ensures { result ≡ declared_of (plain_script script.now) }
{
    Declarations {
        system: checked_name(script),
        scope: system.scope(),
        variables: system.variables(),
        queries,
    }
}

/// Each variable and each query has a name of its own, and all names can be read back. This function does nothing.
pub(crate) fn names_are_own(script: &Script, system: &FlatSystem<'_>)
    requires { system.now ≡ flat_of (plain_script script.now) }
    ensures own { HasOwnNames (declared_of (plain_script script.now)) }
    ensures again { ∥ CanBeReadBack (declared_of (plain_script script.now)) ∥₁ }
{
    spelled_scripts_are_valid();
    printable_forms_give_spellable_names();
    system.is_within_limits();
}
