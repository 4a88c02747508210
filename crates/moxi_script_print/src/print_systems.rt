// Printing of systems.
ghost use Rattle.std.specs.Prelude.{◌≡◌, ◌++◌, ◌∷◌, [], map, codes, OnOk, IfOk};
ghost use Rattle.moxi_terms.specs.View.{plain};
ghost use Rattle.moxi_term_print.specs.Shown.{parts_text, text_of};
ghost use Rattle.moxi_term_print.specs.Terms.{name_at};
ghost use Rattle.moxi_script_print.specs.Printing.{attribute, names_of, shown_formulas, shown_subsystem, shown_subsystems, shown_system};
ghost use Rattle.moxi_scripts.specs.Script.{plain_system};
ghost use Rattle.text_core.specs.Bytes.{bytes_behind};

use crate::print_parts::{
    name_in, push, push_names_of, put_formula, put_head, put_lists, put_names, variables_of,
};
use moxi_scripts::{Subsystem, Subsystems, System};
use moxi_terms::Scope;
use std::alloc::Global;
use text_core::{NoMemory, Text};

// The name of a subsystem's system, then those of the actuals.
fn subsystem_names<'a>(
    alloc: Global,
    systems: &[&'a [u8]],
    variables: &[&'a [u8]],
    subsystem: &Subsystem,
) -> Result<Vec<&'a [u8]>, NoMemory>
    ensures { IfOk result (λ names. map bytes_behind names.items ≡ name_at (map bytes_behind systems.now) subsystem.now.system ∷ names_of (map bytes_behind variables.now) subsystem.now.actuals) }
{
    let mut names = Vec::new(alloc);
    push(&mut names, name_in(systems, subsystem.system as u64))?;
    push_names_of(&mut names, variables, &subsystem.actuals)?;
    Ok(names)
}

fn put_subsystem(
    alloc: Global,
    out: &mut Text,
    systems: &[&[u8]],
    variables: &[&[u8]],
    subsystem: &Subsystem,
) -> Result<(), NoMemory>
    ensures { OnOk result (out.new ≡ out.old ++ parts_text (32 ∷ []) (attribute (codes "subsys") (shown_subsystem (map bytes_behind systems.now) (map bytes_behind variables.now) subsystem.now))) }
{
    let names = subsystem_names(alloc, systems, variables, subsystem)?;
    put_names(out, b"subsys", subsystem.name.bytes(), &names)
}

#[tactic(auto, using(crate::proofs::Pieces::pieces))]
fn put_subsystems(
    alloc: Global,
    out: &mut Text,
    systems: &[&[u8]],
    variables: &[&[u8]],
    subsystems: &Subsystems,
) -> Result<(), NoMemory>
    ensures { OnOk result (out.new ≡ out.old ++ parts_text (32 ∷ []) (shown_subsystems (map bytes_behind systems.now) (map bytes_behind variables.now) subsystems.now)) }
{
    for subsystem in subsystems {
        put_subsystem(alloc, out, systems, variables, subsystem)?;
    }
    Ok(())
}

#[tactic(auto, using(crate::proofs::Pieces::pieces), unfolding(crate::specs::Printing::shown_formulas))]
fn put_formulas(
    alloc: Global,
    out: &mut Text,
    scope: &Scope,
    variables: &[&[u8]],
    system: &System,
) -> Result<(), NoMemory>
    ensures { OnOk result (out.new ≡ out.old ++ parts_text (32 ∷ []) (shown_formulas scope.now (map bytes_behind variables.now) (plain system.now.init) (plain system.now.trans) (plain system.now.inv))) }
{
    put_formula(alloc, out, scope, variables, b"init", &system.init)?;
    put_formula(alloc, out, scope, variables, b"trans", &system.trans)?;
    put_formula(alloc, out, scope, variables, b"inv", &system.inv)
}

/// Appends `(define-system S ..)`, given the names of all systems.
///
/// Its lists and formulas are always written.
#[tactic(auto, using(crate::proofs::Pieces::pieces))]
pub fn put_system(
    alloc: Global,
    out: &mut Text,
    scope: &Scope,
    systems: &[&[u8]],
    system: &System,
) -> Result<(), NoMemory>
    ensures { OnOk result (out.new ≡ out.old ++ text_of (shown_system scope.now (map bytes_behind systems.now) (plain_system system.now))) }
{
    let variables = variables_of(alloc, &system.inputs, &system.outputs, &system.locals)?;
    put_head(out, b"define-system", system.name.bytes())?;
    put_lists(out, scope, &system.inputs, &system.outputs, &system.locals)?;
    put_formulas(alloc, out, scope, &variables, system)?;
    put_subsystems(alloc, out, systems, &variables, &system.subsystems)?;
    out.put(b")")
}
