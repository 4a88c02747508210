// Printing of scripts.
ghost use Rattle.std.specs.Prelude.{◌≡◌, ◌≤◌, ◌++◌, map, IfOk, OnOk};
ghost use Rattle.moxi_sexpr.specs.Lexing.{limit};
ghost use Rattle.moxi_term_print.specs.Shown.{lines_text, shown_depths};
ghost use Rattle.moxi_script_print.specs.Printing.{shown_enumerations, shown_functions, shown_logic, shown_script, shown_sorts, shown_systems, system_names};
ghost use Rattle.moxi_script_print.specs.ReadBack.{ReadsBackScript};
ghost use Rattle.moxi_scripts.specs.Script.{plain_system};
ghost use Rattle.moxi_scripts.specs.ScriptView.{plain_script};
ghost use Rattle.text_core.specs.Bytes.{bytes_behind};

use crate::print_checks::put_check;
use crate::print_parts::{push, put_head};
use crate::print_systems::put_system;
use crate::read_back_laws::printed_scripts_are_read_back;
use moxi_scripts::{Script, Systems};
use moxi_term_print::{put_enumeration, put_function, put_named_sort};
use moxi_terms::Scope;
use std::alloc::Global;
use text_core::{Name, NoMemory, Text};

fn put_logic(out: &mut Text, logic: &Option<Name>) -> Result<(), NoMemory>
    ensures { OnOk result (out.new ≡ out.old ++ lines_text (shown_logic logic.now)) }
{
    match logic {
        None => Ok(()),
        Some(name) => {
            put_head(out, b"set-logic", name.bytes())?;
            out.put(b")\n")
        }
    }
}

fn put_enumerations(out: &mut Text, scope: &Scope) -> Result<(), NoMemory>
    ensures { OnOk result (out.new ≡ out.old ++ lines_text (shown_enumerations scope.now.enumerations)) }
{
    for enumeration in scope.enumerations() {
        put_enumeration(out, enumeration)?;
        out.put(b"\n")?;
    }
    Ok(())
}

#[tactic(auto, using(crate::proofs::Pieces::pieces))]
fn put_sorts(out: &mut Text, scope: &Scope) -> Result<(), NoMemory>
    ensures { OnOk result (out.new ≡ out.old ++ lines_text (shown_sorts scope.now scope.now.sorts)) }
{
    for sort in scope.sorts() {
        put_named_sort(out, scope, sort)?;
        out.put(b"\n")?;
    }
    Ok(())
}

fn put_functions(alloc: Global, out: &mut Text, scope: &Scope) -> Result<(), NoMemory>
    ensures { OnOk result (out.new ≡ out.old ++ lines_text (shown_functions scope.now scope.now.functions)) }
{
    for function in scope.functions() {
        put_function(alloc, out, scope, function)?;
        out.put(b"\n")?;
    }
    Ok(())
}

fn put_systems(
    alloc: Global,
    out: &mut Text,
    scope: &Scope,
    names: &[&[u8]],
    systems: &Systems,
) -> Result<(), NoMemory>
    ensures { OnOk result (out.new ≡ out.old ++ lines_text (shown_systems scope.now (map bytes_behind names.now) (map plain_system systems.now))) }
{
    for system in systems {
        put_system(alloc, out, scope, names, system)?;
        out.put(b"\n")?;
    }
    Ok(())
}

// The names of systems.
fn system_names<'a>(alloc: Global, systems: &'a Systems) -> Result<Vec<&'a [u8]>, NoMemory>
    ensures { IfOk result (λ names. map bytes_behind names.items ≡ system_names (map plain_system systems.now)) }
{
    let mut names = Vec::new(alloc);
    for system in systems {
        push(&mut names, system.name.bytes())?;
    }
    Ok(names)
}

#[tactic(auto, using(crate::proofs::Pieces::pieces))]
fn put_script(alloc: Global, out: &mut Text, script: &Script) -> Result<(), NoMemory>
    ensures { OnOk result (out.new ≡ out.old ++ lines_text (shown_script (plain_script script.now))) }
{
    let names = system_names(alloc, &script.systems)?;
    put_logic(out, &script.logic)?;
    put_enumerations(out, &script.scope)?;
    put_sorts(out, &script.scope)?;
    put_functions(alloc, out, &script.scope)?;
    put_systems(alloc, out, &script.scope, &names, &script.systems)?;
    put_check(alloc, out, &script.scope, &names, &script.check)?;
    out.put(b"\n")
}

/// Returns the text of a script, with each command on its own line (MoXI, SPIN 2024).
///
/// The order is: the logic if there is one, the enumerations, the defined sorts, the functions, the systems, and the check.
/// The lists and formulas of a system are always written. A query names its assumptions, then its current conditions, then
/// its reachable formulas.
pub fn print_script(alloc: Global, script: &Script) -> Result<Text, NoMemory>
    ensures printed { IfOk result (λ text. text ≡ lines_text (shown_script (plain_script script.now))) }
    // The text reads back to the script, if brackets nest no deeper than the reader allows.
    ensures reads_back { shown_depths (shown_script (plain_script script.now)) ≤ limit → IfOk result (λ text. ∥ ReadsBackScript text (plain_script script.now) ∥₁) }
{
    printed_scripts_are_read_back();
    let mut out = Text::new(alloc);
    put_script(alloc, &mut out, script)?;
    Ok(out)
}
