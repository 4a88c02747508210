// The names of modules, and main.
ghost use Rattle.std.specs.Prelude.{◌≡◌, [], ◌∷◌, map};
ghost use Rattle.smv_text.specs.View.{plain_module, plain_source};
ghost use Rattle.smv_meaning.specs.Instances.{module_named, main_name};
ghost use Rattle.smv_meaning.specs.Checks.{first_failing};
ghost use Rattle.smv_meaning.specs.Phases.{name_checks, main_check, module_checks};
ghost use Rattle.smv_names.specs.Outcome.{Settles};

use crate::ends::NamesEnd;
use name_maps::{no_names, put, value_under};
use smv_instances::ModuleTable;
use smv_text::{Modules, Source};
use std::alloc::Global;
use text_core::kinds::smv;
use text_core::{Place, Refusal};

// Module names must be distinct.
#[tactic(auto, using(smv_meaning::specs::laws::Lists::front_is, smv_meaning::specs::laws::Lists::end_is))]
fn names_checked(alloc: Global, modules: &Modules) -> Result<(), NamesEnd>
    ensures { Settles result (name_checks [] (map plain_module modules.now)) }
{
    let mut seen = no_names(alloc);
    for module in modules {
        let name = module.name.bytes();
        if value_under(&seen, name).is_some() {
            return Err(NamesEnd::Bad(Refusal {
                kind: smv::MODULE_TWICE,
                place: module.place,
            }));
        }
        put(&mut seen, name, ())?;
    }
    Ok(())
}

fn main_failing(table: &ModuleTable, end: Place) -> Option<Refusal>
    ensures { result ≡ first_failing (main_check end (module_named (map plain_module table.now) main_name) ∷ []) }
{
    match table.named(b"main") {
        None => Some(Refusal {
            kind: smv::NO_MAIN,
            place: end,
        }),
        Some(module) => if module.parameters.len() == 0 {
            None
        } else {
            Some(Refusal {
                kind: smv::NO_MAIN,
                place: module.place,
            })
        },
    }
}

/// Checks the modules of a model, the first phase.
///
/// Module names are distinct (S9), and there is a module `main` without parameters (S8).
#[tactic(auto, using(smv_meaning::specs::laws::Composing::ends, smv_meaning::specs::laws::Composing::both_pass, crate::specs::laws::Composing::fails_behind))]
pub fn modules_checked(alloc: Global, source: &Source) -> Result<(), NamesEnd>
    ensures { Settles result (module_checks (plain_source source.now)) }
{
    match names_checked(alloc, &source.modules) {
        Ok(()) => {}
        Err(end) => return Err(end),
    }
    let table = ModuleTable::of(alloc, &source.modules)?;
    match main_failing(&table, source.end) {
        None => Ok(()),
        Some(why) => Err(NamesEnd::Bad(why)),
    }
}
