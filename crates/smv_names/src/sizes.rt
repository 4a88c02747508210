// The size of a model, and names of main that are symbols.
ghost use Rattle.std.specs.Prelude.{◌≡◌, ℕ, map, not, sum_by, nat_le, slice_get, if◌then◌else◌, Some, None, IfOk};
ghost use Rattle.smv_text.specs.View.{plain_source};
ghost use Rattle.smv_meaning.specs.Instances.{instances_of};
ghost use Rattle.smv_meaning.specs.Names.{has_symbol};
ghost use Rattle.smv_meaning.specs.Checks.{check, first_failing};
ghost use Rattle.smv_meaning.specs.Phases.{most_tokens, symbol_checks, size_checks};
ghost use Rattle.smv_instances.specs.View.{instance_plain};
ghost use Rattle.smv_names.specs.Outcome.{Settles};
ghost use Rattle.smv_names.specs.View.{declared_plain};

use crate::declared::{Declaration, declared_of};
use crate::ends::NamesEnd;
use smv_instances::{Instance, Table, instance_list};
use smv_text::Source;
use std::alloc::Global;
use text_core::kinds::smv;
use text_core::{FIRST_PLACE, NoMemory, Refusal};

/// The most tokens of the modules' bodies, summed over the instances.
const MOST_TOKENS: u32 = 200_000;

/// The instances of a model, and its weight: the tokens of the modules' bodies, summed over the instances.
#[derive(Drop)]
pub struct SizedModel<'a> {
    pub table: Table<'a>,
    pub weight: u32,
}

// The weight, or None where it is over the limit.
fn weight_within(parts: &[Instance]) -> Option<u32>
    ensures { let weight : ℕ = sum_by (λ at. at.module.tokens) (map instance_plain parts.now) in result ≡ (if nat_le weight most_tokens then Some weight else None) }
{
    let mut weight: u32 = 0;
    for part in parts {
        if MOST_TOKENS - weight < part.module.tokens {
            return None;
        }
        weight += part.module.tokens;
    }
    Some(weight)
}

// The refusal of the first declared name that is a symbol.
fn symbol_failing(table: &Table, list: &[Declaration]) -> Option<Refusal>
    ensures { result ≡ first_failing (map (λ d. check 10 d.place (not (has_symbol (map instance_plain table.now) d.name))) (map declared_plain list.now)) }
{
    for declaration in list {
        if table.has_symbol(declaration.name) {
            return Some(Refusal {
                kind: smv::NAME_TWICE,
                place: declaration.place,
            });
        }
    }
    None
}

// The refusal of the first name of main that is a symbol.
#[tactic(auto, using(crate::proofs::FirstPart::main_first, crate::proofs::FirstPart::no_main))]
fn main_failing(alloc: Global, table: &Table) -> Result<Option<Refusal>, NoMemory>
    ensures { IfOk result (λ o. o ≡ first_failing (symbol_checks (map instance_plain table.now) (slice_get (map instance_plain table.now) 0))) }
{
    if table.len() == 0 {
        return Ok(None);
    }
    let list = declared_of(alloc, table.at(0).module)?;
    Ok(symbol_failing(table, list.as_slice()))
}

/// Checks the size of a model that passes the first two phases, and returns the table of its instances and its weight.
///
/// The weight is within the limit (S28), and no name of main is a symbol (S10).
pub fn sizes_checked<'a>(alloc: Global, source: &'a Source) -> Result<SizedModel<'a>, NamesEnd>
    ensures checks { Settles result (size_checks (plain_source source.now)) }
    ensures table { IfOk result (λ s. map instance_plain s.table ≡ instances_of (plain_source source.now)) }
    ensures weight { IfOk result (λ s. s.weight ≡ sum_by (λ at. at.module.tokens) (map instance_plain s.table)) }
{
    let parts = instance_list(alloc, source)?;
    let Some(weight) = weight_within(parts.as_slice()) else {
        return Err(NamesEnd::Bad(Refusal {
            kind: smv::TOO_LARGE,
            place: FIRST_PLACE,
        }));
    };
    let table = Table::over(alloc, parts)?;
    match main_failing(alloc, &table)? {
        None => Ok(SizedModel { table, weight }),
        Some(why) => Err(NamesEnd::Bad(why)),
    }
}
