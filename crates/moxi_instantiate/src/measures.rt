// The measures of the system that a script's check instantiates, and whether it is too large.
ghost use Rattle.std.specs.Prelude.{◌≡◌, ◌<◌, ◌≤◌, ◌||◌, nat_lt, length, IfOk};
ghost use Rattle.moxi_flat.specs.declared.limits.TheConstants as limits;
ghost use Rattle.digraph.specs.Graph.{IsSorted};
ghost use Rattle.moxi_scripts.specs.ScriptView.{plain_script};
ghost use Rattle.moxi_scripts.specs.Valid.{IsValid};
ghost use Rattle.moxi_flat.specs.Systems.{script_height, script_nesting, script_size};
ghost use Rattle.moxi_flat.specs.Limits.{is_too_large};
ghost use Rattle.moxi_instantiate.specs.Amounts.{AreRanked, amount_upto, links_of};
ghost use Rattle.moxi_instantiate.specs.Counting.{capped, known};

use crate::checks::{check_height, check_size};
use crate::counts::{MOST, cap, greater, known, sum};
use crate::functions::{body_heights, body_sizes};
use crate::systems::{Measure, amounts, order_of};
use moxi_flat::{DEEPEST, HIGHEST, LARGEST};
use moxi_scripts::{Script, spelled_scripts_are_valid};
use std::alloc::Global;
use text_core::{List, NoMemory};

/// The size, the height and the nesting of the system that a script's check instantiates.
///
/// A greater number is given as `MOST`.
#[derive(Clone, Copy)]
pub struct Measures {
    pub size: u64,
    pub height: u64,
    pub nesting: u64,
}

// Proves that the script is valid, since forms spell it.
pub(crate) fn script_is_valid(script: &Script)
    ensures { ∥ IsValid (plain_script script.now) ∥₁ }
{
    spelled_scripts_are_valid();
}

// Proves that the systems of a script have ranks, and that the checked system is one of them.
pub(crate) fn script_is_ranked(script: &Script)
    ensures ranked { ∥ AreRanked (plain_script script.now).systems ∥₁ }
    ensures there { script.now.check.system < length (plain_script script.now).systems }
{
    spelled_scripts_are_valid();
}

// The count of the checked system.
fn amount_of(
    alloc: Global,
    measure: Measure,
    calls: &[u64],
    script: &Script,
    order: &List<usize>,
) -> Result<u64, NoMemory>
    requires ranked { ∥ AreRanked (plain_script script.now).systems ∥₁ }
    requires order { IsSorted (links_of (plain_script script.now).systems) order.now }
    requires there { script.now.check.system < length (plain_script script.now).systems }
    ensures value { IfOk result (λ n. n ≡ capped (amount_upto measure (known calls.now) (plain_script script.now).systems (length (plain_script script.now).systems) script.now.check.system)) }
    ensures bound { IfOk result (λ n. n ≤ MOST) }
{
    let counts = amounts(alloc, measure, calls, &script.systems, order)?;
    Ok(known(&counts, script.check.system))
}

fn size_of(alloc: Global, script: &Script, order: &List<usize>) -> Result<u64, NoMemory>
    requires ranked { ∥ AreRanked (plain_script script.now).systems ∥₁ }
    requires order { IsSorted (links_of (plain_script script.now).systems) order.now }
    requires there { script.now.check.system < length (plain_script script.now).systems }
    ensures { IfOk result (λ size. size ≡ capped (script_size (plain_script script.now))) }
{
    let sizes = body_sizes(alloc, script.scope.functions())?;
    let instances = amount_of(alloc, Measure::Size, &sizes, script, order)?;
    let asked = check_size(alloc, &sizes, &script.check)?;
    let inputs = cap(script.check.inputs.len() as u64);
    let outputs = cap(script.check.outputs.len() as u64);
    let variables = sum(inputs, outputs);
    let rest = sum(instances, asked);
    let size = sum(variables, rest);
    Ok(size)
}

fn height_of(alloc: Global, script: &Script, order: &List<usize>) -> Result<u64, NoMemory>
    requires ranked { ∥ AreRanked (plain_script script.now).systems ∥₁ }
    requires order { IsSorted (links_of (plain_script script.now).systems) order.now }
    requires there { script.now.check.system < length (plain_script script.now).systems }
    ensures { IfOk result (λ height. height ≡ capped (script_height (plain_script script.now))) }
{
    let heights = body_heights(alloc, script.scope.functions())?;
    let instances = amount_of(alloc, Measure::Height, &heights, script, order)?;
    let asked = check_height(&heights, &script.check);
    let height = greater(instances, asked);
    Ok(height)
}

fn nesting_of(alloc: Global, script: &Script, order: &List<usize>) -> Result<u64, NoMemory>
    requires ranked { ∥ AreRanked (plain_script script.now).systems ∥₁ }
    requires order { IsSorted (links_of (plain_script script.now).systems) order.now }
    requires there { script.now.check.system < length (plain_script script.now).systems }
    ensures { IfOk result (λ nesting. nesting ≡ capped (script_nesting (plain_script script.now))) }
{
    let calls = Vec::new(alloc);
    let nesting = amount_of(alloc, Measure::Nesting, &calls, script, order)?;
    Ok(nesting)
}

/// Returns the measures of the system that the script's check instantiates.
///
/// The system is not built, so the time is linear in the script.
pub fn measures_of(alloc: Global, script: &Script) -> Result<Measures, NoMemory>
    ensures size { IfOk result (λ m. m.size ≡ capped (script_size (plain_script script.now))) }
    ensures height { IfOk result (λ m. m.height ≡ capped (script_height (plain_script script.now))) }
    ensures nesting { IfOk result (λ m. m.nesting ≡ capped (script_nesting (plain_script script.now))) }
{
    script_is_ranked(script);
    let order = order_of(alloc, &script.systems)?;
    let size = size_of(alloc, script, &order)?;
    let height = height_of(alloc, script, &order)?;
    let nesting = nesting_of(alloc, script, &order)?;
    Ok(Measures {
        size,
        height,
        nesting,
    })
}

fn passes(measures: Measures) -> bool
    ensures { result ≡ (nat_lt limits.LARGEST measures.size || (nat_lt limits.HIGHEST measures.height || nat_lt limits.DEEPEST measures.nesting)) }
{
    measures.size > LARGEST || measures.height > HIGHEST || measures.nesting > DEEPEST
}

/// Returns whether the system that the script's check instantiates is above a limit of size, height or nesting.
pub fn is_too_large(alloc: Global, script: &Script) -> Result<bool, NoMemory>
    ensures { IfOk result (λ large. large ≡ is_too_large (plain_script script.now)) }
{
    let measures = measures_of(alloc, script)?;
    Ok(passes(measures))
}
