// Sizes, heights and nesting of systems, each counted once, after those of its subsystems.
ghost use Rattle.std.specs.Prelude.{◌≡◌, ◌<◌, ◌≤◌, ℕ, map, length, IfOk};
ghost use Rattle.digraph.specs.Graph.{IsSorted};
ghost use Rattle.moxi_scripts.specs.Script.{plain_system};
ghost use Rattle.moxi_instantiate.specs.Amounts.{AreRanked, amount_upto, amount_with, height_with, inner_greatest, inner_sum, links_of, nesting_with, size_with, systems_inside};
ghost use Rattle.moxi_instantiate.specs.Counting.{capped, known};

use crate::counts::{MOST, cap, greater, known, sum};
use crate::terms::{term_height, term_size};
use digraph::{Graph, Order, sort};
use moxi_scripts::{Subsystem, System, Systems};
use std::alloc::Global;
use text_core::{List, NoMemory};

/// A measure of a system.
#[derive(Clone, Copy)]
pub enum Measure {
    Size,
    Height,
    Nesting,
}

fn inner_sum(counts: &[u64], subsystems: &[Subsystem]) -> u64
    ensures value { result ≡ capped (inner_sum (known counts.now) subsystems.now) }
    ensures bound { result ≤ MOST }
{
    let mut total = 0;
    for subsystem in subsystems {
        total = sum(total, known(counts, subsystem.system));
    }
    total
}

fn inner_greatest(counts: &[u64], subsystems: &[Subsystem]) -> u64
    ensures value { result ≡ capped (inner_greatest (known counts.now) subsystems.now) }
    ensures bound { result ≤ MOST }
{
    let mut most = 0;
    for subsystem in subsystems {
        most = greater(most, known(counts, subsystem.system));
    }
    most
}

#[tactic(auto, using(crate::proofs::Capping::cap_sum))]
fn system_size(calls: &[u64], counts: &[u64], system: &System) -> u64
    ensures value { result ≡ capped (size_with (known calls.now) (known counts.now) (plain_system system.now)) }
    ensures bound { result ≤ MOST }
{
    let inner = inner_sum(counts, system.subsystems.as_slice());
    let variables = sum(cap(system.locals.len() as u64), inner);
    let steps = sum(
        term_size(calls, &system.trans),
        sum(term_size(calls, &system.inv), variables),
    );
    sum(1, sum(term_size(calls, &system.init), steps))
}

#[tactic(auto, using(crate::proofs::Capping::cap_max))]
fn system_height(calls: &[u64], counts: &[u64], system: &System) -> u64
    ensures value { result ≡ capped (height_with (known calls.now) (known counts.now) (plain_system system.now)) }
    ensures bound { result ≤ MOST }
{
    let inner = inner_greatest(counts, system.subsystems.as_slice());
    let steps = greater(
        term_height(calls, &system.trans),
        greater(term_height(calls, &system.inv), inner),
    );
    greater(term_height(calls, &system.init), steps)
}

#[tactic(auto, using(crate::proofs::Capping::cap_sum))]
fn system_nesting(counts: &[u64], system: &System) -> u64
    ensures value { result ≡ capped (nesting_with (known counts.now) (plain_system system.now)) }
    ensures bound { result ≤ MOST }
{
    sum(1, inner_greatest(counts, system.subsystems.as_slice()))
}

fn amount(measure: Measure, calls: &[u64], counts: &[u64], system: &System) -> u64
    ensures { result ≡ capped (amount_with measure (known calls.now) (known counts.now) (plain_system system.now)) }
{
    match measure {
        Measure::Size => system_size(calls, counts, system),
        Measure::Height => system_height(calls, counts, system),
        Measure::Nesting => system_nesting(counts, system),
    }
}

fn row_of(alloc: Global, system: &System) -> Result<List<usize>, NoMemory>
    ensures { IfOk result (λ row. row ≡ systems_inside (plain_system system.now)) }
{
    let mut row = List::new(alloc);
    for subsystem in &system.subsystems {
        row.push(subsystem.system as usize)?;
    }
    Ok(row)
}

fn graph_of(alloc: Global, systems: &Systems) -> Result<Graph, NoMemory>
    ensures { IfOk result (λ graph. graph ≡ links_of (map plain_system systems.now)) }
{
    let mut graph = List::new(alloc);
    for system in systems {
        let row = row_of(alloc, system)?;
        graph.push(row)?;
    }
    Ok(graph)
}

/// Returns an order of the systems in which each system follows the systems of its subsystems.
pub fn order_of(alloc: Global, systems: &Systems) -> Result<List<usize>, NoMemory>
    requires { ∥ AreRanked (map plain_system systems.now) ∥₁ }
    ensures { IfOk result (IsSorted (links_of (map plain_system systems.now))) }
{
    let graph = graph_of(alloc, systems)?;
    match sort(alloc, &graph)? {
        Order::Sorted(order) => Ok(order),
        Order::Returns(_) => unreachable!(),
    }
}

/// Returns the measure of each system, given the sizes or heights of the functions' bodies.
///
/// A greater number than `MOST` is given as `MOST`.
pub fn amounts(
    alloc: Global,
    measure: Measure,
    calls: &[u64],
    systems: &Systems,
    order: &List<usize>,
) -> Result<Vec<u64>, NoMemory>
    requires ranked { ∥ AreRanked (map plain_system systems.now) ∥₁ }
    requires order { IsSorted (links_of (map plain_system systems.now)) order.now }
    ensures { IfOk result (λ counts. (i : ℕ) → i < length (map plain_system systems.now)
        → capped (known counts.items i) ≡ capped (amount_upto measure (known calls.now) (map plain_system systems.now) (length (map plain_system systems.now)) i)) }
{
    let mut counts = vec![in alloc; 0; systems.len()]?;
    for number in order.as_slice() {
        let i = *number;
        let count = amount(measure, calls, &counts, systems.at(i));
        counts[i] = count;
    }
    Ok(counts)
}
