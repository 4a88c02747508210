// Subsystems whose system contains the system that they are part of.
ghost use Rattle.std.specs.Prelude.{◌≡◌, ◌+◌, ◌<◌, ◌≤◌, ◌^◌, ◌++◌, Bool, IfOk, OnOk, length, map, true};
ghost use Rattle.digraph.specs.Graph.{is_graph};
ghost use Rattle.moxi_sexpr.specs.Tree.{all_nodes, plain_forms};
ghost use Rattle.moxi_scripts.specs.Collecting.{also, fails_with};
ghost use Rattle.moxi_scripts.specs.Commands.{nothing_read};
ghost use Rattle.moxi_declarations.specs.Views.{plain_draft, plain_reading};
ghost use Rattle.digraph.specs.Ranks.{IsRanking};
ghost use Rattle.moxi_scripts.specs.Cycles.{all_cycles, all_use_rows, count_uses, cycle_failures, ends_at, nodes_from, system_rows, use_cycles, use_graph, use_rows, use_tests};
ghost use Rattle.moxi_scripts.specs.Spelling.{reading_of, script_failures};

use crate::links::test_links;
use digraph::{Graph, Ranks, leads_back};
use moxi_attributes::{fail, fail_if};
use moxi_declarations::{Draft, ReadSystem, read_commands};
use moxi_scripts::Use;
use moxi_sexpr::Form;
use name_maps::NameSet;
use std::alloc::Global;
use text_core::kinds::moxi;
use text_core::{Kind, List, NoMemory, Place, Refusal};

// The number of subsystems.
fn count_uses(systems: &[ReadSystem]) -> usize
    requires { count_uses (map plain_reading systems.now) < 2 ^ 64 }
    ensures { result ≡ count_uses (map plain_reading systems.now) }
{
    let mut count = 0usize;
    for r in systems {
        count += r.uses.len();
    }
    count
}

// The node of a system, if it exists.
fn ends_at(
    alloc: Global,
    uses: usize,
    systems: usize,
    place: Option<usize>,
) -> Result<List<usize>, NoMemory>
    requires { uses + systems < 2 ^ 64 }
    ensures { IfOk result (λ ends. ends ≡ ends_at uses systems place) }
{
    let mut ends = List::new(alloc);
    match place {
        None => Ok(ends),
        Some(j) => {
            if j < systems {
                ends.push(uses + j)?;
                return Ok(ends);
            }
            Ok(ends)
        }
    }
}

// Adds the edges of the nodes of a system's subsystems.
fn add_use_rows(
    alloc: Global,
    names: &NameSet,
    total: usize,
    count: usize,
    uses: &List<Use>,
    graph: &mut Graph,
) -> Result<(), NoMemory>
    requires { total + count < 2 ^ 64 }
    ensures { OnOk result (graph.new ≡ graph.old ++ use_rows total count names.now uses.now) }
{
    for u in uses {
        let ends = ends_at(alloc, total, count, names.place(u.target.bytes()))?;
        graph.push(ends)?;
    }
    Ok(())
}

fn add_all_use_rows(
    alloc: Global,
    names: &NameSet,
    total: usize,
    systems: &[ReadSystem],
    graph: &mut Graph,
) -> Result<(), NoMemory>
    requires { total + length systems.now < 2 ^ 64 }
    ensures { OnOk result (graph.new ≡ graph.old ++ all_use_rows total (length systems.now) names.now (map plain_reading systems.now)) }
{
    for r in systems {
        add_use_rows(alloc, names, total, systems.len(), &r.uses, graph)?;
    }
    Ok(())
}

// This many nodes, starting with this one.
#[tactic(auto, using(moxi_scripts::proofs::CycleLaws::nodes_step, moxi_scripts::proofs::CycleLaws::nodes_end))]
fn nodes_from(alloc: Global, start: usize, count: usize) -> Result<List<usize>, NoMemory>
    requires { start + count < 2 ^ 64 }
    ensures { IfOk result (λ nodes. nodes ≡ nodes_from start count) }
{
    let mut nodes = List::new(alloc);
    for i in 0..count {
        nodes.push(start + i)?;
    }
    Ok(nodes)
}

// Adds the edges of the nodes of systems.
fn add_system_rows(alloc: Global, systems: &[ReadSystem], graph: &mut Graph) -> Result<(), NoMemory>
    requires { count_uses (map plain_reading systems.now) < 2 ^ 64 }
    ensures { OnOk result (graph.new ≡ graph.old ++ system_rows 0 (map plain_reading systems.now)) }
{
    let mut start = 0usize;
    for r in systems {
        let count = r.uses.len();
        let nodes = nodes_from(alloc, start, count)?;
        graph.push(nodes)?;
        start += count;
    }
    Ok(())
}

// The graph of subsystems and systems.
fn use_graph(alloc: Global, names: &NameSet, systems: &[ReadSystem]) -> Result<Graph, NoMemory>
    requires { count_uses (map plain_reading systems.now) + length systems.now < 2 ^ 64 }
    ensures { IfOk result (λ g. g ≡ use_graph (map plain_reading systems.now) names.now) }
{
    let total = count_uses(systems);
    let mut graph = Graph::new(alloc);
    add_all_use_rows(alloc, names, total, systems, &mut graph)?;
    add_system_rows(alloc, systems, &mut graph)?;
    Ok(graph)
}

// Whether a test of this kind at this place would not precede the failing test found so far.
#[tactic(auto, using(crate::proofs::FoundLaws::comes_later))]
fn comes_later(found: &Option<Refusal>, kind: Kind, place: Place) -> bool
    ensures { result ≡ true → (b : Bool) → also found.now (fails_with b kind place) ≡ found.now }
{
    let mut first = *found;
    fail(&mut first, kind, place);
    first == *found
}

// Tests a subsystem, which is this node. It searches only if the result matters, and the ranks leave open whether the node
// leads to itself. Subsystems are tested in the order of their places, so the first search that finds a cycle is the last.
fn test_use(
    alloc: Global,
    graph: &Graph,
    ranks: &Ranks,
    node: usize,
    u: &Use,
    found: &mut Option<Refusal>,
) -> Result<(), NoMemory>
    requires graph { is_graph graph.now ≡ true }
    requires ranks { IsRanking graph.now ranks.now }
    requires there { node < length graph.now }
    ensures { OnOk result (found.new ≡ also found.old (use_tests graph.now node u.now)) }
{
    if comes_later(found, moxi::SYSTEM_CYCLE, u.place) {
        return Ok(());
    }
    if !ranks.may_return(graph, node) {
        return Ok(());
    }
    let leads = leads_back(alloc, graph, node)?;
    fail_if(found, leads, moxi::SYSTEM_CYCLE, u.place);
    Ok(())
}

// Tests the subsystems of a system, whose nodes start with this one.
#[tactic(auto, using(moxi_attributes::specs::laws::Collecting::also_append))]
fn test_uses(
    alloc: Global,
    graph: &Graph,
    ranks: &Ranks,
    node: usize,
    uses: &List<Use>,
    found: &mut Option<Refusal>,
) -> Result<(), NoMemory>
    requires graph { is_graph graph.now ≡ true }
    requires ranks { IsRanking graph.now ranks.now }
    requires few { length graph.now < 2 ^ 64 }
    requires there { node + length uses.now ≤ length graph.now }
    ensures { OnOk result (found.new ≡ also found.old (use_cycles graph.now node uses.now)) }
{
    for (i, u) in uses.iter().enumerate() {
        test_use(alloc, graph, ranks, node + i, u, found)?;
    }
    Ok(())
}

// Tests all subsystems.
fn test_all_uses(
    alloc: Global,
    graph: &Graph,
    ranks: &Ranks,
    systems: &[ReadSystem],
    found: &mut Option<Refusal>,
) -> Result<(), NoMemory>
    requires graph { is_graph graph.now ≡ true }
    requires ranks { IsRanking graph.now ranks.now }
    requires few { length graph.now < 2 ^ 64 }
    requires there { count_uses (map plain_reading systems.now) ≤ length graph.now }
    ensures { OnOk result (found.new ≡ also found.old (all_cycles graph.now 0 (map plain_reading systems.now))) }
{
    let mut node = 0usize;
    for r in systems {
        test_uses(alloc, graph, ranks, node, &r.uses, found)?;
        node += r.uses.len();
    }
    Ok(())
}

/// Tests that no subsystem's system contains the system that the subsystem is part of.
pub fn test_cycles(
    alloc: Global,
    names: &NameSet,
    systems: &[ReadSystem],
    found: &mut Option<Refusal>,
) -> Result<(), NoMemory>
    requires { count_uses (map plain_reading systems.now) + length systems.now < 2 ^ 64 }
    ensures { OnOk result (found.new ≡ also found.old (cycle_failures (map plain_reading systems.now) names.now)) }
{
    let graph = use_graph(alloc, names, systems)?;
    let ranks = Ranks::of(alloc, &graph)?;
    test_all_uses(alloc, &graph, &ranks, systems, found)?;
    Ok(())
}

/// Reads the commands of a script whose text ends at `end`, and performs all of its tests.
///
/// It records the failing test with the least place, and at one place the one with the least number.
pub fn read_whole_script(
    alloc: Global,
    forms: &[Form],
    end: Place,
    draft: &mut Draft,
    found: &mut Option<Refusal>,
) -> Result<(), NoMemory>
    requires nothing { plain_draft draft.old ≡ nothing_read }
    requires few { all_nodes (plain_forms forms.now) < 2 ^ 32 }
    ensures draft { OnOk result (plain_draft draft.new ≡ reading_of (plain_forms forms.now)) }
    ensures few { OnOk result (length (plain_draft draft.new).system_names < 2 ^ 32) }
    ensures finds { OnOk result (found.new ≡ also found.old (script_failures (plain_forms forms.now) end)) }
{
    read_commands(alloc, forms, draft, found)?;
    test_links(draft, end, found);
    test_cycles(alloc, &draft.system_names, &draft.systems, found)?;
    Ok(())
}
