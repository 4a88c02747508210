// Ranks, which show that nodes lie on no cycle.
ghost use Rattle.std.specs.Prelude.{◌≡◌, ℕ, ◌≤◌, ◌<◌, IfOk, length, nat_lt, true, false};
ghost use Rattle.std.specs.List.{list_all};
ghost use Rattle.digraph.specs.Graph.{is_graph, is_in, leads};
ghost use Rattle.digraph.specs.Ranks.{Falls, IsRanking, rank_of};

use crate::components::component_ranks;
use crate::order::Graph;
use std::alloc::Global;
use text_core::{List, NoMemory};

/// Ranks of the nodes of a graph.
#[derive(Drop)]
pub struct Ranks {
    ranks: Vec<usize>,
    // Whether no edge leads to a higher rank. Ranks by components pass this test. The contracts rest on it, and not
    // on how the ranks were found.
    falls: bool,
}

// The highest rank of these nodes, or 0 where there are none.
fn highest(row: &List<usize>, ranks: &[usize]) -> usize
    requires { list_all (λ k. nat_lt k (length ranks.now)) row.now ≡ true }
    ensures { (m : ℕ) → is_in row.now m ≡ true → rank_of ranks.now m ≤ result }
{
    let mut rank = 0;
    for i in 0..row.len() {
        let next = ranks[*row.at(i)];
        if rank < next {
            rank = next;
        }
    }
    rank
}

// Whether no edge leads to a higher rank.
fn falls(graph: &Graph, ranks: &[usize]) -> bool
    requires graph { is_graph graph.now ≡ true }
    requires long { length ranks.now ≡ length graph.now }
    ensures { result ≡ true → Falls graph.now ranks.now }
{
    for k in 0..graph.len() {
        if ranks[k] < highest(graph.at(k), ranks) {
            return false;
        }
    }
    true
}

impl Ranks {
    /// Ranks the nodes of a graph, in linear time.
    pub fn of(alloc: Global, graph: &Graph) -> Result<Ranks, NoMemory>
        requires { is_graph graph.now ≡ true }
        ensures { IfOk result (IsRanking graph.now) }
    {
        let ranks = component_ranks(alloc, graph)?;
        let falls = falls(graph, ranks.as_slice());
        Ok(Ranks { ranks, falls })
    }

    /// Returns whether a node may lie on a cycle.
    ///
    /// This is true exactly for the nodes on cycles, but the contract covers only the others.
    pub fn may_return(&self, graph: &Graph, node: usize) -> bool
        requires graph { is_graph graph.now ≡ true }
        requires ranks { IsRanking graph.now self.now }
        requires there { node < length graph.now }
        ensures { (n : ℕ) → result ≡ false → leads graph.now n node node ≡ false }
    {
        !self.falls || self.ranks[node] <= highest(graph.at(node), self.ranks.as_slice())
    }
}
