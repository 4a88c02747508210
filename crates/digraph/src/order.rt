// An order of the nodes of a graph, each after its successors, or the first node on a cycle.
ghost use Rattle.std.specs.Prelude.{◌≡◌, IfOk, true};
ghost use Rattle.digraph.specs.Graph.{is_graph};
ghost use Rattle.digraph.specs.Ordering.{IsOrder};

use crate::returns::first_return;
use crate::search::Search;
use std::alloc::Global;
use text_core::{List, NoMemory};

/// A directed graph, as a list with the successors of each node.
///
/// Nodes are numbered from 0.
pub type Graph = List<List<usize>>;

/// The result of sorting a graph.
#[derive(Drop)]
pub enum Order {
    /// An order in which each node follows all its successors. No node lies on a cycle.
    Sorted(List<usize>),
    /// The first node on a cycle: it leads to itself by one or more edges.
    Returns(usize),
}

/// Returns an order of the nodes in which each follows its successors, or the first node on a cycle.
///
/// Each edge must end at a node of the graph.
pub fn sort(alloc: Global, graph: &Graph) -> Result<Order, NoMemory>
    requires { is_graph graph.now ≡ true }
    ensures { IfOk result (IsOrder graph.now) }
{
    let mut search = Search::of(alloc, graph.len())?;
    for root in 0..graph.len() {
        if !search.finish(graph, root)? {
            return Ok(Order::Returns(first_return(alloc, graph)?));
        }
    }
    Ok(Order::Sorted(search.sorted()))
}
