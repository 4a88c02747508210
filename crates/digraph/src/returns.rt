// Nodes that lie on a cycle.
ghost use Rattle.std.specs.Prelude.{◌≡◌, ℕ, ◌+◌, ◌<◌, [], IfOk, OnOk, length, true, slice_index_or};
ghost use Rattle.digraph.specs.Graph.{NodeLists, is_graph, next_of, is_in, leads, IsFirstReturn};
ghost use Rattle.digraph.specs.Searching.{SomeReturns};
ghost use Rattle.digraph.specs.Visiting.{Visited, IsVisit, Spreads, Returning, added};

use crate::order::Graph;
use crate::ranks::Ranks;
use std::alloc::Global;
use std::marker::Model;
use text_core::NoMemory;

// The visited nodes, as flags and in the order of their first visit.
#[derive(Drop)]
struct Visit {
    met: Vec<bool>,
    queue: Vec<usize>,
}

impl Model for Visit {
    ghost use Rattle.digraph.specs.Visiting.{Visited};

    ghost Value = { Visited };

    ghost view = { λ v. record { met = v.met.items; queue = v.queue.items } };
}

impl Visit {
    fn of(alloc: Global, nodes: usize) -> Result<Visit, NoMemory>
        ensures visit { (g : NodeLists) (start : ℕ) → length g ≡ nodes → IfOk result (λ v. IsVisit g start v) }
        ensures empty { IfOk result (λ v. v.queue ≡ []) }
    {
        Ok(Visit {
            met: vec![in alloc; false; nodes]?,
            queue: Vec::new(alloc),
        })
    }

    fn len(&self) -> usize
        ensures { result ≡ length self.now.queue }
    {
        self.queue.len()
    }

    fn at(&self, p: usize) -> usize
        requires { p < length self.now.queue }
        ensures { result ≡ slice_index_or self.now.queue p 0 }
    {
        self.queue[p]
    }

    // Visits a node. Nothing changes where it was visited before.
    fn add(&mut self, node: usize) -> Result<(), NoMemory>
        requires { node < length self.old.met }
        ensures { OnOk result (self.new ≡ added self.old node) }
    {
        if self.met[node] {
            return Ok(());
        }
        self.queue.push(node)?;
        self.met[node] = true;
        Ok(())
    }

    // Visits the successors of a node, up to the start. Returns whether the start is among them.
    fn spread(&mut self, graph: &Graph, node: usize, start: usize) -> Result<bool, NoMemory>
        requires graph { is_graph graph.now ≡ true }
        requires there { node < length graph.now }
        requires visit { IsVisit graph.now start self.old }
        requires near { (k : ℕ) → is_in (next_of graph.now node) k ≡ true → leads graph.now (length self.old.queue + 1) start k ≡ true }
        ensures { IfOk result (Spreads graph.now start node self.old self.new) }
    {
        let row = graph.at(node);
        for i in 0..row.len() {
            let next = *row.at(i);
            if next == start {
                return Ok(true);
            }
            self.add(next)?;
        }
        Ok(false)
    }
}

/// Returns whether the node lies on a cycle.
pub fn leads_back(alloc: Global, graph: &Graph, start: usize) -> Result<bool, NoMemory>
    requires graph { is_graph graph.now ≡ true }
    requires there { start < length graph.now }
    ensures { IfOk result (Returning graph.now start) }
{
    let mut visit = Visit::of(alloc, graph.len())?;
    if visit.spread(graph, start, start)? {
        return Ok(true);
    }
    let mut p = 0;
    while p < visit.len() {
        if visit.spread(graph, visit.at(p), start)? {
            return Ok(true);
        }
        p += 1;
    }
    Ok(false)
}

/// Returns the first node on a cycle.
///
/// It searches only from nodes whose ranks leave a cycle open, so it takes linear time.
pub fn first_return(alloc: Global, graph: &Graph) -> Result<usize, NoMemory>
    requires graph { is_graph graph.now ≡ true }
    requires some { SomeReturns graph.now }
    ensures { IfOk result (IsFirstReturn graph.now) }
{
    let ranks = Ranks::of(alloc, graph)?;
    for k in 0..graph.len() {
        if ranks.may_return(graph, k) && leads_back(alloc, graph, k)? {
            return Ok(k);
        }
    }
    unreachable!()
}
