// A depth-first search. Nodes are put in order as they are left.
ghost use Rattle.std.specs.Prelude.{◌≡◌, ◌<◌, ◌≤◌, [], IfOk, OnOk, length, true, false, nat_lt, take, slice_index_or, Ok};
ghost use Rattle.std.specs.List.{list_all};
ghost use Rattle.digraph.specs.Graph.{is_graph, NodeLists};
ghost use Rattle.digraph.specs.Searching.{IsSearch, IsTaken, IsStep, Finishes, is_done, is_new, is_open, opened, closed, turned};

use crate::mark::Mark;
use crate::order::Graph;
use std::alloc::Global;
use std::marker::Model;
use text_core::{List, NoMemory};

/// A depth-first search: the marks, how many edges of each node were followed, the path from the root, and the
/// finished nodes in order.
#[derive(Drop)]
pub struct Search {
    marks: Vec<Mark>,
    gone: Vec<usize>,
    path: Vec<usize>,
    order: List<usize>,
}

impl Model for Search {
    ghost use Rattle.digraph.specs.Searching.{State};

    ghost Value = { State };

    ghost view = { λ s. record { marks = s.marks.items; gone = s.gone.items; path = s.path.items; order = s.order } };
}

// The index of the first edge at or after `from` to a node that isn't done, or the number of edges.
fn front(row: &List<usize>, from: usize, marks: &[Mark]) -> usize
    requires within { list_all (λ k. nat_lt k (length marks.now)) row.now ≡ true }
    requires low { from ≤ length row.now }
    requires done { list_all (is_done marks.now) (take from row.now) ≡ true }
    ensures low { result ≤ length row.now }
    ensures done { list_all (is_done marks.now) (take result row.now) ≡ true }
    ensures stops { result < length row.now → is_done marks.now (slice_index_or row.now result 0) ≡ false }
{
    let mut to = from;
    while to < row.len() {
        if !marks[*row.at(to)].is_done() {
            return to;
        }
        to += 1;
    }
    to
}

// The end of the path, and the index of one of its edges.
#[derive(Clone, Copy)]
struct End {
    node: usize,
    edge: usize,
}

/// The outcome of one step of a search.
pub enum Step {
    /// The path is empty.
    Ended,
    /// A node was entered or left.
    Went,
    /// An edge leads back to a node of the path.
    Returned,
}

impl Search {
    /// Returns a search over `nodes` nodes that has visited none of them.
    pub fn of(alloc: Global, nodes: usize) -> Result<Search, NoMemory>
        ensures { (g : NodeLists) → length g ≡ nodes → IfOk result (λ s. IsSearch g s × (s.path ≡ [])) }
    {
        Ok(Search {
            marks: vec![in alloc; Mark::New; nodes]?,
            gone: vec![in alloc; 0; nodes]?,
            path: Vec::new(alloc),
            order: List::new(alloc),
        })
    }

    fn is_new(&self, node: usize) -> bool
        requires { node < length self.now.marks }
        ensures { result ≡ is_new self.now.marks node }
    {
        self.marks[node].is_new()
    }

    fn is_open(&self, node: usize) -> bool
        requires { node < length self.now.marks }
        ensures { result ≡ is_open self.now.marks node }
    {
        self.marks[node].is_open()
    }

    // Adds a node to the path.
    fn open(&mut self, node: usize) -> Result<(), NoMemory>
        requires { node < length self.old.marks }
        ensures { OnOk result (self.new ≡ opened self.old node) }
    {
        self.path.push(node)?;
        self.marks[node] = Mark::Open;
        Ok(())
    }

    // Marks a node that was taken off the path as done.
    fn close(&mut self, node: usize) -> Result<(), NoMemory>
        requires { node < length self.old.marks }
        ensures { OnOk result (self.new ≡ closed self.old node) }
    {
        self.order.push(node)?;
        self.marks[node] = Mark::Done;
        Ok(())
    }

    // Puts a node back on the path, followed by the node to which its next edge leads.
    fn turn(&mut self, node: usize, next: usize) -> Result<(), NoMemory>
        requires { next < length self.old.marks }
        ensures { OnOk result (self.new ≡ turned self.old node next) }
    {
        self.path.push(node)?;
        self.open(next)
    }

    // Takes the end off the path, with the index of its first edge to a node that isn't done, or the number of its
    // edges.
    fn take_end(&mut self, graph: &Graph) -> Option<End>
        requires graph { is_graph graph.now ≡ true }
        requires search { IsSearch graph.now self.old }
        ensures { IsTaken graph.now self.old self.new result }
    {
        let node = match self.path.pop() {
            None => return None,
            Some(node) => node,
        };
        let edge = front(graph.at(node), self.gone[node], self.marks.as_slice());
        self.gone[node] = edge;
        Some(End { node, edge })
    }

    // Takes one step from the end of the path.
    fn step(&mut self, graph: &Graph) -> Result<Step, NoMemory>
        requires graph { is_graph graph.now ≡ true }
        requires search { IsSearch graph.now self.old }
        ensures { IfOk result (IsStep graph.now self.old self.new) }
    {
        let end = match self.take_end(graph) {
            None => return Ok(Step::Ended),
            Some(end) => end,
        };
        let row = graph.at(end.node);
        if end.edge == row.len() {
            self.close(end.node)?;
            return Ok(Step::Went);
        }
        let next = *row.at(end.edge);
        if self.is_open(next) {
            return Ok(Step::Returned);
        }
        self.turn(end.node, next)?;
        Ok(Step::Went)
    }

    /// Searches from the root until the path is empty.
    ///
    /// Returns false where an edge leads back to a node of the path.
    pub fn finish(&mut self, graph: &Graph, root: usize) -> Result<bool, NoMemory>
        requires graph { is_graph graph.now ≡ true }
        requires search { IsSearch graph.now self.old }
        requires empty { self.old.path ≡ [] }
        requires there { root < length graph.now }
        ensures { IfOk result (Finishes graph.now root self.old self.new) }
    {
        if !self.is_new(root) {
            return Ok(true);
        }
        self.open(root)?;
        loop {
            match self.step(graph)? {
                Step::Ended => return Ok(true),
                Step::Went => {}
                Step::Returned => return Ok(false),
            }
        }
    }

    /// Returns the finished nodes, in order.
    pub fn sorted(self) -> List<usize>
        ensures { result ≡ self.order }
    {
        self.order
    }
}
