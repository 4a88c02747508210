// The strongly connected components of a graph, found in linear time (Tarjan 1972).
ghost use Rattle.std.specs.Prelude.{◌≡◌, ◌<◌, IfOk, OnOk, length, true, nat_lt};
ghost use Rattle.std.specs.List.{list_all};
ghost use Rattle.digraph.specs.Graph.{is_graph};
ghost use Rattle.digraph.specs.Components.{IsSearch, Keeps};

use crate::order::Graph;
use std::alloc::Global;
use text_core::NoMemory;

// What the search knows about a node.
#[derive(Clone, Copy)]
struct Node {
    met: bool,
    // How many of its edges the search has followed.
    followed: usize,
    // Its place on the stack.
    place: usize,
    // The least place on the stack that is known to be reachable from it.
    low: usize,
}

// The search, which is at the last node of its path.
#[derive(Drop)]
struct Search {
    nodes: Vec<Node>,
    // The rank of each node, 0 while its component isn't complete.
    ranks: Vec<usize>,
    path: Vec<usize>,
    // The visited nodes whose components aren't complete, in the order of their first visit.
    stack: Vec<usize>,
}

// Assigns this rank to the nodes of the stack from this place on.
#[tactic(auto, using(crate::proofs::RankLaws::node_there))]
fn rank_component(ranks: &mut Vec<usize>, stack: &[usize], place: usize, rank: usize)
    requires { list_all (λ k. nat_lt k (length ranks.old.items)) stack.now ≡ true }
    ensures { length ranks.new.items ≡ length ranks.old.items }
{
    for i in place..stack.len() {
        ranks[stack[i]] = rank;
    }
}

impl Search {
    fn of(alloc: Global, count: usize) -> Result<Search, NoMemory>
        ensures search { IfOk result IsSearch }
        ensures long { IfOk result (λ s. length s.nodes.items ≡ count) }
    {
        let new = Node {
            met: false,
            followed: 0,
            place: 0,
            low: 0,
        };
        Ok(Search {
            nodes: vec![in alloc; new; count]?,
            ranks: vec![in alloc; 0; count]?,
            path: Vec::new(alloc),
            stack: Vec::new(alloc),
        })
    }

    // Adds a node to the path, unless it was visited before.
    fn meet(&mut self, node: usize) -> Result<(), NoMemory>
        requires search { IsSearch self.old }
        requires there { node < length self.old.nodes.items }
        ensures { OnOk result (Keeps self.old self.new) }
    {
        if self.nodes[node].met {
            return Ok(());
        }
        let place = self.stack.len();
        self.stack.push(node)?;
        self.path.push(node)?;
        self.nodes[node] = Node {
            met: true,
            followed: 0,
            place,
            low: place,
        };
        Ok(())
    }

    // Records that this place of the stack is reachable from a node.
    fn lower(&mut self, node: usize, place: usize)
        requires search { IsSearch self.old }
        requires there { node < length self.old.nodes.items }
        ensures { Keeps self.old self.new }
    {
        if place < self.nodes[node].low {
            self.nodes[node].low = place;
        }
    }

    // Follows the edge from one node to another.
    fn follow(&mut self, node: usize, next: usize) -> Result<(), NoMemory>
        requires search { IsSearch self.old }
        requires there { node < length self.old.nodes.items }
        requires ends { next < length self.old.nodes.items }
        ensures { OnOk result (Keeps self.old self.new) }
    {
        if !self.nodes[next].met {
            return self.meet(next);
        }
        if self.ranks[next] == 0 {
            let place = self.nodes[next].place;
            self.lower(node, place);
        }
        Ok(())
    }

    // Removes a complete component from the stack. Its first node is at this place.
    fn complete(&mut self, place: usize, rank: usize)
        requires { IsSearch self.old }
        ensures { Keeps self.old self.new }
    {
        rank_component(&mut self.ranks, self.stack.as_slice(), place, rank);
        self.stack.truncate(place);
    }

    // Removes the last node of the path.
    fn step_back(&mut self)
        requires { IsSearch self.old }
        ensures { Keeps self.old self.new }
    {
        let _ = self.path.pop();
    }

    // Leaves the last node of the path, all of whose edges were followed. Assigns this rank to its component where
    // it is complete.
    fn leave(&mut self, node: usize, rank: usize)
        requires search { IsSearch self.old }
        requires there { node < length self.old.nodes.items }
        ensures { Keeps self.old self.new }
    {
        let Node { place, low, .. } = self.nodes[node];
        if low == place {
            self.complete(place, rank);
        }
        self.step_back();
        let parent = match self.path.last() {
            None => return,
            Some(parent) => *parent,
        };
        self.lower(parent, low);
    }

    // Takes one step from the last node of the path. Returns false where the path is empty.
    fn step(&mut self, graph: &Graph, rank: usize) -> Result<bool, NoMemory>
        requires graph { is_graph graph.now ≡ true }
        requires long { length self.old.nodes.items ≡ length graph.now }
        requires search { IsSearch self.old }
        ensures { OnOk result (Keeps self.old self.new) }
    {
        let node = match self.path.last() {
            None => return Ok(false),
            Some(node) => *node,
        };
        let row = graph.at(node);
        let edge = self.nodes[node].followed;
        if edge < row.len() {
            self.nodes[node].followed = edge + 1;
            self.follow(node, *row.at(edge))?;
        } else {
            self.leave(node, rank);
        }
        Ok(true)
    }
}

/// Ranks the nodes of a graph by their strongly connected components, in linear time.
///
/// The nodes of one component have one rank, and an edge to another component leads to a lower rank. The contract
/// leaves the ranks open, so callers test what they rely on.
pub fn component_ranks(alloc: Global, graph: &Graph) -> Result<Vec<usize>, NoMemory>
    requires { is_graph graph.now ≡ true }
    ensures { IfOk result (λ ranks. length ranks.items ≡ length graph.now) }
{
    let mut search = Search::of(alloc, graph.len())?;
    let mut root = 0;
    for rank in 1..usize::MAX {
        if search.step(graph, rank)? {
            continue;
        }
        if root == graph.len() {
            break;
        }
        search.meet(root)?;
        root += 1;
    }
    Ok(search.ranks)
}
