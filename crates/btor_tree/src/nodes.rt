// A list of lines, each of which fits the ones before it.
ghost use Rattle.std.specs.Prelude.{◌≡◌, ◌<◌, ◌≤◌, ◌^◌, [], ◌∷◌, ◌++◌, length, Some, slice_get, OnOk, OnErr, if◌then◌else◌};
ghost use Rattle.std.specs.Iterator.Runs.{EveryRun, ItemsMapTo};
ghost use Rattle.std.specs.Slice.Iter.{iter_rest, iter_steps};
ghost use Rattle.btor_tree.specs.Fits.{Fits, IsWellFormed, width_at, count_of, is_input, is_state, is_bad};

use crate::lines::{Line, LineOp, sort_width};
use std::alloc::Global;
use std::marker::Model;
use std::slice::Iter;
use text_core::NoMemory;

/// A well-formed list of lines, in order of their ids.
#[derive(Drop)]
pub struct Nodes {
    items: Vec<Line>,
    inputs: u32,
    states: u32,
    bads: u32,
}

impl Model for Nodes {
    ghost use Rattle.std.specs.Prelude.{List};
    ghost use Rattle.btor_tree.specs.declared.lines.Line.{Line};
    ghost use Rattle.btor_tree.specs.Fits.{IsWellFormed};
    ghost use Rattle.btor_tree.specs.Held.{IsCounted};

    ghost Value = { List Line };

    ghost view = { λ a. a.items.items };

    ghost invariant = { λ a. IsWellFormed a.items.items × IsCounted a.items.items a.inputs a.states a.bads };
}

impl Nodes {
    /// Returns the empty list.
    ///
    /// It allocates nothing.
    pub fn new(alloc: Global) -> Nodes
        ensures { result ≡ [] }
    {
        Nodes {
            items: Vec::new(alloc),
            inputs: 0,
            states: 0,
            bads: 0,
        }
    }

    /// Returns the list of these lines.
    pub(crate) fn of_lines(lines: Vec<Line>) -> Nodes
        requires { IsWellFormed lines.items }
        ensures { result ≡ lines.items }
    {
        let mut inputs = 0;
        let mut states = 0;
        let mut bads = 0;
        for line in lines.iter() {
            inputs += one_where(is_input(&line.op));
            states += one_where(is_state(&line.op));
            bads += one_where(is_bad(&line.op));
        }
        Nodes {
            items: lines,
            inputs,
            states,
            bads,
        }
    }

    /// Appends a line.
    ///
    /// The list stays unchanged when out of memory.
    #[tactic(auto, using(crate::proofs::Grows::well_formed_push, crate::proofs::Grows::count_push, crate::proofs::Grows::counts_small))]
    pub fn add(&mut self, line: Line) -> Result<(), NoMemory>
        requires { Fits self.old line }
        ensures ok { OnOk result (self.new ≡ self.old ++ line ∷ []) }
        ensures err { OnErr result (self.new ≡ self.old) }
        ensures well_formed { IsWellFormed self.new }
    {
        let inputs = self.inputs + one_where(is_input(&line.op));
        let states = self.states + one_where(is_state(&line.op));
        let bads = self.bads + one_where(is_bad(&line.op));
        self.items.push(line)?;
        self.inputs = inputs;
        self.states = states;
        self.bads = bads;
        Ok(())
    }

    /// Returns the number of lines.
    pub fn len(&self) -> usize
        ensures value { result ≡ length self.now }
        ensures well_formed { IsWellFormed self.now }
    {
        self.items.len()
    }

    /// Proves that the lines are well-formed. It does nothing.
    pub fn are_well_formed(&self)
        ensures { IsWellFormed self.now }
    {
        let _ = &self.items;
    }

    /// Returns the line at index `i`, counted from 0.
    pub fn at(&self, i: usize) -> &Line
        requires { i < length self.now }
        ensures { slice_get self.now i ≡ Some result.now }
    {
        &self.items[i]
    }

    /// Returns the lines in order.
    pub fn as_slice(&self) -> &[Line]
        ensures { result.now ≡ self.now }
    {
        self.items.as_slice()
    }

    /// Returns the number of input lines.
    pub fn inputs(&self) -> u32
        ensures { result ≡ count_of is_input self.now }
    {
        self.inputs
    }

    /// Returns the number of state lines.
    pub fn states(&self) -> u32
        ensures { result ≡ count_of is_state self.now }
    {
        self.states
    }

    /// Returns the number of bad lines.
    pub fn bads(&self) -> u32
        ensures { result ≡ count_of is_bad self.now }
    {
        self.bads
    }

    /// Returns the width of the word of the line at index `line`.
    ///
    /// The caller ensures that the line is of a kind that has a word.
    pub fn width_of(&self, line: u32) -> u32
        requires { 1 ≤ width_at self.now line }
        ensures { result ≡ width_at self.now line }
    {
        let sort = self.items[line as usize].sort;
        sort_width(&self.items[sort as usize].op)
    }
}

impl<'a> IntoIterator for &'a Nodes {
    type Item = &'a Line;

    type IntoIter = Iter<'a, Line>;

    ghost use Rattle.btor_tree.specs.declared.lines.Line.{Line};

    ghost into_iter_gives = { λ l it. (iter_rest it ≡ l.now) × (length (iter_rest it) < 2 ^ 64) × EveryRun (iter_steps {A = Line}) (λ p. ItemsMapTo p (λ x. x.now) (iter_rest p.from)) };

    fn into_iter(self) -> Iter<'a, Line> {
        self.items.as_slice().iter()
    }
}

fn is_input(op: &LineOp) -> bool
    ensures { result ≡ is_input op.now }
{
    matches!(op, LineOp::Input)
}

fn is_state(op: &LineOp) -> bool
    ensures { result ≡ is_state op.now }
{
    matches!(op, LineOp::State)
}

fn is_bad(op: &LineOp) -> bool
    ensures { result ≡ is_bad op.now }
{
    matches!(op, LineOp::Bad)
}

// One where it holds, else zero.
fn one_where(holds: bool) -> u32
    ensures { result ≡ if holds then 1 else 0 }
{
    if holds { 1 } else { 0 }
}
