// The lines read so far.
ghost use Rattle.std.specs.Prelude.{◌≡◌, [], ◌∷◌, ◌++◌, not, is_none, IfOk};
ghost use Rattle.btor_tree.specs.Fits.{Fits, IsWellFormed, is_init, is_next, last_id, state_value};
ghost use Rattle.btor_text.specs.Marks.{mark_at, noted};

use btor_tree::{Args, Line, LineOp, Nodes};
use std::alloc::Global;
use std::marker::Model;
use text_core::NoMemory;

/// Whether a line is a state with an init, and whether it is a state with a next.
#[derive(Clone, Copy, PartialEq, Eq)]
pub struct Mark {
    pub init: bool,
    pub next: bool,
}

/// The lines read so far, with the last id and a mark for each line.
#[derive(Drop)]
pub struct Progress {
    nodes: Nodes,
    last: u32,
    marks: Vec<Mark>,
}

impl Model for Progress {
    ghost use Rattle.std.specs.Prelude.{List, ◌≡◌};
    ghost use Rattle.btor_tree.specs.declared.lines.Line.{Line};
    ghost use Rattle.btor_tree.specs.Fits.{IsWellFormed, last_id};
    ghost use Rattle.btor_text.specs.Marks.{IsMarked};

    ghost Value = { List Line };

    ghost view = { λ a. a.nodes };

    ghost invariant = { λ a. IsWellFormed a.nodes × (a.last ≡ last_id a.nodes) × IsMarked a.nodes a.marks.items };
}

impl Progress {
    /// Returns the progress before the first line.
    pub fn new(alloc: Global) -> Progress
        ensures { result ≡ [] }
    {
        Progress {
            nodes: Nodes::new(alloc),
            last: 0,
            marks: Vec::new(alloc),
        }
    }

    /// Appends a line.
    pub fn add(self, line: Line) -> Result<Progress, NoMemory>
        requires { Fits self line }
        ensures { IfOk result (λ p. p ≡ self ++ line ∷ []) }
    {
        let Progress {
            mut nodes,
            last: _,
            mut marks,
        } = self;
        let mark = Mark {
            init: false,
            next: false,
        };
        marks.push(mark)?;
        note(&mut marks, &line.op, &line.args);
        let last = line.id;
        nodes.add(line)?;
        Ok(Progress { nodes, last, marks })
    }

    /// Returns the lines read so far.
    pub fn nodes(&self) -> &Nodes
        ensures lines { result.now ≡ self.now }
        ensures well_formed { IsWellFormed self.now }
    {
        &self.nodes
    }

    /// Returns the last id, or 0 where there is no line.
    pub fn last_id(&self) -> u32
        ensures { result ≡ last_id self.now }
    {
        self.last
    }

    /// Returns whether a line gives the state its first value.
    pub fn has_init(&self, state: u32) -> bool
        ensures { result ≡ not (is_none (state_value is_init self.now state)) }
    {
        mark_at(&self.marks, state).init
    }

    /// Returns whether a line gives the state its next value.
    pub fn has_next(&self, state: u32) -> bool
        ensures { result ≡ not (is_none (state_value is_next self.now state)) }
    {
        mark_at(&self.marks, state).next
    }

    /// Returns all lines.
    pub fn done(self) -> Nodes
        ensures { result ≡ self }
    {
        self.nodes
    }
}

fn mark_at(marks: &[Mark], line: u32) -> Mark
    ensures { result ≡ mark_at marks.now line }
{
    match marks.get(line as usize) {
        Some(mark) => *mark,
        None => Mark {
            init: false,
            next: false,
        },
    }
}

// Marks the state that an init or next line gives a value.
fn note(marks: &mut Vec<Mark>, op: &LineOp, args: &Args)
    ensures { marks.new.items ≡ noted op.now args.now marks.old.items }
{
    if args.len() == 0 {
        return;
    }
    let state = args.at(0).line as usize;
    if state >= marks.len() {
        return;
    }
    match op {
        LineOp::Init => marks[state].init = true,
        LineOp::Next => marks[state].next = true,
        _ => {}
    }
}
