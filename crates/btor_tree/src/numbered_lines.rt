// A list of lines, which numbers them 1, 2, 3 and so on, with one sort line for each width.
ghost use Rattle.std.specs.Prelude.{◌≡◌, ◌+◌, ◌<◌, ◌≤◌, [], ◌∷◌, ◌++◌, length, IfOk, OnErr};
ghost use Rattle.btor_tree.specs.Fits.{Suits, IsWellFormed, SortIsAt, sort_at, sort_of, sort_place, width_at};
ghost use Rattle.btor_tree.specs.Held.{noted};

use crate::args::{Args, no_args};
use crate::lines::{GREATEST_ID, Line, LineOp, sort_width};
use crate::nodes::Nodes;
use std::alloc::Global;
use std::marker::Model;
use text_core::{Name, NoMemory};
use word_core::WIDEST;

// The number of widths.
const WIDTHS: usize = WIDEST as usize;

/// A list of lines with the ids 1, 2, 3 and so on, which contracts see as the list of lines so far.
#[derive(Drop)]
pub struct NumberedLines {
    nodes: Nodes,
    sorts: [Option<u32>; WIDTHS],
}

impl Model for NumberedLines {
    ghost use Rattle.std.specs.Prelude.{List};
    ghost use Rattle.btor_tree.specs.declared.lines.Line.{Line};
    ghost use Rattle.btor_tree.specs.Fits.{IsWellFormed};
    ghost use Rattle.btor_tree.specs.Held.{IsNumbered, HasSorts};

    ghost Value = { List Line };

    ghost view = { λ a. a.nodes };

    ghost invariant = { λ a. IsWellFormed a.nodes × IsNumbered a.nodes × HasSorts a.nodes a.sorts };
}

impl NumberedLines {
    /// Returns the empty list.
    ///
    /// It allocates nothing.
    pub fn new(alloc: Global) -> NumberedLines
        ensures { result ≡ [] }
    {
        NumberedLines {
            nodes: Nodes::new(alloc),
            sorts: [None; WIDTHS],
        }
    }

    /// Appends a line and returns its index.
    ///
    /// The id of the line is one more than the number of lines so far. The lines stay unchanged when out of memory.
    pub fn push(
        &mut self,
        op: LineOp,
        sort: u32,
        args: Args,
        symbol: Option<Name>,
    ) -> Result<u32, NoMemory>
        requires room { length self.old < GREATEST_ID }
        requires fits { Suits self.old op sort args symbol }
        ensures line { IfOk result (λ p. (p ≡ length self.old) × (self.new ≡ self.old ++ record { id = length self.old + 1; op = op; sort = sort; args = args; symbol = symbol } ∷ [])) }
        ensures refused { OnErr result (self.new ≡ self.old) }
        ensures well_formed { IsWellFormed self.new }
    {
        let place = self.nodes.len() as u32;
        let width = sort_width(&op);
        self.nodes.add(Line {
            id: place + 1,
            op,
            sort,
            args,
            symbol,
        })?;
        note_sort(&mut self.sorts, width, place);
        Ok(place)
    }

    /// Returns the index of the first sort line of this width, which is added where there is none.
    ///
    /// The lines stay unchanged when out of memory.
    pub fn sort(&mut self, width: u32) -> Result<u32, NoMemory>
        requires room { length self.old < GREATEST_ID }
        requires least { 1 ≤ width }
        requires most { width ≤ WIDEST }
        ensures place { IfOk result (λ p. SortIsAt (sort_place self.old width) self.old width p self.new) }
        ensures width { IfOk result (λ p. sort_at self.new p ≡ width) }
        ensures refused { OnErr result (self.new ≡ self.old) }
        ensures well_formed { IsWellFormed self.new }
    {
        match self.sorts[width as usize - 1] {
            Some(place) => Ok(place),
            None => self.push(LineOp::Sort(width), 0, no_args(), None),
        }
    }

    /// Returns the index of the sort line of the line at index `line`.
    ///
    /// The caller ensures that the line has a word.
    pub fn sort_of(&self, line: u32) -> u32
        requires { 1 ≤ width_at self.now line }
        ensures place { result ≡ sort_of self.now line }
        ensures width { sort_at self.now result ≡ width_at self.now line }
    {
        self.nodes.at(line as usize).sort
    }

    /// Returns the number of lines so far.
    pub fn len(&self) -> usize
        ensures value { result ≡ length self.now }
        ensures well_formed { IsWellFormed self.now }
    {
        self.nodes.len()
    }

    /// Returns the width of the word of the line at index `line`.
    ///
    /// The caller ensures that the line is of a kind that has a word.
    pub fn width_of(&self, line: u32) -> u32
        requires { 1 ≤ width_at self.now line }
        ensures { result ≡ width_at self.now line }
    {
        self.nodes.width_of(line)
    }

    /// Returns the lines built so far.
    pub fn done(self) -> Nodes
        ensures lines { result ≡ self }
        ensures well_formed { IsWellFormed self }
    {
        self.nodes
    }
}

// Enters the index of a sort line of this width, where the table has none. A width of 0 means that the line is not
// a sort line.
fn note_sort(sorts: &mut [Option<u32>; WIDTHS], width: u32, place: u32)
    requires { width ≤ WIDEST }
    ensures { sorts.new ≡ noted sorts.old width place }
{
    if width > 0 {
        let i = width as usize - 1;
        sorts[i] = sorts[i].or(Some(place));
    }
}
