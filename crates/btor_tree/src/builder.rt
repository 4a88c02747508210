// A builder of a list of lines, which numbers them 1, 2, 3 and so on, and shares lines with the same content.
ghost use Rattle.std.specs.Prelude.{◌≡◌, ◌<◌, ◌≤◌, [], ◌^◌, length, Some, IfOk, OnErr};
ghost use Rattle.btor_tree.specs.Fits.{Suits, IsWellFormed, last_id, sort_at, sort_of, width_at};
ghost use Rattle.btor_tree.specs.LineKeys.{HasPlaces, IsShort};
ghost use Rattle.btor_tree.specs.Sharing.{HasNoDuplicates, place_of_equal, placed, pushed, standing, with_sort};
ghost use Rattle.btor_tree.specs.declared.lines.Line.{Line};
ghost use Rattle.btor_tree.specs.declared.lines.LineOp.TheVariants as op;

use crate::args::{Args, no_args};
use crate::line_key::is_shared;
use crate::line_places::{LinePlaces, enter, make_room, no_places};
use crate::lines::{GREATEST_ID, Line, LineOp, sort_width};
use crate::nodes::Nodes;
use std::alloc::Global;
use std::marker::Model;
use text_core::{Name, NoMemory};
use word_core::WIDEST;

// The number of widths.
const WIDTHS: usize = WIDEST as usize;

/// A builder of lines with the ids 1, 2, 3 and so on, which contracts see as the list of lines so far.
///
/// No two sorts, constants or operators in it have the same content. The content of a line is its operator with its
/// numbers, its sort and its arguments, whatever its symbol.
#[derive(Drop)]
pub struct Builder {
    lines: Vec<Line>,
    places: LinePlaces,
    sorts: [Option<u32>; WIDTHS],
}

impl Model for Builder {
    ghost use Rattle.std.specs.Prelude.{List};
    ghost use Rattle.btor_tree.specs.declared.lines.Line.{Line};
    ghost use Rattle.btor_tree.specs.Fits.{IsWellFormed};
    ghost use Rattle.btor_tree.specs.Held.{IsNumbered};
    ghost use Rattle.btor_tree.specs.LineKeys.{HasPlaces, KnowsSorts};
    ghost use Rattle.btor_tree.specs.Sharing.{HasNoDuplicates};

    ghost Value = { List Line };

    ghost view = { λ a. a.lines.items };

    ghost invariant = { λ a. IsWellFormed a.lines.items × IsNumbered a.lines.items × HasNoDuplicates a.lines.items × HasPlaces a.lines.items a.places × KnowsSorts a.lines.items a.sorts };
}

impl Builder {
    /// Returns the empty builder.
    ///
    /// It allocates nothing.
    pub fn new(alloc: Global) -> Builder
        ensures { result ≡ [] }
    {
        Builder {
            lines: Vec::new(alloc),
            places: no_places(alloc),
            sorts: [None; WIDTHS],
        }
    }

    /// Makes room for `count` more lines, so that the list doesn't grow when they are pushed.
    ///
    /// The lines stay unchanged.
    pub fn reserve(&mut self, count: usize) -> Result<(), NoMemory>
        ensures { self.new ≡ self.old }
    {
        self.lines.reserve(count)?;
        make_room(&mut self.places, count)
    }

    /// Returns the index of the sort, constant or operator line with this content, or else of a new line at the
    /// end.
    ///
    /// The id of a new line is one more than the number of lines so far. The lines stay unchanged when out of
    /// memory.
    pub fn push(
        &mut self,
        op: LineOp,
        sort: u32,
        args: Args,
        symbol: Option<Name>,
    ) -> Result<u32, NoMemory>
        requires room { length self.old < GREATEST_ID }
        requires fits { Suits self.old op sort args symbol }
        ensures line { IfOk result (λ p. (self.new, p) ≡ pushed self.old op sort args symbol) }
        ensures refused { OnErr result (self.new ≡ self.old) }
        ensures well_formed { IsWellFormed self.new }
        ensures numbered { last_id self.new ≡ length self.new }
        ensures distinct { HasNoDuplicates self.new }
    {
        let place = self.lines.len() as u32;
        let line = Line {
            id: place + 1,
            op,
            sort,
            args,
            symbol,
        };
        put_line(&mut self.lines, &mut self.places, line)
    }

    /// Returns the index of the sort line of this width, which is added where there is none.
    ///
    /// The lines stay unchanged when out of memory.
    pub fn sort(&mut self, width: u32) -> Result<u32, NoMemory>
        requires room { length self.old < GREATEST_ID }
        requires least { 1 ≤ width }
        requires most { width ≤ WIDEST }
        ensures line { IfOk result (λ p. (self.new, p) ≡ with_sort self.old width) }
        ensures width { IfOk result (λ p. sort_at self.new p ≡ width) }
        ensures refused { OnErr result (self.new ≡ self.old) }
        ensures well_formed { IsWellFormed self.new }
        ensures numbered { last_id self.new ≡ length self.new }
        ensures distinct { HasNoDuplicates self.new }
    {
        // A width that was asked for before needs no key.
        if let Some(place) = self.sorts[width as usize - 1] {
            return Ok(place);
        }
        let place = self.push(LineOp::Sort(width), 0, no_args(), None)?;
        self.remember(width, place);
        Ok(place)
    }

    // Caches the index of the sort line of a width.
    fn remember(&mut self, width: u32, place: u32)
        requires least { 1 ≤ width }
        requires most { width ≤ WIDEST }
        requires there { place_of_equal self.old (op.Sort width) 0 [] ≡ Some place }
        ensures { self.new ≡ self.old }
    {
        self.sorts[width as usize - 1] = Some(place);
    }

    /// Returns the index of the sort line of the line at index `line`.
    ///
    /// The caller ensures that the line has a word.
    pub fn sort_of(&self, line: u32) -> u32
        requires { 1 ≤ width_at self.now line }
        ensures place { result ≡ sort_of self.now line }
        ensures width { sort_at self.now result ≡ width_at self.now line }
    {
        self.lines[line as usize].sort
    }

    /// Returns the number of lines so far.
    pub fn len(&self) -> usize
        ensures value { result ≡ length self.now }
        ensures well_formed { IsWellFormed self.now }
    {
        self.lines.len()
    }

    /// Returns the width of the word of the line at index `line`.
    ///
    /// The caller ensures that the line is of a kind that has a word.
    pub fn width_of(&self, line: u32) -> u32
        requires { 1 ≤ width_at self.now line }
        ensures { result ≡ width_at self.now line }
    {
        let sort = self.lines[line as usize].sort;
        sort_width(&self.lines[sort as usize].op)
    }

    /// Returns the lines built so far.
    pub fn done(self) -> Nodes
        ensures lines { result ≡ self }
        ensures well_formed { IsWellFormed self }
        ensures distinct { HasNoDuplicates self }
    {
        Nodes::of_lines(self.lines)
    }
}

// Returns the index of the line with this content, where such lines are shared. Else returns None; a shared line's
// content is then entered with the index that the line gets.
fn enter_line(places: &mut LinePlaces, lines: &[Line], line: &Line) -> Result<Option<u32>, NoMemory>
    requires few { length lines.now < 2 ^ 32 }
    requires short { IsShort line.now.args }
    requires has { HasPlaces lines.now places.old }
    ensures found { IfOk result (λ found. found ≡ standing lines.now line.now.op line.now.sort line.now.args) }
    ensures entered { IfOk result (λ found. HasPlaces (placed found lines.now line.now).0 places.new) }
    ensures refused { OnErr result (HasPlaces lines.now places.new) }
{
    if is_shared(&line.op) {
        enter(places, lines, line)
    } else {
        Ok(None)
    }
}

// Returns the index of the line with this content, or else of this line, appended. The lines stay unchanged when
// out of memory.
fn put_line(lines: &mut Vec<Line>, places: &mut LinePlaces, line: Line) -> Result<u32, NoMemory>
    requires few { length lines.old.items < 2 ^ 32 }
    requires short { IsShort line.args }
    requires has { HasPlaces lines.old.items places.old }
    ensures put { IfOk result (λ p. (lines.new.items, p) ≡ placed (standing lines.old.items line.op line.sort line.args) lines.old.items line) }
    ensures refused { OnErr result (lines.new.items ≡ lines.old.items) }
    ensures has { HasPlaces lines.new.items places.new }
{
    // The list grows first, so that it takes the line without growing once the line's index is entered.
    if lines.len() == lines.capacity() {
        lines.reserve(1)?;
    }
    let place = lines.len() as u32;
    if let Some(there) = enter_line(places, lines, &line)? {
        return Ok(there);
    }
    lines.push_reserved(line);
    Ok(place)
}
