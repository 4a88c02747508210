// The current frame, one row of words.
ghost use Rattle.std.specs.Prelude.{◌≡◌, ◌<◌, ◌↔◌, true, false, List, length, IfOk, IsTrue};
ghost use Rattle.word_core.specs.Words.{BitVector};
ghost use Rattle.btor_tree.specs.Fits.{count_of, is_bad};
ghost use Rattle.btor_tree.specs.Frame.{word_at, operand, true_word, ConstraintsHold, IsBad};
ghost use Rattle.btor_frames.specs.Steps.{IsStep, SuppliedFit};
ghost use Rattle.btor_frames.specs.Held.{Held, FramesFit};
ghost use Rattle.btor_frames.specs.Sources.{HoldsNothing};

use crate::fill::operand;
use crate::handed::{Supplied, word_of};
use crate::next::fill;
use crate::tables::Tables;
use crate::words::Words;
use btor_tree::{Arg, Nodes};
use std::alloc::Global;
use std::marker::Model;
use std::mem;
use text_core::NoMemory;
use word_core::Word;

/// The words of the current frame of a list of lines, with a buffer for the next frame.
///
/// The list stays with the caller, who passes the same one to each call.
#[derive(Drop)]
pub struct Frames {
    row: Words,
    spare: Words,
    tables: Tables,
    begun: bool,
}

impl Model for Frames {
    ghost use Rattle.std.specs.Prelude.{◌≡◌, length};
    ghost use Rattle.btor_frames.specs.Held.{Held};
    ghost use Rattle.btor_frames.specs.Sources.{IsBlank};

    ghost Value = { Held };

    ghost view = { λ a. record { begun = a.begun; row = a.row; found = a.tables } };

    ghost invariant = { λ a. (length a.spare ≡ length a.row) × IsBlank a.tables.sources a.row × IsBlank a.tables.sources a.spare };
}

impl Frames {
    /// Returns the state before the first frame, with room for the frames of these lines.
    pub fn new(alloc: Global, nodes: &Nodes) -> Result<Frames, NoMemory>
        ensures fits { IfOk result (λ f. FramesFit nodes.now f) }
        ensures none { IfOk result (λ f. f.begun ≡ false) }
    {
        let row = zeros(alloc, nodes.len())?;
        let spare = zeros(alloc, nodes.len())?;
        let tables = Tables::of(alloc, nodes)?;
        Ok(Frames {
            row,
            spare,
            tables,
            begun: false,
        })
    }

    /// Moves to the next frame, or to frame 0 where there is none yet.
    ///
    /// `inputs` has a word for each input line and `free` one for each state line, in order and of their widths. In
    /// frame 0, the words of `free` are read for states without an init, and later for states without a next. It
    /// allocates nothing.
    pub fn step(&mut self, nodes: &Nodes, inputs: &Words, free: &Words)
        requires fits { FramesFit nodes.now self.old }
        requires handed { SuppliedFit nodes.now inputs.now free.now }
        ensures fits { FramesFit nodes.now self.new }
        ensures begun { self.new.begun ≡ true }
        ensures next { IsStep nodes.now self.old.begun self.old.row inputs.now free.now self.new.row }
        ensures only { (row : List BitVector) → IsStep nodes.now self.old.begun self.old.row inputs.now free.now row
            → row ≡ self.new.row }
    {
        nodes.are_well_formed();
        fill(
            nodes,
            &self.tables,
            self.begun,
            &self.row,
            &Supplied { inputs, free },
            &mut self.spare,
        );
        mem::swap(&mut self.row, &mut self.spare);
        self.begun = true;
    }

    /// Returns whether every constraint is true in the current frame.
    ///
    /// The caller ensures that there is a frame.
    pub fn constraints_hold(&self, nodes: &Nodes) -> bool
        requires fits { FramesFit nodes.now self.now }
        requires begun { self.now.begun ≡ true }
        ensures { IsTrue result ↔ ConstraintsHold nodes.now self.now.row }
    {
        nodes.are_well_formed();
        for constraint in self.tables.constraints() {
            if !is_true(&self.row, constraint) {
                return false;
            }
        }
        true
    }

    /// Returns whether bad line `j`, counted from 0, is true in the current frame.
    ///
    /// The caller ensures that there is a frame, and that `j` is less than the number of bad lines.
    pub fn bad(&self, nodes: &Nodes, j: u32) -> bool
        requires fits { FramesFit nodes.now self.now }
        requires begun { self.now.begun ≡ true }
        requires there { j < count_of is_bad nodes.now }
        ensures { IsTrue result ↔ IsBad nodes.now self.now.row j }
    {
        nodes.are_well_formed();
        is_true(&self.row, self.tables.bads().at(j as usize))
    }

    /// Returns the word of the line at index `line` in the current frame.
    ///
    /// The caller ensures that there is a frame, and that the line has a word.
    pub fn value(&self, line: u32) -> Word
        requires { line < length self.now.row }
        ensures { result ≡ word_at self.now.row line }
    {
        self.row.at(line as usize)
    }
}

// Whether the argument's word is one bit with the value 1.
fn is_true(row: &Words, a: &Arg) -> bool
    requires { a.now.line < length row.now }
    ensures { IsTrue result ↔ (operand row.now a.now ≡ true_word) }
{
    let word = operand(row, a);
    word.width() == 1 && word.bits() == 1
}

// A list of n zeros of one bit.
fn zeros(alloc: Global, n: usize) -> Result<Words, NoMemory>
    ensures { IfOk result (HoldsNothing n) }
{
    let mut words = Words::new(alloc);
    for _i in 0..n {
        words.push(word_of(1, 0))?;
    }
    Ok(words)
}
