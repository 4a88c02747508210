// The state of a judge between frames.
ghost use Rattle.std.specs.Prelude.{◌≡◌, ◌<◌, ◌≤◌, ◌↔◌, [], map, length, false, true, IfOk, IsTrue};
ghost use Rattle.std.specs.List.{AllByRecursion};
ghost use Rattle.word_core.specs.Words.{IsWord};
ghost use Rattle.word_core.specs.declared.word.TheConstants.{WIDEST};
ghost use Rattle.btor_tree.specs.Fits as fits;
ghost use Rattle.btor_tree.specs.Frame.{ConstraintsHold, IsBad};
ghost use Rattle.btor_frames.specs.Held.{FramesFit};
ghost use Rattle.btor_frames.specs.Judged.{IsStatedFrame};
ghost use Rattle.btor_witness.specs.Sizes.{widths_of};
ghost use Rattle.btor_witness.specs.Printing.{IsBelow, IsPart};
ghost use Rattle.btor_witness.specs.Judging.{statement_of};
ghost use Rattle.btor_witness.specs.Room as spec;
ghost use Rattle.btor_witness.specs.Room.{ArePut, HoldsStated, AreWidths, IsWordThere, RoomFits, places_of, zeroed};

use crate::reader::{input_widths, is_state, state_widths};
use crate::witness::{Frame, Stateds};
use btor_frames::{Frames, Words};
use btor_tree::Nodes;
use std::alloc::Global;
use std::mem::drop;
use text_core::{Clause, List, NoMemory};
use word_core::Word;

/// The state of a judge: the current frame, buffers for the words of inputs and states, and the indices of the
/// state lines.
///
/// The buffers are all zero between two steps.
#[derive(Drop)]
pub struct Room {
    frames: Frames,
    inputs: Words,
    free: Words,
    places: List<u32>,
}

// The buffer for the words of inputs.
fn input_buffer(alloc: Global, nodes: &Nodes) -> Result<Words, NoMemory>
    ensures { IfOk result (λ words. HoldsStated (widths_of fits.is_input nodes.now) [] words) }
{
    nodes.are_well_formed();
    let widths = input_widths(alloc, nodes)?;
    let words = zeros(alloc, &widths);
    drop(widths);
    words
}

// The buffer for the words of states.
fn state_buffer(alloc: Global, nodes: &Nodes) -> Result<Words, NoMemory>
    ensures { IfOk result (λ words. HoldsStated (widths_of fits.is_state nodes.now) [] words) }
{
    nodes.are_well_formed();
    let widths = state_widths(alloc, nodes)?;
    let words = zeros(alloc, &widths);
    drop(widths);
    words
}

// Both buffers.
fn buffers(alloc: Global, nodes: &Nodes) -> Result<(Words, Words), NoMemory>
    ensures inputs { IfOk result (λ p. HoldsStated (widths_of fits.is_input nodes.now) [] p.0) }
    ensures free { IfOk result (λ p. HoldsStated (widths_of fits.is_state nodes.now) [] p.1) }
{
    let inputs = input_buffer(alloc, nodes)?;
    let free = state_buffer(alloc, nodes)?;
    Ok((inputs, free))
}

// The frames before the first, and the indices of the states.
fn first_frames(alloc: Global, nodes: &Nodes) -> Result<(Frames, List<u32>), NoMemory>
    ensures fits { IfOk result (λ both. FramesFit nodes.now both.0) }
    ensures none { IfOk result (λ both. both.0.begun ≡ false) }
    ensures places { IfOk result (λ both. both.1 ≡ places_of fits.is_state nodes.now) }
{
    let frames = Frames::new(alloc, nodes)?;
    let places = state_places(alloc, nodes)?;
    Ok((frames, places))
}

impl Room {
    /// Returns the state before the first frame.
    pub fn new(alloc: Global, nodes: &Nodes) -> Result<Room, NoMemory>
        ensures fits { IfOk result (λ room. RoomFits nodes.now room) }
        ensures none { IfOk result (λ room. room.frames.begun ≡ false) }
    {
        let (inputs, free) = buffers(alloc, nodes)?;
        let (frames, places) = first_frames(alloc, nodes)?;
        Ok(Room {
            frames,
            inputs,
            free,
            places,
        })
    }

    /// Moves to the next frame, with the words that the frame of the witness states.
    ///
    /// It allocates nothing.
    pub fn step(&mut self, nodes: &Nodes, frame: &Frame)
        requires fits { RoomFits nodes.now self.old }
        requires states { IsPart (widths_of fits.is_state nodes.now) frame.now.states }
        requires inputs { IsPart (widths_of fits.is_input nodes.now) frame.now.inputs }
        ensures fits { RoomFits nodes.now self.new }
        ensures begun { self.new.frames.begun ≡ true }
        ensures next { IsStatedFrame nodes.now self.old.frames.begun self.old.frames.row (statement_of frame.now) self.new.frames.row }
    {
        nodes.are_well_formed();
        put_stated(&mut self.inputs, &frame.inputs);
        put_stated(&mut self.free, &frame.states);
        self.frames.step(nodes, &self.inputs, &self.free);
        put_zeros(&mut self.inputs, &frame.inputs);
        put_zeros(&mut self.free, &frame.states);
    }

    /// Returns whether the stated words are those of the current frame.
    ///
    /// A state that is not determined has its stated word, so only the words of determined states can differ.
    pub fn agrees(&self, nodes: &Nodes, stated: &Stateds) -> bool
        requires fits { RoomFits nodes.now self.now }
        requires below { AllByRecursion (IsBelow (fits.count_of fits.is_state nodes.now)) stated.now }
        ensures { IsTrue result ↔ AllByRecursion (IsWordThere (places_of fits.is_state nodes.now) self.now.frames.row) stated.now }
    {
        for statement in stated.as_slice() {
            let place = *self.places.at(statement.index as usize);
            if !is_same(self.frames.value(place), statement.value) {
                return false;
            }
        }
        true
    }

    /// Returns whether every constraint is true in the current frame.
    pub fn constraints_hold(&self, nodes: &Nodes) -> bool
        requires fits { RoomFits nodes.now self.now }
        requires begun { self.now.frames.begun ≡ true }
        ensures { IsTrue result ↔ ConstraintsHold nodes.now self.now.frames.row }
    {
        self.frames.constraints_hold(nodes)
    }

    /// Returns whether bad line `j` is true in the current frame.
    pub fn bad(&self, nodes: &Nodes, j: u32) -> bool
        requires fits { RoomFits nodes.now self.now }
        requires begun { self.now.frames.begun ≡ true }
        requires there { j < fits.count_of fits.is_bad nodes.now }
        ensures { IsTrue result ↔ IsBad nodes.now self.now.frames.row j }
    {
        self.frames.bad(nodes, j)
    }
}

/// Returns whether two words are the same.
pub fn is_same(x: Word, y: Word) -> bool
    ensures { IsTrue result ↔ (x ≡ y) }
{
    x.width() == y.width() && x.bits() == y.bits()
}

/// Returns the word 0 of a width.
pub fn zero_of(width: u32) -> Word
    requires some { 1 ≤ width }
    requires small { width ≤ WIDEST }
    ensures { result ≡ spec.zero_of width }
{
    Word::of(width, 0).unwrap()
}

/// Returns the word 0 for each width.
pub fn zeros(alloc: Global, widths: &List<u32>) -> Result<Words, NoMemory>
    requires { AreWidths widths.now }
    ensures { IfOk result (λ words. HoldsStated widths.now [] words) }
{
    let mut words = Words::new(alloc);
    for width in widths {
        words.push(zero_of(*width))?;
    }
    Ok(words)
}

/// Returns the indices of the state lines, in order.
#[tactic(auto, using(btor_tree::proofs::Grows::lines_short))]
pub fn state_places(alloc: Global, nodes: &Nodes) -> Result<List<u32>, NoMemory>
    ensures { IfOk result (λ places. places ≡ places_of fits.is_state nodes.now) }
{
    let mut places = List::new(alloc);
    for i in 0..nodes.len() {
        if is_state(&nodes.at(i).op) {
            places.push(i as u32)?;
        }
    }
    Ok(places)
}

// Writes the stated words at their indices.
fn put_stated(words: &mut Words, stated: &Stateds)
    requires { AllByRecursion (IsBelow (length words.old)) stated.now }
    ensures { ArePut stated.now words.old words.new }
{
    for statement in stated.as_slice() {
        words.set(statement.index as usize, statement.value);
    }
}

// Writes zeros at the indices of the stated words.
fn put_zeros(words: &mut Words, stated: &Stateds)
    requires below { AllByRecursion (IsBelow (length words.old)) stated.now }
    requires words { AllByRecursion (λ s. IsWord s.value) stated.now }
    ensures { ArePut (map zeroed stated.now) words.old words.new }
{
    for statement in stated.as_slice() {
        words.set(statement.index as usize, zero_of(statement.value.width()));
    }
}
