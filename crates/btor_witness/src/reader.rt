// The reader of a witness, line by line.
ghost use Rattle.std.specs.Prelude.{◌≡◌, ℕ, ◌<◌, [], IfOk, OnOk};
ghost use Rattle.btor_tree.specs.Fits as fits;
ghost use Rattle.btor_witness.specs.Bytes.{line_parts};
ghost use Rattle.btor_witness.specs.Sizes.{sizes_of, widths_of, is_within};
ghost use Rattle.btor_witness.specs.declared.shape.Shape.TheVariants as line;
ghost use Rattle.btor_witness.specs.Reading.{begin, frames_of, new_frame, step};
ghost use Rattle.btor_witness.specs.Texts.{next_of};
ghost use Rattle.btor_witness.specs.Answer.{ReaderState, Steps, Takes};

use crate::bytes::without_return;
use crate::ends::LineEnd;
use crate::part::Part;
use crate::phase::Phase;
use crate::shape::{Shape, is_passed, shape_of};
use crate::witness::{Frame, FrameList, Witness};
use btor_tree::{LineOp, Nodes};
use std::alloc::Global;
use std::marker::Model;
use text_core::kinds::witness;
use text_core::{List, NoMemory};
use word_core::Word;

/// The most frames of a witness.
pub const MOST_FRAMES: u64 = 100000;
/// The most that the number of frames times the number of states and inputs may be.
pub const MOST_WORDS: u64 = 4000000;

/// The progress of the reading of a witness.
#[derive(Drop)]
pub struct Reader {
    bads: u32,
    phase: Phase,
    bad: u32,
    frames: FrameList,
    states: Part,
    inputs: Part,
}

impl Model for Reader {
    ghost use Rattle.btor_witness.specs.Answer.{ReaderState};

    ghost Value = { ReaderState };

    ghost view = { λ r. record { sizes = record { bads = r.bads; states = r.states.widths; inputs = r.inputs.widths }; reading = record { phase = r.phase; bad = r.bad; frames = r.frames; states = r.states.stated; inputs = r.inputs.stated } } };
}

impl Reader {
    /// Returns a reader before the first line.
    pub fn new(alloc: Global, nodes: &Nodes) -> Result<Reader, NoMemory>
        ensures { IfOk result (λ r. r ≡ record { sizes = sizes_of nodes.now; reading = begin }) }
    {
        let states = state_widths(alloc, nodes)?;
        let inputs = input_widths(alloc, nodes)?;
        Ok(Reader {
            bads: nodes.bads(),
            phase: Phase::Start,
            bad: 0,
            frames: FrameList::new(alloc),
            states: Part::new(alloc, states)?,
            inputs: Part::new(alloc, inputs)?,
        })
    }

    /// Reads one line, and returns whether it ends the witness.
    pub fn take_line(&mut self, alloc: Global, raw: &[u8]) -> Result<bool, LineEnd>
        ensures sizes { self.new.sizes ≡ self.old.sizes }
        ensures next { Takes (next_of self.old.sizes self.old.reading (line_parts raw.now)) self.old.reading self.new.reading result }
    {
        let line = without_return(raw);
        // A line that has a shape is not skipped, and nearly all lines have one.
        match shape_of(line) {
            Some(shape) => self.step(alloc, shape),
            None => {
                if is_passed(line) {
                    Ok(false)
                } else {
                    Err(LineEnd::Bad(witness::LINE))
                }
            }
        }
    }

    /// Returns the witness that was read.
    pub fn witness(self) -> Witness
        ensures { result ≡ record { bad = self.reading.bad; frames = self.reading.frames } }
    {
        Witness {
            bad: self.bad,
            frames: self.frames,
        }
    }

    fn step(&mut self, alloc: Global, shape: Shape) -> Result<bool, LineEnd>
        ensures sizes { self.new.sizes ≡ self.old.sizes }
        ensures next { Steps (step self.old.sizes self.old.reading shape) self.new.reading result }
    {
        match shape {
            Shape::Sat => self.sat_line(),
            Shape::Property(number) => self.property_line(number),
            Shape::Justice(_) => self.justice_line(),
            Shape::States(number) => self.states_line(alloc, number),
            Shape::Inputs(number) => self.inputs_line(alloc, number),
            Shape::End => self.end_line(alloc),
            Shape::Assignment(index, word) => self.assignment_line(index, word),
        }
    }

    fn sat_line(&mut self) -> Result<bool, LineEnd>
        ensures sizes { self.new.sizes ≡ self.old.sizes }
        ensures next { Steps (step self.old.sizes self.old.reading line.Sat) self.new.reading result }
    {
        match self.phase {
            Phase::Start => {
                self.phase = Phase::Property;
                Ok(false)
            }
            _ => Err(LineEnd::Bad(witness::LINE)),
        }
    }

    fn property_line(&mut self, number: u32) -> Result<bool, LineEnd>
        ensures sizes { self.new.sizes ≡ self.old.sizes }
        ensures next { Steps (step self.old.sizes self.old.reading (line.Property number)) self.new.reading result }
    {
        match self.phase {
            Phase::Property => {
                if number >= self.bads {
                    return Err(LineEnd::Bad(witness::NO_BAD));
                }
                self.bad = number;
                self.phase = Phase::Heading;
                Ok(false)
            }
            _ => Err(LineEnd::Bad(witness::LINE)),
        }
    }

    fn justice_line(&self) -> Result<bool, LineEnd>
        ensures { (number : ℕ) → Steps (step self.now.sizes self.now.reading (line.Justice number)) self.now.reading result }
    {
        match self.phase {
            Phase::Property => Err(LineEnd::Bad(witness::JUSTICE)),
            _ => Err(LineEnd::Bad(witness::LINE)),
        }
    }

    fn states_line(&mut self, alloc: Global, number: u32) -> Result<bool, LineEnd>
        ensures sizes { self.new.sizes ≡ self.old.sizes }
        ensures next { Steps (step self.old.sizes self.old.reading (line.States number)) self.new.reading result }
    {
        match self.phase {
            Phase::Start => Err(LineEnd::Bad(witness::LINE)),
            Phase::Property => Err(LineEnd::Bad(witness::LINE)),
            _ => self.new_frame(alloc, Phase::States, number),
        }
    }

    fn inputs_line(&mut self, alloc: Global, number: u32) -> Result<bool, LineEnd>
        ensures sizes { self.new.sizes ≡ self.old.sizes }
        ensures next { Steps (step self.old.sizes self.old.reading (line.Inputs number)) self.new.reading result }
    {
        match self.phase {
            Phase::Start => Err(LineEnd::Bad(witness::LINE)),
            Phase::Property => Err(LineEnd::Bad(witness::LINE)),
            Phase::States => {
                if number as usize == self.frames.len() {
                    self.phase = Phase::Inputs;
                    return Ok(false);
                }
                self.new_frame(alloc, Phase::Inputs, number)
            }
            _ => self.new_frame(alloc, Phase::Inputs, number),
        }
    }

    // Begins a frame with this part.
    fn new_frame(&mut self, alloc: Global, part: Phase, number: u32) -> Result<bool, LineEnd>
        ensures sizes { self.new.sizes ≡ self.old.sizes }
        ensures next { Steps (new_frame self.old.sizes part number self.old.reading) self.new.reading result }
    {
        self.close(alloc)?;
        if number as usize != self.frames.len() {
            return Err(LineEnd::Bad(witness::FRAME_ORDER));
        }
        if !self.is_within(u64::from(number) + 1) {
            return Err(LineEnd::Bad(witness::TOO_LONG));
        }
        self.phase = part;
        Ok(false)
    }

    // Appends the last frame to the frames, where there is one.
    fn close(&mut self, alloc: Global) -> Result<(), NoMemory>
        ensures sizes { self.new.sizes ≡ self.old.sizes }
        ensures closed { OnOk result (self.new.reading ≡ record { phase = self.old.reading.phase; bad = self.old.reading.bad; frames = frames_of self.old.reading; states = []; inputs = [] }) }
    {
        let states = self.states.take(alloc)?;
        let inputs = self.inputs.take(alloc)?;
        match self.phase {
            Phase::States => self.frames.push(Frame { states, inputs }),
            Phase::Inputs => self.frames.push(Frame { states, inputs }),
            _ => Ok(()),
        }
    }

    fn assignment_line(&mut self, index: u32, word: Option<Word>) -> Result<bool, LineEnd>
        ensures sizes { self.new.sizes ≡ self.old.sizes }
        ensures next { Steps (step self.old.sizes self.old.reading (line.Assignment index word)) self.new.reading result }
    {
        match self.phase {
            Phase::States => {
                self.states.state(index, word)?;
                Ok(false)
            }
            Phase::Inputs => {
                self.inputs.state(index, word)?;
                Ok(false)
            }
            _ => Err(LineEnd::Bad(witness::LINE)),
        }
    }

    fn end_line(&mut self, alloc: Global) -> Result<bool, LineEnd>
        ensures sizes { self.new.sizes ≡ self.old.sizes }
        ensures next { Steps (step self.old.sizes self.old.reading line.End) self.new.reading result }
    {
        match self.phase {
            Phase::States => {
                self.close(alloc)?;
                Ok(true)
            }
            Phase::Inputs => {
                self.close(alloc)?;
                Ok(true)
            }
            _ => Err(LineEnd::Bad(witness::LINE)),
        }
    }

    fn is_within(&self, frames: u64) -> bool
        ensures { result ≡ is_within self.now.sizes frames }
    {
        let lines = self.states.len() as u128 + self.inputs.len() as u128;
        frames <= MOST_FRAMES && u128::from(frames) * lines <= u128::from(MOST_WORDS)
    }
}

pub fn is_state(op: &LineOp) -> bool
    ensures { result ≡ fits.is_state op.now }
{
    matches!(op, LineOp::State)
}

fn is_input(op: &LineOp) -> bool
    ensures { result ≡ fits.is_input op.now }
{
    matches!(op, LineOp::Input)
}

/// Returns the widths of the states, in order.
#[tactic(auto, using(btor_tree::proofs::Grows::lines_short))]
pub fn state_widths(alloc: Global, nodes: &Nodes) -> Result<List<u32>, NoMemory>
    ensures { IfOk result (λ widths. widths ≡ widths_of fits.is_state nodes.now) }
{
    let mut widths = List::new(alloc);
    for i in 0..nodes.len() {
        if is_state(&nodes.at(i).op) {
            widths.push(nodes.width_of(i as u32))?;
        }
    }
    Ok(widths)
}

/// Returns the widths of the inputs, in order.
#[tactic(auto, using(btor_tree::proofs::Grows::lines_short))]
pub fn input_widths(alloc: Global, nodes: &Nodes) -> Result<List<u32>, NoMemory>
    ensures { IfOk result (λ widths. widths ≡ widths_of fits.is_input nodes.now) }
{
    let mut widths = List::new(alloc);
    for i in 0..nodes.len() {
        if is_input(&nodes.at(i).op) {
            widths.push(nodes.width_of(i as u32))?;
        }
    }
    Ok(widths)
}
