// The progress of the reading of a witness, and the verdict so far.
ghost use Rattle.std.specs.Prelude.{◌≡◌, ◌⊎◌, ◌+◌, ◌<◌, ◌^◌, ◌↔◌, ℕ, true, false, List, [], length, IfOk, IfSome, IfNone, IsTrue};
ghost use Rattle.std.specs.List.{AllByRecursion};
ghost use Rattle.btor_tree.specs.declared.lines.Line.{Line as TreeLine};
ghost use Rattle.btor_tree.specs.Fits.{is_state, is_input};
ghost use Rattle.btor_frames.specs.Held.{FramesFit};
ghost use Rattle.btor_witness.specs.declared.phase.Phase.TheVariants as phase;
ghost use Rattle.btor_witness.specs.declared.witness.Frame.{Frame};
ghost use Rattle.btor_witness.specs.Bytes.{line_parts};
ghost use Rattle.btor_witness.specs.Sizes.{sizes_of, is_within, widths_of};
ghost use Rattle.btor_witness.specs.declared.shape.Shape.TheVariants as line;
ghost use Rattle.btor_witness.specs.Reading.{Reading, begin, frames_of, new_frame, step};
ghost use Rattle.btor_witness.specs.Texts.{next_of};
ghost use Rattle.btor_witness.specs.Room.{IsWordThere, places_of};
ghost use Rattle.btor_judge.specs.Kept.{Holds};
ghost use Rattle.btor_judge.specs.Scanning.{line_of};
ghost use Rattle.btor_judge.specs.Standing.{ReaderFits, IsAt, RepresentsIn, IsSomewhere, HasFrame, AgreesAt, JudgesHeld, HeldFails, HeldPasses, HasClosed, Does, IsStageOf};

use crate::line::Line;
use crate::part::Part;
use btor_frames::Frames;
use btor_tree::Nodes;
use btor_witness::{
    MOST_FRAMES, MOST_WORDS, Phase, Shape, input_widths, is_passed, is_same, shape_of,
    state_places, state_widths, without_return,
};
use std::alloc::Global;
use text_core::kinds::witness;
use text_core::{Clause, Kind, List, NoMemory, Verdict};
use word_core::Word;

/// The stage of the reading of a text.
///
/// The reading goes on, is past the witness's end, or has refused the current line, or the text is longer than a
/// witness may be.
#[derive(Clone, Copy)]
pub enum Stage {
    Going,
    Done,
    Refused(Kind),
    TooLong,
}

/// The state of reading and judging a witness.
///
/// It has what comes next, the bad line, the number of frames before the last one, and the verdict on them. It also
/// has the statements of the last frame so far, the current frame of the lines, and the indices of the states.
#[derive(Drop)]
pub struct Reader {
    bads: u32,
    phase: Phase,
    bad: u32,
    count: u32,
    verdict: Verdict,
    states: Part,
    inputs: Part,
    frames: Frames,
    places: List<u32>,
}

// The part for the states, with no statement yet.
fn state_part(alloc: Global, nodes: &Nodes) -> Result<Part, NoMemory>
    ensures widths { IfOk result (λ part. part.widths ≡ widths_of is_state nodes.now) }
    ensures none { IfOk result (λ part. Holds part []) }
{
    nodes.are_well_formed();
    let widths = state_widths(alloc, nodes)?;
    Part::new(alloc, widths)
}

// The part for the inputs, with no statement yet.
fn input_part(alloc: Global, nodes: &Nodes) -> Result<Part, NoMemory>
    ensures widths { IfOk result (λ part. part.widths ≡ widths_of is_input nodes.now) }
    ensures none { IfOk result (λ part. Holds part []) }
{
    nodes.are_well_formed();
    let widths = input_widths(alloc, nodes)?;
    Part::new(alloc, widths)
}

// Both parts.
fn parts_of(alloc: Global, nodes: &Nodes) -> Result<(Part, Part), NoMemory>
    ensures states { IfOk result (λ both. both.0.widths ≡ widths_of is_state nodes.now) }
    ensures inputs { IfOk result (λ both. both.1.widths ≡ widths_of is_input nodes.now) }
    ensures none { IfOk result (λ both. Holds both.0 [] × Holds both.1 []) }
{
    let states = state_part(alloc, nodes)?;
    let inputs = input_part(alloc, nodes)?;
    Ok((states, inputs))
}

// The frames before the first, and the indices of the states.
fn first_frames(alloc: Global, nodes: &Nodes) -> Result<(Frames, List<u32>), NoMemory>
    ensures fits { IfOk result (λ both. FramesFit nodes.now both.0) }
    ensures none { IfOk result (λ both. both.0.begun ≡ false) }
    ensures places { IfOk result (λ both. both.1 ≡ places_of is_state nodes.now) }
{
    let frames = Frames::new(alloc, nodes)?;
    let places = state_places(alloc, nodes)?;
    Ok((frames, places))
}

impl Reader {
    /// Returns a reader before the first line.
    pub fn new(alloc: Global, nodes: &Nodes) -> Result<Reader, NoMemory>
        ensures { IfOk result (λ reader. IsAt nodes.now reader begin) }
    {
        let (states, inputs) = parts_of(alloc, nodes)?;
        let (frames, places) = first_frames(alloc, nodes)?;
        Ok(Reader {
            bads: nodes.bads(),
            phase: Phase::Start,
            bad: 0,
            count: 0,
            verdict: Verdict::Yes,
            states,
            inputs,
            frames,
            places,
        })
    }

    /// Reads one line, and returns the stage after it.
    pub fn take_line(&mut self, nodes: &Nodes, line: &Line) -> Stage
        requires { IsSomewhere nodes.now self.old }
        ensures { (r : Reading) (raw : List ℕ) → RepresentsIn nodes.now self.old r → line.now ≡ line_of raw → Does nodes.now r (next_of (sizes_of nodes.now) r (line_parts raw)) self.new result }
    {
        if line.is_passed() {
            return Stage::Going;
        }
        match line.shape() {
            Some(shape) => self.step(nodes, shape),
            None => Stage::Refused(witness::LINE),
        }
    }

    /// Reads one line of which all bytes are at hand.
    pub fn take_whole(&mut self, nodes: &Nodes, raw: &[u8]) -> Stage
        requires { IsSomewhere nodes.now self.old }
        ensures { (r : Reading) → RepresentsIn nodes.now self.old r → Does nodes.now r (next_of (sizes_of nodes.now) r (line_parts raw.now)) self.new result }
    {
        let line = without_return(raw);
        // A line that has a shape isn't passed over, and nearly all lines have one.
        match shape_of(line) {
            Some(shape) => self.step(nodes, shape),
            None => {
                if is_passed(line) {
                    Stage::Going
                } else {
                    Stage::Refused(witness::LINE)
                }
            }
        }
    }

    fn step(&mut self, nodes: &Nodes, shape: Shape) -> Stage
        requires { IsSomewhere nodes.now self.old }
        ensures { (r : Reading) → RepresentsIn nodes.now self.old r → Does nodes.now r (step (sizes_of nodes.now) r shape) self.new result }
    {
        match shape {
            Shape::Sat => self.sat_line(),
            Shape::Property(number) => self.property_line(number),
            Shape::Justice(_) => self.justice_line(),
            Shape::States(number) => self.states_line(nodes, number),
            Shape::Inputs(number) => self.inputs_line(nodes, number),
            Shape::End => self.end_line(nodes),
            Shape::Assignment(index, word) => self.assignment_line(index, word),
        }
    }

    fn sat_line(&mut self) -> Stage
        ensures { (lines : List TreeLine) (r : Reading) → IsAt lines self.old r → Does lines r (step (sizes_of lines) r line.Sat) self.new result }
    {
        match self.phase {
            Phase::Start => {
                self.phase = Phase::Property;
                Stage::Going
            }
            _ => Stage::Refused(witness::LINE),
        }
    }

    fn property_line(&mut self, number: u32) -> Stage
        ensures { (lines : List TreeLine) (r : Reading) → IsAt lines self.old r → Does lines r (step (sizes_of lines) r (line.Property number)) self.new result }
    {
        match self.phase {
            Phase::Property => {
                if number >= self.bads {
                    return Stage::Refused(witness::NO_BAD);
                }
                self.bad = number;
                self.phase = Phase::Heading;
                Stage::Going
            }
            _ => Stage::Refused(witness::LINE),
        }
    }

    fn justice_line(&self) -> Stage
        ensures { (lines : List TreeLine) (r : Reading) (number : ℕ) → IsAt lines self.now r → Does lines r (step (sizes_of lines) r (line.Justice number)) self.now result }
    {
        match self.phase {
            Phase::Property => Stage::Refused(witness::JUSTICE),
            _ => Stage::Refused(witness::LINE),
        }
    }

    fn states_line(&mut self, nodes: &Nodes, number: u32) -> Stage
        requires { IsSomewhere nodes.now self.old }
        ensures { (r : Reading) → RepresentsIn nodes.now self.old r → Does nodes.now r (step (sizes_of nodes.now) r (line.States number)) self.new result }
    {
        match self.phase {
            Phase::Start => Stage::Refused(witness::LINE),
            Phase::Property => Stage::Refused(witness::LINE),
            _ => self.new_frame(nodes, Phase::States, number),
        }
    }

    fn inputs_line(&mut self, nodes: &Nodes, number: u32) -> Stage
        requires { IsSomewhere nodes.now self.old }
        ensures { (r : Reading) → RepresentsIn nodes.now self.old r → Does nodes.now r (step (sizes_of nodes.now) r (line.Inputs number)) self.new result }
    {
        match self.phase {
            Phase::Start => Stage::Refused(witness::LINE),
            Phase::Property => Stage::Refused(witness::LINE),
            Phase::States => {
                if number == self.count {
                    self.phase = Phase::Inputs;
                    return Stage::Going;
                }
                self.new_frame(nodes, Phase::Inputs, number)
            }
            _ => self.new_frame(nodes, Phase::Inputs, number),
        }
    }

    // Begins a frame with this part, after the frame before it is judged.
    fn new_frame(&mut self, nodes: &Nodes, part: Phase, number: u32) -> Stage
        requires somewhere { IsSomewhere nodes.now self.old }
        requires part { (part ≡ phase.States) ⊎ (part ≡ phase.Inputs) }
        ensures { (r : Reading) → RepresentsIn nodes.now self.old r → Does nodes.now r (new_frame (sizes_of nodes.now) part number r) self.new result }
    {
        if number != self.frame_count() {
            return Stage::Refused(witness::FRAME_ORDER);
        }
        if !self.may_follow(number) {
            return Stage::Refused(witness::TOO_LONG);
        }
        self.close_frame(nodes);
        self.states.clear();
        self.inputs.clear();
        self.phase = part;
        Stage::Going
    }

    // The number of frames that have begun.
    fn frame_count(&self) -> u32
        requires { self.now.count < 2 ^ 31 }
        ensures { (r : Reading) → self.now.phase ≡ r.phase → self.now.count ≡ length r.frames → result ≡ length (frames_of r) }
    {
        match self.phase {
            Phase::States => self.count + 1,
            Phase::Inputs => self.count + 1,
            _ => self.count,
        }
    }

    // Whether one more frame may follow `count` frames.
    fn may_follow(&self, count: u32) -> bool
        ensures { (lines : List TreeLine) → ReaderFits lines self.now → result ≡ is_within (sizes_of lines) (count + 1) }
    {
        let frames = u64::from(count) + 1;
        let lines = self.states.len() as u128 + self.inputs.len() as u128;
        frames <= MOST_FRAMES && u128::from(frames) * lines <= u128::from(MOST_WORDS)
    }

    // Judges the last frame, if there is one, as a frame that another one follows.
    fn close_frame(&mut self, nodes: &Nodes)
        requires { IsSomewhere nodes.now self.old }
        ensures { (r : Reading) → RepresentsIn nodes.now self.old r → HasClosed nodes.now self.new r }
    {
        match self.phase {
            Phase::States => self.pass_frame(nodes),
            Phase::Inputs => self.pass_frame(nodes),
            _ => {}
        }
    }

    fn pass_frame(&mut self, nodes: &Nodes)
        requires frame { (f : Frame) × HasFrame nodes.now self.old f }
        requires few { self.old.count < 2 ^ 31 }
        ensures rest { self.new ≡ record self.old { frames = self.new.frames; verdict = self.new.verdict; count = self.old.count + 1 } }
        ensures fits { FramesFit nodes.now self.new.frames }
        ensures judged { JudgesHeld nodes.now false self.old self.new }
    {
        self.judge_frame(nodes, false);
        self.count += 1;
    }

    // Judges the last frame, where none before it has failed.
    fn judge_frame(&mut self, nodes: &Nodes, last: bool)
        requires { (f : Frame) × HasFrame nodes.now self.old f }
        ensures rest { self.new ≡ record self.old { frames = self.new.frames; verdict = self.new.verdict } }
        ensures fits { FramesFit nodes.now self.new.frames }
        ensures judged { JudgesHeld nodes.now last self.old self.new }
    {
        nodes.are_well_formed();
        match self.verdict {
            Verdict::Yes => {
                self.frames
                    .step(nodes, self.inputs.words(), self.states.words());
                if let Some(clause) = self.failure(nodes, last) {
                    self.verdict = Verdict::No(self.count, clause);
                }
            }
            _ => {}
        }
    }

    // The first clause that the current frame fails.
    fn failure(&self, nodes: &Nodes, last: bool) -> Option<Clause>
        requires frame { (f : Frame) × HasFrame nodes.now self.now f }
        requires begun { self.now.frames.begun ≡ true }
        ensures some { IfSome result (HeldFails nodes.now self.now last) }
        ensures none { IfNone result (HeldPasses nodes.now self.now last) }
    {
        if !self.agrees(nodes) {
            return Some(Clause::StateDiffers);
        }
        if !self.frames.constraints_hold(nodes) {
            return Some(Clause::ConstraintFails);
        }
        if last && !self.frames.bad(nodes, self.bad) {
            return Some(Clause::NotBroken);
        }
        None
    }

    // Whether the stated words of states are those of the current frame.
    fn agrees(&self, nodes: &Nodes) -> bool
        requires { (f : Frame) × HasFrame nodes.now self.now f }
        ensures { (f : Frame) → HasFrame nodes.now self.now f → IsTrue result ↔ AllByRecursion (IsWordThere (places_of is_state nodes.now) self.now.frames.row) f.states }
    {
        for k in 0..self.places.len() {
            if !self.agrees_at(nodes, k) {
                return false;
            }
        }
        true
    }

    // Whether the word of one state is that of the current frame, where it is stated.
    fn agrees_at(&self, nodes: &Nodes, k: usize) -> bool
        requires frame { (f : Frame) × HasFrame nodes.now self.now f }
        requires inside { k < length self.now.places }
        ensures { IsTrue result ↔ AgreesAt (places_of is_state nodes.now) self.now.frames.row self.now.states k }
    {
        nodes.are_well_formed();
        if !self.states.is_marked(k) {
            return true;
        }
        let place = *self.places.at(k);
        is_same(self.frames.value(place), self.states.words().at(k))
    }

    fn assignment_line(&mut self, index: u32, word: Option<Word>) -> Stage
        ensures { (lines : List TreeLine) (r : Reading) → IsAt lines self.old r → Does lines r (step (sizes_of lines) r (line.Assignment index word)) self.new result }
    {
        match self.phase {
            Phase::States => stage_of(self.states.state(index, word)),
            Phase::Inputs => stage_of(self.inputs.state(index, word)),
            _ => Stage::Refused(witness::LINE),
        }
    }

    fn end_line(&mut self, nodes: &Nodes) -> Stage
        requires { IsSomewhere nodes.now self.old }
        ensures { (r : Reading) → RepresentsIn nodes.now self.old r → Does nodes.now r (step (sizes_of nodes.now) r line.End) self.new result }
    {
        match self.phase {
            Phase::States => {
                self.judge_frame(nodes, true);
                Stage::Done
            }
            Phase::Inputs => {
                self.judge_frame(nodes, true);
                Stage::Done
            }
            _ => Stage::Refused(witness::LINE),
        }
    }

    /// Returns the number of the bad line.
    pub fn bad(&self) -> u32
        ensures { result ≡ self.now.bad }
    {
        self.bad
    }

    /// Returns the number of the last step.
    pub fn count(&self) -> u32
        ensures { result ≡ self.now.count }
    {
        self.count
    }

    /// Returns the verdict.
    pub fn verdict(&self) -> Verdict
        ensures { result ≡ self.now.verdict }
    {
        self.verdict
    }
}

// The stage after a statement: the reading goes on, unless the statement is refused.
fn stage_of(stated: Result<(), Kind>) -> Stage
    ensures { IsStageOf stated result }
{
    match stated {
        Ok(()) => Stage::Going,
        Err(kind) => Stage::Refused(kind),
    }
}
