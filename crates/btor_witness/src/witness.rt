// The content of a witness.

use text_core::{End, List};
use word_core::Word;

/// A stated word of a state line or an input line.
///
/// `index` counts from 0 among the lines of this kind.
#[derive(Drop)]
pub struct Stated {
    pub index: u32,
    pub value: Word,
}

/// A list of stated words.
pub type Stateds = List<Stated>;

/// The words that one frame states for its states and inputs.
#[derive(Drop)]
pub struct Frame {
    pub states: Stateds,
    pub inputs: Stateds,
}

/// A list of frames, of which the first is frame 0.
pub type FrameList = List<Frame>;

/// A path to a bad line: the number of the bad line, counted from 0 among the bad lines, and the frames.
#[derive(Drop)]
pub struct Witness {
    pub bad: u32,
    pub frames: FrameList,
}

/// The reason why a text does not parse to a witness.
pub type WitnessEnd = End;
