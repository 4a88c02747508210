// The words that the caller gives for inputs, and for states without an init or next.
ghost use Rattle.std.specs.Prelude.{◌≡◌, ◌<◌, ◌+◌, ◌^◌, ◌↔◌, true, false, if◌then◌else◌, length, take, slice_get, IfSome, IsTrue};
ghost use Rattle.word_core.specs.Words.{IsWord};
ghost use Rattle.btor_tree.specs.Fits.{IsWellFormed, count_of, is_input, is_state};
ghost use Rattle.btor_tree.specs.Frame.{word_at, GivenFits};
ghost use Rattle.btor_frames.specs.Steps.{supplied_at, is_given, SuppliedFit};

use crate::words::Words;
use btor_tree::{Line, LineOp, Nodes};
use word_core::Word;

/// The words that the caller gives for a frame: one for each input line and one for each state line, in order.
#[derive(Clone, Copy)]
pub struct Supplied<'a> {
    pub inputs: &'a Words,
    pub free: &'a Words,
}

/// How many inputs and how many states come before a line.
#[derive(Clone, Copy)]
pub struct Seen {
    pub input: usize,
    pub state: usize,
}

// The word of a width and bits that fit.
pub fn word_of(width: u32, bits: u128) -> Word
    requires { IsWord (record { width = width; bits = bits }) }
    ensures { result ≡ record { width = width; bits = bits } }
{
    Word::of(width, bits).unwrap()
}

// The word at an index, or a zero where there is none.
#[inline(always)]
pub fn word_or(words: &Words, i: usize) -> Word
    ensures { result ≡ word_at words.now i }
{
    if i < words.len() {
        words.at(i)
    } else {
        word_of(1, 0)
    }
}

// Whether a line of this kind takes a given word.
pub fn is_given(op: &LineOp) -> bool
    ensures { result ≡ is_given op.now }
{
    matches!(op, LineOp::Input | LineOp::State)
}

// The word that the caller gives for a line.
#[inline(always)]
pub fn supplied_word(nodes: &Nodes, i: usize, supplied: &Supplied<'_>, seen: Seen) -> Word
    requires inside { i < length nodes.now }
    requires input_is { seen.input ≡ count_of is_input (take i nodes.now) }
    requires state_is { seen.state ≡ count_of is_state (take i nodes.now) }
    ensures { result ≡ supplied_at nodes.now supplied.now.inputs.now supplied.now.free.now i }
{
    match nodes.at(i).op {
        LineOp::Input => word_or(supplied.inputs, seen.input),
        LineOp::State => word_or(supplied.free, seen.state),
        _ => word_of(1, 0),
    }
}

// The count, with one more at an input line.
pub fn with_input(line: &Line, n: usize) -> usize
    requires { n < 2 ^ 63 }
    ensures { result ≡ n + (if is_input line.now.op then 1 else 0) }
{
    match line.op {
        LineOp::Input => n + 1,
        _ => n,
    }
}

// The count, with one more at a state line.
pub fn with_state(line: &Line, n: usize) -> usize
    requires { n < 2 ^ 63 }
    ensures { result ≡ n + (if is_state line.now.op then 1 else 0) }
{
    match line.op {
        LineOp::State => n + 1,
        _ => n,
    }
}

// Whether the word fits the line, where that is an input or a state.
fn line_fits(nodes: &Nodes, i: usize, word: Word) -> bool
    requires inside { i < length nodes.now }
    requires well_formed { IsWellFormed nodes.now }
    ensures { IsTrue result ↔ IfSome (slice_get nodes.now i) (λ l. GivenFits (take i nodes.now) l.sort l.op word) }
{
    match nodes.at(i).op {
        LineOp::Input | LineOp::State => word.width() == nodes.width_of(i as u32),
        _ => true,
    }
}

/// Returns whether there is one word for each input line and for each state line, in order and of their widths.
///
/// `Frames::step` requires such words.
pub fn words_fit(nodes: &Nodes, inputs: &Words, free: &Words) -> bool
    ensures { IsTrue result ↔ SuppliedFit nodes.now inputs.now free.now }
{
    let supplied = Supplied { inputs, free };
    let mut input = 0usize;
    let mut state = 0usize;
    for i in 0..nodes.len() {
        let handed = supplied_word(nodes, i, &supplied, Seen { input, state });
        if !line_fits(nodes, i, handed) {
            return false;
        }
        input = with_input(nodes.at(i), input);
        state = with_state(nodes.at(i), state);
    }
    inputs.len() == input && free.len() == state
}
