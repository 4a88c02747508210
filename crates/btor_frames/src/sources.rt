// The source of each line's word in the frames after frame 0, found once for all of them.
ghost use Rattle.std.specs.Prelude.{◌≡◌, ◌<◌, ◌^◌, false, true, take, IfOk};
ghost use Rattle.btor_tree.specs.Fits.{count_of, is_input, is_next, is_state, state_value};
ghost use Rattle.btor_frames.specs.Sources.{HoldsSources, IsJoined, IsOfArgs, IsOfNext, IsOfOne, IsOfThree, IsSource};
ghost use Rattle.btor_frames.specs.Steps.{is_given};
ghost use Rattle.btor_frames.specs.Tables.{HoldsValues};

use crate::handed::{is_given, with_input, with_state};
use btor_tree::{Arg, Args, Line, LineOp, Nodes, has_word};
use std::alloc::Global;
use text_core::{List, NoMemory};
use word_core::{Binary, Unary};

/// The source of a line's word in a frame after frame 0.
///
/// For the most frequent kinds it has all that a frame needs, so that the line itself is not read.
#[derive(Clone, Copy)]
pub enum Source {
    /// The line has no word.
    NoWord,
    /// The line is the input of this number.
    FromInput(u32),
    /// The line is the state of this number, and has no next.
    FromFree(u32),
    /// The line's word is that of this line in the frame before: its next's where it is a state, or its own where it is
    /// a constant.
    FromLast(u32),
    /// The line is a state whose next is the bitwise not of this line, which is read in the frame before.
    FromLastNot(u32),
    /// The line is the bitwise not of the word of a line.
    NotOf(u32),
    /// The line is the bitwise and of the words of two lines.
    AndOf(u32, u32),
    /// The line is the bitwise or of the words of two lines.
    OrOf(u32, u32),
    /// The line says whether the words of two lines are the same.
    EqOf(u32, u32),
    /// The line is the word of the second line where that of the first is one, else the word of the third.
    IteOf(u32, u32, u32),
    /// The line itself has to be read: it is of another operator, or an argument is negated.
    ByLine,
}

// The source of the word of an operator on one argument.
fn unary_source(op: Unary, args: &Args) -> Source
    ensures { IsOfOne op args.now result }
{
    if args.len() != 1 {
        return Source::ByLine;
    }
    let a = *args.at(0);
    match op {
        Unary::Not => {
            if a.negated {
                Source::ByLine
            } else {
                Source::NotOf(a.line)
            }
        }
        _ => Source::ByLine,
    }
}

// The source of the word of an if-then-else.
fn ite_source(args: &Args) -> Source
    ensures { IsOfThree args.now result }
{
    if args.len() != 3 {
        return Source::ByLine;
    }
    let c = *args.at(0);
    let a = *args.at(1);
    let b = *args.at(2);
    if c.negated || a.negated || b.negated {
        Source::ByLine
    } else {
        Source::IteOf(c.line, a.line, b.line)
    }
}

// The source of an operator's word on two lines, where neither is negated.
fn joined_source(op: Binary, a: u32, b: u32) -> Source
    ensures { IsJoined op a b result }
{
    match op {
        Binary::And => Source::AndOf(a, b),
        Binary::Or => Source::OrOf(a, b),
        Binary::Eq => Source::EqOf(a, b),
        _ => Source::ByLine,
    }
}

// The source of the word of an operator on two arguments.
fn binary_source(op: Binary, args: &Args) -> Source
    ensures { IsOfArgs op args.now result }
{
    match args.pair() {
        Some((a, b)) => {
            if a.negated || b.negated {
                Source::ByLine
            } else {
                joined_source(op, a.line, b.line)
            }
        }
        None => Source::ByLine,
    }
}

// The source of the word of a line that is neither an input nor a state.
fn computed_source(nodes: &Nodes, i: usize, line: &Line) -> Source
    requires computed { is_given line.now.op ≡ false }
    requires few_lines { i < 2 ^ 31 }
    ensures { IsSource nodes.now i line.now result }
{
    match line.op {
        LineOp::Constant(_) | LineOp::One | LineOp::Zero | LineOp::Ones => {
            Source::FromLast(i as u32)
        }
        LineOp::Unary(op) => unary_source(op, &line.args),
        LineOp::Binary(op) => binary_source(op, &line.args),
        LineOp::Ite => ite_source(&line.args),
        _ => {
            if has_word(&line.op) {
                Source::ByLine
            } else {
                Source::NoWord
            }
        }
    }
}

// The source of the word of a state with this next.
fn next_source(next: Arg) -> Source
    ensures { IsOfNext next result }
{
    if next.negated {
        Source::FromLastNot(next.line)
    } else {
        Source::FromLast(next.line)
    }
}

// The source of the word of an input or a state, after `input` inputs and `state` states.
fn given_source(
    nodes: &Nodes,
    i: usize,
    line: &Line,
    next: Option<Arg>,
    input: usize,
    state: usize,
) -> Source
    requires given { is_given line.now.op ≡ true }
    requires next_is { next ≡ state_value is_next nodes.now i }
    requires input_is { input ≡ count_of is_input (take i nodes.now) }
    requires state_is { state ≡ count_of is_state (take i nodes.now) }
    requires few_inputs { input < 2 ^ 31 }
    requires few_states { state < 2 ^ 31 }
    ensures { IsSource nodes.now i line.now result }
{
    match line.op {
        LineOp::Input => Source::FromInput(input as u32),
        LineOp::State => match next {
            None => Source::FromFree(state as u32),
            Some(a) => next_source(a),
        },
        _ => Source::ByLine,
    }
}

// The source of a line's word, after `input` inputs and `state` states.
fn line_source(
    nodes: &Nodes,
    i: usize,
    line: &Line,
    next: Option<Arg>,
    input: usize,
    state: usize,
) -> Source
    requires next_is { next ≡ state_value is_next nodes.now i }
    requires input_is { input ≡ count_of is_input (take i nodes.now) }
    requires state_is { state ≡ count_of is_state (take i nodes.now) }
    requires few_inputs { input < 2 ^ 31 }
    requires few_states { state < 2 ^ 31 }
    requires few_lines { i < 2 ^ 31 }
    ensures { IsSource nodes.now i line.now result }
{
    if is_given(&line.op) {
        given_source(nodes, i, line, next, input, state)
    } else {
        computed_source(nodes, i, line)
    }
}

/// Returns the source of each line's word, by the next of each state.
pub fn sources(
    alloc: Global,
    nodes: &Nodes,
    nexts: &[Option<Arg>],
) -> Result<List<Source>, NoMemory>
    requires { HoldsValues is_next nodes.now nexts.now }
    ensures { IfOk result (HoldsSources nodes.now) }
{
    let mut sources = List::with_capacity(alloc, nodes.len())?;
    let mut input = 0usize;
    let mut state = 0usize;
    for i in 0..nodes.len() {
        let line = nodes.at(i);
        sources.push(line_source(nodes, i, line, nexts[i], input, state))?;
        input = with_input(line, input);
        state = with_state(line, state);
    }
    Ok(sources)
}
