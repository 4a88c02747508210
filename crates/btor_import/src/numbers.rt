// Facts about a line by its index: the number of its variable, and the width of its word.
ghost use Rattle.std.specs.Prelude.{◌≡◌, ◌+◌, ◌<◌, ◌^◌, IfOk};
ghost use Rattle.btor_tree.specs.Fits.{IsWellFormed, is_input, is_state, sort_at, width_at};
ghost use Rattle.btor_import.specs.Assembling.{counted_on, number_at, number_in};
ghost use Rattle.btor_import.specs.Script.{is_local, number_of};

use btor_tree::{LineOp, Nodes, has_word, sort_width};
use std::alloc::Global;
use text_core::NoMemory;

/// Returns whether the line is an input.
pub(crate) fn is_input(op: &LineOp) -> bool
    ensures { result ≡ is_input op.now }
{
    matches!(op, LineOp::Input)
}

/// Returns whether the line is a state.
pub(crate) fn is_state(op: &LineOp) -> bool
    ensures { result ≡ is_state op.now }
{
    matches!(op, LineOp::State)
}

/// Returns whether the line is a constant or an operator.
pub(crate) fn is_local(op: &LineOp) -> bool
    ensures { result ≡ is_local op.now }
{
    match op {
        LineOp::Input | LineOp::State => false,
        _ => has_word(op),
    }
}

/// Returns the number at an index of a table, or 0 past its end.
pub(crate) fn number_at(numbers: &[u32], place: usize) -> u32
    ensures { result ≡ number_at numbers.now place }
{
    if place < numbers.len() {
        numbers[place]
    } else {
        0
    }
}

/// Returns the width of the sort line at an index, or 0 where there is none.
pub(crate) fn sort_at(nodes: &Nodes, place: usize) -> u32
    ensures { result ≡ sort_at nodes.now place }
{
    if place < nodes.len() {
        sort_width(&nodes.at(place).op)
    } else {
        0
    }
}

/// Returns the width of the word of the line at an index, or 0 where it has none.
pub(crate) fn width_at(nodes: &Nodes, place: usize) -> u32
    ensures { result ≡ width_at nodes.now place }
{
    if place >= nodes.len() {
        return 0;
    }
    let line = nodes.at(place);
    if has_word(&line.op) {
        sort_at(nodes, line.sort as usize)
    } else {
        0
    }
}

/// The next number of a variable of each kind.
#[derive(Clone, Copy)]
pub(crate) struct Counts {
    inputs: u32,
    states: u32,
    locals: u32,
}

fn number_in(counts: Counts, op: &LineOp) -> u32
    ensures { result ≡ number_in counts op.now }
{
    if is_input(op) {
        counts.inputs
    } else if is_state(op) {
        counts.states
    } else {
        counts.locals
    }
}

fn counted_on(counts: Counts, op: &LineOp) -> Counts
    requires inputs { counts.inputs + 1 < 2 ^ 32 }
    requires states { counts.states + 1 < 2 ^ 32 }
    requires locals { counts.locals + 1 < 2 ^ 32 }
    ensures { result ≡ counted_on counts op.now }
{
    let mut next = counts;
    if is_input(op) {
        next.inputs += 1;
    } else if is_state(op) {
        next.states += 1;
    } else if is_local(op) {
        next.locals += 1;
    }
    next
}

/// Returns the number of the variable of each line.
pub(crate) fn numbers_of(alloc: Global, nodes: &Nodes) -> Result<Vec<u32>, NoMemory>
    ensures numbers { IfOk result (λ ns. number_at ns.items ≡ number_of nodes.now) }
    ensures well_formed { IsWellFormed nodes.now }
{
    let count = nodes.len();
    let inputs = nodes.inputs();
    let states = nodes.states();
    let mut counts = Counts {
        inputs: 0,
        states: inputs,
        locals: inputs + states,
    };
    let mut all = Vec::with_capacity(alloc, count)?;
    for line in nodes.as_slice() {
        all.push(number_in(counts, &line.op))?;
        counts = counted_on(counts, &line.op);
    }
    Ok(all)
}
