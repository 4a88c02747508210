// The marks of the lines that stay in the list.
ghost use Rattle.std.specs.Prelude.{◌≡◌, ◌<◌, ◌+◌, ◌&&◌, not, length, IfOk};
ghost use Rattle.btor_tree.specs.Sharing.{is_shared};
ghost use Rattle.btor_simplify.specs.Marks as spec;

use crate::fates::{is_shared, replaced};
use btor_rules::Outcome;
use btor_tree::{Args, LineOp, Nodes};
use std::alloc::Global;
use text_core::NoMemory;

// Marks the replacement of each argument.
fn mark_args(fates: &[Outcome], marks: &mut [bool], args: &Args)
    requires { spec.CanMark fates.now args.now marks.old }
    ensures { spec.MarksUpto fates.now args.now (length args.now) marks.old marks.new }
{
    for k in 0..args.len() {
        let place = replaced(fates, args.at(k)).line as usize;
        marks[place] = true;
    }
}

// Returns whether the line is a sort, a constant or an operator that no line in the new list uses.
fn is_left_out(op: &LineOp, marked: bool) -> bool
    ensures { result ≡ (is_shared op.now && not marked) }
{
    is_shared(op) && !marked
}

// Marks the lines that a line uses, where the line stays.
fn mark_line(nodes: &Nodes, fates: &[Outcome], marks: &mut [bool], i: usize)
    requires known { spec.AreKnown nodes.now fates.now }
    requires inside { i < length nodes.now }
    requires marked { spec.AreMarks nodes.now fates.now (i + 1) marks.old }
    ensures { spec.AreMarks nodes.now fates.now i marks.new }
{
    let line = nodes.at(i);
    if is_left_out(&line.op, marks[i]) {
        return;
    }
    marks[i] = true;
    match &fates[i] {
        Outcome::Constant(_) => {}
        _ => mark_args(fates, marks, &line.args),
    }
}

/// Returns a mark for each line that stays.
///
/// These are all lines but sorts, constants and operators, and those constants and operators that they use,
/// directly or indirectly. Sort lines are not marked.
pub fn marks_of(alloc: Global, nodes: &Nodes, fates: &[Outcome]) -> Result<Vec<bool>, NoMemory>
    requires { spec.AreKnown nodes.now fates.now }
    ensures { IfOk result (λ marks. spec.AreMarks nodes.now fates.now 0 marks.items) }
{
    let mut marks = Vec::new(alloc);
    marks.resize(nodes.len(), false)?;
    for k in 0..nodes.len() {
        mark_line(nodes, fates, &mut marks, nodes.len() - 1 - k);
    }
    Ok(marks)
}
