// The simplified list.
ghost use Rattle.std.specs.Prelude.{◌≡◌, ◌≤◌, List, length, IfOk};
ghost use Rattle.btor_tree.specs.declared.lines.Line.{Line};
ghost use Rattle.btor_tree.specs.Fits.{last_id};
ghost use Rattle.btor_simplify.specs.Kept.{KeepsLines};
ghost use Rattle.btor_simplify.specs.Normal.{FitsNoRule, HasNoTwoSame, IsNormal};
ghost use Rattle.btor_simplify.specs.Simplified.{IsSimplified};
ghost use Rattle.btor_simplify.specs.Words.{KeepsRuns, KeepsWords};
ghost use Rattle.btor_simplify.specs.Witnesses.{KeepsWitnesses};

use crate::fates::fates_of;
use crate::marks::marks_of;
use crate::order::order_of;
use crate::write::lines_of;
use btor_tree::Nodes;
use std::alloc::Global;
use text_core::NoMemory;

/// Returns a simplified list of lines with the same inputs, states, bad, constraint and output lines.
///
/// Rules replace operator lines, lines with the same content are shared, and constants and operators that no line
/// uses are dropped. Ids are 1, 2, 3 and so on, and a sort line stands directly before the first line that uses it.
/// Simplifying again changes nothing.
#[tactic(auto, using(crate::proofs::Whole::known))]
pub fn simplify(alloc: Global, nodes: &Nodes) -> Result<Nodes, NoMemory>
    ensures fewer { IfOk result (λ new. length new ≤ length nodes.now) }
    // Ids are 1, 2, 3 and so on.
    ensures numbered { IfOk result (λ new. last_id new ≡ length new) }
    // Input, state, init, next, bad, constraint and output lines are the same in number, order, width and symbol.
    ensures lines { IfOk result (λ new. KeepsLines nodes.now new) }
    // Each frame of the lines gives a frame of the new lines with the same words for inputs, states, and the
    // arguments of init, next, bad, constraint and output lines.
    ensures words { IfOk result (λ new. KeepsWords nodes.now new) }
    // Each run of frames gives a run of the new lines in the same way, frame by frame.
    ensures runs { IfOk result (λ new. KeepsRuns nodes.now new) }
    // For both lists, each text parses to the same witness or gets the same refusal, and each witness has the same
    // verdict.
    ensures witnesses { IfOk result (λ new. KeepsWitnesses nodes.now new) }
    // No two sorts, constants or operators are equal, and no two constants have the same width and value.
    ensures distinct { IfOk result HasNoTwoSame }
    // No rule applies to any line.
    ensures unfit { IfOk result FitsNoRule }
    // The list is in normal form, and simplifying a list in normal form changes nothing.
    ensures normal { IfOk result IsNormal }
    ensures unchanged { IsNormal nodes.now → IfOk result (λ new. new ≡ nodes.now) }
    // It is the simplified list, and no other list is.
    ensures simplified { IfOk result (λ new. IsSimplified nodes.now new) }
    ensures only { IfOk result (λ new. (other : List Line) → IsSimplified nodes.now other → other ≡ new) }
{
    nodes.are_well_formed();
    let fates = fates_of(alloc, nodes)?;
    let marks = marks_of(alloc, nodes, &fates)?;
    let order = order_of(alloc, nodes, &fates, &marks)?;
    lines_of(alloc, nodes, &fates, &order)
}
