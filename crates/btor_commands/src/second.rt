// The witness in the second file.
ghost use Rattle.std.specs.Prelude.{◌≤◌, length, IfOk, IfErr};
ghost use Rattle.btor_tree.specs.Printing.{printed};
ghost use Rattle.btor_tree.specs.Texts.{SpellsLines};
ghost use Rattle.btor_witness.specs.Printing.{IsWitness};
ghost use Rattle.btor_witness.specs.Sizes.{sizes_of};
ghost use Rattle.btor_witness.specs.Texts.{SpellsWitness};
ghost use Rattle.command_core.specs.Reading.{StopsWith};
ghost use Rattle.btor_commands.specs.Judgement.{IsWitnessRefusal};
ghost use Rattle.btor_commands.specs.Limits.{most_witness_bytes};

use btor_tree::{Nodes, printed_spells};
use btor_witness::{Witness, read_witness};
use command_core::{Answer, Stop};
use std::alloc::Global;
use text_core::End;

/// Parses the second file's text to a witness for the lines.
///
/// The text's refusal is the answer where it does not parse.
pub fn witness_in(alloc: Global, nodes: &Nodes, text: &[u8]) -> Result<Witness, Stop>
    requires { length text.now ≤ most_witness_bytes }
    ensures witness { IfOk result (SpellsWitness nodes.now text.now) }
    ensures fits { IfOk result (IsWitness (sizes_of nodes.now)) }
    ensures stop { IfErr result (StopsWith (IsWitnessRefusal nodes.now text.now)) }
{
    match read_witness(alloc, nodes, text) {
        Ok(witness) => Ok(witness),
        Err(End::Bad(refusal)) => Err(Stop::Answered(Answer::SecondRefused(refusal))),
        Err(End::NoMemory) => Err(Stop::NoMemory),
    }
}

/// Proves that the printed text of lines parses to these lines.
pub fn lines_are_spelled(nodes: &Nodes)
    ensures { SpellsLines (printed nodes.now) nodes.now }
{
    printed_spells();
    nodes.are_well_formed();
}
