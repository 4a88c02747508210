// The reader of a whole text.
ghost use Rattle.std.specs.Prelude.{◌≡◌, ◌≤◌, ◌<◌, ◌^◌, ℕ, length, true, IfOk, IfErr};
ghost use Rattle.text_core.specs.declared.place.Kind.{Kind};
ghost use Rattle.btor_witness.specs.declared.witness.Witness.{Witness};
ghost use Rattle.btor_witness.specs.Sizes.{sizes_of, is_within};
ghost use Rattle.btor_witness.specs.Printing.{IsWitness};
ghost use Rattle.btor_witness.specs.Texts.{ReadsText, SpellsWitness, RefusesWitness};
ghost use Rattle.btor_witness.specs.Answer.{Gives, Stops, IsRefused, IsRefusedLine};

use crate::ends::LineEnd;
use crate::reader::Reader;
use crate::witness::{Witness, WitnessEnd};
use btor_tree::{Nodes, line_length};
use std::alloc::Global;
use text_core::kinds::witness;
use text_core::{End, Kind, Place, Refusal};

/// The most bytes of a witness's text.
pub const MOST_BYTES: usize = 67108864;

// The refusal at the start of a line.
fn refused(kind: Kind, line: u32, offset: u32) -> WitnessEnd
    ensures { result ≡ End.Bad (record { kind = kind; place = record { line = line; column = 1; offset = offset } }) }
{
    End::Bad(Refusal {
        kind,
        place: Place {
            line,
            column: 1,
            offset,
        },
    })
}

// The witness that the lines of a text parse to.
fn read_lines(alloc: Global, nodes: &Nodes, text: &[u8]) -> Result<Witness, WitnessEnd>
    requires { length text.now ≤ MOST_BYTES }
    ensures spelled { IfOk result (ReadsText (sizes_of nodes.now) text.now) }
    ensures refused { IfErr result (IsRefusedLine (sizes_of nodes.now) text.now) }
{
    let mut reader = Reader::new(alloc, nodes)?;
    let mut rest = text;
    let mut number: u32 = 0;
    'lines: loop {
        let offset = (text.len() - rest.len()) as u32;
        number += 1;
        let (raw, more) = rest.split_at(line_length(rest));
        match reader.take_line(alloc, raw) {
            Ok(ended) => {
                if ended {
                    return Ok(reader.witness());
                }
            }
            Err(end) => match end {
                LineEnd::Bad(kind) => return Err(refused(kind, number, offset)),
                LineEnd::NoMemory => return Err(End::NoMemory),
            },
        }
        let Some((_, last)) = more.split_first() else {
            return Err(refused(witness::UNENDED, number, offset))
        };
        rest = last;
    }
}

/// Parses a text as a witness for the lines.
///
/// A witness has the line `sat`, the property `b` with a number, frames from 0 on, and the line `.`, after which
/// nothing is read. Each frame has its states after `#` with the frame's number, and its inputs after `@` with that
/// number. A refusal is at the first line that doesn't fit there. A text that is too long is refused at line 1.
pub fn read_witness(alloc: Global, nodes: &Nodes, text: &[u8]) -> Result<Witness, WitnessEnd>
    requires { length text.now ≤ 2 ^ 31 }
    // The text parses to the witness.
    ensures spelled { IfOk result (SpellsWitness nodes.now text.now) }
    // A witness that the text parses to is returned, unless out of memory.
    ensures exact { (w : Witness) → SpellsWitness nodes.now text.now w → Gives w result }
    // It is a witness for the lines, within the limits.
    ensures fits { IfOk result (IsWitness (sizes_of nodes.now)) }
    ensures within { IfOk result (λ w. is_within (sizes_of nodes.now) (length w.frames) ≡ true) }
    // The text is refused at this line.
    ensures refused { IfErr result (IsRefused nodes.now text.now) }
    // A refusal of the text is returned, unless out of memory.
    ensures stops { (kind : Kind) (at : ℕ) → RefusesWitness nodes.now text.now kind at → Stops text.now kind at result }
{
    if text.len() > MOST_BYTES {
        return Err(refused(witness::TOO_LONG, 1, 0));
    }
    read_lines(alloc, nodes, text)
}
