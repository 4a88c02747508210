// Printed witnesses.
use btor_text::read_btor;
use btor_tree::Nodes;
use btor_witness::{print_witness, read_witness};
use case_text::{Answer, Fault, Piece, piece_bytes};
use std::alloc::Global;

/// The most bytes of a text that is read.
const MOST_BYTES: usize = 1 << 31;

/// Appends the printed witness.
pub fn put_witness(alloc: Global, out: &mut Answer, pieces: &[Piece]) -> Result<(), Fault> {
    let lines = piece_bytes(pieces, "lines")?;
    if lines.len() > MOST_BYTES {
        return Err(Fault::from("too many lines"));
    }
    let nodes = read_btor(alloc, lines)?;
    put_witness_of(alloc, out, &nodes, piece_bytes(pieces, "text")?)
}

fn put_witness_of(
    alloc: Global,
    out: &mut Answer,
    nodes: &Nodes,
    text: &[u8],
) -> Result<(), Fault> {
    if text.len() > MOST_BYTES {
        return Err(Fault::from("too long a text"));
    }
    let witness = read_witness(alloc, nodes, text)?;
    out.put_text(print_witness(alloc, nodes, &witness));
    Ok(())
}
