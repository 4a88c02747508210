// Feeds a file piece by piece to a judge of witnesses. Nothing here allocates.
ghost use Rattle.std.specs.Prelude.{◌≡◌, ◌⊎◌, ◌<◌, ◌≤◌, ◌+◌, [], List, ℕ, Option, length, false, IfOk, OnOk, IsErrOf};
ghost use Rattle.text_core.specs.Outside.{IsMissing, IsLonger, IsAtEnd, BeginsOnly, HasNewFault};
ghost use Rattle.text_core.specs.Reading.{IsPast};
ghost use Rattle.btor_judge.specs.Judging.{RepresentsSome, Represents, has_ended};
ghost use Rattle.btor_commands.specs.Limits.{most_witness_bytes};
ghost use Rattle.btor_commands.specs.Pieces.{HoldsFile, HoldsFront};

use btor_judge::Judge;
use btor_tree::Nodes;
use btor_witness::MOST_BYTES;
use text_core::{Name, Shelf};

/// The number of bytes in a buffer.
pub const PIECE: usize = 4096;

/// The reason why a file was not fed to its end.
#[derive(Clone, Copy)]
pub enum PieceEnd {
    /// The file could not be read.
    Fault,
    /// The file has more bytes than a witness may have.
    TooLong,
}

/// Opens a file and feeds it to a judge up to its end.
pub fn feed_file<F: Shelf>(
    shelf: &mut F,
    name: &Name,
    buffer: &mut [u8],
    nodes: &Nodes,
    judge: &mut Judge,
) -> Result<(), PieceEnd>
    requires room { 0 < length buffer.old }
    requires represents { Represents nodes.now judge.old [] }
    requires going { has_ended judge.old ≡ false }
    ensures fed { OnOk result (HoldsFile (F.files shelf.old) name.now nodes.now judge.new) }

    // A fault is returned only where one was counted or the file is missing.
    ensures cause { IsErrOf result PieceEnd.Fault → HasNewFault (F.faults shelf.old) (F.faults shelf.new) ⊎ IsMissing (F.files shelf.old) name.now }
    ensures fault { F.faults shelf.old < F.faults shelf.new → IsErrOf result PieceEnd.Fault }
    ensures too_long { IsErrOf result PieceEnd.TooLong → IsLonger (F.files shelf.old) name.now most_witness_bytes }

    ensures later { F.faults shelf.old ≤ F.faults shelf.new }
    ensures files { F.files shelf.new ≡ F.files shelf.old }
    ensures begun { BeginsOnly (F.files shelf.old) (F.begun shelf.old) (F.begun shelf.new) name.now }
{
    match shelf.begin(name) {
        Ok(()) => {}
        Err(_) => return Err(PieceEnd::Fault),
    }
    let mut count = 0;
    'pieces: loop {
        match feed_piece(shelf, buffer, count, nodes, judge) {
            Ok(0) => return Ok(()),
            Ok(n) => count += n,
            Err(end) => return Err(end),
        }
    }
}

// Feeds one piece after `count` bytes, and returns its length, which is 0 at the end.
fn feed_piece<F: Shelf>(
    shelf: &mut F,
    buffer: &mut [u8],
    count: usize,
    nodes: &Nodes,
    judge: &mut Judge,
) -> Result<usize, PieceEnd>
    requires room { 0 < length buffer.old }
    requires within { count ≤ most_witness_bytes }
    requires represents { RepresentsSome nodes.now judge.old }
    requires going { has_ended judge.old ≡ false }
    ensures front { (exposed : Option (List ℕ)) → HoldsFront exposed nodes.now judge.old count (F.left shelf.old) → IfOk result (λ n. HoldsFront exposed nodes.now judge.new (count + n) (F.left shelf.new)) }
    ensures within { IfOk result (λ n. count + n ≤ most_witness_bytes) }
    ensures at_end { IfOk result (λ n. n ≡ 0 → IsAtEnd (F.left shelf.new)) }
    ensures going { has_ended judge.new ≡ false }
    ensures room { length buffer.new ≡ length buffer.old }
    ensures steady { OnOk result (F.faults shelf.new ≡ F.faults shelf.old) }
    ensures cause { IsErrOf result PieceEnd.Fault → HasNewFault (F.faults shelf.old) (F.faults shelf.new) }
    ensures fault { F.faults shelf.old < F.faults shelf.new → IsErrOf result PieceEnd.Fault }
    ensures past { (exposed : Option (List ℕ)) → HoldsFront exposed nodes.now judge.old count (F.left shelf.old) → IsErrOf result PieceEnd.TooLong → IsPast exposed most_witness_bytes }
    ensures later { F.faults shelf.old ≤ F.faults shelf.new }
    ensures files { F.files shelf.new ≡ F.files shelf.old }
    ensures begun { F.begun shelf.new ≡ F.begun shelf.old }
{
    let n = match shelf.read(buffer) {
        Ok(n) => n,
        Err(_) => return Err(PieceEnd::Fault),
    };
    if n > MOST_BYTES - count {
        return Err(PieceEnd::TooLong);
    }
    judge.feed(nodes, &buffer[..n]);
    Ok(n)
}
