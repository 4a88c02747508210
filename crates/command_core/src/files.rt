// Reads of the files that a command names.
ghost use Rattle.std.specs.Prelude.{◌≡◌, ◌<◌, ◌≤◌, IfOk, IfErr, IsErrAnd, vec_len};
ghost use Rattle.text_core.specs.Outside.{BeginsOnly, IsFile, HasNewFault};
ghost use Rattle.command_core.specs.Reading.{Instead, StopsUnread, StopsWith};

use crate::answer::{Answer, Stop, unread_stop};
use std::alloc::Global;
use text_core::{Name, ReadEnd, Shelf, read_whole};

/// Reads a file of at most `limit` bytes.
///
/// The answer to a longer file is `longer`.
pub fn read_file<F: Shelf>(
    alloc: Global,
    shelf: &mut F,
    name: &Name,
    limit: usize,
    longer: Answer,
) -> Result<Vec<u8>, Stop>
    ensures bytes { IfOk result (λ bytes. IsFile (F.files shelf.old) name.now bytes.items) }
    ensures within { IfOk result (λ bytes. vec_len bytes ≤ limit) }
    ensures stop { IfErr result (StopsWith (Instead (F.files shelf.old) (HasNewFault (F.faults shelf.old) (F.faults shelf.new)) name.now limit longer)) }
    ensures fault { F.faults shelf.old < F.faults shelf.new → IsErrAnd result (λ stop. StopsUnread stop) }
    ensures later { F.faults shelf.old ≤ F.faults shelf.new }
    ensures files { F.files shelf.new ≡ F.files shelf.old }
    ensures begun { BeginsOnly (F.files shelf.old) (F.begun shelf.old) (F.begun shelf.new) name.now }
{
    match read_whole(alloc, shelf, name, limit) {
        Ok(bytes) => Ok(bytes),
        Err(ReadEnd::Fault) => Err(unread_stop(alloc, name)),
        Err(ReadEnd::TooLong) => Err(Stop::Answered(longer)),
        Err(ReadEnd::NoMemory) => Err(Stop::NoMemory),
    }
}
