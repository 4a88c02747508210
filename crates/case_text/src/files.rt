// The files that cases name.
use crate::fault::Fault;
use crate::piece::Piece;
use crate::reading::Entry;
use std::alloc::Global;
use text_core::{FilePair, Name, ReadEnd, Shelf, read_whole};

// The most bytes of a file that a case names.
const LIMIT: usize = 1 << 26;

/// The files of a shelf, each read as a whole.
#[derive(Drop)]
pub struct Files<F: Shelf + Drop> {
    shelf: F,
}

impl<F: Shelf + Drop> Files<F> {
    /// Returns the files of this shelf.
    pub fn new(shelf: F) -> Files<F> {
        Files { shelf }
    }

    /// Reads a file and returns its bytes.
    pub fn read(&mut self, alloc: Global, name: &str) -> Result<Vec<u8>, Fault> {
        let name = Name::of(alloc, name.as_bytes())?;
        match read_whole(alloc, &mut self.shelf, &name, LIMIT) {
            Ok(bytes) => Ok(bytes),
            Err(ReadEnd::Fault) => Err(Fault::Unreadable("a file that can't be read")),
            Err(ReadEnd::TooLong) => Err(Fault::Unreadable("a file that is too long")),
            Err(ReadEnd::NoMemory) => Err(Fault::NoMemory),
        }
    }

    // The name on a line, with the bytes below the line, or with those of another file.
    fn named<'a>(&mut self, alloc: Global, entry: &Entry<'a>) -> Result<(&'a str, Vec<u8>), Fault> {
        match entry.says.split_once(" from ") {
            Some((name, file)) => Ok((name, self.read(alloc, file)?)),
            None => Ok((entry.says, entry.bytes.as_slice().to_vec(alloc)?)),
        }
    }

    /// Returns the piece that a line gives to a call.
    pub fn piece(&mut self, alloc: Global, entry: &Entry) -> Result<Piece, Fault> {
        let (name, bytes) = self.named(alloc, entry)?;
        let name = String::from_str(alloc, name)?;
        Ok(Piece { name, bytes })
    }

    /// Returns the file that a line puts on the shelf of a run.
    pub fn pair(&mut self, alloc: Global, entry: &Entry) -> Result<FilePair, Fault> {
        let (name, bytes) = self.named(alloc, entry)?;
        let name = Name::of(alloc, name.as_bytes())?;
        Ok(FilePair { name, bytes })
    }
}
