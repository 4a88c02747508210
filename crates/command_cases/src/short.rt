// Files that are read a few bytes at a time.
use std::cmp::min;
use text_core::{Name, Shelf, ShelfFault};

/// A shelf of files of which one call reads at most `most` bytes.
///
/// The value 0 means no limit.
#[derive(Drop)]
pub struct ShortShelf<F: Shelf + Drop> {
    files: F,
    most: usize,
}

impl<F: Shelf + Drop> ShortShelf<F> {
    /// Returns a shelf with these files, of which one call reads at most `most` bytes.
    pub fn new(files: F, most: usize) -> ShortShelf<F> {
        ShortShelf { files, most }
    }
}

impl<F: Shelf + Drop> Shelf for ShortShelf<F> {
    ghost begun = { λ s. F.begun s.files };

    ghost files = { λ s. F.files s.files };

    ghost left = { λ s. F.left s.files };

    ghost faults = { λ s. F.faults s.files };

    ghost fits = { λ s. F.fits s.files };

    fn begin(&mut self, name: &Name) -> Result<(), ShelfFault> {
        self.files.begin(name)
    }

    fn read(&mut self, buffer: &mut [u8]) -> Result<usize, ShelfFault> {
        let most = if self.most == 0 {
            buffer.len()
        } else {
            min(self.most, buffer.len())
        };
        self.files.read(&mut buffer[..most])
    }
}
