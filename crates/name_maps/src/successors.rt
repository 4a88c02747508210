// For each name, the name that was looked up after it.
ghost use Rattle.std.specs.Prelude.{◌≡◌};
ghost use Rattle.name_maps.specs.Names.{place_of};

use crate::table::NameTable;
use std::alloc::Global;
use text_core::NoMemory;

/// A lookup cache: for each name of a table, the name that was looked up after it the last time.
///
/// A name that comes in the expected place is found with one comparison.
#[derive(Drop)]
pub struct Successors {
    next: Vec<usize>,
    last: usize,
}

impl Successors {
    /// Returns the cache before the first lookup.
    pub fn new(alloc: Global) -> Successors {
        Successors {
            next: Vec::new(alloc),
            last: 0,
        }
    }

    /// Makes room for each name of the table.
    ///
    /// At first each name is expected after the one before it.
    pub fn cover(&mut self, table: &NameTable) -> Result<(), NoMemory> {
        while self.next.len() < table.len() {
            let place = self.next.len();
            if self.next.push(place + 1).is_err() {
                return Err(NoMemory);
            }
        }
        Ok(())
    }

    /// Returns the index of this name in the table, or None where it is not declared.
    pub fn place(&mut self, table: &NameTable, name: &[u8]) -> Option<usize>
        ensures { result ≡ place_of table.now name.now }
    {
        let expected = self.expected();
        if table.is_at(expected, name) {
            self.last = expected;
            return Some(expected);
        }
        let place = table.place(name)?;
        self.note(place);
        Some(place)
    }

    // The expected index.
    fn expected(&self) -> usize {
        match self.next.as_slice().get(self.last) {
            Some(place) => *place,
            None => 0,
        }
    }

    // Records the index that was looked up.
    fn note(&mut self, place: usize) {
        if self.last < self.next.len() {
            self.next[self.last] = place;
        }
        self.last = place;
    }
}
