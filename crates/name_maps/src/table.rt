// Names with their indices.
ghost use Rattle.std.specs.Prelude.{◌≡◌, ◌++◌, ◌∷◌, [], true, length, is_none, Some, IfOk, OnErr, if◌then◌else◌};
ghost use Rattle.name_maps.specs.Names.{place_of};

use crate::set::NameSet;
use std::alloc::Global;
use std::marker::Model;
use text_core::{Name, Names, NoMemory};

/// A set of names in declaration order with access by index, which contracts see as the list of names.
#[derive(Drop)]
pub struct NameTable {
    set: NameSet,
    names: Names,
}

impl Model for NameTable {
    ghost use Rattle.std.specs.Prelude.{◌≡◌, List, ℕ};
    ghost use Rattle.name_maps.specs.Tables.{AreDistinct};

    ghost Value = { List (List ℕ) };

    ghost view = { λ t. t.set };

    ghost invariant = { λ t. (t.names ≡ t.set) × AreDistinct t.set };
}

impl NameTable {
    /// Returns the empty table.
    pub fn new(alloc: Global) -> NameTable
        ensures { result ≡ [] }
    {
        NameTable {
            set: NameSet::new(alloc),
            names: Names::new(alloc),
        }
    }

    /// Returns the number of names.
    pub fn len(&self) -> usize
        ensures { result ≡ length self.now }
    {
        self.names.len()
    }

    /// Returns the index of this name, or None where it is not declared.
    pub fn place(&self, name: &[u8]) -> Option<usize>
        ensures { result ≡ place_of self.now name.now }
    {
        self.set.place(name)
    }

    /// Returns whether this name is at this index.
    ///
    /// An index past the last name is allowed.
    pub fn is_at(&self, place: usize, name: &[u8]) -> bool
        ensures { result ≡ true → place_of self.now name.now ≡ Some place }
    {
        match self.names.as_slice().get(place) {
            Some(own) => own.bytes() == name,
            None => false,
        }
    }

    /// Declares a name and returns whether it is new.
    ///
    /// Nothing changes where it is not new, nor when out of memory.
    pub fn declare(&mut self, alloc: Global, name: &[u8]) -> Result<bool, NoMemory>
        ensures fresh { IfOk result (λ fresh. fresh ≡ is_none (place_of self.old name.now)) }
        ensures names { IfOk result (λ fresh. self.new ≡ (if fresh then self.old ++ name.now ∷ [] else self.old)) }
        ensures err { OnErr result (self.new ≡ self.old) }
    {
        let own = Name::of(alloc, name)?;
        let before = self.set.len();
        if !self.set.declare(alloc, name)? {
            return Ok(false);
        }
        match self.names.push(own) {
            Ok(()) => Ok(true),
            Err(end) => {
                self.set.keep(before);
                Err(end)
            }
        }
    }
}
