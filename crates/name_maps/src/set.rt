// Names in declaration order, found without a scan.
ghost use Rattle.std.specs.Prelude.{◌≡◌, ◌<◌, true, Some, is_none, ◌++◌, ◌∷◌, [], length, slice_get, take, IfOk, OnErr, if◌then◌else◌};
ghost use Rattle.name_maps.specs.Names.{are_fresh, place_of};

use crate::key::{Key, Wanted};
use indexmap::IndexSet;
use std::alloc::Global;
use std::marker::Model;
use text_core::{Name, Names, NoMemory};

/// A set of names in declaration order, which contracts see as the list of names.
///
/// Lookups need no scan.
#[derive(Drop)]
pub struct NameSet {
    names: IndexSet<Key>,
}

impl Model for NameSet {
    ghost use Rattle.std.specs.Prelude.{List, ℕ, map};

    ghost Value = { List (List ℕ) };

    ghost view = { λ d. map (λ key. key.name) d.names.keys };
}

impl NameSet {
    /// Returns the empty set.
    pub fn new(alloc: Global) -> NameSet
        ensures { result ≡ [] }
    {
        NameSet {
            names: IndexSet::new(alloc),
        }
    }

    /// Returns the number of names.
    pub fn len(&self) -> usize
        ensures { result ≡ length self.now }
    {
        self.names.len()
    }

    /// Returns the index of this name, or None where it is not declared.
    pub fn place(&self, name: &[u8]) -> Option<usize>
        ensures { result ≡ place_of self.now name.now }
    {
        // Most lookups in an empty set need no hash.
        if self.names.len() == 0 {
            return None;
        }
        self.names.get_index_of(Wanted { bytes: name })
    }

    /// Returns the name with this index.
    #[tactic(auto, using(crate::proofs::KeyLaws::name_at, crate::proofs::KeyLaws::key_there))]
    pub fn at(&self, k: usize) -> &[u8]
        requires { k < length self.now }
        ensures { slice_get self.now k ≡ Some result.now }
    {
        match self.names.get_index(k) {
            Some(key) => key.name.bytes(),
            None => unreachable!(),
        }
    }

    /// Declares a name and returns whether it is new.
    ///
    /// Nothing changes where it is not new, nor when out of memory.
    pub fn declare(&mut self, alloc: Global, name: &[u8]) -> Result<bool, NoMemory>
        ensures fresh { IfOk result (λ fresh. fresh ≡ is_none (place_of self.old name.now)) }
        ensures names { IfOk result (λ fresh. self.new ≡ (if fresh then self.old ++ name.now ∷ [] else self.old)) }
        ensures err { OnErr result (self.new ≡ self.old) }
    {
        let name = Name::of(alloc, name)?;
        self.insert(Key { name })
    }

    // Declares the name of a key and returns whether it is new.
    fn insert(&mut self, key: Key) -> Result<bool, NoMemory>
        ensures fresh { IfOk result (λ fresh. fresh ≡ is_none (place_of self.old key.name)) }
        ensures names { IfOk result (λ fresh. self.new ≡ (if fresh then self.old ++ key.name ∷ [] else self.old)) }
        ensures err { OnErr result (self.new ≡ self.old) }
    {
        match self.names.insert_full(key) {
            Ok((_, fresh)) => Ok(fresh),
            Err(_) => Err(NoMemory),
        }
    }

    /// Keeps the first `count` names and drops the others.
    pub fn keep(&mut self, count: usize)
        ensures { self.new ≡ take count self.old }
    {
        self.names.truncate(count);
    }

    /// Declares all of these names and returns whether each was new.
    ///
    /// Nothing changes where one is not new, nor when out of memory.
    pub fn declare_all(&mut self, alloc: Global, names: &Names) -> Result<bool, NoMemory>
        ensures fresh { IfOk result (λ fresh. fresh ≡ are_fresh self.old names.now) }
        ensures names { IfOk result (λ fresh. self.new ≡ (if fresh then self.old ++ names.now else self.old)) }
        ensures err { OnErr result (self.new ≡ self.old) }
    {
        let before = self.len();
        let result = self.declare_each(alloc, names);
        match result {
            Ok(true) => {}
            Ok(false) | Err(_) => self.keep(before),
        }
        result
    }

    // Declares these names up to the first that isn't new.
    fn declare_each(&mut self, alloc: Global, names: &Names) -> Result<bool, NoMemory>
        ensures fresh { IfOk result (λ fresh. fresh ≡ are_fresh self.old names.now) }
        ensures all { IfOk result (λ fresh. fresh ≡ true → self.new ≡ self.old ++ names.now) }
        ensures begun { take (length self.old) self.new ≡ self.old }
    {
        for i in 0..names.len() {
            if !self.declare(alloc, names.at(i).bytes())? {
                return Ok(false);
            }
        }
        Ok(true)
    }
}
