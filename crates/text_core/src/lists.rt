// One list type for all elements. Contracts see it as the list of its elements.
ghost use Rattle.std.specs.Prelude.{◌≡◌, ◌==◌, ◌<◌, ◌^◌, ◌++◌, [], ◌∷◌, length, None, IfSome, IfNone, IfOk, OnOk, OnErr, slice_index_or};
ghost use Rattle.std.specs.List.{list_any};
ghost use Rattle.std.specs.Iterator.Adapters.{IterYieldsInOrder, IterYieldsInReverse};
ghost use Rattle.std.specs.Iterator.Runs.{EveryRun, ItemsMapTo};
ghost use Rattle.std.specs.Slice.Iter.{iter_rest, iter_steps};
ghost use Rattle.text_core.specs.Outside.{file_at};
ghost use Rattle.text_core.specs.Memory.{IsPlaceOf};

use crate::errors::NoMemory;
use crate::name::Name;
use std::alloc::Global;
use std::marker::Model;
use std::slice::Iter;

/// A growable list, which contracts see as the list of its elements.
#[derive(Drop)]
pub struct List<T> {
    items: Vec<T>,
}

impl<T> Model for List<T> {
    ghost use Rattle.std.specs.Prelude.{List};

    ghost Value = { List T };

    ghost view = { λ l. l.items.items };
}

impl<T: Drop> List<T> {
    /// Returns the empty list.
    ///
    /// It allocates nothing.
    pub fn new(alloc: Global) -> List<T>
        ensures { result ≡ [] }
    {
        List {
            items: Vec::new(alloc),
        }
    }

    /// Returns the empty list, with room for `count` elements.
    pub fn with_capacity(alloc: Global, count: usize) -> Result<List<T>, NoMemory>
        ensures { IfOk result (λ list. list ≡ []) }
    {
        match Vec::with_capacity(alloc, count) {
            Ok(items) => Ok(List { items }),
            Err(_) => Err(NoMemory),
        }
    }

    /// Appends `x`.
    ///
    /// The list stays unchanged when out of memory.
    pub fn push(&mut self, x: T) -> Result<(), NoMemory>
        ensures ok { OnOk result (self.new ≡ self.old ++ x ∷ []) }
        ensures err { OnErr result (self.new ≡ self.old) }
    {
        match self.items.push(x) {
            Ok(()) => Ok(()),
            Err(_) => Err(NoMemory),
        }
    }

    /// Returns the number of elements.
    pub fn len(&self) -> usize
        ensures { result ≡ length self.now }
    {
        self.items.len()
    }

    /// Returns the element at index `i`.
    pub fn at(&self, i: usize) -> &T
        requires { i < length self.now }
        ensures { result.now ≡ slice_index_or self.now i result.now }
    {
        &self.items[i]
    }

    /// Returns the elements in order.
    pub fn as_slice(&self) -> &[T]
        ensures { result.now ≡ self.now }
    {
        self.items.as_slice()
    }

    /// Iterates the elements in order, from either end.
    pub fn iter(&self) -> Iter<'_, T>
        ensures rest { iter_rest result ≡ self.now }
        ensures len { length (iter_rest result) ≡ length self.now }
        ensures bound { length (iter_rest result) < 2 ^ 64 }
        ensures runs { IterYieldsInOrder T }
        ensures runs_back { IterYieldsInReverse T }
    {
        self.items.as_slice().iter()
    }
}

impl<'a, T: Drop> IntoIterator for &'a List<T> {
    type Item = &'a T;

    type IntoIter = Iter<'a, T>;

    ghost into_iter_gives = { λ l it. (iter_rest it ≡ l.now) × (length (iter_rest it) < 2 ^ 64) × EveryRun (iter_steps {A = T}) (λ p. ItemsMapTo p (λ x. x.now) (iter_rest p.from)) };

    fn into_iter(self) -> Iter<'a, T> {
        self.items.as_slice().iter()
    }
}

/// A list of numbers.
pub type Numbers = List<u64>;

impl List<u64> {
    /// Returns whether `x` is in the list.
    pub fn contains(&self, x: u64) -> bool
        ensures { result ≡ list_any (λ y. y == x) self.now }
    {
        self.items.contains(&x)
    }
}

/// A file's name and content, which contracts see as a pair.
#[derive(Drop)]
pub struct FilePair {
    pub name: Name,
    pub bytes: Vec<u8>,
}

impl Model for FilePair {
    ghost use Rattle.std.specs.Prelude.{List, ℕ};

    ghost Value = { List ℕ × List ℕ };

    ghost view = { λ p. (p.name, p.bytes.items) };
}

impl FilePair {
    /// Returns the file's name.
    pub fn name(&self) -> &Name
        ensures { result.now ≡ self.now.0 }
    {
        &self.name
    }

    /// Returns the file's content.
    pub fn bytes(&self) -> &[u8]
        ensures { result.now ≡ self.now.1 }
    {
        self.bytes.as_slice()
    }
}

/// A list of files, which contracts see as pairs of a name and its bytes.
pub type FilePairs = List<FilePair>;

impl List<FilePair> {
    /// Returns the index of the first file with this name, or None where there is none.
    pub fn place_of(&self, name: &Name) -> Option<usize>
        ensures found { IfSome result (IsPlaceOf self.now name.now) }
        ensures missing { IfNone result (file_at self.now name.now ≡ None) }
    {
        for i in 0..self.len() {
            if self.at(i).name().bytes() == name.bytes() {
                return Some(i);
            }
        }
        None
    }
}
