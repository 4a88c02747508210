// A list of names. A single name is stored inline, since most paths are a single name.
ghost use Rattle.std.specs.Prelude.{◌≡◌, ◌<◌, ◌^◌, ◌++◌, [], ◌∷◌, length, IfOk, OnOk, OnErr, slice_index_or};
ghost use Rattle.std.specs.Iterator.Runs.{EveryRun, ItemsMapTo};
ghost use Rattle.std.specs.Slice.Iter.{iter_rest, iter_steps};

use crate::errors::NoMemory;
use crate::name::Name;
use std::alloc::Global;
use std::marker::Model;
use std::mem;
use std::slice::{self, Iter};

/// A list of names, which contracts see as the list of their bytes.
#[derive(Drop)]
pub struct Names {
    held: Held,
    alloc: Global,
}

#[derive(Drop)]
enum Held {
    One(Name),
    Many(Vec<Name>),
}

impl Model for Names {
    ghost use Rattle.std.specs.Prelude.{List, ℕ};
    ghost use Rattle.text_core.specs.Names.{held_names};

    ghost Value = { List (List ℕ) };

    ghost view = { λ l. held_names l.held };
}

impl Names {
    /// Returns the empty list.
    ///
    /// It allocates nothing.
    pub fn new(alloc: Global) -> Names
        ensures { result ≡ [] }
    {
        Names {
            held: Held::Many(Vec::new(alloc)),
            alloc,
        }
    }

    /// Returns the list with this name alone.
    pub fn one(alloc: Global, name: Name) -> Names
        ensures { result ≡ name ∷ [] }
    {
        Names {
            held: Held::One(name),
            alloc,
        }
    }

    /// Appends `x`.
    ///
    /// The list stays unchanged when out of memory.
    pub fn push(&mut self, x: Name) -> Result<(), NoMemory>
        ensures ok { OnOk result (self.new ≡ self.old ++ x ∷ []) }
        ensures err { OnErr result (self.new ≡ self.old) }
    {
        match &mut self.held {
            Held::Many(names) => {
                if names.is_empty() {
                    self.held = Held::One(x);
                    Ok(())
                } else {
                    add(names, x)
                }
            }
            Held::One(first) => match two(self.alloc, first, x) {
                Ok(names) => {
                    self.held = Held::Many(names);
                    Ok(())
                }
                Err(end) => Err(end),
            },
        }
    }

    /// Returns the number of names.
    pub fn len(&self) -> usize
        ensures { result ≡ length self.now }
    {
        match &self.held {
            Held::One(_) => 1,
            Held::Many(names) => names.len(),
        }
    }

    /// Returns the name at index `i`.
    pub fn at(&self, i: usize) -> &Name
        requires { i < length self.now }
        ensures { result.now ≡ slice_index_or self.now i result.now }
    {
        match &self.held {
            Held::One(name) => name,
            Held::Many(names) => &names[i],
        }
    }

    /// Returns the names in order.
    pub fn as_slice(&self) -> &[Name]
        ensures { result.now ≡ self.now }
    {
        match &self.held {
            Held::One(name) => slice::from_ref(name),
            Held::Many(names) => names.as_slice(),
        }
    }
}

impl<'a> IntoIterator for &'a Names {
    type Item = &'a Name;

    type IntoIter = Iter<'a, Name>;

    ghost use Rattle.text_core.specs.declared.name.Name.{Name};

    ghost into_iter_gives = { λ l it. (iter_rest it ≡ l.now) × (length (iter_rest it) < 2 ^ 64) × EveryRun (iter_steps {A = Name}) (λ p. ItemsMapTo p (λ x. x.now) (iter_rest p.from)) };

    fn into_iter(self) -> Iter<'a, Name> {
        self.as_slice().iter()
    }
}

// Appends x. The names stay unchanged when out of memory.
fn add(names: &mut Vec<Name>, x: Name) -> Result<(), NoMemory>
    ensures ok { OnOk result (names.new.items ≡ names.old.items ++ x ∷ []) }
    ensures err { OnErr result (names.new.items ≡ names.old.items) }
{
    match names.push(x) {
        Ok(()) => Ok(()),
        Err(_) => Err(NoMemory),
    }
}

// Moves the first name into a new list and appends x. The first name stays where it is when out of memory.
fn two(alloc: Global, first: &mut Name, x: Name) -> Result<Vec<Name>, NoMemory>
    ensures ok { IfOk result (λ names. names.items ≡ first.old ∷ x ∷ []) }
    ensures err { OnErr result (first.new ≡ first.old) }
{
    match Vec::with_capacity(alloc, 4) {
        Ok(names) => {
            let mut names = names;
            names.push_reserved(mem::replace(first, Name::empty()));
            names.push_reserved(x);
            Ok(names)
        }
        Err(_) => Err(NoMemory),
    }
}
