// Lists of words.
ghost use Rattle.std.specs.Prelude.{◌≡◌, ◌<◌, [], ◌∷◌, ◌++◌, length, Some, slice_get, slice_set, OnOk, OnErr};

use std::alloc::Global;
use std::marker::Model;
use text_core::NoMemory;
use word_core::Word;

/// A list of words, each of its own width.
#[derive(Drop)]
pub struct Words {
    items: Vec<Word>,
}

impl Model for Words {
    ghost use Rattle.std.specs.Prelude.{List};
    ghost use Rattle.word_core.specs.Words.{BitVector};

    ghost Value = { List BitVector };

    ghost view = { λ a. a.items.items };
}

impl Words {
    /// Returns the empty list.
    ///
    /// It allocates nothing.
    pub fn new(alloc: Global) -> Words
        ensures { result ≡ [] }
    {
        Words {
            items: Vec::new(alloc),
        }
    }

    /// Appends a word.
    ///
    /// The list stays unchanged when out of memory.
    pub fn push(&mut self, x: Word) -> Result<(), NoMemory>
        ensures ok { OnOk result (self.new ≡ self.old ++ x ∷ []) }
        ensures err { OnErr result (self.new ≡ self.old) }
    {
        Ok(self.items.push(x)?)
    }

    /// Returns the number of words.
    pub fn len(&self) -> usize
        ensures { result ≡ length self.now }
    {
        self.items.len()
    }

    /// Returns the word at index `i`, counted from 0.
    pub fn at(&self, i: usize) -> Word
        requires { i < length self.now }
        ensures { slice_get self.now i ≡ Some result }
    {
        self.items[i]
    }

    /// Replaces the word at index `i`.
    ///
    /// It allocates nothing.
    pub fn set(&mut self, i: usize, x: Word)
        requires { i < length self.old }
        ensures { self.new ≡ slice_set self.old i x }
    {
        self.items[i] = x;
    }
}
