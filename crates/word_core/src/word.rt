// A word: a width, and a number below two to that width.
ghost use Rattle.std.specs.Prelude.{◌≡◌, ◌<◌, ◌+◌, ◌*◌, ◌^◌, ◌/◌, ◌%◌, ◌↔◌, IsTrue, IsSome, IfSome};
ghost use Rattle.word_core.specs.Words.{BitVector, IsWord};

use crate::numbers::ones;
use std::marker::Model;

/// The greatest width of a word.
pub const WIDEST: u32 = 128;

/// Proves that the greatest width is 128.
pub fn widest_is()
    ensures { WIDEST ≡ 128 }
{}

// Two to the number of bits in each half of a word.
const HALF: u128 = 1 << 64;

/// A word of 1 to `WIDEST` bits: its width, and a number below two to the width.
///
/// The number is stored as two halves, so that a word takes 24 bytes.
#[derive(Clone, Copy, Debug)]
pub struct Word {
    low: u64,
    high: u64,
    width: u32,
}

impl Model for Word {
    ghost use Rattle.std.specs.Prelude.{◌<◌, ◌+◌, ◌*◌, ◌/◌, ◌%◌, ◌^◌};
    ghost use Rattle.word_core.specs.Words.{BitVector, IsWord};

    ghost Value = { BitVector };

    ghost view = { λ a. record { width = a.width; bits = a.high * 2 ^ 64 + a.low } };

    ghost invariant = { λ a. IsWord (record { width = a.width; bits = a.high * 2 ^ 64 + a.low }) × (a.low < 2 ^ 64) };

    ghost inverse = { λ v. record { width = v.width; low = v.bits % 2 ^ 64; high = v.bits / 2 ^ 64 } };
}

impl Word {
    /// Returns the word of this width and these bits.
    ///
    /// None where the width is not from 1 to `WIDEST` or the bits don't fit it.
    pub fn of(width: u32, bits: u128) -> Option<Word>
        ensures there { IsSome result ↔ IsWord (record { width = width; bits = bits }) }
        ensures value { IfSome result (λ w. w ≡ record { width = width; bits = bits }) }
    {
        if width >= 1 && width <= WIDEST && bits <= ones(width) {
            Some(made_word(width, bits))
        } else {
            None
        }
    }

    /// Returns the number of bits, from 1 to `WIDEST`.
    pub fn width(&self) -> u32
        ensures value { result ≡ self.now.width }
        ensures word { IsWord self.now }
    {
        self.width
    }

    /// Returns the bits as an unsigned number, below two to the width.
    pub fn bits(&self) -> u128
        ensures value { result ≡ self.now.bits }
        ensures word { IsWord self.now }
    {
        (u128::from(self.high) << 64) + u128::from(self.low)
    }

    /// Returns bit `i`, where bit 0 is the lowest.
    pub fn bit(&self, i: u32) -> bool
        requires { i < self.now.width }
        ensures { IsTrue result ↔ ((self.now.bits / 2 ^ i) % 2 ≡ 1) }
    {
        (self.bits() >> i) % 2 == 1
    }
}

/// Returns the word of this width and these bits, which must fit.
pub fn made_word(width: u32, bits: u128) -> Word
    requires { IsWord (record { width = width; bits = bits }) }
    ensures { result ≡ record { width = width; bits = bits } }
{
    Word {
        low: (bits % HALF) as u64,
        high: (bits / HALF) as u64,
        width,
    }
}
