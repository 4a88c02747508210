// The constants of values, and the variables of items.
ghost use Rattle.std.specs.Prelude.{◌≡◌, ◌<◌, ◌≤◌, ◌^◌};
ghost use Rattle.word_core.specs.Words.{IsWord};
ghost use Rattle.moxi_terms.specs.View.{plain};
ghost use Rattle.smv_script.specs.Codes.{integer_bits, integer_word};
ghost use Rattle.smv_script.specs.Operators.{word_term, integer_term};
ghost use Rattle.smv_script_terms.specs.Questions.{place_at, subject_tree};

use crate::coding::{Coding, Subject};
use moxi_terms::{Datum, Term};
use word_core::Word;

impl Coding {
    /// Returns the number of the variable of item k.
    pub(crate) fn place(&self, k: u32) -> u32
        ensures { result ≡ place_at self.now.places.items k }
    {
        let k = k as usize;
        if k < self.places.len() {
            self.places[k]
        } else {
            0
        }
    }
}

pub(crate) fn subject_term(subject: Subject) -> Term
    ensures { plain result ≡ subject_tree subject }
{
    match subject {
        Subject::Variable(v, primed) => Term::Variable(v, primed),
        Subject::Symbol(s) => Term::Constant(Datum::Constant(0, s)),
        Subject::Bound(k) => Term::Bound(k),
    }
}

// The word of this width and these bits.
fn word(width: u32, bits: u128) -> Word
    requires { IsWord (record { width = width; bits = bits }) }
    ensures { result ≡ record { width = width; bits = bits } }
{
    match Word::of(width, bits) {
        Some(w) => w,
        None => unreachable!(),
    }
}

/// Returns the constant term of the word of this width and these bits.
pub(crate) fn word_term(width: u32, bits: u128) -> Term
    requires { IsWord (record { width = width; bits = bits }) }
    ensures { plain result ≡ word_term width bits }
{
    Term::Constant(Datum::Bits(word(width, bits)))
}

// The number of integers of this width.
fn power(width: u32) -> u128
    requires { width ≤ 64 }
    ensures value { result ≡ 2 ^ width }
    ensures some { 0 < result }
{
    1u128 << width
}

// The bits of an integer in two's complement.
fn integer_bits(width: u32, z: i128) -> u128
    requires { width ≤ 64 }
    ensures value { result ≡ integer_bits width z }
    ensures fits { result < 2 ^ width }
{
    let modulus = power(width);
    if z < 0 {
        modulus - 1 - (-1 - z) as u128 % modulus
    } else {
        z as u128 % modulus
    }
}

// An integer as a word in two's complement.
fn integer_word(width: u32, z: i128) -> Word
    requires some { 1 ≤ width }
    requires low { width ≤ 64 }
    ensures { result ≡ integer_word width z }
{
    word(width, integer_bits(width, z))
}

/// Returns the constant term of an integer in two's complement of this width.
pub(crate) fn integer_term(width: u32, z: i128) -> Term
    requires some { 1 ≤ width }
    requires low { width ≤ 64 }
    ensures { plain result ≡ integer_term width z }
{
    Term::Constant(Datum::Bits(integer_word(width, z)))
}
