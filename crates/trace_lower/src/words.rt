// The words of values.
ghost use Rattle.std.specs.Prelude.{◌≡◌, ◌<◌, ◌≤◌, ◌^◌, length};
ghost use Rattle.name_maps.specs.Names.{place_of};
ghost use Rattle.smv_operators.specs.View.{seen_value};
ghost use Rattle.smv_script.specs.Codes.{integer_bits, integer_word, number_or_zero};
ghost use Rattle.moxi_lines.specs.Codes.{choice_width};
ghost use Rattle.trace_lower.specs.Stating.{word_of};

use moxi_to_btor::choice_width;
use name_maps::NameSet;
use smv_flatten::Flat;
use smv_operators::Seen;
use std::marker::Model;
use word_core::Word;

/// The data needed to encode values: the width of integers, the symbols, and the width of a symbol's place.
#[derive(Drop)]
pub struct Coder<'f> {
    width: u32,
    symbols: &'f NameSet,
    symbol_width: u32,
}

impl<'f> Model for Coder<'f> {
    ghost use Rattle.std.specs.Prelude.{◌≡◌, ◌<◌, ◌≤◌, ◌^◌, length};
    ghost use Rattle.moxi_lines.specs.Codes.{choice_width};
    ghost use Rattle.trace_lower.specs.Stating.{Codes};

    ghost Value = { Codes };

    ghost view = { λ c. record { width = c.width; symbols = c.symbols.now } };

    ghost invariant = { λ c. (1 ≤ c.width) × (c.width ≤ 64) × (length c.symbols.now < 2 ^ 64) × (c.symbol_width ≡ choice_width (length c.symbols.now)) };
}

// The number of integers of this width.
fn power(width: u32) -> u128
    requires { width ≤ 64 }
    ensures value { result ≡ 2 ^ width }
    ensures some { 0 < result }
{
    1u128 << width
}

// The bits of an integer in two's complement.
fn integer_bits(width: u32, z: i64) -> u128
    requires { width ≤ 64 }
    ensures { result ≡ integer_bits width z }
{
    let modulus = power(width);
    let z = i128::from(z);
    if z < 0 {
        modulus - 1 - (-1 - z) as u128 % modulus
    } else {
        z as u128 % modulus
    }
}

// An integer as a word of this width in two's complement.
fn integer_word(width: u32, z: i64) -> Word
    requires some { 1 ≤ width }
    requires bound { width ≤ 64 }
    ensures { result ≡ integer_word width z }
{
    Word::of(width, integer_bits(width, z)).unwrap()
}

impl<'f> Coder<'f> {
    /// Creates the coder of a flat form.
    pub fn of(flat: &'f Flat) -> Coder<'f>
        ensures width { result.width ≡ flat.now.width }
        ensures symbols { result.symbols ≡ flat.now.symbols }
    {
        let symbols = flat.symbols();
        Coder {
            width: flat.width(),
            symbols,
            symbol_width: choice_width(symbols.len()),
        }
    }

    // The place of a symbol.
    fn symbol_place(&self, symbol: &[u8]) -> usize
        ensures { result ≡ number_or_zero (place_of self.now.symbols symbol.now) }
    {
        match self.symbols.place(symbol) {
            Some(place) => place,
            None => 0,
        }
    }

    // The place of a symbol as a word.
    fn symbol_word(&self, symbol: &[u8]) -> Word
        ensures { result ≡ record { width = choice_width (length self.now.symbols); bits = number_or_zero (place_of self.now.symbols symbol.now) } }
    {
        Word::of(self.symbol_width, self.symbol_place(symbol) as u128).unwrap()
    }

    /// Returns the word of a value.
    pub fn word_of(&self, value: &Seen) -> Word
        ensures { result ≡ word_of self.now (seen_value value.now) }
    {
        match value {
            Seen::Truth(true) => Word::of(1, 1).unwrap(),
            Seen::Truth(false) => Word::of(1, 0).unwrap(),
            Seen::Integer(z) => integer_word(self.width, *z),
            Seen::Symbol(symbol) => self.symbol_word(*symbol),
            Seen::Bits(word) => *word,
        }
    }
}
