// The second part of a line, read byte by byte.
ghost use Rattle.std.specs.Prelude.{◌≡◌};
ghost use Rattle.btor_judge.specs.Digit.{digits_next, SpellsDigits};

use word_core::{WIDEST, Word};

/// The state of reading a line's second part.
///
/// The bytes so far are some binary digits with the number that they spell, more digits than the widest word has,
/// or something else.
#[derive(Clone, Copy)]
pub enum Digits {
    Bits(u32, u128),
    Long,
    Other,
}

impl Digits {
    /// Returns the state after one more byte.
    pub fn next(self, b: u8) -> Digits
        ensures { result ≡ digits_next self b }
    {
        if b != b'0' && b != b'1' {
            return Digits::Other;
        }
        match self {
            Digits::Bits(width, bits) => {
                if width < WIDEST {
                    Digits::Bits(
                        width + 1,
                        bits.wrapping_add(bits).wrapping_add(u128::from(b - b'0')),
                    )
                } else {
                    Digits::Long
                }
            }
            Digits::Long => Digits::Long,
            Digits::Other => Digits::Other,
        }
    }

    /// Returns the word that one or more binary digits spell.
    ///
    /// None means that the part is not binary digits, and `Some(None)` that there are more digits than the widest
    /// word has.
    pub fn word(self) -> Option<Option<Word>>
        ensures { SpellsDigits self result }
    {
        match self {
            Digits::Bits(width, bits) => {
                if width == 0 {
                    None
                } else {
                    Some(Word::of(width, bits))
                }
            }
            Digits::Long => Some(None),
            Digits::Other => None,
        }
    }
}
