// Words from digits.
ghost use Rattle.std.specs.Prelude.{◌≡◌, ◌⊎◌, ◌<◌, ◌≤◌, ◌+◌, ◌*◌, ◌^◌, Some, None, option_and_then};
ghost use Rattle.word_core.specs.Digits.{below, digit_number, number_after, read_word};

use crate::numbers::ones;
use crate::word::{WIDEST, Word};

/// Returns the word of this width that the digits spell in base 2, 8, 10 or 16, or None where there is none.
///
/// The highest digit comes first, and letters may be in either case. There must be at least one digit, each a digit
/// of the base. The value must be below two to the width, and the width between 1 and `WIDEST`.
pub fn read_digits(width: u32, base: u32, digits: &[u8]) -> Option<Word>
    requires { (base ≡ 2) ⊎ ((base ≡ 8) ⊎ ((base ≡ 10) ⊎ (base ≡ 16))) }
    ensures { result ≡ read_word width base digits.now }
{
    if width < 1 || width > WIDEST || digits.is_empty() {
        return None;
    }
    let number = number_below(width, u128::from(base), digits)?;
    Word::of(width, number)
}

// The number that the digits stand for, or None where it is not below two to the width.
fn number_below(width: u32, base: u128, digits: &[u8]) -> Option<u128>
    requires base { base ≤ 16 }
    requires base_low { 2 ≤ base }
    requires low { 1 ≤ width }
    requires high { width ≤ WIDEST }
    ensures { result ≡ option_and_then (below (2 ^ width)) (number_after base 0 digits.now) }
{
    let most = ones(width);
    let mut number = 0;
    for b in digits {
        let digit = digit_number(*b);
        if digit >= base {
            return None;
        }
        number = with_digit(most, base, number, digit)?;
    }
    Some(number)
}

// The number with one more digit, or None where it is greater than `most`.
fn with_digit(most: u128, base: u128, number: u128, digit: u128) -> Option<u128>
    ensures { result ≡ below (most + 1) (number * base + digit) }
{
    let next = number.checked_mul(base)?.checked_add(digit)?;
    if next <= most { Some(next) } else { None }
}

fn digit_number(b: u8) -> u128
    ensures { result ≡ digit_number b }
{
    match b {
        b'0'..=b'9' => u128::from(b - b'0'),
        b'a'..=b'f' => u128::from(b - b'a') + 10,
        b'A'..=b'F' => u128::from(b - b'A') + 10,
        _ => 16,
    }
}
