// The numbers among a command's words.
ghost use Rattle.std.specs.Prelude.{◌≡◌, ◌≤◌};
ghost use Rattle.command_core.specs.Numbers.{cell_count, decimal_number, invariant_number};

use text_core::is_digit;

/// Parses the number of an invariant: one to nine decimal digits.
///
/// Returns None for any other text.
pub fn invariant_number(text: &[u8]) -> Option<u32>
    ensures { result ≡ invariant_number text.now }
{
    decimal_number(9, text)
}

/// Parses the number of cells: one to four decimal digits, with a value from 1 to 1,000.
///
/// Returns None for any other text.
pub fn cell_count(text: &[u8]) -> Option<u32>
    ensures { result ≡ cell_count text.now }
{
    match decimal_number(4, text) {
        Some(n) if n >= 1 && n <= 1000 => Some(n),
        _ => None,
    }
}

// The number that one to `most` decimal digits spell.
fn decimal_number(most: usize, text: &[u8]) -> Option<u32>
    requires { most ≤ 9 }
    ensures { result ≡ decimal_number most text.now }
{
    if text.is_empty() || text.len() > most {
        return None;
    }
    let mut number = 0u32;
    for b in text {
        if !is_digit(*b) {
            return None;
        }
        number = number * 10 + u32::from(*b - b'0');
    }
    Some(number)
}
