// Byte helpers that more than one language needs.
ghost use Rattle.std.specs.Prelude.{◌≡◌};
ghost use Rattle.std.specs.Str.{bytes_eq};
ghost use Rattle.text_core.specs.Bytes.{is_digit};

/// Returns whether the byte is a decimal digit, `0` to `9`.
pub fn is_digit(b: u8) -> bool
    ensures { result ≡ is_digit b }
{
    b >= b'0' && b <= b'9'
}

/// Returns whether the two names are equal.
///
/// Most names are short, so a loop is cheaper than a call of the general slice comparison.
pub fn is_same(name: &[u8], other: &[u8]) -> bool
    ensures { result ≡ bytes_eq name.now other.now }
{
    if name.len() != other.len() {
        return false;
    }
    for k in 0..name.len() {
        if name[k] != other[k] {
            return false;
        }
    }
    true
}
