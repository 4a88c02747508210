// Sets of bytes.

ghost use Rattle.std.specs.Prelude.{◌≡◌, ◌≤◌, length};
ghost use Rattle.std.specs.List.{list_all};
ghost use Rattle.moxi_sexpr.specs.Bytes.{is_symbol_byte, is_blank, ends_line, is_hex_digit, belongs};
ghost use Rattle.moxi_sexpr.specs.Atoms.{starts_simple, is_simple};
ghost use Rattle.moxi_sexpr.specs.Reading.{run_length};

use text_core::is_digit;

/// A set of bytes that one part of the lexical form allows.
#[derive(Clone, Copy)]
pub enum ByteSet {
    /// The bytes of a simple symbol.
    Symbol,
    /// The decimal digits.
    Decimal,
    /// The binary digits.
    Binary,
    /// The hexadecimal digits.
    Hexadecimal,
    /// The bytes allowed between bars.
    Barred,
    /// The bytes of a comment.
    Comment,
}

/// The bytes of a simple symbol, each at its own index, with `#` at every other index.
const SYMBOL_BYTES: [u8; 256] = *b"\
    ################################\
    #!##$%&###*+#-./0123456789##<=>?\
    @ABCDEFGHIJKLMNOPQRSTUVWXYZ###^_\
    #abcdefghijklmnopqrstuvwxyz###~#\
    ################################\
    ################################\
    ################################\
    ################################";

fn is_symbol_byte(b: u8) -> bool
    ensures { result ≡ is_symbol_byte b }
{
    SYMBOL_BYTES[b as usize] != b'#'
}

/// Returns whether a byte is a tab, a line feed, a carriage return or a space.
pub fn is_blank(b: u8) -> bool
    ensures { result ≡ is_blank b }
{
    b == b'\t' || b == b'\n' || b == b'\r' || b == b' '
}

/// Returns whether a comment ends before this byte.
fn ends_line(b: u8) -> bool
    ensures { result ≡ ends_line b }
{
    b == b'\n' || b == b'\r'
}

fn is_hex_digit(b: u8) -> bool
    ensures { result ≡ is_hex_digit b }
{
    is_digit(b) || (b >= b'A' && b <= b'F') || (b >= b'a' && b <= b'f')
}

fn belongs(set: ByteSet, b: u8) -> bool
    ensures { result ≡ belongs set b }
{
    match set {
        ByteSet::Symbol => is_symbol_byte(b),
        ByteSet::Decimal => is_digit(b),
        ByteSet::Binary => b == b'0' || b == b'1',
        ByteSet::Hexadecimal => is_hex_digit(b),
        ByteSet::Barred => !(b == b'|' || b == b'\\'),
        ByteSet::Comment => !ends_line(b),
    }
}

/// Returns the number of leading bytes of the text that belong to the set.
#[inline(always)]
pub fn run_length(set: ByteSet, text: &[u8]) -> usize
    ensures value { result ≡ run_length (belongs set) text.now }
    ensures within { result ≤ length text.now }
{
    let mut count = 0;
    for b in text {
        if !belongs(set, *b) {
            return count;
        }
        count += 1;
    }
    count
}

/// Returns whether the text begins with a simple symbol.
#[inline(always)]
pub fn starts_simple(text: &[u8]) -> bool
    ensures { result ≡ starts_simple text.now }
{
    match text {
        [b, ..] => belongs(ByteSet::Symbol, *b) && !is_digit(*b),
        [] => false,
    }
}

/// Returns whether each byte belongs to the set.
fn all_belong(set: ByteSet, bytes: &[u8]) -> bool
    ensures { result ≡ list_all (belongs set) bytes.now }
{
    for b in bytes {
        if !belongs(set, *b) {
            return false;
        }
    }
    true
}

/// Returns whether the bytes are a simple symbol.
pub fn is_simple(name: &[u8]) -> bool
    ensures { result ≡ is_simple name.now }
{
    starts_simple(name) && all_belong(ByteSet::Symbol, name)
}
