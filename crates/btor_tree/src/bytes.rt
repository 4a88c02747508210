// Lines, parts and numbers, which the texts of lines and of witnesses share.
ghost use Rattle.std.specs.Prelude.{◌≡◌, ◌≤◌, length};
ghost use Rattle.btor_tree.specs.Parts.{is_blank, numeral, parts};
ghost use Rattle.btor_tree.specs.Bytes.{number_after, part_length, line_length, IsFirstPart};

use text_core::is_digit;

fn is_blank(b: u8) -> bool
    ensures { result ≡ is_blank b }
{
    b == 9 || b == b' '
}

fn number(digits: &[u8]) -> Option<u32>
    ensures { result ≡ number_after 0 digits.now }
{
    let mut number = 0;
    for b in digits {
        if !is_digit(*b) {
            return None;
        }
        let next = 10 * u64::from(number) + u64::from(*b - b'0');
        number = next.min(1 << 31) as u32;
    }
    Some(number)
}

/// Returns the number that decimal digits spell, or 2^31 where it is larger.
///
/// Returns None where there is no digit, or a byte that is not a digit.
pub fn numeral(digits: &[u8]) -> Option<u32>
    ensures { result ≡ numeral digits.now }
{
    if digits.is_empty() {
        None
    } else {
        number(digits)
    }
}

fn part_length(text: &[u8]) -> usize
    ensures value { result ≡ part_length text.now }
    ensures within { result ≤ length text.now }
{
    let mut count = 0;
    for b in text {
        if is_blank(*b) {
            return count;
        }
        count += 1;
    }
    count
}

/// Returns the first part of a line, and the bytes after it.
///
/// Parts are separated by spaces and tabs. Returns None where the line has no part.
pub fn first_part(line: &[u8]) -> Option<(&[u8], &[u8])>
    ensures { IsFirstPart result (parts line.now) }
{
    let mut rest = line;
    while let Some((b, more)) = rest.split_first() {
        if !is_blank(*b) {
            return Some(rest.split_at(part_length(rest)));
        }
        rest = more;
    }
    None
}

/// Returns the length of the first line of a text, without its line feed.
pub fn line_length(text: &[u8]) -> usize
    ensures value { result ≡ line_length text.now }
    ensures within { result ≤ length text.now }
{
    let mut count = 0;
    for b in text {
        if *b == b'\n' {
            return count;
        }
        count += 1;
    }
    count
}
