// Lines of a trace, each parsed by itself.
ghost use Rattle.std.specs.Prelude.{◌≡◌, ◌≤◌, ℕ, List, None, false, length};
ghost use Rattle.std.specs.List.{list_all};
ghost use Rattle.text_core.specs.Bytes.{is_digit, heads, without_zeros};
ghost use Rattle.smv_text.specs.Bytes.{is_blank, front_length};
ghost use Rattle.smv_trace_text.specs.Lines.{past_blanks, without_end, trimmed, is_other, halves, is_number, is_passed, numbers_in, numbers_before_end, numbers_behind, heading_numbers, value_of_rest, value_parts};
ghost use Rattle.smv_trace_text.specs.Parts.{seen};

use memchr::memchr;
use text_core::is_digit;

/// Returns the number of bytes before the first byte `mark`.
pub(crate) fn length_before(mark: u8, text: &[u8]) -> usize
    ensures value { result ≡ front_length (is_other mark) text.now }
    ensures within { result ≤ length text.now }
{
    let mut rest = text;
    let mut count = 0;
    while let Some((b, more)) = rest.split_first() {
        if *b == mark {
            return count;
        }
        count += 1;
        rest = more;
    }
    count
}

/// Returns the number of bytes before the end of the first line.
pub fn line_length(text: &[u8]) -> usize
    ensures value { result ≡ front_length (is_other 10) text.now }
    ensures within { result ≤ length text.now }
{
    match memchr(b'\n', text) {
        Some(count) => count,
        None => text.len(),
    }
}

// The text before the first byte `mark` and the text after it, if there is one.
fn halves(mark: u8, text: &[u8]) -> Option<(&[u8], &[u8])>
    ensures { seen result ≡ halves mark text.now }
{
    let (front, marked) = text.split_at(length_before(mark, text));
    let (_, behind) = marked.split_first()?;
    Some((front, behind))
}

// Whether it is a blank of SMV: tab, line feed, vertical tab, form feed, carriage return, or space.
fn is_blank(b: u8) -> bool
    ensures { result ≡ is_blank b }
{
    b == b' ' || (b >= 9 && b <= 13)
}

fn past_blanks(line: &[u8]) -> &[u8]
    ensures { result.now ≡ past_blanks line.now }
{
    let mut rest = line;
    while let Some((b, more)) = rest.split_first() {
        if !is_blank(*b) {
            return rest;
        }
        rest = more;
    }
    rest
}

fn without_end(line: &[u8]) -> &[u8]
    ensures { result.now ≡ without_end line.now }
{
    let mut rest = line;
    while let Some((b, front)) = rest.split_last() {
        if !is_blank(*b) {
            return rest;
        }
        rest = front;
    }
    rest
}

/// Returns the line without the blanks around it.
pub fn trim(line: &[u8]) -> &[u8]
    ensures { result.now ≡ trimmed line.now }
{
    without_end(past_blanks(line))
}

fn all_digits(digits: &[u8]) -> bool
    ensures { result ≡ list_all is_digit digits.now }
{
    for b in digits {
        if !is_digit(*b) {
            return false;
        }
    }
    true
}

// Whether it is one or more decimal digits.
fn is_number(digits: &[u8]) -> bool
    ensures { result ≡ is_number digits.now }
{
    !digits.is_empty() && all_digits(digits)
}

fn without_zeros(digits: &[u8]) -> &[u8]
    ensures { result.now ≡ without_zeros digits.now }
{
    let mut rest = digits;
    while let Some((b, more)) = rest.split_first() {
        if *b != b'0' {
            return rest;
        }
        rest = more;
    }
    rest
}

/// Returns whether a line is skipped: a blank line, or one that begins with `--`.
pub fn is_passed(line: &[u8]) -> bool
    ensures { result ≡ is_passed line.now }
{
    let Some((first, rest)) = line.split_first() else {
        return true
    };
    let Some((second, _)) = rest.split_first() else {
        return false
    };
    *first == b'-' && *second == b'-'
}

fn numbers_in<'t>(first: &'t [u8], second: &'t [u8]) -> Option<(&'t [u8], &'t [u8])>
    ensures { seen result ≡ numbers_in (first.now, second.now) }
{
    if is_number(first) && is_number(second) {
        Some((without_zeros(first), without_zeros(second)))
    } else {
        None
    }
}

fn numbers_before_end<'t>(numbers: &'t [u8], end: &[u8]) -> Option<(&'t [u8], &'t [u8])>
    ensures { seen result ≡ numbers_before_end (numbers.now, end.now) }
{
    if end != b"<-".as_slice() {
        return None;
    }
    let (first, second) = halves(b'.', numbers)?;
    numbers_in(first, second)
}

fn numbers_behind<'t>(
    word: &[u8],
    arrow: &[u8],
    second: &[u8],
    rest: &'t [u8],
) -> Option<(&'t [u8], &'t [u8])>
    ensures { seen result ≡ numbers_behind word.now arrow.now (second.now, rest.now) }
{
    if arrow != b"->".as_slice() || second != word {
        return None;
    }
    let (numbers, end) = halves(b' ', rest)?;
    numbers_before_end(numbers, end)
}

/// Returns whether a line begins with `-`, as headings and comments do.
pub fn begins_with_dash(line: &[u8]) -> bool
    ensures begins { result ≡ heads 45 line.now }
    // If not, the line is not a heading.
    ensures plain { result ≡ false → (word : List ℕ) → heading_numbers word line.now ≡ None }
{
    match line.split_first() {
        Some((b, _)) => *b == b'-',
        None => false,
    }
}

/// Returns the two numbers of a line `-> WORD A.B <-` without leading zeros, or None where the line is not of this
/// form.
pub fn heading_numbers<'t>(word: &[u8], line: &'t [u8]) -> Option<(&'t [u8], &'t [u8])>
    ensures { seen result ≡ heading_numbers word.now line.now }
{
    let (arrow, rest) = halves(b' ', line)?;
    let (second, rest) = halves(b' ', rest)?;
    numbers_behind(word, arrow, second, rest)
}

fn value_of_rest<'t>(name: &'t [u8], rest: &'t [u8]) -> Option<(&'t [u8], &'t [u8])>
    ensures { seen result ≡ value_of_rest (name.now, rest.now) }
{
    let (sign, marked) = rest.split_first()?;
    let (blank, value) = marked.split_first()?;
    if *sign == b'=' && *blank == b' ' && halves(b' ', value).is_none() {
        Some((name, value))
    } else {
        None
    }
}

/// Returns the name and the value of a line `NAME = VALUE`, or None where the line is not of this form.
pub fn value_parts(line: &[u8]) -> Option<(&[u8], &[u8])>
    ensures { seen result ≡ value_parts line.now }
{
    let (name, rest) = halves(b' ', line)?;
    value_of_rest(name, rest)
}
