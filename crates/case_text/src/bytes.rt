// The bytes that marked lines give.
use crate::fault::Fault;
use crate::piece::number;
use itoa::Buffer;
use std::alloc::Global;

/// Returns the bytes of a text, with a line feed for each `\n` in it.
pub fn lines_of(alloc: Global, text: &str) -> Result<Vec<u8>, Fault> {
    let mut bytes = Vec::new(alloc);
    put_lines(&mut bytes, text)?;
    Ok(bytes)
}

/// Appends the bytes of a text, with a line feed for each `\n` in it.
pub fn put_lines(bytes: &mut Vec<u8>, text: &str) -> Result<(), Fault> {
    let mut parts = text.split("\\n");
    if let Some(front) = parts.next() {
        bytes.extend_from_slice(front.as_bytes())?;
    }
    for part in parts {
        bytes.push(b'\n')?;
        bytes.extend_from_slice(part.as_bytes())?;
    }
    Ok(())
}

/// Appends the bytes that a marked line gives.
///
/// After `|` comes a text that is ended with a line feed, and after `~` a text without one. After `*` come a count
/// and a text to repeat. After `%` come two numbers and a text for each number between them, and after `@` the same
/// with a line feed after each. After `$` come bytes in hexadecimal.
pub(crate) fn put_marked(bytes: &mut Vec<u8>, mark: u8, text: &str) -> Result<(), Fault> {
    match mark {
        b'|' => put_line(bytes, text),
        b'~' => Ok(bytes.extend_from_slice(text.as_bytes())?),
        b'*' => put_repeated(bytes, text),
        b'%' => put_numbered(bytes, text, b""),
        b'@' => put_numbered(bytes, text, b"\n"),
        _ => put_hexadecimal(bytes, text),
    }
}

fn put_line(bytes: &mut Vec<u8>, text: &str) -> Result<(), Fault> {
    bytes.extend_from_slice(text.as_bytes())?;
    Ok(bytes.push(b'\n')?)
}

// The parts before and after the first blank.
fn parts<'a>(text: &'a str, wanted: &'static str) -> Result<(&'a str, &'a str), Fault> {
    match text.split_once(' ') {
        Some(parts) => Ok(parts),
        None => Err(Fault::Unreadable(wanted)),
    }
}

fn put_repeated(bytes: &mut Vec<u8>, text: &str) -> Result<(), Fault> {
    let (count, piece) = parts(text, "a count and a text")?;
    for _ in 0..number(count)? {
        bytes.extend_from_slice(piece.as_bytes())?;
    }
    Ok(())
}

fn put_numbered(bytes: &mut Vec<u8>, text: &str, end: &[u8]) -> Result<(), Fault> {
    let (first, rest) = parts(text, "two numbers and a text")?;
    let (last, piece) = parts(rest, "two numbers and a text")?;
    put_each(bytes, number(first)?, number(last)?, piece, end)
}

// Appends the text and the end for each number from the first to the last.
fn put_each(
    bytes: &mut Vec<u8>,
    first: u64,
    last: u64,
    text: &str,
    end: &[u8],
) -> Result<(), Fault> {
    for i in first..=last {
        put_with(bytes, text, i)?;
        bytes.extend_from_slice(end)?;
    }
    Ok(())
}

// Appends the text with the number in place of `{i}`, and its neighbours in place of `{i-1}` and `{i+1}`.
fn put_with(bytes: &mut Vec<u8>, text: &str, i: u64) -> Result<(), Fault> {
    let mut parts = text.split("{i");
    if let Some(front) = parts.next() {
        bytes.extend_from_slice(front.as_bytes())?;
    }
    for part in parts {
        put_shifted(bytes, part, i)?;
    }
    Ok(())
}

// Appends what follows `{i`: the end of the number's mark, and the text after it.
fn put_shifted(bytes: &mut Vec<u8>, part: &str, i: u64) -> Result<(), Fault> {
    let (shift, rest) = part.split_once('}').ok_or("an end of {i}")?;
    put_digits(bytes, shifted(shift, i)?)?;
    Ok(bytes.extend_from_slice(rest.as_bytes())?)
}

fn put_digits(bytes: &mut Vec<u8>, n: u64) -> Result<(), Fault> {
    let mut buffer = Buffer::new();
    let digits = buffer.format(n);
    Ok(bytes.extend_from_slice(digits.as_bytes())?)
}

fn shifted(shift: &str, i: u64) -> Result<u64, Fault> {
    match shift.as_bytes() {
        [] => Ok(i),
        [b'-', b'1'] => Ok(i.saturating_sub(1)),
        [b'+', b'1'] => Ok(i.saturating_add(1)),
        _ => Err(Fault::Unreadable("a number other than {i}, {i-1}, {i+1}")),
    }
}

fn put_hexadecimal(bytes: &mut Vec<u8>, text: &str) -> Result<(), Fault> {
    for word in text.split_whitespace() {
        bytes.push(byte_of(word)?)?;
    }
    Ok(())
}

fn byte_of(word: &str) -> Result<u8, Fault> {
    match u8::from_str_radix(word, 16) {
        Ok(byte) => Ok(byte),
        Err(_) => Err(Fault::Unreadable("a byte in hexadecimal")),
    }
}
