// The text of a row in a file.
use case_text::{Fault, put_lines, utf8};
use std::alloc::Global;
use text_core::FilePair;

/// Returns the file with the row's text filled in, if the run is that of a row.
pub fn with_row(alloc: Global, file: FilePair, row: Option<&str>) -> Result<FilePair, Fault> {
    match row {
        Some(row) => {
            let bytes = filled(alloc, &file.bytes, row)?;
            Ok(FilePair {
                name: file.name,
                bytes,
            })
        }
        None => Ok(file),
    }
}

// The bytes with the row's text in place of `{row}`, and its first word, its second and so on in place of `{1}`,
// `{2}` and so on.
fn filled(alloc: Global, bytes: &[u8], row: &str) -> Result<Vec<u8>, Fault> {
    let text = utf8(bytes)?;
    let mut filled = Vec::new(alloc);
    put_filled(&mut filled, text, row)?;
    Ok(filled)
}

fn put_filled(filled: &mut Vec<u8>, text: &str, row: &str) -> Result<(), Fault> {
    let mut parts = text.split('{');
    if let Some(front) = parts.next() {
        filled.extend_from_slice(front.as_bytes())?;
    }
    for part in parts {
        put_part(filled, part, row)?;
    }
    Ok(())
}

// Appends a part of the text, which begins after a `{`.
fn put_part(filled: &mut Vec<u8>, part: &str, row: &str) -> Result<(), Fault> {
    let (place, rest) = part.split_once('}').unwrap_or(("", ""));
    match put_at(filled, place, row)? {
        true => Ok(filled.extend_from_slice(rest.as_bytes())?),
        false => {
            filled.push(b'{')?;
            Ok(filled.extend_from_slice(part.as_bytes())?)
        }
    }
}

// Appends the text for a placeholder, and returns whether it is one.
fn put_at(filled: &mut Vec<u8>, place: &str, row: &str) -> Result<bool, Fault> {
    match place.as_bytes() {
        b"row" => put_lines(filled, row)?,
        [digit @ b'1'..=b'9'] => {
            let number = digit.saturating_sub(b'1') as usize;
            let word = row.split_whitespace().nth(number).ok_or("too short a row")?;
            put_lines(filled, word)?;
        }
        _ => return Ok(false),
    }
    Ok(true)
}
