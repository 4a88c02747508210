// Parses cases from a text.
use crate::bytes::put_marked;
use crate::fault::{Fault, Unread};
use std::alloc::Global;

/// A line of a case: its key, its value, and the bytes on the marked lines below it.
#[derive(Drop)]
pub struct Entry<'a> {
    pub key: &'a str,
    pub says: &'a str,
    pub bytes: Vec<u8>,
}

/// A case: its title, which says what it shows, and its lines.
#[derive(Drop)]
pub struct Case<'a> {
    pub title: &'a str,
    pub entries: Vec<Entry<'a>>,
}

/// Parses the cases of a text.
///
/// Empty lines and lines that begin with `#` are skipped.
pub fn read_cases<'a>(alloc: Global, text: &'a str) -> Result<Vec<Case<'a>>, Unread> {
    let mut cases = Vec::new(alloc);
    take_lines(alloc, &mut cases, text)?;
    Ok(cases)
}

fn take_lines<'a>(alloc: Global, cases: &mut Vec<Case<'a>>, text: &'a str) -> Result<(), Unread> {
    for (k, line) in text.lines().enumerate() {
        if let Err(fault) = take_line(alloc, cases, line) {
            return Err(Unread {
                line: k.saturating_add(1),
                fault,
            });
        }
    }
    Ok(())
}

fn take_line<'a>(alloc: Global, cases: &mut Vec<Case<'a>>, line: &'a str) -> Result<(), Fault> {
    match line.as_bytes() {
        [] | [b'#', ..] => Ok(()),
        [mark @ (b'|' | b'~' | b'*' | b'%' | b'@' | b'$'), ..] => {
            let mark = *mark;
            take_marked(cases, mark, marked_text(line))
        }
        _ => take_entry(alloc, cases, line),
    }
}

// The text after a line's mark and one blank.
fn marked_text(line: &str) -> &str {
    match line.split_once(' ') {
        Some((_, text)) => text,
        None => "",
    }
}

fn take_marked<'a>(cases: &mut Vec<Case<'a>>, mark: u8, text: &str) -> Result<(), Fault> {
    match cases.last_mut() {
        Some(case) => match case.entries.last_mut() {
            Some(entry) => put_marked(&mut entry.bytes, mark, text),
            None => Err(Fault::Unreadable("bytes before a line that takes them")),
        },
        None => Err(Fault::Unreadable("bytes before a case")),
    }
}

fn take_entry<'a>(alloc: Global, cases: &mut Vec<Case<'a>>, line: &'a str) -> Result<(), Fault> {
    let (key, says) = line.split_once(' ').unwrap_or((line, ""));
    if key == "case" {
        begin_case(alloc, cases, says)
    } else {
        match cases.last_mut() {
            Some(case) => add_entry(alloc, &mut case.entries, key, says),
            None => Err(Fault::Unreadable("a line before a case")),
        }
    }
}

fn begin_case<'a>(alloc: Global, cases: &mut Vec<Case<'a>>, title: &'a str) -> Result<(), Fault> {
    let entries = Vec::new(alloc);
    Ok(cases.push(Case { title, entries })?)
}

fn add_entry<'a>(
    alloc: Global,
    entries: &mut Vec<Entry<'a>>,
    key: &'a str,
    says: &'a str,
) -> Result<(), Fault> {
    let bytes = Vec::new(alloc);
    Ok(entries.push(Entry { key, says, bytes })?)
}
