// Families: a case that states many runs. In run N a file has its first N bytes, or call N fails. In the run of a
// row, the files contain the row's text.
use case_text::{Case, Entry, Fault, Files, number};
use std::alloc::Global;
use text_core::Shelf;

/// The runs to which a numbered line applies, from the first to the last.
#[derive(Clone, Copy)]
pub struct Range {
    pub first: u64,
    pub last: u64,
}

/// One run of a family: its number, or its row.
///
/// For other cases nothing depends on it.
#[derive(Clone, Copy)]
pub struct Member<'a> {
    pub number: u64,
    pub row: Option<&'a str>,
}

impl<'a> Member<'a> {
    /// Returns the only run of a case.
    pub fn only() -> Member<'a> {
        Member::numbered(0)
    }

    /// Returns the run with this number.
    pub fn numbered(number: u64) -> Member<'a> {
        Member { number, row: None }
    }

    /// Returns the run of a row with this text.
    pub fn of_row(row: &'a str) -> Member<'a> {
        Member {
            number: 0,
            row: Some(row),
        }
    }
}

/// Returns whether the case states a numbered family of runs.
pub fn is_family(case: &Case) -> bool {
    case.entries
        .iter()
        .any(|e| e.key == "fronts" || fails_each(e))
}

/// Returns whether the case states a run for each row of a table.
pub fn is_table(case: &Case) -> bool {
    case.entries.iter().any(|e| e.key == "row")
}

/// Returns the text of a row, and the line after it with the expected result of its run, if there is one.
pub fn row_and_line<'a>(entry: &Entry<'a>) -> (&'a str, Option<&'a str>) {
    match entry.says.rsplit_once(" => ") {
        Some((row, line)) => (row, Some(line)),
        None => (entry.says, None),
    }
}

/// Returns whether the line states that call N fails in run N.
pub fn fails_each(entry: &Entry) -> bool {
    entry.says == "fails each"
}

/// Returns the runs to which a line applies, where it begins with their numbers, as `7` or `0-6`.
///
/// Returns `Ok(None)` for any other line.
pub fn range_of(entry: &Entry) -> Result<Option<Range>, Fault> {
    match entry.key.as_bytes() {
        [b'0'..=b'9', ..] => Ok(Some(range_in(entry.key)?)),
        _ => Ok(None),
    }
}

fn range_in(key: &str) -> Result<Range, Fault> {
    let (first, last) = key.split_once('-').unwrap_or((key, key));
    Ok(Range {
        first: number(first)?,
        last: number(last)?,
    })
}

/// Checks that no two lines apply to the same run, and that there is a line for each prefix of a file.
///
/// Returns an error for a family with no runs.
pub fn check_ranges<F: Shelf + Drop>(
    alloc: Global,
    files: &mut Files<F>,
    case: &Case,
) -> Result<(), Fault> {
    let count = front_count(alloc, files, case)?;
    let next = range_end(case, count.is_some())?;
    if next == 0 {
        Err(Fault::Unreadable("a family with no runs"))
    } else if count.is_some_and(|count| count != next) {
        Err(Fault::Unreadable("a line for each front of the file"))
    } else {
        Ok(())
    }
}

// The number of prefixes of the file after `fronts`, if the case has such a line.
fn front_count<F: Shelf + Drop>(
    alloc: Global,
    files: &mut Files<F>,
    case: &Case,
) -> Result<Option<u64>, Fault> {
    for entry in &case.entries {
        if entry.key == "fronts" {
            let length = files.pair(alloc, entry)?.bytes.len() as u64;
            return Ok(Some(length.saturating_add(1)));
        }
    }
    Ok(None)
}

// The number after the family's last. In a dense family no number may be missing.
fn range_end(case: &Case, dense: bool) -> Result<u64, Fault> {
    let mut next = 0;
    for entry in &case.entries {
        if let Some(range) = range_of(entry)? {
            next = end_after(next, range, dense)?;
        }
    }
    Ok(next)
}

// The number after a range, where `next` is the number after the range before it.
fn end_after(next: u64, range: Range, dense: bool) -> Result<u64, Fault> {
    let Range { first, last } = range;
    if first < next || last < first || (dense && first != next) {
        return Err(Fault::Unreadable("numbers of runs in order, each once"));
    }
    Ok(last.saturating_add(1))
}
