// The expected result of a run.
use crate::family::fails_each;
use case_text::{Case, Entry, Fault, Files, number};
use std::alloc::Global;
use text_core::Shelf;

const USAGE: &[u8] = b"usage: moxi_cli COMMAND MODEL [SECOND] [--property J]\n";

/// The expected status, and the expected bytes of both streams.
#[derive(Drop)]
pub struct Wanted {
    pub status: u64,
    pub out: Vec<u8>,
    pub notes: Vec<u8>,
}

impl Wanted {
    // Status 0, with nothing written.
    fn new(alloc: Global) -> Wanted {
        Wanted {
            status: 0,
            out: Vec::new(alloc),
            notes: Vec::new(alloc),
        }
    }

    /// Returns the expected result that a case states.
    ///
    /// A line that is a note of the program implies its status, and that nothing else is written.
    pub fn of<F: Shelf + Drop>(
        alloc: Global,
        files: &mut Files<F>,
        case: &Case,
    ) -> Result<Wanted, Fault> {
        let mut wanted = Wanted::new(alloc);
        check_stated(wanted.take_all(alloc, files, case)?)?;
        Ok(wanted)
    }

    /// Returns the expected result of one run of a family: that of the case, with the line's own status, note and
    /// output.
    pub fn of_line<F: Shelf + Drop>(
        alloc: Global,
        files: &mut Files<F>,
        case: &Case,
        entry: &Entry,
        line: &str,
        number: u64,
    ) -> Result<Wanted, Fault> {
        let mut wanted = Wanted::new(alloc);
        let _for_all = wanted.take_all(alloc, files, case)?;
        wanted.take_line(alloc, files, case, entry, line, number)?;
        Ok(wanted)
    }

    // Applies the lines of a case, and returns whether one of them states a status.
    fn take_all<F: Shelf + Drop>(
        &mut self,
        alloc: Global,
        files: &mut Files<F>,
        case: &Case,
    ) -> Result<bool, Fault> {
        let mut stated = false;
        for entry in &case.entries {
            if self.take(alloc, files, entry)? {
                stated = true;
            }
        }
        Ok(stated)
    }

    // Applies a line of a family, which must state a status.
    fn take_line<F: Shelf + Drop>(
        &mut self,
        alloc: Global,
        files: &mut Files<F>,
        case: &Case,
        entry: &Entry,
        line: &str,
        number: u64,
    ) -> Result<(), Fault> {
        let (line, taken) = line_and_taken(line, number)?;
        let line = line_of(alloc, line, entry)?;
        match taken {
            Some(count) => self.cut(case, count)?,
            None => self.drop_output(&line),
        }
        check_stated(self.take(alloc, files, &line)?)
    }

    // A note alone implies that nothing else is written.
    fn drop_output(&mut self, line: &Entry) {
        if status_of_note(line).is_some() {
            self.out.clear();
        }
    }

    // Applies a line, and returns whether it states a status.
    fn take<F: Shelf + Drop>(
        &mut self,
        alloc: Global,
        files: &mut Files<F>,
        entry: &Entry,
    ) -> Result<bool, Fault> {
        match entry.key {
            "status" => self.status = number(entry.says)?,
            "done" => {
                if !entry.says.is_empty() || !entry.bytes.is_empty() {
                    self.out = text_of(alloc, files, entry)?;
                }
            }
            "usage" => {
                self.status = 3;
                self.notes = USAGE.to_vec(alloc)?;
            }
            "out" => {
                if states_text(entry) {
                    self.out = text_of(alloc, files, entry)?;
                }
                return Ok(false);
            }
            "notes" => {
                if states_text(entry) {
                    self.notes = text_of(alloc, files, entry)?;
                }
                return Ok(false);
            }
            _ => match status_of_note(entry) {
                Some(status) => {
                    self.status = status;
                    self.notes = note_of(alloc, entry)?;
                }
                None => return Ok(false),
            },
        }
        Ok(true)
    }

    // Keeps the first bytes of the stream whose calls fail.
    fn cut(&mut self, case: &Case, count: usize) -> Result<(), Fault> {
        if has_failing(case, "out") {
            cut_text(&mut self.out, count)
        } else if has_failing(case, "notes") {
            cut_text(&mut self.notes, count)
        } else {
            Err(Fault::Unreadable("bytes before a call that fails"))
        }
    }
}

fn check_stated(stated: bool) -> Result<(), Fault> {
    if stated {
        Ok(())
    } else {
        Err(Fault::Unreadable("a run with no wanted status"))
    }
}

// Whether each call of this stream fails in a run of its own.
fn has_failing(case: &Case, stream: &str) -> bool {
    case.entries
        .iter()
        .any(|e| e.key == stream && fails_each(e))
}

fn cut_text(bytes: &mut Vec<u8>, count: usize) -> Result<(), Fault> {
    if count > bytes.len() {
        return Err(Fault::Unreadable("more bytes than the text has"));
    }
    bytes.truncate(count);
    Ok(())
}

// Splits `after N bytes` or `after N bytes a call` off the end of a numbered line. In run K call K fails.
fn line_and_taken<'a>(says: &'a str, number: u64) -> Result<(&'a str, Option<usize>), Fault> {
    match says.rsplit_once(" after ") {
        Some((line, end)) => match taken_in(end, number)? {
            Some(count) => Ok((line, Some(count))),
            None => Ok((says, None)),
        },
        None => Ok((says, None)),
    }
}

fn taken_in(end: &str, calls: u64) -> Result<Option<usize>, Fault> {
    match end.split_once(' ') {
        Some((count, "byte" | "bytes")) => Ok(Some(byte_count(count, 1)?)),
        Some((count, "byte a call" | "bytes a call")) => Ok(Some(byte_count(count, calls)?)),
        _ => Ok(None),
    }
}

fn byte_count(word: &str, times: u64) -> Result<usize, Fault> {
    let count = number(word)?.saturating_mul(times);
    Ok(usize::try_from(count).unwrap_or(usize::MAX))
}

// The text of a numbered line, as a line of its own with the bytes below it.
fn line_of<'a>(alloc: Global, line: &'a str, entry: &Entry) -> Result<Entry<'a>, Fault> {
    let (key, says) = line.split_once(' ').unwrap_or((line, ""));
    let bytes = entry.bytes.as_slice().to_vec(alloc)?;
    Ok(Entry { key, says, bytes })
}

// Whether a line of a stream states its content, and not its limits.
fn states_text(entry: &Entry) -> bool {
    match entry.says {
        "" | "nothing" => true,
        says => matches!(says.split_once(' '), Some(("from", _))),
    }
}

// The bytes below a line, or those of the file that it names.
fn text_of<F: Shelf + Drop>(
    alloc: Global,
    files: &mut Files<F>,
    entry: &Entry,
) -> Result<Vec<u8>, Fault> {
    match entry.says.split_once(' ') {
        Some(("from", name)) => files.read(alloc, name),
        _ => Ok(entry.bytes.as_slice().to_vec(alloc)?),
    }
}

// The status of the note on a line, if the line is one.
fn status_of_note(entry: &Entry) -> Option<u64> {
    match (entry.key, entry.says) {
        ("no:", _) => Some(1),
        ("refused:", _) => Some(2),
        ("read", _) => Some(4),
        ("write", "fault") => Some(5),
        ("no", "memory") => Some(6),
        ("second", _) => Some(7),
        _ => None,
    }
}

// The note itself.
fn note_of(alloc: Global, entry: &Entry) -> Result<Vec<u8>, Fault> {
    let mut note = entry.key.as_bytes().to_vec(alloc)?;
    note.push(b' ')?;
    note.extend_from_slice(entry.says.as_bytes())?;
    note.push(b'\n')?;
    Ok(note)
}
