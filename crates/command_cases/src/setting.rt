// The setting of a run.
use crate::family::{Member, fails_each};
use crate::rows::with_row;
use case_text::{Case, Entry, Fault, Files, number};
use std::alloc::Global;
use text_core::{FilePair, FilePairs, MemorySink, Numbers, Shelf};

// The room of a sink where the case states none.
const ROOM: u64 = 1_048_576;

/// The setting of a run: its words, its files, the limits of its sinks, and the calls that fail.
#[derive(Drop)]
pub struct Setting {
    pub words: Vec<String>,
    pub files: FilePairs,
    pub shelf_fails: Numbers,
    pub out: Limits,
    pub notes: Limits,
}

/// The limits of a sink: its room, the most bytes of a call, and the numbers of the calls that fail.
#[derive(Drop)]
pub struct Limits {
    room: u64,
    most: u64,
    fails: Numbers,
}

impl Limits {
    fn new(alloc: Global) -> Limits {
        Limits {
            room: ROOM,
            most: ROOM,
            fails: Numbers::new(alloc),
        }
    }

    // Applies a line, if it states a limit.
    fn take(&mut self, alloc: Global, entry: &Entry, number: u64) -> Result<(), Fault> {
        match entry.says.split_once(' ') {
            Some(("fails", _)) => self.fails = failing(alloc, entry, number)?,
            Some(("most", rest)) => self.most = case_text::number(rest)?,
            Some(("room", rest)) => self.room = case_text::number(rest)?,
            _ => {}
        }
        Ok(())
    }

    /// Returns the sink with these limits.
    pub fn sink(self, alloc: Global) -> Result<MemorySink, Fault> {
        let most = usize::try_from(self.most).unwrap_or(usize::MAX);
        let room = usize::try_from(self.room).unwrap_or(usize::MAX);
        if most == 0 {
            return Err(Fault::Unreadable("a sink takes at least one byte in a call"));
        }
        Ok(MemorySink::new(alloc, room, most, self.fails)?)
    }
}

impl Setting {
    /// Returns the setting that a case states for a run with these words.
    pub fn of<F: Shelf + Drop>(
        alloc: Global,
        files: &mut Files<F>,
        case: &Case,
        words: &str,
        member: Member,
    ) -> Result<Setting, Fault> {
        let mut setting = Setting {
            words: strings(alloc, words)?,
            files: FilePairs::new(alloc),
            shelf_fails: Numbers::new(alloc),
            out: Limits::new(alloc),
            notes: Limits::new(alloc),
        };
        setting.take_all(alloc, files, case, member)?;
        Ok(setting)
    }

    fn take_all<F: Shelf + Drop>(
        &mut self,
        alloc: Global,
        files: &mut Files<F>,
        case: &Case,
        member: Member,
    ) -> Result<(), Fault> {
        for entry in &case.entries {
            self.take(alloc, files, entry, member)?;
        }
        Ok(())
    }

    // Applies a line, if it states part of the setting.
    fn take<F: Shelf + Drop>(
        &mut self,
        alloc: Global,
        files: &mut Files<F>,
        entry: &Entry,
        member: Member,
    ) -> Result<(), Fault> {
        match entry.key {
            "file" => self
                .files
                .push(with_row(alloc, files.pair(alloc, entry)?, member.row)?)?,
            "fronts" => self
                .files
                .push(front(files.pair(alloc, entry)?, member.number))?,
            "shelf" => {
                if let Some(("fails", _)) = entry.says.split_once(' ') {
                    self.shelf_fails = failing(alloc, entry, member.number)?;
                }
            }
            "out" => self.out.take(alloc, entry, member.number)?,
            "notes" => self.notes.take(alloc, entry, member.number)?,
            _ => {}
        }
        Ok(())
    }
}

// The file, cut to its first bytes.
fn front(mut file: FilePair, count: u64) -> FilePair {
    file.bytes
        .truncate(usize::try_from(count).unwrap_or(usize::MAX));
    file
}

// The numbers of the calls that fail: the run's own for `fails each`, else those that the line states.
fn failing(alloc: Global, entry: &Entry, run: u64) -> Result<Numbers, Fault> {
    if fails_each(entry) {
        one(alloc, run)
    } else {
        match entry.says.split_once(' ') {
            Some((_, rest)) => numbers(alloc, rest),
            None => Ok(Numbers::new(alloc)),
        }
    }
}

fn one(alloc: Global, n: u64) -> Result<Numbers, Fault> {
    let mut numbers = Numbers::new(alloc);
    numbers.push(n)?;
    Ok(numbers)
}

/// Returns the most bytes of one read, for each of the runs that a case states.
///
/// The value 0 means no limit, and is the default.
pub fn reads_of(alloc: Global, case: &Case) -> Result<Numbers, Fault> {
    for entry in &case.entries {
        if let Some(says) = reads_in(entry) {
            return numbers(alloc, says);
        }
    }
    numbers(alloc, "0")
}

fn reads_in<'a>(entry: &Entry<'a>) -> Option<&'a str> {
    match (entry.key, entry.says.split_once(' ')) {
        ("shelf", Some(("most", rest))) => Some(rest),
        _ => None,
    }
}

fn strings(alloc: Global, says: &str) -> Result<Vec<String>, Fault> {
    let mut strings = Vec::new(alloc);
    push_strings(alloc, says, &mut strings)?;
    Ok(strings)
}

fn push_strings(alloc: Global, says: &str, strings: &mut Vec<String>) -> Result<(), Fault> {
    for word in says.split_whitespace() {
        strings.push(String::from_str(alloc, word)?)?;
    }
    Ok(())
}

fn numbers(alloc: Global, says: &str) -> Result<Numbers, Fault> {
    let mut numbers = Numbers::new(alloc);
    push_numbers(says, &mut numbers)?;
    Ok(numbers)
}

fn push_numbers(says: &str, numbers: &mut Numbers) -> Result<(), Fault> {
    for word in says.split_whitespace() {
        numbers.push(number(word)?)?;
    }
    Ok(())
}
