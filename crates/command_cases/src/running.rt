// Runs of the program over files and streams in memory.
ghost use Rattle.std.specs.Prelude.{◌≡◌, ◌≢◌, Some, map, string_bytes};
ghost use Rattle.top_call.specs.Words.{command_of};
ghost use Rattle.top_call.specs.Outcome.{IsAbsent};

use crate::family::{Member, Range, check_ranges, is_family, is_table, range_of, row_and_line};
use crate::setting::{Setting, reads_of};
use crate::short::ShortShelf;
use crate::wanted::Wanted;
use case_text::{Answer, Case, Entry, Fault, Files, Tally, put_difference, put_number_difference};
use std::alloc::Global;
use text_core::{DropSink, MemoryShelf, Shelf, SureShelf};
use top_call::{Status, run};

/// Runs the program as the case states, and counts the case, or each run of a family.
pub fn put_run<F: Shelf + Drop>(
    alloc: Global,
    files: &mut Files<F>,
    case: &Case,
    tally: &mut Tally,
) -> Result<(), Fault> {
    if is_family(case) {
        put_family(alloc, files, case, tally)
    } else if is_table(case) {
        put_table(alloc, files, case, tally)
    } else {
        let wanted = Wanted::of(alloc, files, case)?;
        count_runs(
            alloc,
            files,
            case,
            Member::only(),
            &wanted,
            case.title,
            tally,
        )
    }
}

fn put_family<F: Shelf + Drop>(
    alloc: Global,
    files: &mut Files<F>,
    case: &Case,
    tally: &mut Tally,
) -> Result<(), Fault> {
    check_ranges(alloc, files, case)?;
    for entry in &case.entries {
        if let Some(range) = range_of(entry)? {
            put_range(alloc, files, case, entry, range, tally)?;
        }
    }
    Ok(())
}

fn put_range<F: Shelf + Drop>(
    alloc: Global,
    files: &mut Files<F>,
    case: &Case,
    entry: &Entry,
    range: Range,
    tally: &mut Tally,
) -> Result<(), Fault> {
    for number in range.first..=range.last {
        put_numbered(alloc, files, case, entry, number, tally)?;
    }
    Ok(())
}

// Makes a numbered run. The report shows its number after the title.
fn put_numbered<F: Shelf + Drop>(
    alloc: Global,
    files: &mut Files<F>,
    case: &Case,
    entry: &Entry,
    number: u64,
    tally: &mut Tally,
) -> Result<(), Fault> {
    let wanted = Wanted::of_line(alloc, files, case, entry, entry.says, number)?;
    let title = format!(in alloc; "{}: {}", case.title, number)?;
    let member = Member::numbered(number);
    count_runs(alloc, files, case, member, &wanted, title.as_str(), tally)
}

fn put_table<F: Shelf + Drop>(
    alloc: Global,
    files: &mut Files<F>,
    case: &Case,
    tally: &mut Tally,
) -> Result<(), Fault> {
    for entry in &case.entries {
        if entry.key == "row" {
            put_row(alloc, files, case, entry, tally)?;
        }
    }
    Ok(())
}

// Makes the run of a row. The report shows the row's text after the title.
fn put_row<F: Shelf + Drop>(
    alloc: Global,
    files: &mut Files<F>,
    case: &Case,
    entry: &Entry,
    tally: &mut Tally,
) -> Result<(), Fault> {
    let (row, line) = row_and_line(entry);
    let wanted = match line {
        Some(line) => Wanted::of_line(alloc, files, case, entry, line, 0)?,
        None => Wanted::of(alloc, files, case)?,
    };
    let title = format!(in alloc; "{}: {}", case.title, row)?;
    let member = Member::of_row(row);
    count_runs(alloc, files, case, member, &wanted, title.as_str(), tally)
}

fn count_runs<F: Shelf + Drop>(
    alloc: Global,
    files: &mut Files<F>,
    case: &Case,
    member: Member,
    wanted: &Wanted,
    title: &str,
    tally: &mut Tally,
) -> Result<(), Fault> {
    let mut differences = Answer::new(alloc);
    put_runs(alloc, files, case, member, wanted, &mut differences)?;
    tally.count(title, differences);
    Ok(())
}

// Runs each command that the case states.
fn put_runs<F: Shelf + Drop>(
    alloc: Global,
    files: &mut Files<F>,
    case: &Case,
    member: Member,
    wanted: &Wanted,
    differences: &mut Answer,
) -> Result<(), Fault> {
    for entry in &case.entries {
        if entry.key == "run" {
            put_command(alloc, files, case, entry.says, member, wanted, differences)?;
        }
    }
    Ok(())
}

// Makes a run for each number that `shelf most` states: the most bytes of one read.
fn put_command<F: Shelf + Drop>(
    alloc: Global,
    files: &mut Files<F>,
    case: &Case,
    words: &str,
    member: Member,
    wanted: &Wanted,
    differences: &mut Answer,
) -> Result<(), Fault> {
    let reads = reads_of(alloc, case)?;
    for most in reads.iter() {
        let setting = Setting::of(alloc, files, case, words, member)?;
        put_set_run(alloc, setting, *most, wanted, differences)?;
    }
    Ok(())
}

fn put_set_run(
    alloc: Global,
    setting: Setting,
    most: u64,
    wanted: &Wanted,
    differences: &mut Answer,
) -> Result<(), Fault> {
    let files = MemoryShelf::new(setting.files, setting.shelf_fails);
    let mut shelf = ShortShelf::new(files, usize::try_from(most).unwrap_or(0));
    let mut out = setting.out.sink(alloc)?;
    let mut notes = setting.notes.sink(alloc)?;
    let status = run(alloc, &setting.words, &mut shelf, &mut out, &mut notes);
    put_number_difference(
        differences,
        "status",
        wanted.status,
        u64::from(status.number()),
    );
    put_difference(differences, "out", &wanted.out, out.bytes());
    put_difference(differences, "notes", &wanted.notes, notes.bytes());
    Ok(())
}

/// Runs the program over files and streams that never fail, and compares only the status.
pub fn put_sure_run<F: Shelf + Drop>(
    alloc: Global,
    files: &mut Files<F>,
    case: &Case,
    tally: &mut Tally,
) -> Result<(), Fault> {
    let wanted = Wanted::of(alloc, files, case)?;
    let words = match case.entries.first() {
        Some(entry) => entry.says,
        None => "",
    };
    let setting = Setting::of(alloc, files, case, words, Member::only())?;
    let mut shelf = SureShelf::new(setting.files);
    let status = sure_run(alloc, &setting.words, &mut shelf);
    let mut differences = Answer::new(alloc);
    put_number_difference(
        &mut differences,
        "status",
        wanted.status,
        u64::from(status.number()),
    );
    tally.count(case.title, differences);
    Ok(())
}

// With these files and streams, only a missing file is a fault.
fn sure_run(alloc: Global, words: &Vec<String>, shelf: &mut SureShelf) -> Status
    ensures writes { result ≢ Status.WriteFault }
    ensures reads { result ≡ Status.ReadFault → IsAbsent (Some shelf.old.files) (command_of (map string_bytes words.now.items)) }
{
    run(
        alloc,
        words,
        shelf,
        &mut DropSink::new(),
        &mut DropSink::new(),
    )
}
