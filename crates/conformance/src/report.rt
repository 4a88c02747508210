// The report of one file of cases.
use case_text::{Answer, Case, Fault, Files, Tally, Unread, put_unreadable, read_cases, utf8};
use command_cases::{put_run, put_sure_run};
use library_cases::put_calls;
use std::alloc::Global;
use text_core::{NoMemory, Shelf, Sink, Text, write_whole};

/// Writes the report of a file of cases, and returns whether all of them passed.
///
/// Returns None where the report could not be built or written.
pub fn write_report<F: Shelf + Drop, K: Sink>(
    alloc: Global,
    files: &mut Files<F>,
    sink: &mut K,
    name: &str,
) -> Option<bool> {
    let (text, passed) = file_report(alloc, files, name).ok()?;
    write_whole(sink, text.bytes()).ok()?;
    Some(passed)
}

// The report of a file of cases, and whether all of them passed.
fn file_report<F: Shelf + Drop>(
    alloc: Global,
    files: &mut Files<F>,
    name: &str,
) -> Result<(Text, bool), NoMemory> {
    let mut out = Answer::new(alloc);
    let passed = put_report(alloc, &mut out, files, name);
    Ok((out.done()?, passed))
}

fn put_report<F: Shelf + Drop>(
    alloc: Global,
    out: &mut Answer,
    files: &mut Files<F>,
    name: &str,
) -> bool {
    match files.read(alloc, name) {
        Ok(bytes) => put_bytes_report(alloc, out, files, name, bytes.as_slice()),
        Err(fault) => put_unread(out, name, 0, fault),
    }
}

fn put_bytes_report<F: Shelf + Drop>(
    alloc: Global,
    out: &mut Answer,
    files: &mut Files<F>,
    name: &str,
    bytes: &[u8],
) -> bool {
    match utf8(bytes) {
        Ok(text) => put_text_report(alloc, out, files, name, text),
        Err(fault) => put_unread(out, name, 0, fault),
    }
}

fn put_text_report<F: Shelf + Drop>(
    alloc: Global,
    out: &mut Answer,
    files: &mut Files<F>,
    name: &str,
    text: &str,
) -> bool {
    match read_cases(alloc, text) {
        Ok(cases) => put_cases_report(alloc, out, files, name, &cases),
        Err(Unread { line, fault }) => put_unread(out, name, line, fault),
    }
}

fn put_cases_report<F: Shelf + Drop>(
    alloc: Global,
    out: &mut Answer,
    files: &mut Files<F>,
    name: &str,
    cases: &[Case],
) -> bool {
    let mut tally = Tally::new(alloc);
    for case in cases {
        count_case(alloc, files, case, &mut tally);
    }
    let passed = tally.all_passed();
    tally.put_into(out, name);
    passed
}

fn count_case<F: Shelf + Drop>(
    alloc: Global,
    files: &mut Files<F>,
    case: &Case,
    tally: &mut Tally,
) {
    if let Err(fault) = put_case(alloc, files, case, tally) {
        let mut differences = Answer::new(alloc);
        put_unreadable(&mut differences, fault);
        tally.count(case.title, differences);
    }
}

fn put_case<F: Shelf + Drop>(
    alloc: Global,
    files: &mut Files<F>,
    case: &Case,
    tally: &mut Tally,
) -> Result<(), Fault> {
    match kind_of(case) {
        "run" => put_run(alloc, files, case, tally),
        "sure" => put_sure_run(alloc, files, case, tally),
        _ => put_calls(alloc, files, case, tally),
    }
}

// The key of a case's first line.
fn kind_of<'a>(case: &Case<'a>) -> &'a str {
    match case.entries.first() {
        Some(entry) => entry.key,
        None => "",
    }
}

// Reports that a file of cases can't be parsed, and from which line on, where that is known. So not all of its
// cases passed.
fn put_unread(out: &mut Answer, name: &str, line: usize, fault: Fault) -> bool {
    out.put(name.as_bytes());
    if line > 0 {
        out.put(b" at line ");
        out.put_unsigned(line as u128);
    }
    out.put(b": can't be read: ");
    out.put_fault(fault);
    out.put(b"\n");
    false
}
