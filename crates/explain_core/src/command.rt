// A whole run of `explain`: the words, the files that they name, and the notes.
use crate::ending::Ending;
use crate::lines::lines_of;
use crate::messages::put;
use crate::session::{Source, explain_notes};
use crate::table::put_table;
use std::alloc::Global;
use text_core::{Name, NoMemory, ReadEnd, Shelf, Sink, SinkFault, read_whole};

// The most bytes of a file that a command reads.
const LONGEST: usize = 134_217_728;

// The reason why a run stops before the last note.
#[derive(Clone, Copy)]
enum Stop {
    WriteFault,
    NoMemory,
}

impl From<NoMemory> for Stop {
    fn from(_: NoMemory) -> Stop {
        Stop::NoMemory
    }
}

impl From<SinkFault> for Stop {
    fn from(_: SinkFault) -> Stop {
        Stop::WriteFault
    }
}

/// Runs `explain` on its command words, without the program's name, and on the bytes of standard input.
///
/// A file that can't be read counts as not given.
pub fn explain<F: Shelf, K: Sink>(
    alloc: Global,
    words: &Vec<String>,
    notes: &[u8],
    shelf: &mut F,
    out: &mut K,
) -> Ending {
    let (table, names) = match words.as_slice() {
        [first, names @ ..] if first.as_str() == "--table" => (true, names),
        names => (false, names),
    };
    if names.len() > 2 || names.iter().any(|name| name.as_str().starts_with("--")) {
        return refused_words(out);
    }
    if table && put_table(out).is_err() {
        return Ending::WriteFault;
    }
    match explain_files(alloc, names, notes, shelf, out) {
        Ok(explained) => {
            if explained || table {
                Ending::Explained
            } else {
                Ending::Passed
            }
        }
        Err(Stop::WriteFault) => Ending::WriteFault,
        Err(Stop::NoMemory) => Ending::NoMemory,
    }
}

// Writes the usage line.
fn refused_words<K: Sink>(out: &mut K) -> Ending {
    match put(out, &[b"usage: explain [--table] [MODEL [SECOND]]\n"]) {
        Ok(()) => Ending::Usage,
        Err(_) => Ending::WriteFault,
    }
}

// Explains the notes with the files of these names.
fn explain_files<F: Shelf, K: Sink>(
    alloc: Global,
    names: &[String],
    notes: &[u8],
    shelf: &mut F,
    out: &mut K,
) -> Result<bool, Stop> {
    let model = text_of(alloc, names.first(), shelf)?;
    let second = text_of(alloc, names.get(1), shelf)?;
    explain_texts(alloc, names, notes, &model, &second, out)
}

// Explains the notes with these texts. The notes and each text are split into lines once.
fn explain_texts<K: Sink>(
    alloc: Global,
    names: &[String],
    notes: &[u8],
    model: &Option<Vec<u8>>,
    second: &Option<Vec<u8>>,
    out: &mut K,
) -> Result<bool, Stop> {
    let notes = lines_of(alloc, notes)?;
    explain_model(alloc, names, notes.as_slice(), model, second, out)
}

fn explain_model<K: Sink>(
    alloc: Global,
    names: &[String],
    notes: &[&[u8]],
    model: &Option<Vec<u8>>,
    second: &Option<Vec<u8>>,
    out: &mut K,
) -> Result<bool, Stop> {
    let model = lines_in(alloc, model)?;
    explain_second(alloc, names, notes, &model, second, out)
}

fn explain_second<K: Sink>(
    alloc: Global,
    names: &[String],
    notes: &[&[u8]],
    model: &Option<Vec<&[u8]>>,
    second: &Option<Vec<u8>>,
    out: &mut K,
) -> Result<bool, Stop> {
    let second = lines_in(alloc, second)?;
    Ok(explain_by(names, notes, model, &second, out)?)
}

// Explains the notes with these lines.
fn explain_by<K: Sink>(
    names: &[String],
    notes: &[&[u8]],
    model: &Option<Vec<&[u8]>>,
    second: &Option<Vec<&[u8]>>,
    out: &mut K,
) -> Result<bool, SinkFault> {
    let model = source(name_in(names, 0, b"model"), model);
    let second = source(name_in(names, 1, b"second"), second);
    explain_notes(notes, &model, &second, out)
}

// The name at this index, or the default word where there is none.
fn name_in<'a>(names: &'a [String], number: usize, word: &'static [u8]) -> &'a [u8] {
    match names.get(number) {
        Some(name) => name.as_bytes(),
        None => word,
    }
}

// The lines of the text, if there is one.
fn lines_in(alloc: Global, text: &Option<Vec<u8>>) -> Result<Option<Vec<&[u8]>>, NoMemory> {
    match text {
        Some(text) => Ok(Some(lines_of(alloc, text.as_slice())?)),
        None => Ok(None),
    }
}

// The bytes of the file with this name. None where no name is given or the file can't be read.
fn text_of<F: Shelf>(
    alloc: Global,
    name: Option<&String>,
    shelf: &mut F,
) -> Result<Option<Vec<u8>>, NoMemory> {
    let Some(name) = name else {
        return Ok(None);
    };
    let name = Name::of(alloc, name.as_bytes())?;
    match read_whole(alloc, shelf, &name, LONGEST) {
        Ok(bytes) => Ok(Some(bytes)),
        Err(ReadEnd::Fault | ReadEnd::TooLong) => Ok(None),
        Err(ReadEnd::NoMemory) => Err(NoMemory),
    }
}

// A file's name, and its lines where it was read.
fn source<'a, 'b>(name: &'a [u8], lines: &'b Option<Vec<&'b [u8]>>) -> Source<'a, 'b> {
    Source {
        name,
        lines: match lines {
            Some(lines) => Some(lines.as_slice()),
            None => None,
        },
    }
}
