// The calls that a case states.
use crate::explaining::put_explanation;
use crate::models::put_model;
use crate::scripts::{put_forms, put_script};
use crate::terms::put_term_value;
use crate::types::put_type_of;
use crate::values::put_value_of;
use crate::witnesses::put_witness;
use case_text::{
    Answer, Case, Entry, Fault, Files, Piece, Tally, lines_of, put_difference, put_unreadable,
};
use std::alloc::Global;
use text_core::{Shelf, Text};

/// Makes the calls that the case states, and counts each.
///
/// - `smv print`: the printed form of the model in `text`;
/// - `smv type`: the type of the expression in `text`, which uses no names;
/// - `smv value PATH`: the value of the expression in `text`, in the instance with this path (`main` for the main
///   module) of the model `model`, in which each variable is an instance;
/// - `moxi forms`: the printed forms of `text`;
/// - `moxi script`: the printed form of the script in `text`;
/// - `moxi value`: the value of the term in `text`, with the declarations in `scope`, which are whole lines;
/// - `btor witness`: the printed form of the witness in `text` for the lines in `lines`;
/// - `explain WORDS`: the output of `explain`, given these words and the piece `notes`; each piece is also a file.
///
/// A row gives the piece `text`. In a row and its answer, `\n` is a line feed.
pub fn put_calls<F: Shelf + Drop>(
    alloc: Global,
    files: &mut Files<F>,
    case: &Case,
    tally: &mut Tally,
) -> Result<(), Fault> {
    let mut pieces = Vec::new(alloc);
    put_entries(alloc, files, case, &mut pieces, tally)
}

fn put_entries<F: Shelf + Drop>(
    alloc: Global,
    files: &mut Files<F>,
    case: &Case,
    pieces: &mut Vec<Piece>,
    tally: &mut Tally,
) -> Result<(), Fault> {
    let mut call = "";
    for entry in &case.entries {
        match entry.key {
            "call" => call = entry.says,
            "given" => pieces.push(files.piece(alloc, entry)?)?,
            "answer" => put_answered(alloc, files, case, call, pieces, entry, tally)?,
            "row" => put_row(alloc, case, call, pieces, entry, tally)?,
            _ => return Err(Fault::Unreadable("a line that says nothing of a call")),
        }
    }
    Ok(())
}

// Makes the call, whose expected answer is below the line or in the file that it names.
fn put_answered<F: Shelf + Drop>(
    alloc: Global,
    files: &mut Files<F>,
    case: &Case,
    call: &str,
    pieces: &[Piece],
    entry: &Entry,
    tally: &mut Tally,
) -> Result<(), Fault> {
    match entry.says.split_once(' ') {
        Some(("from", name)) => {
            let wanted = files.read(alloc, name)?;
            put_call(alloc, case, call, pieces, &wanted, tally);
        }
        _ => put_call(alloc, case, call, pieces, &entry.bytes, tally),
    }
    Ok(())
}

// Makes the call with one more piece, the row's text.
fn put_row(
    alloc: Global,
    case: &Case,
    call: &str,
    pieces: &mut Vec<Piece>,
    entry: &Entry,
    tally: &mut Tally,
) -> Result<(), Fault> {
    let (row, wanted) = entry
        .says
        .rsplit_once(" => ")
        .ok_or("a row and its answer")?;
    let wanted = lines_of(alloc, wanted)?;
    pieces.push(row_piece(alloc, row)?)?;
    put_call(alloc, case, call, pieces, &wanted, tally);
    let _row = pieces.pop();
    Ok(())
}

fn row_piece(alloc: Global, row: &str) -> Result<Piece, Fault> {
    let name = String::from_str(alloc, "text")?;
    let bytes = lines_of(alloc, row)?;
    Ok(Piece { name, bytes })
}

fn put_call(
    alloc: Global,
    case: &Case,
    call: &str,
    pieces: &[Piece],
    wanted: &[u8],
    tally: &mut Tally,
) {
    let mut differences = Answer::new(alloc);
    match answer(alloc, call, pieces) {
        Ok(came) => put_difference(&mut differences, "answer", wanted, came.bytes()),
        Err(fault) => put_unreadable(&mut differences, fault),
    }
    tally.count(case.title, differences);
}

fn answer(alloc: Global, call: &str, pieces: &[Piece]) -> Result<Text, Fault> {
    let mut out = Answer::new(alloc);
    put_answer(alloc, &mut out, call, pieces)?;
    Ok(out.done()?)
}

fn put_answer(alloc: Global, out: &mut Answer, call: &str, pieces: &[Piece]) -> Result<(), Fault> {
    match call {
        "smv print" => put_model(alloc, out, pieces),
        "smv type" => put_type_of(alloc, out, pieces),
        "moxi forms" => put_forms(alloc, out, pieces),
        "moxi script" => put_script(alloc, out, pieces),
        "moxi value" => put_term_value(alloc, out, pieces),
        "btor witness" => put_witness(alloc, out, pieces),
        "explain" => put_explanation(alloc, out, "", pieces),
        _ => put_worded(alloc, out, call, pieces),
    }
}

// Appends the answer to a call that has words of its own.
fn put_worded(alloc: Global, out: &mut Answer, call: &str, pieces: &[Piece]) -> Result<(), Fault> {
    if let Some(("smv", path)) = call.split_once(" value ") {
        return put_value_of(alloc, out, path, pieces);
    }
    match call.split_once(' ') {
        Some(("explain", words)) => put_explanation(alloc, out, words, pieces),
        _ => Err(Fault::from("no such call")),
    }
}
