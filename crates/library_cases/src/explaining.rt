// The output of `explain`.
use case_text::{Answer, Fault, Piece, piece_bytes};
use explain_core::explain;
use std::alloc::Global;
use text_core::{FilePair, FilePairs, MemorySink, Name, Numbers, SureShelf};

// The most bytes of the output of `explain` in a case.
const ROOM: usize = 1 << 20;

/// Appends the output of `explain` for these words, and its exit status where that isn't 0.
///
/// The piece `notes` is its standard input, and each piece is a file.
pub(crate) fn put_explanation(
    alloc: Global,
    out: &mut Answer,
    words: &str,
    pieces: &[Piece],
) -> Result<(), Fault> {
    let words = owned(alloc, words)?;
    let mut shelf = SureShelf::new(files_of(alloc, pieces)?);
    let mut written = MemorySink::new(alloc, ROOM, usize::MAX, Numbers::new(alloc))?;
    let notes = piece_bytes(pieces, "notes")?;
    let ending = explain(alloc, &words, notes, &mut shelf, &mut written);
    out.put(written.bytes());
    if ending.number() > 0 {
        out.put(b"status ");
        out.put_unsigned(u128::from(ending.number()));
        out.put(b"\n");
    }
    Ok(())
}

// The words, separated by single blanks.
fn owned(alloc: Global, words: &str) -> Result<Vec<String>, Fault> {
    let mut owned = Vec::new(alloc);
    for word in words.split(' ') {
        if !word.is_empty() {
            owned.push(String::from_str(alloc, word)?)?;
        }
    }
    Ok(owned)
}

fn files_of(alloc: Global, pieces: &[Piece]) -> Result<FilePairs, Fault> {
    let mut files = FilePairs::new(alloc);
    for piece in pieces {
        let name = Name::of(alloc, piece.name.as_bytes())?;
        let bytes = piece.bytes.as_slice().to_vec(alloc)?;
        files.push(FilePair { name, bytes })?;
    }
    Ok(files)
}
