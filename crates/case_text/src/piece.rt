// The arguments of a call, piece by piece.
use crate::fault::Fault;

/// A named piece of a case, such as a model, a state or a row of a table.
#[derive(Drop)]
pub struct Piece {
    pub name: String,
    pub bytes: Vec<u8>,
}

/// Returns the bytes of the first piece with this name.
pub fn piece_bytes<'a>(pieces: &'a [Piece], name: &str) -> Result<&'a [u8], Fault> {
    for piece in pieces {
        if piece.name.as_str() == name {
            return Ok(piece.bytes.as_slice());
        }
    }
    Err(Fault::Unreadable("a piece is missing"))
}

/// Returns the bytes as a text, where they are UTF-8.
pub fn utf8<'a>(bytes: &'a [u8]) -> Result<&'a str, Fault> {
    match std::str::from_utf8(bytes) {
        Ok(text) => Ok(text),
        Err(_) => Err(Fault::Unreadable("bytes that are no text")),
    }
}

/// Parses decimal digits to a number.
pub fn number(word: &str) -> Result<u64, Fault> {
    match word.parse::<u64>() {
        Ok(n) => Ok(n),
        Err(_) => Err(Fault::Unreadable("a number")),
    }
}
