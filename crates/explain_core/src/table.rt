// The table of all kinds of refusal.
use crate::advice::advice_of;
use crate::messages::put;
use crate::notes::kind_of;
use itoa::Buffer;
use text_core::{Sink, SinkFault};

/// Writes the table of all kinds of refusal, each with its cause and its fix, in Markdown.
pub fn put_table<K: Sink>(out: &mut K) -> Result<(), SinkFault> {
    put(out, &[b"| Kind | Cause | Mend |\n|---|---|---|\n"])?;
    for letter in b"SMBXY" {
        for number in 1..=28 {
            put_row(*letter, number, out)?;
        }
    }
    Ok(())
}

// Writes the row of a kind, if there is such a kind.
fn put_row<K: Sink>(letter: u8, number: u8, out: &mut K) -> Result<(), SinkFault> {
    let Some(kind) = kind_of(letter, number) else {
        return Ok(());
    };
    let (cause, remedy) = advice_of(kind);
    let name = [letter];
    let mut digits = Buffer::new();
    let pieces = [
        b"| ".as_slice(),
        &name,
        digits.format(number).as_bytes(),
        b" ",
        kind.name(),
        b" | ",
        cause,
        b" | ",
        remedy,
        b" |\n",
    ];
    put(out, &pieces)
}
