// The advice for each kind of refusal and each clause: a sentence on the cause and one on the fix.
ghost use Rattle.std.specs.Prelude.{◌≡◌, map};
ghost use Rattle.explain_core.specs.Advice.{advice_at, advice_of, plain_advice};

mod btor;
mod clauses;
mod hints;
mod moxi;
mod smv;
mod trace;
mod witness;

pub use clauses::{COMMANDS, NO_MEMORY, READ_FAULT, USAGE, WRITE_FAULT, clause_advice};
pub use hints::{hint_for, is_among};
use text_core::Kind;

/// A sentence on the cause of a note, and one on the fix.
pub type Advice = (&'static [u8], &'static [u8]);

/// Returns the advice for a kind of refusal, or empty sentences where there is no such kind.
pub fn advice_of(kind: Kind) -> Advice
    ensures { plain_advice result ≡ advice_of kind }
{
    match kind {
        Kind::S(n) => advice_at(n, &smv::ADVICE),
        Kind::M(n) => advice_at(n, &moxi::ADVICE),
        Kind::B(n) => advice_at(n, &btor::ADVICE),
        Kind::X(n) => advice_at(n, &witness::ADVICE),
        Kind::Y(n) => advice_at(n, &trace::ADVICE),
    }
}

// The row with this number, counted from 1.
fn advice_at(n: u8, rows: &[Advice]) -> Advice
    ensures { plain_advice result ≡ advice_at n (map plain_advice rows.now) }
{
    if n == 0 {
        return (b"", b"");
    }
    match rows.get(n as usize - 1) {
        Some(advice) => *advice,
        None => (b"", b""),
    }
}
