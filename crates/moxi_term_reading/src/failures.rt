// The failing test with the least place, and at one place with the least number.
ghost use Rattle.std.specs.Prelude.{◌≡◌};
ghost use Rattle.moxi_term_reading.specs.Failures.{key, number_of, minimum};

use text_core::{Kind, Refusal};

fn number_of(kind: Kind) -> u8
    ensures { result ≡ number_of kind }
{
    match kind {
        Kind::S(n) => n,
        Kind::M(n) => n,
        Kind::B(n) => n,
        Kind::X(n) => n,
        Kind::Y(n) => n,
    }
}

fn key(r: Refusal) -> u64
    ensures { result ≡ key r }
{
    u64::from(r.place.offset) * 256 + u64::from(number_of(r.kind))
}

/// Returns the first of two failing tests: the one with the lesser place, and at one place the one with the
/// lesser number.
pub fn minimum(a: Option<Refusal>, b: Option<Refusal>) -> Option<Refusal>
    ensures { result ≡ minimum a b }
{
    match (a, b) {
        (None, other) => other,
        (Some(x), None) => Some(x),
        (Some(x), Some(y)) => if key(y) < key(x) { Some(y) } else { Some(x) },
    }
}
