// The reason why a line of a witness is not accepted.

use text_core::{Kind, NoMemory};

/// The reason why a line is not accepted: a refusal of this kind, or out of memory.
#[derive(Drop)]
pub enum LineEnd {
    Bad(Kind),
    NoMemory,
}

impl From<NoMemory> for LineEnd {
    ghost use Rattle.std.specs.Prelude.{◌≡◌};
    ghost use Rattle.btor_witness.specs.declared.ends.LineEnd.TheVariants.{NoMemory};

    ghost from_gives = { λ _ e. e ≡ NoMemory };

    fn from(_: NoMemory) -> LineEnd {
        LineEnd::NoMemory
    }
}
