// The one error type of all readers and checks: why a text has no reading.
use crate::errors::NoMemory;
use crate::place::Refusal;
use std::alloc::{AllocError, AllocFailed};

/// The reason why a reader or a check has no result.
#[derive(Clone, Copy, Debug, PartialEq, Eq)]
pub enum End {
    /// The refusal of the text.
    Bad(Refusal),
    /// Out of memory.
    NoMemory,
}

impl From<NoMemory> for End {
    ghost use Rattle.std.specs.Prelude.{◌≡◌};
    ghost use Rattle.text_core.specs.declared.end.End.TheVariants as Of;

    ghost from_gives = { λ _ e. e ≡ Of.NoMemory };

    fn from(_: NoMemory) -> End {
        End::NoMemory
    }
}

impl From<AllocError> for End {
    ghost use Rattle.std.specs.Prelude.{◌≡◌};
    ghost use Rattle.text_core.specs.declared.end.End.TheVariants as Of;

    ghost from_gives = { λ _ e. e ≡ Of.NoMemory };

    fn from(_: AllocError) -> End {
        End::NoMemory
    }
}

impl<T: Drop> From<AllocFailed<T>> for End {
    ghost use Rattle.std.specs.Prelude.{◌≡◌};
    ghost use Rattle.text_core.specs.declared.end.End.TheVariants as Of;

    ghost from_gives = { λ _ e. e ≡ Of.NoMemory };

    fn from(_: AllocFailed<T>) -> End {
        End::NoMemory
    }
}

impl From<Refusal> for End {
    ghost use Rattle.std.specs.Prelude.{◌≡◌};
    ghost use Rattle.text_core.specs.declared.end.End.TheVariants as Of;

    ghost from_gives = { λ why e. e ≡ Of.Bad why };

    fn from(why: Refusal) -> End {
        End::Bad(why)
    }
}
