// The positions of expressions.
ghost use Rattle.std.specs.Prelude.{◌≡◌};
ghost use Rattle.smv_meaning.specs.Checks.{single, with_sets, under_next};
ghost use Rattle.smv_types.specs.View.{position_seen, permissions_seen};

/// The position of a whole expression (NuSMV 2.6 User Manual, 2.3).
///
/// Inputs, `next` and sets are each allowed only in some positions.
#[derive(Clone, Copy, PartialEq, Eq)]
pub enum Position {
    /// In INIT, INVAR or INVARSPEC: no input, no `next`, no set.
    Now,
    /// In TRANS: inputs and `next`, no set.
    Step,
    /// The body of a definition: inputs, no `next`, no set.
    Define,
    /// An actual parameter: inputs, no `next`, no set.
    Actual,
    /// The right side of `x :=`: sets, no input, no `next`.
    AssignNow,
    /// The right side of `init(x) :=`: sets, no input, no `next`.
    AssignFirst,
    /// The right side of `next(x) :=`: inputs, `next` and sets.
    AssignFollowing,
}

/// What is allowed at a position within an expression.
#[derive(Clone, Copy, PartialEq, Eq)]
pub struct Permissions {
    /// Whether inputs are allowed.
    pub inputs: bool,
    /// Whether `next` is allowed.
    pub nexts: bool,
    /// Whether a set is allowed.
    pub sets: bool,
}

impl Permissions {
    /// Returns what is allowed at the top of a whole expression.
    pub fn of(position: Position) -> Permissions
        ensures { permissions_seen result ≡ position_seen position }
    {
        let (inputs, nexts, sets) = match position {
            Position::Now => (false, false, false),
            Position::Step => (true, true, false),
            Position::Define | Position::Actual => (true, false, false),
            Position::AssignNow | Position::AssignFirst => (false, false, true),
            Position::AssignFollowing => (true, true, true),
        };
        Permissions {
            inputs,
            nexts,
            sets,
        }
    }

    /// Returns the same permissions without sets.
    pub fn without_sets(self) -> Permissions
        ensures { permissions_seen result ≡ single (permissions_seen self) }
    {
        Permissions {
            sets: false,
            ..self
        }
    }

    /// Returns the same permissions with sets.
    pub fn with_sets(self) -> Permissions
        ensures { permissions_seen result ≡ with_sets (permissions_seen self) }
    {
        Permissions { sets: true, ..self }
    }

    /// Returns what is allowed under `next`: no input, no `next` and no set.
    pub fn under_next() -> Permissions
        ensures { permissions_seen result ≡ under_next }
    {
        Permissions {
            inputs: false,
            nexts: false,
            sets: false,
        }
    }
}
