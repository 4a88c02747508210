// The verdict of a judge on a stated run.

/// The clause of a run's definition that a stated run fails first at a step.
///
/// The variants are in the order in which the clauses are tested.
#[derive(Clone, Copy, Debug, PartialEq, Eq)]
pub enum Clause {
    /// A value of a step that is not of its variable's type.
    ValueOutside,
    /// A first state that breaks an initial condition (`INIT`, `init(x) :=`, `:init`).
    InitFails,
    /// A step that breaks the transition relation (`TRANS`, `next(x) :=`, `:trans`) or changes a frozen variable.
    TransFails,
    /// A state that breaks a condition on every state (`INVAR`, `x :=`, `:inv`).
    InvarFails,
    /// An `:assumption` of the query that is false.
    AssumptionFails,
    /// A `:current` formula of the query that is false in step 0.
    CurrentFails,
    /// A state of a witness that differs from what its init or next gives.
    StateDiffers,
    /// A constraint line that is false.
    ConstraintFails,
    /// A last step that keeps the invariant, or misses the bad line or the query.
    NotBroken,
}

/// The verdict on a stated run: it is a run, or the earliest step with a failing clause and that clause.
///
/// Steps count from 0.
#[derive(Clone, Copy, Debug, PartialEq, Eq)]
pub enum Verdict {
    Yes,
    No(u32, Clause),
}
