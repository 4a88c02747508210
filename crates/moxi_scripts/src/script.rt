// Scripts: systems, and the check of one of them.
ghost use Rattle.moxi_scripts.specs.Invariant.{IsSpelled, script_of};

use moxi_terms::{Scope, Term, Variables};
use text_core::{List, Name, Numbers, Place};

/// A subsystem: its name, the number of its system, and its actuals.
///
/// The actuals are numbers of variables of the containing system, for the inputs and then the outputs of the subsystem's
/// system.
#[derive(Drop)]
pub struct Subsystem {
    pub name: Name,
    pub system: u32,
    pub actuals: Numbers,
}

/// Subsystems, in the order of the text.
pub type Subsystems = List<Subsystem>;

/// A system.
///
/// Its variables are numbered from 0: inputs, then outputs, then locals.
#[derive(Drop)]
pub struct System {
    pub name: Name,
    pub inputs: Variables,
    pub outputs: Variables,
    pub locals: Variables,
    pub init: Term,
    pub trans: Term,
    pub inv: Term,
    pub subsystems: Subsystems,
}

/// Systems, in the order of their definition.
pub type Systems = List<System>;

/// An assumption, a current condition or a reachable formula.
#[derive(Drop)]
pub struct Formula {
    pub name: Name,
    pub term: Term,
}

/// Formulas of one kind, in the order of the text.
pub type Formulas = List<Formula>;

/// A query: the numbers of its assumptions, current conditions and reachable formulas, each in the order in which the query
/// names them.
///
/// It has one or more reachable formulas, each named once.
#[derive(Drop)]
pub struct Query {
    pub name: Name,
    pub assumptions: Numbers,
    pub currents: Numbers,
    pub reachables: Numbers,
}

/// Queries, in the order of the text.
pub type Queries = List<Query>;

/// The check of a system, with its own names for the system's variables.
#[derive(Drop)]
pub struct Check {
    pub place: Place,
    pub system: u32,
    pub inputs: Variables,
    pub outputs: Variables,
    pub locals: Variables,
    pub assumptions: Formulas,
    pub currents: Formulas,
    pub reachables: Formulas,
    pub queries: Queries,
}

/// A script: the last logic that is set, the declarations, the systems, and the only check (MoXI, SPIN 2024).
///
/// Some printable forms spell it.
#[derive(Drop)]
pub struct Script {
    pub logic: Option<Name>,
    pub scope: Scope,
    pub systems: Systems,
    pub check: Check,
    pub ghost spelled: { ∥ IsSpelled (script_of logic scope systems check) ∥₁ },
}
