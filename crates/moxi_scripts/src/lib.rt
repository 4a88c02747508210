//! MoXI scripts as values.
//!
//! The crate defines which forms spell a script, which tests fail, what a script means (traces, queries, verdicts), and which
//! scripts are well formed.
#![tactic(auto)]

mod asking;
mod laws;
mod making;
mod parts;
mod script;
mod trace;
mod whole_laws;

pub use asking::{queries_are_met_where_nothing_fails, steps_are_tested_by_system_and_query};
pub use laws::{failures_have_kinds, least_is_least, one_script};
pub use making::{numbered, query_of, variables_again};
pub use parts::{
    Actual, Command, CommandName, Declared, DeclaredList, Entries, Key, ListPlaces, Lists,
    QueryNames, Turn, Use,
};
pub use script::{
    Check, Formula, Formulas, Queries, Query, Script, Subsystem, Subsystems, System, Systems,
};
pub use trace::MoxiTrace;
pub use whole_laws::{spelled_scripts_are_valid, valid_systems_have_ranks};
