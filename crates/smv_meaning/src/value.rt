// Values, states and runs.

use text_core::{List, Name};
use word_core::Word;

/// A value of an expression (NuSMV 2.6 User Manual, 2.1): a truth value, an integer, a symbol or a word.
#[derive(Drop)]
pub enum Value {
    Truth(bool),
    Integer(i64),
    Symbol(Name),
    Bits(Word),
}

/// A variable's value. The variable is named by its dotted path.
#[derive(Drop)]
pub struct Given {
    pub name: Name,
    pub value: Value,
}

/// The values of variables, each named by its dotted path.
///
/// Where a name occurs twice, the first value counts.
pub type State = List<Given>;

/// A list of states, or of labels, in order.
pub type States = List<State>;

/// A run: its states, at least one, and the label of the transition between each two successive states.
///
/// A label holds the values of the inputs.
#[derive(Drop)]
pub struct Run {
    pub states: States,
    pub labels: States,
}
