// The codes of items and values, and the questions that terms answer about an expression.
ghost use Rattle.std.specs.Prelude.{◌≤◌};

/// The width of an integer in bits, and the number of each item's variable.
#[derive(Drop)]
pub struct Coding {
    /// The width of an integer in bits.
    pub width: u32,
    /// The number of the variable of each item.
    pub places: Vec<u32>,
    pub ghost some: { 1 ≤ width },
    pub ghost low: { width ≤ 64 },
}

/// A term whose value is tested for membership.
#[derive(Clone, Copy)]
pub enum Subject {
    /// A variable, and whether it is primed.
    Variable(u32, bool),
    /// The number of a symbol.
    Symbol(u32),
    /// The number of a bound name.
    Bound(u32),
}

/// The question that the term of an expression answers: its value, or whether it permits the value of a term.
#[derive(Clone, Copy)]
pub enum Question {
    /// The value of the expression.
    Value,
    /// Whether the expression permits the value of this term.
    Permits(Subject),
}
