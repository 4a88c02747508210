// The progress of the reader of a witness.

/// What the reader expects next: the line `sat`, the property, the first heading, or what may follow a heading `#i`
/// or `@i`.
#[derive(Clone, Copy, PartialEq, Eq)]
pub enum Phase {
    Start,
    Property,
    Heading,
    States,
    Inputs,
}
