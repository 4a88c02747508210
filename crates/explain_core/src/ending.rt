// How a run of `explain` ends.

/// The way in which a run of `explain` ends.
#[derive(Clone, Copy)]
pub enum Ending {
    /// A note was explained, or the table was written.
    Explained,
    /// Every line passed through unchanged.
    Passed,
    /// There are too many words, or an unknown option.
    Usage,
    /// Standard input could not be read.
    ReadFault,
    /// The output could not be written.
    WriteFault,
    /// Out of memory.
    NoMemory,
}

impl Ending {
    /// Returns the exit status of the program, from 0 to 6.
    pub fn number(self) -> u8 {
        match self {
            Ending::Explained => 0,
            Ending::Passed => 1,
            Ending::Usage => 3,
            Ending::ReadFault => 4,
            Ending::WriteFault => 5,
            Ending::NoMemory => 6,
        }
    }
}
