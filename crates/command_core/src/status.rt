// How a run ends.
ghost use Rattle.std.specs.Prelude.{◌≡◌};
ghost use Rattle.command_core.specs.Statuses.{number_of};

/// The way in which a run ends.
#[derive(Clone, Copy, Debug, PartialEq, Eq)]
pub enum Status {
    /// The whole output was written.
    Done,
    /// A judge rejects the stated run.
    No,
    /// The model does not parse, is not accepted, or exceeds a limit.
    Refused,
    /// The words are no command.
    Usage,
    /// A file could not be read.
    ReadFault,
    /// The output or the note could not be written.
    WriteFault,
    /// Out of memory.
    NoMemory,
    /// The second file does not parse, or exceeds a limit.
    SecondRefused,
}

impl Status {
    /// Returns the exit status of the program, from 0 to 7.
    pub fn number(self) -> u8
        ensures { result ≡ number_of self }
    {
        match self {
            Status::Done => 0,
            Status::No => 1,
            Status::Refused => 2,
            Status::Usage => 3,
            Status::ReadFault => 4,
            Status::WriteFault => 5,
            Status::NoMemory => 6,
            Status::SecondRefused => 7,
        }
    }
}
