// The answer of a run.
ghost use Rattle.std.specs.Prelude.{◌≡◌, ◌⊎◌};
ghost use Rattle.command_core.specs.Answers.{status_of};

use crate::status::Status;
use std::alloc::Global;
use text_core::{Clause, FIRST_PLACE, Kind, Name, NoMemory, Refusal, Text};

/// The answer of a run.
#[derive(Drop)]
pub enum Answer {
    /// The words are no command.
    Usage,
    /// The file with this name could not be read.
    Unread(Name),
    /// The model is refused.
    Refused(Refusal),
    /// The second file is refused.
    SecondRefused(Refusal),
    /// The stated run fails this clause first, at this step.
    No(u32, Clause),
    /// The run has this output.
    Done(Output),
}

/// The output of a run.
///
/// It is a text, or the parts of a line that is put together while it is written, which allocates nothing.
#[derive(Drop)]
pub enum Output {
    /// A complete text.
    Text(Text),
    /// The line for an accepted witness: the bad line's number, and the last step.
    Yes(u32, u32),
    /// The line for an accepted trace: the invariant's number, and the last step.
    Broken(u32, u32),
    /// The line for an accepted response: the query's name, printed as a symbol, and the last step.
    Met(Name, u32),
}

/// The reason why a command stops early: its answer is already known, or it is out of memory.
#[derive(Drop)]
pub enum Stop {
    Answered(Answer),
    NoMemory,
}

impl From<NoMemory> for Stop {
    ghost use Rattle.std.specs.Prelude.{◌≡◌};
    ghost use Rattle.command_core.specs.declared.answer.Stop.TheVariants as Of;

    ghost from_gives = { λ _ e. e ≡ Of.NoMemory };

    fn from(_: NoMemory) -> Stop {
        Stop::NoMemory
    }
}

impl Answer {
    /// Returns the status of the answer.
    pub fn status(&self) -> Status
        ensures { result ≡ status_of self.now }
    {
        match self {
            Answer::Usage => Status::Usage,
            Answer::Unread(_) => Status::ReadFault,
            Answer::Refused(_) => Status::Refused,
            Answer::SecondRefused(_) => Status::SecondRefused,
            Answer::No(_, _) => Status::No,
            Answer::Done(_) => Status::Done,
        }
    }
}

/// Returns a refusal of this kind at the first byte of a text.
pub fn refusal(kind: Kind) -> Refusal
    ensures { result ≡ record { kind = kind; place = record { line = 1; column = 1; offset = 0 } } }
{
    Refusal {
        kind,
        place: FIRST_PLACE,
    }
}

/// Returns the stop with the answer that the file was not read, or out of memory.
pub fn unread_stop(alloc: Global, name: &Name) -> Stop
    ensures { (result ≡ Stop.Answered (Answer.Unread name.now)) ⊎ (result ≡ Stop.NoMemory) }
{
    match name.duplicate(alloc) {
        Ok(name) => Stop::Answered(Answer::Unread(name)),
        Err(NoMemory) => Stop::NoMemory,
    }
}
