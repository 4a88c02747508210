// The reason why a case has no answer.
use std::alloc::{AllocError, AllocFailed};
use text_core::{End, NoMemory};

/// The reason why a case has no answer.
#[derive(Clone, Copy)]
pub enum Fault {
    /// Out of memory.
    NoMemory,
    /// The case can't be used, for this reason.
    Unreadable(&'static str),
}

impl From<NoMemory> for Fault {
    fn from(_end: NoMemory) -> Fault {
        Fault::NoMemory
    }
}

impl From<End> for Fault {
    fn from(end: End) -> Fault {
        match end {
            End::Bad(_) => Fault::Unreadable("a text that is refused"),
            End::NoMemory => Fault::NoMemory,
        }
    }
}

impl From<AllocError> for Fault {
    fn from(_end: AllocError) -> Fault {
        Fault::NoMemory
    }
}

impl<T: Drop> From<AllocFailed<T>> for Fault {
    fn from(_end: AllocFailed<T>) -> Fault {
        Fault::NoMemory
    }
}

impl From<&'static str> for Fault {
    fn from(why: &'static str) -> Fault {
        Fault::Unreadable(why)
    }
}

/// A line of cases that can't be parsed, numbered from 1, and the reason.
#[derive(Clone, Copy)]
pub struct Unread {
    pub line: usize,
    pub fault: Fault,
}
