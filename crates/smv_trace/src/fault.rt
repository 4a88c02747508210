// Faults of a line with a value.
ghost use Rattle.std.specs.Prelude.{◌≡◌};
ghost use Rattle.smv_trace.specs.Answer.{end_at};

use crate::reader::refused;
use text_core::kinds::trace;
use text_core::{End, Place};

/// The reason why a line with a value is refused.
///
/// `Shape`: it does not have the shape of such a line. `Name`: the heading has no variable of this name. `Value`: the
/// value is not spelled like one of the variable's type. `NoMemory`: out of memory.
#[derive(Clone, Copy)]
pub enum ValueFault {
    Shape,
    Name,
    Value,
    NoMemory,
}

impl ValueFault {
    /// Returns the failure of the reader, where the line is at this place.
    pub fn at(self, place: Place) -> End
        ensures { result ≡ end_at place self }
    {
        match self {
            ValueFault::Shape => refused(trace::LINE, place),
            ValueFault::Name => refused(trace::UNKNOWN, place),
            ValueFault::Value => refused(trace::VALUE, place),
            ValueFault::NoMemory => End::NoMemory,
        }
    }
}
