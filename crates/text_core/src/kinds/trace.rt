// Kinds of refusal of a trace or a response, with their names in notes.
use crate::place::Kind;

/// `Y1 Line`
pub const LINE: Kind = Kind::Y(1);
/// `Y2 Unknown`
pub const UNKNOWN: Kind = Kind::Y(2);
/// `Y3 Value`
pub const VALUE: Kind = Kind::Y(3);
/// `Y4 Missing`
pub const MISSING: Kind = Kind::Y(4);
/// `Y5 TooLong`
pub const TOO_LONG: Kind = Kind::Y(5);

// The names of these kinds, from 1 on.
pub(super) const NAMES: [&[u8]; 5] = [b"Line", b"Unknown", b"Value", b"Missing", b"TooLong"];
