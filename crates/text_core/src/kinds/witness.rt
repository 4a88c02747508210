// Kinds of refusal of a witness, with their names in notes.
use crate::place::Kind;

/// `X1 Line`
pub const LINE: Kind = Kind::X(1);
/// `X2 NoBad`
pub const NO_BAD: Kind = Kind::X(2);
/// `X3 FrameOrder`
pub const FRAME_ORDER: Kind = Kind::X(3);
/// `X4 Index`
pub const INDEX: Kind = Kind::X(4);
/// `X5 Width`
pub const WIDTH: Kind = Kind::X(5);
/// `X6 Unended`
pub const UNENDED: Kind = Kind::X(6);
/// `X7 Justice`
pub const JUSTICE: Kind = Kind::X(7);
/// `X8 TooLong`
pub const TOO_LONG: Kind = Kind::X(8);

// The names of these kinds, from 1 on.
pub(super) const NAMES: [&[u8]; 8] = [
    b"Line",
    b"NoBad",
    b"FrameOrder",
    b"Index",
    b"Width",
    b"Unended",
    b"Justice",
    b"TooLong",
];
