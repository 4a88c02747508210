// Kinds of refusal of a BTOR2 text, with their names in notes.
use crate::place::Kind;

/// `B1 Line`
pub const LINE: Kind = Kind::B(1);
/// `B2 IdOrder`
pub const ID_ORDER: Kind = Kind::B(2);
/// `B3 NoSuchNode`
pub const NO_SUCH_NODE: Kind = Kind::B(3);
/// `B4 SortClash`
pub const SORT_CLASH: Kind = Kind::B(4);
/// `B5 NotSupported`
pub const NOT_SUPPORTED: Kind = Kind::B(5);
/// `B6 Width`
pub const WIDTH: Kind = Kind::B(6);
/// `B7 Twice`
pub const TWICE: Kind = Kind::B(7);
/// `B8 InitLate`
pub const INIT_LATE: Kind = Kind::B(8);
/// `B9 TooLong`
pub const TOO_LONG: Kind = Kind::B(9);

// The names of these kinds, from 1 on.
pub(super) const NAMES: [&[u8]; 9] = [
    b"Line",
    b"IdOrder",
    b"NoSuchNode",
    b"SortClash",
    b"NotSupported",
    b"Width",
    b"Twice",
    b"InitLate",
    b"TooLong",
];
