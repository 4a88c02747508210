// Kinds of refusal of an SMV model, with their names in notes.
use crate::place::Kind;

/// `S1 TooLong`
pub const TOO_LONG: Kind = Kind::S(1);
/// `S2 BadByte`
pub const BAD_BYTE: Kind = Kind::S(2);
/// `S3 BadNumber`
pub const BAD_NUMBER: Kind = Kind::S(3);
/// `S4 TooNested`
pub const TOO_NESTED: Kind = Kind::S(4);
/// `S5 Dead`
pub const DEAD: Kind = Kind::S(5);
/// `S6 NotSupported`
pub const NOT_SUPPORTED: Kind = Kind::S(6);
/// `S7 TooTall`
pub const TOO_TALL: Kind = Kind::S(7);
/// `S8 NoMain`
pub const NO_MAIN: Kind = Kind::S(8);
/// `S9 ModuleTwice`
pub const MODULE_TWICE: Kind = Kind::S(9);
/// `S10 NameTwice`
pub const NAME_TWICE: Kind = Kind::S(10);
/// `S11 NoSuchModule`
pub const NO_SUCH_MODULE: Kind = Kind::S(11);
/// `S12 ModuleCycle`
pub const MODULE_CYCLE: Kind = Kind::S(12);
/// `S13 ArgCount`
pub const ARG_COUNT: Kind = Kind::S(13);
/// `S14 Unknown`
pub const UNKNOWN: Kind = Kind::S(14);
/// `S15 DefineCycle`
pub const DEFINE_CYCLE: Kind = Kind::S(15);
/// `S16 TypeClash`
pub const TYPE_CLASH: Kind = Kind::S(16);
/// `S17 IntTooWide`
pub const INT_TOO_WIDE: Kind = Kind::S(17);
/// `S18 InputHere`
pub const INPUT_HERE: Kind = Kind::S(18);
/// `S19 NextHere`
pub const NEXT_HERE: Kind = Kind::S(19);
/// `S20 SetHere`
pub const SET_HERE: Kind = Kind::S(20);
/// `S21 AssignedTwice`
pub const ASSIGNED_TWICE: Kind = Kind::S(21);
/// `S22 NotAssignable`
pub const NOT_ASSIGNABLE: Kind = Kind::S(22);
/// `S23 BadDivisor`
pub const BAD_DIVISOR: Kind = Kind::S(23);
/// `S24 BadShift`
pub const BAD_SHIFT: Kind = Kind::S(24);
/// `S25 BadSelect`
pub const BAD_SELECT: Kind = Kind::S(25);
/// `S26 EmptyRange`
pub const EMPTY_RANGE: Kind = Kind::S(26);
/// `S27 NoInvarspec`
pub const NO_INVARSPEC: Kind = Kind::S(27);
/// `S28 TooLarge`
pub const TOO_LARGE: Kind = Kind::S(28);

// The names of these kinds, from 1 on.
pub(super) const NAMES: [&[u8]; 28] = [
    b"TooLong",
    b"BadByte",
    b"BadNumber",
    b"TooNested",
    b"Dead",
    b"NotSupported",
    b"TooTall",
    b"NoMain",
    b"ModuleTwice",
    b"NameTwice",
    b"NoSuchModule",
    b"ModuleCycle",
    b"ArgCount",
    b"Unknown",
    b"DefineCycle",
    b"TypeClash",
    b"IntTooWide",
    b"InputHere",
    b"NextHere",
    b"SetHere",
    b"AssignedTwice",
    b"NotAssignable",
    b"BadDivisor",
    b"BadShift",
    b"BadSelect",
    b"EmptyRange",
    b"NoInvarspec",
    b"TooLarge",
];
