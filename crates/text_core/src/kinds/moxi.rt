// Kinds of refusal of a MoXI script, with their names in notes.
use crate::place::Kind;

/// `M1 BadByte`
pub const BAD_BYTE: Kind = Kind::M(1);
/// `M2 Unclosed`
pub const UNCLOSED: Kind = Kind::M(2);
/// `M3 TooNested`
pub const TOO_NESTED: Kind = Kind::M(3);
/// `M4 Unknown`
pub const UNKNOWN: Kind = Kind::M(4);
/// `M5 SortClash`
pub const SORT_CLASH: Kind = Kind::M(5);
/// `M6 NotSupported`
pub const NOT_SUPPORTED: Kind = Kind::M(6);
/// `M7 PrimeHere`
pub const PRIME_HERE: Kind = Kind::M(7);
/// `M8 Width`
pub const WIDTH: Kind = Kind::M(8);
/// `M9 NameTwice`
pub const NAME_TWICE: Kind = Kind::M(9);
/// `M10 NoSuchSystem`
pub const NO_SUCH_SYSTEM: Kind = Kind::M(10);
/// `M11 SystemCycle`
pub const SYSTEM_CYCLE: Kind = Kind::M(11);
/// `M12 Arity`
pub const ARITY: Kind = Kind::M(12);
/// `M13 CheckCount`
pub const CHECK_COUNT: Kind = Kind::M(13);
/// `M14 QueryForm`
pub const QUERY_FORM: Kind = Kind::M(14);
/// `M15 TooLarge`
pub const TOO_LARGE: Kind = Kind::M(15);
/// `M16 TooLong`
pub const TOO_LONG: Kind = Kind::M(16);

// The names of these kinds, from 1 on.
pub(super) const NAMES: [&[u8]; 16] = [
    b"BadByte",
    b"Unclosed",
    b"TooNested",
    b"Unknown",
    b"SortClash",
    b"NotSupported",
    b"PrimeHere",
    b"Width",
    b"NameTwice",
    b"NoSuchSystem",
    b"SystemCycle",
    b"Arity",
    b"CheckCount",
    b"QueryForm",
    b"TooLarge",
    b"TooLong",
];
