// The limits of an instantiated system.

/// The largest size.
pub const LARGEST: u64 = 2_000_000;

/// The greatest height of a term with its calls expanded.
pub const HIGHEST: u64 = 4_000;

/// The greatest nesting of systems.
pub const DEEPEST: u64 = 1_000;
