// Failures of flattening.
use text_core::End;

/// The failure of flattening: the refusal of the first failing check (S8 to S28), or out of memory.
pub type FlatEnd = End;
