// Failures of the checks of a model.
use text_core::End;

/// The failure of a model's checks: the refusal of the first failing check, or out of memory.
pub type NamesEnd = End;
