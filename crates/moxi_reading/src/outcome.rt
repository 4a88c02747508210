// The reason why forms spell no script.

use text_core::End;

/// The reason why forms spell no script: a test fails, or memory runs out.
pub type ScriptEnd = End;
