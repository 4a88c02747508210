// Parsing of MoXI scripts.
ghost use Rattle.std.specs.Prelude.{◌≤◌, length, IfOk, IfErr};
ghost use Rattle.moxi_scripts.specs.ScriptView.{plain_script};
ghost use Rattle.moxi_commands.specs.Limits.{most_script_bytes};
ghost use Rattle.moxi_commands.specs.Scripts.{IsScriptText, IsTextEnd};

use moxi_reading::read_script;
use moxi_scripts::Script;
use moxi_sexpr::{end_of, read_forms, readings_are_one};
use std::alloc::Global;
use text_core::End;

/// The most bytes of a MoXI script.
pub const SCRIPT_LIMIT: usize = 16_777_216;

/// Parses bytes to a script, or returns the first refusal of their forms or of the script.
///
/// The forms are freed before it returns.
pub fn script_of(alloc: Global, bytes: &[u8]) -> Result<Script, End>
    requires { length bytes.now ≤ most_script_bytes }
    ensures script { IfOk result (λ script. IsScriptText bytes.now (plain_script script)) }
    ensures refused { IfErr result (IsTextEnd bytes.now) }
{
    readings_are_one();
    let forms = read_forms(alloc, bytes)?;
    read_script(alloc, &forms, end_of(bytes))
}
