// The printer and the reader.
ghost use Rattle.std.specs.Prelude.{◌≡◌, ◌<◌, length, IfOk};
ghost use Rattle.moxi_scripts.specs.ScriptView.{plain_script};
ghost use Rattle.moxi_flat.specs.FlatSystem.{flat_of};
ghost use Rattle.moxi_judge.specs.Judging.{IsStatedTrace};
ghost use Rattle.moxi_trace.specs.Responses.{IsStatedResponse, response_of};
ghost use Rattle.moxi_trace.specs.Texts.{response_text};
ghost use Rattle.moxi_responses.specs.Declaring.{ReadsAgain, declared_of};
ghost use Rattle.text_core.specs.Answers.{Answers};

use crate::declared::{declarations_of, names_are_own, names_of};
use moxi_instantiate::FlatSystem;
use moxi_scripts::{MoxiTrace, Script};
use moxi_trace::{Answered, ResponseEnd};
use std::alloc::Global;
use text_core::{NoMemory, Text};

/// Returns the text of the response that a trace meets query q of the script's check, counted from 0.
///
/// The system is the one that `instantiate` returned for the script. The trace has a value of each of its variables. Within
/// the limits of responses, the text reads back to the same response.
pub fn print_response(
    alloc: Global,
    script: &Script,
    system: &FlatSystem<'_>,
    q: u32,
    trace: &MoxiTrace,
) -> Result<Text, NoMemory>
    requires system { system.now ≡ flat_of (plain_script script.now) }
    requires query { q < length script.now.check.queries }
    requires trace { IsStatedTrace system.now trace.now }
    // What is printed.
    ensures text { IfOk result (λ text. text ≡ response_text (declared_of (plain_script script.now)) q trace.now) }
    // It reads back to the same query and trace, within the limits of the reader.
    ensures again { IfOk result (ReadsAgain (declared_of (plain_script script.now)) q trace.now) }
{
    let queries = names_of(alloc, &script.check.queries)?;
    let declarations = declarations_of(script, system, &queries);
    names_are_own(script, system);
    moxi_trace::print_response(alloc, &declarations, q, trace)
}

/// Parses the text of a response to the query and the trace that it states.
///
/// An error is its first refusal, from `Y1` to `Y5`. The system is the one that `instantiate` returned for the script.
pub fn read_response(
    alloc: Global,
    script: &Script,
    system: &FlatSystem<'_>,
    text: &[u8],
) -> Result<Answered, ResponseEnd>
    requires system { system.now ≡ flat_of (plain_script script.now) }
    ensures exact { Answers (response_of (declared_of (plain_script script.now)) text.now) result }
    ensures stated { IfOk result (IsStatedResponse (declared_of (plain_script script.now))) }
{
    let queries = names_of(alloc, &script.check.queries)?;
    let declarations = declarations_of(script, system, &queries);
    names_are_own(script, system);
    moxi_trace::read_response(alloc, &declarations, text)
}
