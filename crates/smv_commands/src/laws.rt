// Laws of what the commands write. These functions only cite other laws.
ghost use Rattle.smv_commands.specs.Lowering.{RunsAreLowered};
ghost use Rattle.smv_commands.specs.Scripts.{ScriptsAreCorrect};
ghost use Rattle.smv_commands.specs.SmvLift.{RunsAreLifted};
ghost use Rattle.smv_commands.specs.Translation.{TranslationsAreCorrect};

use btor_witness::printed_is_read;
use moxi_lift::lifts_meet_queries;
use moxi_script_print::{printed_scripts_are_spelled, valid_scripts_can_be_shown};
use moxi_scripts::one_script;
use moxi_sexpr::readings_are_one;
use moxi_term_print::shown_is_read_back;
use smv_script_laws::{brackets_are_few, names_are_spellable, runs_are_traces, scripts_are_valid};
use trace_lower::{lowered_are_accepted, lowered_round_trip};
use witness_lift::{
    model_lines_are_counted, model_lines_are_laid_out, model_lines_are_shared,
    model_lines_are_spelled, models_have_frames, traces_break_invariants,
};

/// Proves that the text written for an accepted model spells one list of lines, which has the model's behavior.
///
/// Frames 0 to k with every constraint true reach bad line j at frame k exactly where a run breaks invariant j. Such a
/// run has k transitions, and its last state breaks the invariant. The lines are few, and no two sorts, constants or
/// operators among them are the same.
pub fn translations_are_correct()
    ensures { TranslationsAreCorrect }
{
    models_have_frames();
    model_lines_are_counted();
    model_lines_are_shared();
    model_lines_are_spelled();
}

/// Proves that the text written for an accepted model spells one script, which has the model's behavior.
///
/// Some trace of the script meets query j at step k exactly where the model has a run that breaks invariant j. Such a
/// run has k transitions, and its last state breaks the invariant.
pub fn scripts_are_correct()
    ensures { ScriptsAreCorrect }
{
    scripts_are_valid();
    names_are_spellable();
    brackets_are_few();
    valid_scripts_can_be_shown();
    shown_is_read_back();
    printed_scripts_are_spelled();
    readings_are_one();
    one_script();
    runs_are_traces();
}

/// Proves that an accepted witness of an accepted model's BTOR2 text is lifted to the trace of a run of the model.
///
/// The run has a state for each frame, and its last state breaks the invariant of the bad line.
pub fn runs_are_lifted()
    ensures { RunsAreLifted }
{
    model_lines_are_laid_out();
    model_lines_are_spelled();
    lifts_meet_queries();
    traces_break_invariants();
}

/// Proves that the witness that is written for an accepted model and a trace states the trace's run.
///
/// Suppose the judge says Yes to the trace. Then the judge of witnesses says Yes to the witness, which is lifted to the
/// same run.
pub fn runs_are_lowered()
    ensures { RunsAreLowered }
{
    model_lines_are_laid_out();
    model_lines_are_spelled();
    lowered_are_accepted();
    lowered_round_trip();
    printed_is_read();
}
