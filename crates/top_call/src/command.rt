// The top call: reads the words as a command, runs it, and writes its answer.
ghost use Rattle.std.specs.Prelude.{◌≡◌, ◌<◌, ℕ, IfOk, OnErr};
ghost use Rattle.command_core.specs.Reading.{SaysUnread};
ghost use Rattle.generate.specs.Generating.{IsGenerated};
ghost use Rattle.top_call.specs.Call.{MayReturn, OpensItsFiles, OpensNoSecond};
ghost use Rattle.top_call.specs.Call.{call, command_in, shelf_use};
ghost use Rattle.top_call.specs.Promises as Run;
ghost use Rattle.top_call.specs.Words.{IsInRange};
ghost use Rattle.top_call.specs.declared.words.Command.TheVariants as Command;

use crate::routes::routes_meet;
use crate::words::{Command, answer_command, read_command};
use btor_commands::{imports_are_correct, smaller_texts_are_correct};
use command_core::{Answer, Status, Stop, deliver, note};
use generate::one_generated;
use moxi_commands::{lines_are_correct, traces_are_lifted};
use smv_commands::{
    runs_are_lifted, runs_are_lowered, scripts_are_correct, translations_are_correct,
};
use std::alloc::Global;
use text_core::{NoMemory, Shelf, Sink};

/// Runs the command that the words give, and writes its answer.
///
/// `words` are the command words without the program's name. The answer's text goes to `out`. Where the status is
/// not `Done`, `notes` takes the line of the status.
pub fn run<F: Shelf, K: Sink, N: Sink>(
    alloc: Global,
    words: &Vec<String>,
    shelf: &mut F,
    out: &mut K,
    notes: &mut N,
) -> Status
    // Translation. The file parses to an accepted model. Then, where nothing fails, the written
    // text parses to one list of lines. For each invariant j and each number k, the model has a run
    // of k transitions whose last state breaks invariant j exactly where the lines have frames 0 to
    // k with every constraint true and bad line j true in frame k. Runs and invariants are those of
    // the whole language.
    ensures translates { Run.Translates (call F.Shelf K.Sink N.Sink words shelf out notes result) }

    // Lifting. The first file parses to an accepted model, the second one to a witness for the
    // lines of its translation, and the judge accepts the witness. Then, where nothing fails, the
    // written text is the trace of a run of the model. The run has a state for each frame, and its
    // last state breaks the invariant of the witness's bad line.
    ensures lifts { Run.Lifts (call F.Shelf K.Sink N.Sink words shelf out notes result) }

    // Lowering. The first file parses to an accepted model, the second one to a trace of a run, and
    // the judge accepts the run for invariant j. Then, where nothing fails, the written text is a
    // witness that states the run. The judge of witnesses accepts it for the lines of the model's
    // translation, and by `lifts` it is lifted to the trace of the same run.
    ensures lowers { Run.Lowers (call F.Shelf K.Sink N.Sink words shelf out notes result) }

    // Lifting after `simplify`. The first file parses to an accepted model. The second one parses
    // to a witness for the lines of the smaller text that `simplify` writes for its translation,
    // and the judge accepts the witness. Then, where nothing fails, the witness is lifted in the
    // same way. So is a witness for the lines of the smaller text of any script that has a BTOR2
    // text: it is lifted to a response.
    ensures lifts_smaller { Run.LiftsSmaller
        (call F.Shelf K.Sink N.Sink words shelf out notes result) }
    ensures responds { Run.Responds (call F.Shelf K.Sink N.Sink words shelf out notes result) }

    // For every accepted model, where nothing fails: the translation of the model's script to BTOR2
    // is the direct translation of the model, unless the script is too long.
    ensures routes { Run.RoutesAgree (call F.Shelf K.Sink N.Sink words shelf out notes result) }

    // For every BTOR2 text, where nothing fails: the script that is written for its lines has a
    // BTOR2 text, where the script is within the limits. That text parses to lines in which each
    // bad line is true in the last of frames 0 to k for the same numbers k.
    ensures returns { Run.Returns (call F.Shelf K.Sink N.Sink words shelf out notes result) }

    // For a number of cells, whatever the shelf exposes: the answer is the one defined for the
    // generated model and witness with this many cells, or `out` holds a prefix of its text, or the
    // run is out of memory.
    ensures generated { Run.Generates (call F.Shelf K.Sink N.Sink words shelf out notes result) }

    // Each text that was written as a whole has the properties that its command promises.
    ensures correct_output { Run.IsCorrect
        (call F.Shelf K.Sink N.Sink words shelf out notes result) }

    // `Done`: the whole defined text was written. `No`: the defined answer is that the judge
    // rejects the stated run. `Refused` and `SecondRefused`: it is that the model, or the second
    // file, is refused.
    ensures done { Run.WritesDefined (call F.Shelf K.Sink N.Sink words shelf out notes result) }
    ensures no { Run.Rejects (call F.Shelf K.Sink N.Sink words shelf out notes result) }
    ensures refused { Run.Refuses (call F.Shelf K.Sink N.Sink words shelf out notes result) }
    ensures second_refused { Run.RefusesSecond
        (call F.Shelf K.Sink N.Sink words shelf out notes result) }

    // `Usage`: the words are no command, whatever the shelf exposes. Then `out` takes nothing.
    ensures usage { Run.SaysUsage (call F.Shelf K.Sink N.Sink words shelf out notes result) }
    ensures no_command { Run.NotesUsage (call F.Shelf K.Sink N.Sink words shelf out notes result) }
    ensures no_text { Run.WritesNoText (call F.Shelf K.Sink N.Sink words shelf out notes result) }

    // Each fault has its cause.
    ensures read_fault { Run.ReadFails (call F.Shelf K.Sink N.Sink words shelf out notes result) }
    ensures write_fault { Run.WriteFails (call F.Shelf K.Sink N.Sink words shelf out notes result) }

    // `notes` took the line of the status, and nothing where the status is `Done`.
    ensures noted { Run.NotesLine (call F.Shelf K.Sink N.Sink words shelf out notes result) }
    ensures silent { result ≡ Status.Done → N.taken notes.new ≡ N.taken notes.old }

    // Either `out` failed, and `notes` took the line that says so, or failed too and took a prefix
    // of that line. Or `notes` failed and took a prefix of the line of another status, and `out` is
    // unchanged.
    ensures fault_noted { Run.NotesFault (call F.Shelf K.Sink N.Sink words shelf out notes result) }

    // `out` took nothing, or a prefix of the defined text.
    ensures untouched { Run.WritesNothing
        (call F.Shelf K.Sink N.Sink words shelf out notes result) }
    ensures prefix { Run.WritesPrefix (call F.Shelf K.Sink N.Sink words shelf out notes result) }

    // No fault is ignored.
    ensures shelf_faulted { F.faults shelf.old < F.faults shelf.new → Run.IsFault result }
    ensures absent { Run.StopsAbsent (call F.Shelf K.Sink N.Sink words shelf out notes result) }
    ensures out_faulted { K.faults out.old < K.faults out.new → result ≡ Status.WriteFault }
    ensures notes_faulted { N.faults notes.old < N.faults notes.new → result ≡ Status.WriteFault }

    // Where no fault was counted, the status, the text and the line are those of the defined
    // answer, unless out of memory.
    ensures complete { Run.IsComplete (call F.Shelf K.Sink N.Sink words shelf out notes result) }

    // Once `judge-btor` has opened its second file, it never runs out of memory.
    ensures memory { Run.OpensNoSecond (call F.Shelf K.Sink N.Sink words shelf out notes result) }

    // Only files that the words name are opened, and the shelf's files don't change.
    ensures begun { Run.OpensItsFiles (call F.Shelf K.Sink N.Sink words shelf out notes result) }
    ensures files { F.files shelf.new ≡ F.files shelf.old }
{
    translations_are_correct();
    scripts_are_correct();
    lines_are_correct();
    runs_are_lifted();
    runs_are_lowered();
    traces_are_lifted();
    routes_meet();
    imports_are_correct();
    smaller_texts_are_correct();
    one_generated();
    match answer_words(alloc, words, shelf) {
        Ok(answer) => deliver(&answer, out, notes),
        Err(NoMemory) => note(notes, &[b"no memory\n"], Status::NoMemory),
    }
}

// Reads the words and the files that they name.
#[tactic(auto, using(crate::proofs::Stops::begins_nothing, crate::proofs::Summaries::in_range, crate::proofs::Summaries::same_count))]
fn answer_words<F: Shelf>(
    alloc: Global,
    words: &Vec<String>,
    shelf: &mut F,
) -> Result<Answer, NoMemory>
    ensures answer { IfOk result (MayReturn (shelf_use F.Shelf shelf) (command_in words.now)) }
    ensures generated { (n : ℕ) → command_in words.now ≡ Some (Command.Generate n)
        → IfOk result (IsGenerated n) }
    ensures fault { F.faults shelf.old < F.faults shelf.new → IfOk result SaysUnread }
    ensures begun { OpensItsFiles (shelf_use F.Shelf shelf) (command_in words.now) }
    ensures memory { OnErr result (OpensNoSecond (shelf_use F.Shelf shelf) (command_in words.now)) }
    ensures files { F.files shelf.new ≡ F.files shelf.old }
{
    match read_command(alloc, words)? {
        Some(command) => answer_read(alloc, &command, shelf),
        None => Ok(Answer::Usage),
    }
}

// Returns the answer to a command. The only error is out of memory.
#[tactic(auto, using(crate::proofs::Summaries::generated_stop))]
fn answer_read<F: Shelf>(
    alloc: Global,
    command: &Command,
    shelf: &mut F,
) -> Result<Answer, NoMemory>
    requires { IsInRange command.now }
    ensures answer { IfOk result (MayReturn (shelf_use F.Shelf shelf) (Some command.now)) }
    ensures generated { (n : ℕ) → command.now ≡ Command.Generate n → IfOk result (IsGenerated n) }
    ensures fault { F.faults shelf.old < F.faults shelf.new → IfOk result SaysUnread }
    ensures begun { OpensItsFiles (shelf_use F.Shelf shelf) (Some command.now) }
    ensures memory { OnErr result (OpensNoSecond (shelf_use F.Shelf shelf) (Some command.now)) }
    ensures files { F.files shelf.new ≡ F.files shelf.old }
{
    match answer_command(alloc, command, shelf) {
        Ok(answer) => Ok(answer),
        Err(Stop::Answered(answer)) => Ok(answer),
        Err(Stop::NoMemory) => Err(NoMemory),
    }
}
