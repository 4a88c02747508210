// The commands: how words are parsed to a command, and what each command does.
ghost use Rattle.std.specs.Prelude.{◌≡◌, ◌<◌, ℕ, map, option_map, IfOk, IfErr, IsErrAnd};
ghost use Rattle.command_core.specs.Reading.{OnNoMemory, StopsUnread, StopsWith};
ghost use Rattle.command_core.specs.declared.answer.Stop.TheVariants as Stop;
ghost use Rattle.generate.specs.Generating.{IsGenerated};
ghost use Rattle.top_call.specs.Call.{MayReturn, OpensItsFiles, OpensNoSecond};
ghost use Rattle.top_call.specs.Call.{command_in, shelf_use};
ghost use Rattle.top_call.specs.Words as Words;
ghost use Rattle.top_call.specs.declared.words.Command.TheVariants as Command;

use btor_commands::{btor_to_moxi, judge_files, simplify_btor};
use command_core::{Answer, Stop, cell_count, read_words};
use generate::generate;
use moxi_commands::{judge_moxi_files, lift_moxi_files, moxi_to_btor};
use smv_commands::{judge_smv_files, lift_smv_files, lower_smv_files, smv_to_btor, smv_to_moxi};
use std::alloc::Global;
use text_core::{Name, NoMemory, Shelf};

/// A command with its operands.
#[derive(Drop)]
pub enum Command {
    /// The translation of an SMV model to BTOR2.
    SmvToBtor(Name),
    /// The translation of an SMV model to MoXI.
    SmvToMoxi(Name),
    /// The translation of a MoXI script to BTOR2.
    MoxiToBtor(Name),
    /// The translation of a BTOR2 text to MoXI.
    BtorToMoxi(Name),
    /// A smaller BTOR2 text with the same witnesses.
    Simplify(Name),
    /// The verdict on a witness for a BTOR2 text: the text's file and the witness's file.
    JudgeBtor(Name, Name),
    /// The verdict on a trace of an SMV model: the model's file, the trace's file, and the invariant's number.
    JudgeSmv(Name, Name, u32),
    /// The verdict on a response to a MoXI script: the script's file and the response's file.
    JudgeMoxi(Name, Name),
    /// The trace for a witness of an SMV model's translation: the model's file and the witness's file.
    LiftSmv(Name, Name),
    /// The witness for a trace of an SMV model: the model's file, the trace's file, and the invariant's number.
    ///
    /// The witness states the trace up to the bad line of the invariant.
    Lower(Name, Name, u32),
    /// The response for a witness of a MoXI script's translation: the script's file and the witness's file.
    LiftMoxi(Name, Name),
    /// The summary of a generated model with this many cells, and of its generated witness.
    Generate(u32),
}

/// A command without its operands.
#[derive(Clone, Copy)]
pub enum Task {
    SmvToBtor,
    SmvToMoxi,
    MoxiToBtor,
    BtorToMoxi,
    Simplify,
    JudgeBtor,
    JudgeSmv,
    JudgeMoxi,
    LiftSmv,
    LiftMoxi,
    Lower,
    Generate,
}

// The first words of the commands.
const COMMANDS: [(&[u8], Task); 12] = [
    (b"smv2btor", Task::SmvToBtor),
    (b"smv2moxi", Task::SmvToMoxi),
    (b"moxi2btor", Task::MoxiToBtor),
    (b"btor2moxi", Task::BtorToMoxi),
    (b"simplify", Task::Simplify),
    (b"judge-btor", Task::JudgeBtor),
    (b"judge-smv", Task::JudgeSmv),
    (b"judge-moxi", Task::JudgeMoxi),
    (b"lift-smv", Task::LiftSmv),
    (b"lift-moxi", Task::LiftMoxi),
    (b"lower", Task::Lower),
    (b"generate", Task::Generate),
];

/// Parses the command words, without the program's name.
///
/// Returns None where the words are no command.
pub fn read_command(alloc: Global, words: &Vec<String>) -> Result<Option<Command>, NoMemory>
    ensures { IfOk result (λ command. command ≡ command_in words.now) }
{
    match read_words(alloc, words.as_slice())? {
        Some(given) => command_by(alloc, given.positionals.as_slice(), given.property),
        None => Ok(None),
    }
}

// The command given by the positional words and the invariant's number, if there is one.
fn command_by(
    alloc: Global,
    words: &[&str],
    property: Option<u32>,
) -> Result<Option<Command>, NoMemory>
    ensures { IfOk result
        (λ command. command ≡ Words.command_by (map (λ word. word.now) words.now) property) }
{
    let Some((word, places)) = words.split_first() else {
        return Ok(None);
    };
    match task_in(&COMMANDS, word.as_bytes()) {
        Some(task) => command_with(alloc, task, places, property),
        None => Ok(None),
    }
}

/// Runs the command and returns its answer.
#[tactic(auto, using(command_core::specs::laws::Stops::held, crate::proofs::Summaries::generated_ok))]
pub fn answer_command<F: Shelf>(
    alloc: Global,
    command: &Command,
    shelf: &mut F,
) -> Result<Answer, Stop>
    requires range { Words.IsInRange command.now }
    ensures answer { IfOk result (MayReturn (shelf_use F.Shelf shelf) (Some command.now)) }
    ensures stop { IfErr result
        (StopsWith (MayReturn (shelf_use F.Shelf shelf) (Some command.now))) }
    // A generated model's answer is defined whatever the shelf exposes.
    ensures generated { (n : ℕ) → command.now ≡ Command.Generate n → IfOk result (IsGenerated n) }
    ensures ungenerated { (n : ℕ) → command.now ≡ Command.Generate n
        → IfErr result (λ stop. stop ≡ Stop.NoMemory) }
    ensures fault { F.faults shelf.old < F.faults shelf.new
        → IsErrAnd result (λ stop. StopsUnread stop) }
    ensures begun { OpensItsFiles (shelf_use F.Shelf shelf) (Some command.now) }
    ensures memory { IfErr result
        (OnNoMemory (OpensNoSecond (shelf_use F.Shelf shelf) (Some command.now))) }
    ensures files { F.files shelf.new ≡ F.files shelf.old }
{
    match command {
        Command::SmvToBtor(model) => smv_to_btor(alloc, model, shelf),
        Command::SmvToMoxi(model) => smv_to_moxi(alloc, model, shelf),
        Command::MoxiToBtor(model) => moxi_to_btor(alloc, model, shelf),
        Command::BtorToMoxi(model) => btor_to_moxi(alloc, model, shelf),
        Command::Simplify(model) => simplify_btor(alloc, model, shelf),
        Command::JudgeBtor(model, second) => judge_files(alloc, model, second, shelf),
        Command::JudgeSmv(model, second, j) => judge_smv_files(alloc, model, second, *j, shelf),
        Command::JudgeMoxi(model, second) => judge_moxi_files(alloc, model, second, shelf),
        Command::LiftSmv(model, second) => lift_smv_files(alloc, model, second, shelf),
        Command::LiftMoxi(model, second) => lift_moxi_files(alloc, model, second, shelf),
        Command::Lower(model, second, j) => lower_smv_files(alloc, model, second, *j, shelf),
        Command::Generate(n) => generate(alloc, *n),
    }
}

// The task of the first row with this word.
fn task_in(table: &[(&[u8], Task)], word: &[u8]) -> Option<Task>
    ensures { result ≡ Words.task_in (map Words.row table.now) word.now }
{
    for (written, task) in table {
        if word == *written {
            return Some(*task);
        }
    }
    None
}

// The task with its operands, or None where the number of operands doesn't fit.
fn command_with(
    alloc: Global,
    task: Task,
    places: &[&str],
    property: Option<u32>,
) -> Result<Option<Command>, NoMemory>
    ensures { let given = map (λ place. place.now) places.now in
        IfOk result (λ command. command ≡ Words.command_with task given property) }
{
    match (places, property) {
        ([word], None) => command_on_one(alloc, task, word),
        ([model, second], _) => command_on_two(alloc, task, model, second, property),
        _ => Ok(None),
    }
}

// The task on one file, or on a number of cells.
fn command_on_one(alloc: Global, task: Task, word: &str) -> Result<Option<Command>, NoMemory>
    ensures { IfOk result (λ command. command ≡ Words.on_one task word.now) }
{
    match task {
        Task::SmvToBtor => Ok(Some(Command::SmvToBtor(name_of(alloc, word)?))),
        Task::SmvToMoxi => Ok(Some(Command::SmvToMoxi(name_of(alloc, word)?))),
        Task::MoxiToBtor => Ok(Some(Command::MoxiToBtor(name_of(alloc, word)?))),
        Task::BtorToMoxi => Ok(Some(Command::BtorToMoxi(name_of(alloc, word)?))),
        Task::Simplify => Ok(Some(Command::Simplify(name_of(alloc, word)?))),
        Task::Generate => Ok(made_of(cell_count(word.as_bytes()))),
        _ => Ok(None),
    }
}

fn made_of(count: Option<u32>) -> Option<Command>
    ensures { result ≡ option_map Command.Generate count }
{
    match count {
        Some(n) => Some(Command::Generate(n)),
        None => None,
    }
}

// The task on two files. Only the tasks on a trace take an invariant's number, which is 0 by default.
fn command_on_two(
    alloc: Global,
    task: Task,
    model: &str,
    second: &str,
    property: Option<u32>,
) -> Result<Option<Command>, NoMemory>
    ensures { IfOk result (λ command. command ≡ Words.on_two task model.now second.now property) }
{
    let model = name_of(alloc, model)?;
    let second = name_of(alloc, second)?;
    Ok(on_two(task, model, second, property))
}

fn on_two(task: Task, model: Name, second: Name, property: Option<u32>) -> Option<Command>
    ensures { result ≡ Words.on_two task model second property }
{
    match (task, property) {
        (Task::JudgeBtor, None) => Some(Command::JudgeBtor(model, second)),
        (Task::JudgeSmv, None) => Some(Command::JudgeSmv(model, second, 0)),
        (Task::JudgeSmv, Some(j)) => Some(Command::JudgeSmv(model, second, j)),
        (Task::JudgeMoxi, None) => Some(Command::JudgeMoxi(model, second)),
        (Task::LiftSmv, None) => Some(Command::LiftSmv(model, second)),
        (Task::LiftMoxi, None) => Some(Command::LiftMoxi(model, second)),
        (Task::Lower, None) => Some(Command::Lower(model, second, 0)),
        (Task::Lower, Some(j)) => Some(Command::Lower(model, second, j)),
        _ => None,
    }
}

fn name_of(alloc: Global, word: &str) -> Result<Name, NoMemory>
    ensures { IfOk result (λ name. name ≡ word.now) }
{
    Name::of(alloc, word.as_bytes())
}
