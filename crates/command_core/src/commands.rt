// The skeleton of a command: it reads files within their limits and computes the answer from their bytes.
ghost use Rattle.std.specs.Prelude.{◌≡◌, ◌≤◌, [], ◌∷◌, ℕ, List, length, IfOk, IfErr, IsErrAnd};
ghost use Rattle.text_core.specs.Outside.{Files, HasNewFault};
ghost use Rattle.command_core.specs.declared.answer.Answer.{Answer};
ghost use Rattle.command_core.specs.Giving.{MayGive};
ghost use Rattle.command_core.specs.Keeping.{KeepsShelf};
ghost use Rattle.command_core.specs.Reading.{ContinuesWith, SaysRead, StopsUnread, StopsWith, file_within};
ghost use Rattle.command_core.specs.Texts.{text_answer};

use crate::answer::{Answer, Output, Stop};
use crate::files::read_file;
use std::alloc::Global;
use text_core::{End, Name, Shelf, Text};

/// A computation of the answer from the file that a command reads last.
pub trait LastFile {
    /// The most bytes that the file may have.
    ghost most: { ℕ };

    /// The answer to a longer file.
    ghost longer: { Answer };

    /// The relation between the file's bytes and an answer to them.
    ghost defines: { Self → List ℕ → Answer → Type 0 };

    /// The invariant of the command's own value, which the caller of `answer` ensures.
    ghost fits: { Self → Type 0 };

    /// Returns the most bytes that the file may have.
    fn limit(&self) -> usize
        ensures { result ≡ most };

    /// Returns the answer to a longer file.
    fn too_long(&self) -> Answer
        ensures { result ≡ longer };

    /// Returns the answer to the file's bytes.
    fn answer(&self, alloc: Global, bytes: &[u8]) -> Result<Answer, Stop>
        requires fits { fits self.now }
        requires within { length bytes.now ≤ most }
        ensures answer { IfOk result (defines self.now bytes.now) }
        ensures stop { IfErr result (StopsWith (defines self.now bytes.now)) };

    /// The answer to a longer file implies that the file was read.
    ghost longer_says: { SaysRead longer };

    /// An answer to the file's bytes implies that the file was read.
    ghost says: { (command : Self) (bytes : List ℕ) (a : Answer) → defines command bytes a → SaysRead a };
}

/// A computation of the answer from the first of two files.
pub trait FirstFile {
    /// The most bytes that the first file may have.
    ghost most: { ℕ };

    /// The answer to a longer file.
    ghost longer: { Answer };

    /// The relation between the shelf's files, the second file's name, the first file's bytes, and an answer.
    ghost defines: { Self → Files → List ℕ → List ℕ → Answer → Type 0 };

    /// Returns the most bytes that the file may have.
    fn limit(&self) -> usize
        ensures { result ≡ most };

    /// Returns the answer to a longer file.
    fn too_long(&self) -> Answer
        ensures { result ≡ longer };

    /// Returns the answer to the first file's bytes.
    ///
    /// An implementation that goes on to the second file calls `answer_file`.
    fn answer<F: Shelf>(
        &self,
        alloc: Global,
        bytes: &[u8],
        second: &Name,
        shelf: &mut F,
    ) -> Result<Answer, Stop>
        requires { length bytes.now ≤ most }
        ensures answer { IfOk result (MayGive (F.files shelf.old) (second.now ∷ []) (λ files. defines self.now files second.now bytes.now) (HasNewFault (F.faults shelf.old) (F.faults shelf.new))) }
        ensures stop { IfErr result (StopsWith (MayGive (F.files shelf.old) (second.now ∷ []) (λ files. defines self.now files second.now bytes.now) (HasNewFault (F.faults shelf.old) (F.faults shelf.new)))) }
        ensures shelf { KeepsShelf (F.files shelf.old) (F.files shelf.new) (F.faults shelf.old) (F.faults shelf.new) (F.begun shelf.old) (F.begun shelf.new) (second.now ∷ []) (IsErrAnd result StopsUnread) };

    /// The answer to a longer file implies that the file was read.
    ghost longer_says: { SaysRead longer };
}

/// Reads a file within its limit, and returns the answer to its bytes.
pub fn answer_file<F: Shelf, T: LastFile>(
    alloc: Global,
    name: &Name,
    command: &T,
    shelf: &mut F,
) -> Result<Answer, Stop>
    requires { T.fits command.now }
    ensures answer { IfOk result (MayGive (F.files shelf.old) (name.now ∷ []) (λ files. ContinuesWith (file_within files name.now T.most T.longer) (T.defines command.now)) (HasNewFault (F.faults shelf.old) (F.faults shelf.new))) }
    ensures stop { IfErr result (StopsWith (MayGive (F.files shelf.old) (name.now ∷ []) (λ files. ContinuesWith (file_within files name.now T.most T.longer) (T.defines command.now)) (HasNewFault (F.faults shelf.old) (F.faults shelf.new)))) }
    ensures shelf { KeepsShelf (F.files shelf.old) (F.files shelf.new) (F.faults shelf.old) (F.faults shelf.new) (F.begun shelf.old) (F.begun shelf.new) (name.now ∷ []) (IsErrAnd result StopsUnread) }
{
    let bytes = read_file(alloc, shelf, name, command.limit(), command.too_long())?;
    command.answer(alloc, &bytes)
}

/// Reads the first file within its limit, and returns the answer to its bytes and those of the second file.
pub fn answer_files<F: Shelf, T: FirstFile>(
    alloc: Global,
    model: &Name,
    second: &Name,
    command: &T,
    shelf: &mut F,
) -> Result<Answer, Stop>
    ensures answer { IfOk result (MayGive (F.files shelf.old) (model.now ∷ second.now ∷ []) (λ files. ContinuesWith (file_within files model.now T.most T.longer) (T.defines command.now files second.now)) (HasNewFault (F.faults shelf.old) (F.faults shelf.new))) }
    ensures stop { IfErr result (StopsWith (MayGive (F.files shelf.old) (model.now ∷ second.now ∷ []) (λ files. ContinuesWith (file_within files model.now T.most T.longer) (T.defines command.now files second.now)) (HasNewFault (F.faults shelf.old) (F.faults shelf.new)))) }
    ensures shelf { KeepsShelf (F.files shelf.old) (F.files shelf.new) (F.faults shelf.old) (F.faults shelf.new) (F.begun shelf.old) (F.begun shelf.new) (model.now ∷ second.now ∷ []) (IsErrAnd result StopsUnread) }
{
    let bytes = read_file(alloc, shelf, model, command.limit(), command.too_long())?;
    command.answer(alloc, &bytes, second, shelf)
}

/// Returns the answer with this text, or the refusal in place of the text.
pub fn text_answer(text: Result<Text, End>) -> Result<Answer, Stop>
    ensures { result ≡ text_answer text }
{
    match text {
        Ok(text) => Ok(Answer::Done(Output::Text(text))),
        Err(End::Bad(refusal)) => Ok(Answer::Refused(refusal)),
        Err(End::NoMemory) => Err(Stop::NoMemory),
    }
}
