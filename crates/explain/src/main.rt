//! The program `explain [--table] [MODEL [SECOND]]`: explains the notes of `moxi_cli` on standard input.
#![tactic(auto)]

use explain_core::{Ending, explain};
use std::io::Read;
use std::process::ExitCode;
use std::rt::Env;
use std::{env, io};
use text_core::{FileShelf, NoMemory, StreamSink};

fn main(rt: HostRuntime) -> ExitCode {
    let mut notes = Vec::new(rt.alloc());
    let ending = if rt.stdin().read_to_end(&mut notes).is_err() {
        Ending::ReadFault
    } else {
        match command_words(&rt) {
            Ok(words) => {
                let mut shelf = FileShelf::new(&rt);
                let mut out = StreamSink::new(rt.stdout());
                explain(rt.alloc(), &words, notes.as_slice(), &mut shelf, &mut out)
            }
            Err(NoMemory) => Ending::NoMemory,
        }
    };
    ExitCode::from(ending.number())
}
// The command words without the program's name. There are none where the system's words are not text.
fn command_words<R: Env + AllocGlobal>(rt: &R) -> Result<Vec<String>, NoMemory> {
    match env::args(rt) {
        Ok(args) => Ok(args.skip(1).collect(rt.alloc())?),
        Err(error) => {
            if error.kind() == io::ErrorKind::OutOfMemory {
                Err(NoMemory)
            } else {
                Ok(Vec::new(rt.alloc()))
            }
        }
    }
}
