//! The program `moxi_cli`: translates models between SMV, MoXI and BTOR2, and judges, lifts and lowers
//! counterexamples.
#![tactic(auto)]

use std::process::ExitCode;
use std::rt::Env;
use std::{env, io};
use text_core::{FileShelf, NoMemory, Sink, StreamSink, write_whole};
use top_call::{Status, run};

fn main(rt: HostRuntime) -> ExitCode {
    let mut shelf = FileShelf::new(&rt);
    let mut out = StreamSink::new(rt.stdout());
    let mut notes = StreamSink::new(rt.stderr());
    let status = match command_words(&rt) {
        Ok(words) => run(rt.alloc(), &words, &mut shelf, &mut out, &mut notes),
        Err(NoMemory) => no_memory(&mut notes),
    };
    ExitCode::from(status.number())
}

// Reports that the command words ran out of memory.
fn no_memory<N: Sink>(notes: &mut N) -> Status {
    match write_whole(notes, b"no memory\n") {
        Ok(()) => Status::NoMemory,
        Err(_) => Status::WriteFault,
    }
}

// The command words without the program's name. There are none where the system's words are not text.
fn command_words<R: Env + AllocGlobal>(rt: &R) -> Result<Vec<String>, NoMemory> {
    match env::args(rt) {
        Ok(args) => Ok(args.skip(1).collect(rt.alloc())?),
        Err(error) => {
            if error.kind() == io::ErrorKind::OutOfMemory {
                Err(NoMemory)
            } else {
                Ok(Vec::new(rt.alloc()))
            }
        }
    }
}
