//! Runs the cases of the files that its arguments name. It makes each call as the case states, and compares the
//! result with the expected one. It prints a line for each file, and for each case that differs the expected and
//! the actual result.
#![tactic(auto)]

mod report;

use case_text::Files;
use report::write_report;
use std::env;
use std::process::ExitCode;
use text_core::{FileShelf, StreamSink};

fn main(rt: HostRuntime) -> ExitCode {
    let mut files = Files::new(FileShelf::new(&rt));
    let mut out = StreamSink::new(rt.stdout());
    let Ok(args) = env::args(&rt) else {
        return ExitCode::from(2);
    };
    let mut passed = true;
    for name in args.skip(1) {
        match write_report(rt.alloc(), &mut files, &mut out, name.as_str()) {
            Some(all) => passed = passed && all,
            None => return ExitCode::from(2),
        }
    }
    ExitCode::from(if passed { 0 } else { 1 })
}
