//! The program `lam`, over the files of the current folder and standard output.
//!
//! It runs the command that its words ask, and ends with the number of the call's status. Where its own memory runs out
//! it ends with 1.
#![tactic(auto)]

use lam_io::{DirShelf, StdSink};
use lam_main::Status;
use lam_main_words::words_of;
use std::process::ExitCode;
use thread_host_pace::SpreadGate;

fn main(rt: HostRuntime) -> ExitCode {
    let Ok(words) = words_of(&rt) else {
        return end(Status::NoMemory);
    };
    let mut shelf = DirShelf::new(&rt);
    let mut out = StdSink::new(&rt);
    end(lam_main::lam(
        &rt,
        rt.alloc(),
        words.as_slice(),
        &mut shelf,
        &mut out,
        &SpreadGate,
    ))
}

fn end(status: Status) -> ExitCode {
    ExitCode::from(status.code())
}
