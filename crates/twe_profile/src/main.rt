//! `twe_profile`: work and span of a run. It reads the text of a TWEJava program from standard input, and after a line `%%` the
//! text of a journal. It writes how much the entries of the journal did, how much of that had to be one after another, and the
//! heaviest chain of entries.
#![tactic(auto)]

mod answering;
mod laws;
mod program;
mod text;
mod top;

use std::process::ExitCode;
use top::profile_top;
use twe_io::{Process, Status};

fn main(rt: HostRuntime) -> ExitCode {
    let Ok(mut process) = Process::start(&rt, rt.stdin(), rt.stdout(), rt.stderr()) else {
        return ExitCode::from(Status::Memory.code());
    };
    let status = profile_top(
        rt.alloc(),
        process.words.as_slice(),
        &mut process.src,
        &mut process.out,
        &mut process.err,
    );
    ExitCode::from(status.code())
}
