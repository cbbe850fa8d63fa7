//! `twe_advise`: what a run could gain. It reads the text of a TWEJava program from standard input, and after a line `%%` the
//! text of a journal. It writes how parallel the run was, the least time with more workers, what its tasks took,
//! which effects held tasks most, and why the entries of its heaviest chain come one after another.
#![tactic(auto)]

mod answering;
mod chains;
mod forms;
mod held_times;
mod holds;
mod json;
mod json_chains;
mod json_holds;
mod laws;
mod paces;
mod program;
mod request;
mod text;
mod top;
mod words;

use std::process::ExitCode;
use top::advise_top;
use twe_io::{Process, Status};

fn main(rt: HostRuntime) -> ExitCode {
    let Ok(mut process) = Process::start(&rt, rt.stdin(), rt.stdout(), rt.stderr()) else {
        return ExitCode::from(Status::Memory.code());
    };
    let status = advise_top(
        rt.alloc(),
        process.words.as_slice(),
        &mut process.src,
        &mut process.out,
        &mut process.err,
    );
    ExitCode::from(status.code())
}
