//! `twe_explore`: what all runs of a TWEJava program can give. It reads the text of a program from standard input, looks at each legal
//! move of each state that a run can come to, and writes what `twe run` would write for each way in which a run can end.
#![tactic(auto)]

mod answering;
mod json;
mod laws;
mod program;
mod results;
mod text;
mod top;
mod words;

use std::process::ExitCode;
use top::explore_top;
use twe_io::{Process, Status};

fn main(rt: HostRuntime) -> ExitCode {
    let Ok(mut process) = Process::start(&rt, rt.stdin(), rt.stdout(), rt.stderr()) else {
        return ExitCode::from(Status::Memory.code());
    };
    let status = explore_top(
        rt.alloc(),
        process.words.as_slice(),
        &mut process.src,
        &mut process.out,
        &mut process.err,
    );
    ExitCode::from(status.code())
}
