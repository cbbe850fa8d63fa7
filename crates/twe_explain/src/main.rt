//! `twe_explain`: why a TWEJava program is refused, or why its run goes no further, for people. It reads the text of a program
//! from standard input, and the text of a journal after it if there is one, or runs it. It writes the answer of `twe check`, or
//! of `twe replay` or `twe run`, with the places, the lines of the text, and what it comes from.
#![tactic(auto)]

mod alone;
mod inputs;
mod program;
mod running;
mod top;
mod words;

use std::process::ExitCode;
use top::explain_top;
use twe_io::{Process, Status};

fn main(rt: HostRuntime) -> ExitCode {
    let Ok(mut process) = Process::start(&rt, rt.stdin(), rt.stdout(), rt.stderr()) else {
        return ExitCode::from(Status::Memory.code());
    };
    let status = explain_top(
        rt.alloc(),
        process.words.as_slice(),
        &mut process.src,
        &mut process.out,
        &mut process.err,
    );
    ExitCode::from(status.code())
}
