//! `twe_infer`: the least summaries of the methods of a TWEJava program. It reads the text of a program from standard input, and
//! writes a line for each method.
#![tactic(auto)]

mod answering;
mod laws;
mod program;
mod text;
mod top;

use std::process::ExitCode;
use top::infer_top;
use twe_io::{Process, Status};

fn main(rt: HostRuntime) -> ExitCode {
    let Ok(mut process) = Process::start(&rt, rt.stdin(), rt.stdout(), rt.stderr()) else {
        return ExitCode::from(Status::Memory.code());
    };
    let status = infer_top(
        rt.alloc(),
        process.words.as_slice(),
        &mut process.src,
        &mut process.out,
        &mut process.err,
    );
    ExitCode::from(status.code())
}
