//! `twe_batch`: many TWEJava programs at once. It reads programs with a line `%%` between two of them from standard input,
//! checks or runs them in several threads, and writes their answers in order.
#![tactic(auto)]

mod text;
mod top;
mod words;

use std::process::ExitCode;
use top::batch_top;
use twe_io::{Process, Status};

fn main(rt: HostRuntime) -> ExitCode {
    let alloc = rt.alloc();
    let Ok(mut process) = Process::start(&rt, rt.stdin(), rt.stdout(), rt.stderr()) else {
        return ExitCode::from(Status::Memory.code());
    };
    let status = batch_top(
        &rt,
        alloc,
        process.words.as_slice(),
        &mut process.src,
        &mut process.out,
        &mut process.err,
    );
    ExitCode::from(status.code())
}
