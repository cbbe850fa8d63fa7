//! `twe_annotate`: what the summaries of a TWEJava program say of its tasks, and the program with the least summaries of its
//! methods. It reads the text of a program from standard input.
#![tactic(auto)]

mod answering;
mod comparing;
mod explaining;
mod kept;
mod laws;
mod lines;
mod program;
mod text;
mod top;
mod words;
mod writing;

use std::process::ExitCode;
use top::annotate_top;
use twe_io::{Process, Status};

fn main(rt: HostRuntime) -> ExitCode {
    let Ok(mut process) = Process::start(&rt, rt.stdin(), rt.stdout(), rt.stderr()) else {
        return ExitCode::from(Status::Memory.code());
    };
    let status = annotate_top(
        rt.alloc(),
        process.words.as_slice(),
        &mut process.src,
        &mut process.out,
        &mut process.err,
    );
    ExitCode::from(status.code())
}
