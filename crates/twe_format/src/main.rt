//! `twe_format`: one layout for every TWEJava program. It reads the text of a program from standard input, and writes the text in its
//! layout, or with `--check` only the lines that differ from it.
#![tactic(auto)]

mod answering;
mod comparing;
mod laws;
mod lines;
mod program;
mod runs;
mod text;
mod top;
mod words;

use std::process::ExitCode;
use top::format_top;
use twe_io::{Process, Status};

fn main(rt: HostRuntime) -> ExitCode {
    let Ok(mut process) = Process::start(&rt, rt.stdin(), rt.stdout(), rt.stderr()) else {
        return ExitCode::from(Status::Memory.code());
    };
    let status = format_top(
        rt.alloc(),
        process.words.as_slice(),
        &mut process.src,
        &mut process.out,
        &mut process.err,
    );
    ExitCode::from(status.code())
}
