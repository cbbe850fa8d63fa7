//! `twe_draw`: a picture of a run. It reads the text of a TWEJava program from standard input, and after a line `%%` the text of
//! a journal. It writes an SVG with a row for each task and a bar for each entry, or a trace.
#![tactic(auto)]

mod arrows;
mod bars;
mod head;
mod held;
mod labels;
mod laws;
mod numbers;
mod page;
mod picture;
mod program;
mod scale;
mod shown;
mod style;
mod top;
mod trace;
mod words;

use std::process::ExitCode;
use top::draw_top;
use twe_io::{Process, Status};

fn main(rt: HostRuntime) -> ExitCode {
    let Ok(mut process) = Process::start(&rt, rt.stdin(), rt.stdout(), rt.stderr()) else {
        return ExitCode::from(Status::Memory.code());
    };
    let status = draw_top(
        rt.alloc(),
        process.words.as_slice(),
        &mut process.src,
        &mut process.out,
        &mut process.err,
    );
    ExitCode::from(status.code())
}
