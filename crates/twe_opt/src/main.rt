//! `twe_opt`: runs a TWEJava program by workers that run ahead of admission. It reads the text of the program from standard input
//! and writes what `twe run` with as many workers writes.
#![tactic(auto)]

mod text;
mod top;
mod words;

use std::process::ExitCode;
use text_answers::Book;
use top::opt_top;
use twe_io::{Process, Status};

fn main(rt: HostRuntime) -> ExitCode {
    let alloc = rt.alloc();
    let Ok(mut process) = Process::start(&rt, rt.stdin(), rt.stdout(), rt.stderr()) else {
        return ExitCode::from(Status::Memory.code());
    };
    let mut book = Book::new(alloc);
    let status = opt_top(
        &rt,
        alloc,
        process.words.as_slice(),
        &mut process.src,
        &mut process.out,
        &mut process.err,
        &mut book,
    );
    ExitCode::from(status.code())
}
