//! `twe`: the checker, interpreter and scheduler of TWEJava, as a program. It reads the text of a program from standard
//! input and writes its answer.
#![tactic(auto)]

mod answering;
#[cfg(test)]
mod tests;
mod top;

use std::process::ExitCode;
use steal_pool::gates::FreeGate;
use text_answers::Book;
use top::twe;
use twe_io::{Process, Status};

fn main(rt: HostRuntime) -> ExitCode {
    let alloc = rt.alloc();
    let Ok(mut process) = Process::start(&rt, rt.stdin(), rt.stdout(), rt.stderr()) else {
        return ExitCode::from(Status::Memory.code());
    };
    let mut book = Book::new(alloc);
    let status = twe(
        &rt,
        alloc,
        process.words.as_slice(),
        &mut process.src,
        &mut process.out,
        &mut process.err,
        &FreeGate,
        &mut book,
    );
    ExitCode::from(status.code())
}
