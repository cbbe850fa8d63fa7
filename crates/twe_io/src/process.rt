//! A process: the words with which it was started, and its standard streams.
ghost use Rattle.std.specs.Prelude.{◌≡◌, [], IfOk};

use crate::{StdStream, words_of};
use std::io::{Read, Write};
use std::rt::Env;
use twe_base::{Memory, Word};

/// The words of a process, and its standard streams as a source and two sinks.
#[derive(Drop)]
pub struct Process<I: Read + Drop, O: Write + Drop, E: Write + Drop> {
    /// The words after the program's name, as `words_of` gives them.
    pub words: Vec<Word>,
    /// Standard input.
    pub src: StdStream<I>,
    /// Standard output.
    pub out: StdStream<O>,
    /// Standard error.
    pub err: StdStream<E>,
}

impl<I: Read + Drop, O: Write + Drop, E: Write + Drop> Process<I, O, E> {
    /// The process with these standard streams. Nothing is read or written yet.
    pub fn start<R: Env + AllocGlobal>(
        rt: &R,
        input: I,
        output: O,
        errors: E,
    ) -> Result<Self, Memory>
        ensures streams { IfOk result (λ process.
            (process.src.stream ≡ input) × (process.out.stream ≡ output) × (process.err.stream ≡ errors)) }
        ensures unused { IfOk result (λ process. (process.src.carried.bytes ≡ [])
            × (process.out.carried.bytes ≡ []) × (process.err.carried.bytes ≡ [])) }
    {
        Ok(Process {
            words: words_of(rt)?,
            src: StdStream::new(input),
            out: StdStream::new(output),
            err: StdStream::new(errors),
        })
    }
}
