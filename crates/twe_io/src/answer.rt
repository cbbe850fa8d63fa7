//! An answer: what a program has to say before it writes anything, and the writing of it.
ghost use Rattle.std.specs.Prelude.{◌≡◌};
ghost use Rattle.twe_io.specs.Ends.{sink};
ghost use Rattle.twe_io.specs.Answers.{Tells, TellsMade, on_err, on_out};
ghost use Rattle.twe_io.specs.Writing.{WroteBoth};

use crate::writing::write_both;
use crate::{Sink, Status, WriteFault};
use std::alloc::Global;
use twe_base::{Bytes, Memory};

/// An answer: a status, and the bytes for the two sinks.
#[derive(Debug, Drop)]
pub struct Answer {
    /// The status.
    pub status: Status,
    /// The bytes for out.
    pub out: Bytes,
    /// The bytes for err.
    pub err: Bytes,
}

impl Answer {
    /// An answer on err alone: this line, and nothing on out. It takes no memory.
    pub fn on_err(alloc: Global, status: Status, line: Bytes) -> Answer
        ensures { result ≡ on_err status line }
    {
        Answer {
            status,
            out: Bytes::new(alloc),
            err: line,
        }
    }

    /// An answer on out alone: this text, and nothing on err. It takes no memory.
    pub fn on_out(alloc: Global, status: Status, text: Bytes) -> Answer
        ensures { result ≡ on_out status text }
    {
        Answer {
            status,
            out: text,
            err: Bytes::new(alloc),
        }
    }
}

/// Writes an answer, out before err, and returns the status of the call: the answer's status, or `WriteFault` after a failed
/// write, after which nothing more is written. If no answer could be made, nothing is written, and the status is `Memory`. It
/// takes no memory.
pub fn tell<O: Sink, E: Sink>(made: &Result<Answer, Memory>, out: &mut O, err: &mut E) -> Status
    ensures { TellsMade (sink O.written O.faults O.write_gives) (sink E.written E.faults E.write_gives)
        out.old out.new err.old err.new made.now result }
{
    match made {
        Ok(answer) => tell_answer(answer, out, err),
        Err(_) => Status::Memory,
    }
}

/// Writes an answer that could be made.
fn tell_answer<O: Sink, E: Sink>(answer: &Answer, out: &mut O, err: &mut E) -> Status
    ensures { Tells (sink O.written O.faults O.write_gives) (sink E.written E.faults E.write_gives)
        out.old out.new err.old err.new answer.now result }
{
    match write_answer(answer, out, err) {
        Ok(()) => answer.status,
        Err(WriteFault) => Status::WriteFault,
    }
}

/// Writes the bytes for out, and then those for err.
fn write_answer<O: Sink, E: Sink>(
    answer: &Answer,
    out: &mut O,
    err: &mut E,
) -> Result<(), WriteFault>
    ensures { WroteBoth (sink O.written O.faults O.write_gives) (sink E.written E.faults E.write_gives)
        answer.now.out answer.now.err out.old out.new err.old err.new result }
{
    write_both(answer.out.as_slice(), answer.err.as_slice(), out, err)
}
