//! The reading of a program's input, and the answer to a read that fails.
ghost use Rattle.std.specs.Prelude.{IfOk};
ghost use Rattle.twe_io.specs.Ends.{source};
ghost use Rattle.twe_report.specs.Reading.{IsInput};

use crate::lines::{read_fault_text, too_long_text};
use std::alloc::Global;
use twe_base::{Bytes, Memory};
use twe_io::{Answer, ReadFail, Source, Status, read_text};

/// What the reading of an input came to.
#[derive(Debug, Drop)]
pub enum Input {
    /// The input: all that the source had left.
    Given(Bytes),
    /// The answer to a read that failed, or to a source with more bytes than a text may have.
    Failed(Answer),
}

/// Reads the input of a program: all that its source has left, at most 1,048,576 bytes. If a read fails or there are more bytes,
/// the result is the answer to that, with status 5 or 8 and a line on err. After `Memory` nothing was read, or no answer could be
/// made.
pub fn read_input<S: Source>(alloc: Global, src: &mut S) -> Result<Input, Memory>
    ensures { IfOk result (IsInput (source S.left S.faults S.read_gives) src.old src.new) }
{
    match read_text(alloc, src) {
        Ok(input) => Ok(Input::Given(input)),
        Err(ReadFail::ReadFault) => {
            let line = read_fault_text(alloc)?;
            Ok(Input::Failed(Answer::on_err(alloc, Status::ReadFault, line)))
        }
        Err(ReadFail::TooLong) => {
            let line = too_long_text(alloc)?;
            Ok(Input::Failed(Answer::on_err(alloc, Status::TooLong, line)))
        }
        Err(ReadFail::OutOfMemory(memory)) => Err(memory),
    }
}
