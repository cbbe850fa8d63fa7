//! The writing of an answer's two texts.
ghost use Rattle.twe_io.specs.Ends.{sink};
ghost use Rattle.twe_io.specs.Writing.{Wrote, WroteBoth};

use crate::{Sink, WriteFault, write_whole};

/// Writes a text to out, and then a text to err. After a failed write nothing more is written. It takes no memory.
pub(crate) fn write_both<O: Sink, E: Sink>(
    for_out: &[u8],
    for_err: &[u8],
    out: &mut O,
    err: &mut E,
) -> Result<(), WriteFault>
    ensures { WroteBoth (sink O.written O.faults O.write_gives) (sink E.written E.faults E.write_gives)
        for_out.now for_err.now out.old out.new err.old err.new result }
{
    match write_to(out, for_out) {
        Ok(()) => write_to(err, for_err),
        Err(fault) => Err(fault),
    }
}

/// Writes a text to a sink.
fn write_to<K: Sink>(to: &mut K, text: &[u8]) -> Result<(), WriteFault>
    ensures { Wrote (sink K.written K.faults K.write_gives) text.now to.old result to.new }
{
    write_whole(to, text)
}
