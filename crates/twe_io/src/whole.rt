//! Reading a whole text from a source, and writing a whole text to a sink.
ghost use Rattle.std.specs.Prelude.{◌≡◌, ◌↔◌, ◌+◌, ◌<◌, ◌≤◌, length, take, OnOk, OnErr, IfOk, IfSome, IsErrOf, vec_len};
ghost use Rattle.std.specs.Io.KnownBytes.{Appends, Consumes, IsAtEnd};
ghost use Rattle.twe_io.specs.Faults.{Rose};
ghost use Rattle.twe_io.specs.Told.{Gives, GivesAtMost, TakesPart};
ghost use Rattle.twe_io.specs.Runs.{ReadsWhole, WritesWhole};
ghost use Rattle.twe_io.specs.inner.Filling.{FillsUp, BreaksOff, GivesLess};
ghost use Rattle.twe_io.specs.declared.whole.ReadFail.TheVariants.{ReadFault, OutOfMemory};

use crate::{Failed, Sink, Source};
use std::alloc::Global;
use twe_base::{Bytes, Memory};

/// How many bytes of a buffer are set at a time, before it is read into.
const ZEROS: usize = 4096;

/// Why a source was not read to its end.
#[derive(Clone, Copy, Debug, PartialEq, Eq)]
pub enum ReadFail {
    /// A read failed.
    ReadFault,
    /// There are more bytes than the limit.
    TooLong,
    /// There was not enough memory for `limit + 1` bytes.
    OutOfMemory(Memory),
}

/// A write failed.
#[derive(Clone, Copy, Debug, PartialEq, Eq)]
pub struct WriteFault;

impl From<Memory> for ReadFail {
    ghost from_gives = { λ memory fail. fail ≡ OutOfMemory memory };

    fn from(memory: Memory) -> Self {
        ReadFail::OutOfMemory(memory)
    }
}

impl From<Failed> for ReadFail {
    ghost from_gives = { λ _ fail. fail ≡ ReadFault };

    fn from(_: Failed) -> Self {
        ReadFail::ReadFault
    }
}

impl From<Failed> for WriteFault {
    fn from(_: Failed) -> Self {
        WriteFault
    }
}

/// Reads a source to its end, and returns all of its bytes, at most `limit`.
///
/// It allocates its memory, `limit + 1` bytes, before the first read. So after `OutOfMemory` nothing was read; with a
/// limit of `usize::MAX` it returns `OutOfMemory` too. It returns `TooLong` exactly if it read `limit + 1` bytes. After
/// `ReadFault` the bytes read before the fault are lost.
pub fn read_all<S: Source>(alloc: Global, source: &mut S, limit: usize) -> Result<Bytes, ReadFail>
    ensures whole { IfOk result (λ text. IfSome (S.left source.old) (λ left. text ≡ left)) }
    ensures ended { OnOk result (IsAtEnd (S.left source.new)) }
    ensures short { IfOk result (λ text. length text ≤ limit) }

    ensures fault { IsErrOf result ReadFail.ReadFault → Rose (S.faults source.old) (S.faults source.new) }
    ensures too_long { IfSome (S.left source.old) (λ _.
        IsErrOf result ReadFail.TooLong ↔ Gives (S.left source.old) (S.left source.new) (limit + 1)) }

    ensures taken { GivesAtMost (S.left source.old) (S.left source.new) (limit + 1) }
    ensures counts { S.faults source.old ≤ S.faults source.new }
    // The sequence of reads, what they gave, and how it ended.
    ensures reads { ReadsWhole S.read_gives limit source.old result source.new }
{
    let mut buffer = buffer_for(alloc, limit)?;
    let taken = fill(source, &mut buffer)?;
    if taken > limit {
        return Err(ReadFail::TooLong);
    }
    buffer.truncate(taken);
    Ok(Bytes::from(buffer))
}

/// A buffer of `limit + 1` bytes.
fn buffer_for(alloc: Global, limit: usize) -> Result<Vec<u8>, Memory>
    ensures { IfOk result (λ buffer. vec_len buffer ≡ limit + 1) }
{
    let size = Memory::next_count(limit)?;
    let mut buffer = Vec::with_capacity(alloc, size)?;
    let zeros: Vec<u8> = vec![in alloc; 0; ZEROS]?;
    while buffer.len() < size {
        let more = zeros.len().min(size - buffer.len());
        buffer.extend_from_slice(&zeros[..more])?;
    }
    Ok(buffer)
}

/// Fills a buffer from its front until it is full or the source is at its end. Returns how many bytes were read.
fn fill<S: Source>(source: &mut S, buffer: &mut [u8]) -> Result<usize, Failed>
    ensures within { IfOk result (λ n. n ≤ length buffer.old) }
    ensures given { IfOk result (λ n. Consumes (S.left source.old) (S.left source.new) (take n buffer.new)) }
    ensures ended { IfOk result (λ n. n < length buffer.old → IsAtEnd (S.left source.new)) }

    ensures lost { OnErr result (GivesLess (S.left source.old) (S.left source.new) (length buffer.old)) }
    ensures fault { OnErr result (Rose (S.faults source.old) (S.faults source.new)) }
    ensures counts { S.faults source.old ≤ S.faults source.new }
    ensures reads { IfOk result (λ n. FillsUp S.read_gives (length buffer.old) source.old (take n buffer.new) source.new) }
    ensures broken { OnErr result (BreaksOff S.read_gives (length buffer.old) source.old source.new) }
{
    let mut taken = 0;
    while taken < buffer.len() {
        let given = source.read(&mut buffer[taken..])?;
        if given == 0 {
            return Ok(taken);
        }
        taken += given;
    }
    Ok(taken)
}

/// Writes all of a text. It takes no memory.
///
/// After `WriteFault` a prefix of the text was written, and not all of it.
pub fn write_whole<K: Sink>(sink: &mut K, text: &[u8]) -> Result<(), WriteFault>
    ensures whole { OnOk result (Appends (K.written sink.old) (K.written sink.new) text.now) }
    ensures part { OnErr result (TakesPart (K.written sink.old) (K.written sink.new) text.now) }
    ensures fault { OnErr result (Rose (K.faults sink.old) (K.faults sink.new)) }
    ensures counts { K.faults sink.old ≤ K.faults sink.new }
    ensures writes { WritesWhole K.write_gives text.now sink.old result sink.new }
{
    let mut taken = 0;
    while taken < text.len() {
        taken += sink.write(&text[taken..])?;
    }
    Ok(())
}
