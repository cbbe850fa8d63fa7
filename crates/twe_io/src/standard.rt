//! Standard streams as sources and sinks. They make known the bytes that their streams make known; a file, a pipe and a
//! terminal make none known. Whatever the stream is, contracts see the bytes that its reads gave and its writes took.
ghost use Rattle.std.specs.Prelude.{◌≡◌, []};

use crate::carried::Carried;
use crate::{Failed, Sink, Source};
use std::io::{Read, Write};

/// A stream as a source that reads it, or as a sink that writes to it. It counts the calls that failed. Contracts also see the
/// bytes that its reads gave or its writes took, one after another.
#[derive(Drop)]
pub struct StdStream<T: Drop> {
    stream: T,
    carried: Carried,
    faults: u64,
}

impl<T: Drop> StdStream<T> {
    /// A source or a sink over a stream. Nothing went through it yet, and no call has failed. It takes no memory.
    pub fn new(stream: T) -> Self
        ensures stream { result.stream ≡ stream }
        ensures bytes { result.carried.bytes ≡ [] }
        ensures faults { result.faults ≡ 0 }
    {
        StdStream {
            stream,
            carried: Carried::none(),
            faults: 0,
        }
    }
}

impl<R: Read + Drop> Source for StdStream<R> {
    ghost faults = { λ source. source.faults };

    ghost left = { λ source. R.remaining source.stream };

    ghost use Rattle.std.specs.Prelude.{◌≡◌};
    ghost use Rattle.twe_io.specs.Standard.{through, through_after};

    ghost read_gives = { λ before room given after.
        through after.carried.bytes after.faults ≡ through_after (through before.carried.bytes before.faults) given };

    fn read(&mut self, buffer: &mut [u8]) -> Result<usize, Failed> {
        match self.stream.read(buffer) {
            Ok(given) => {
                self.carried.take(&buffer[..given]);
                Ok(given)
            }
            Err(_) => {
                self.faults = self.faults.saturating_add(1);
                Err(Failed)
            }
        }
    }
}

/// A write that takes no byte counts as failed.
impl<W: Write + Drop> Sink for StdStream<W> {
    ghost faults = { λ sink. sink.faults };

    ghost written = { λ sink. W.contents sink.stream };

    ghost use Rattle.std.specs.Prelude.{◌≡◌};
    ghost use Rattle.twe_io.specs.Moved.{moved};
    ghost use Rattle.twe_io.specs.Standard.{through, through_after};

    ghost write_gives = { λ before piece answer after. through after.carried.bytes after.faults
        ≡ through_after (through before.carried.bytes before.faults) (moved answer piece) };

    fn write(&mut self, piece: &[u8]) -> Result<usize, Failed> {
        match self.stream.write(piece) {
            Ok(taken) if taken > 0 => {
                self.carried.take(&piece[..taken]);
                Ok(taken)
            }
            _ => {
                self.faults = self.faults.saturating_add(1);
                Err(Failed)
            }
        }
    }
}

impl<R: Read + Drop> StdStream<R> {
    ghost use Rattle.std.specs.Prelude.{◌≡◌, ◌++◌, ℕ, List, Ok};
    ghost use Rattle.twe_io.specs.Runs.{ReadsWhole};

    /// A text that was read from a stream is, byte for byte, what went through it from the one moment to the other.
    pub fn texts_go_through(before: &Self, after: &Self)
        ensures { (limit : ℕ) (text : List ℕ)
            → ReadsWhole ⟦<StdStream<R> as Source>⟧.read_gives limit before.now (Ok text) after.now
            → after.now.carried.bytes ≡ before.now.carried.bytes ++ text }
    {
        let _ = before;
        let _ = after;
    }
}

impl<W: Write + Drop> StdStream<W> {
    ghost use Rattle.std.specs.Prelude.{◌≡◌, ◌++◌, ℕ, List, take};
    ghost use Rattle.twe_io.specs.Runs.{WriteCalls};

    /// What a stream took of a text is, byte for byte, what went through it from the one moment to the other.
    pub fn writes_go_through(before: &Self, after: &Self)
        ensures { (text : List ℕ) (taken : ℕ)
            → WriteCalls ⟦<StdStream<W> as Sink>⟧.write_gives text before.now taken after.now
            → after.now.carried.bytes ≡ before.now.carried.bytes ++ take taken text }
    {
        let _ = before;
        let _ = after;
    }
}
