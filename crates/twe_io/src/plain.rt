//! The simplest source and sink, both in memory: the source never fails, and the sink fails only if it is full.
ghost use Rattle.std.specs.Prelude.{◌≡◌, ◌+◌, [], Some, IfOk};

use crate::{Failed, Sink, Source};
use std::alloc::Global;
use std::marker::Model;
use twe_base::{Bytes, Memory};

/// A source of bytes in memory. It never fails. Contracts see its bytes, and how many of them were read.
#[derive(Debug, Drop)]
pub struct PlainSource {
    bytes: Bytes,
    at: usize,
}

impl Model for PlainSource {
    ghost use Rattle.std.specs.Prelude.{◌≤◌, length};
    ghost use Rattle.twe_io.specs.Plain.{Reading};

    ghost Value = { Reading };

    ghost view = { λ source. record { bytes = source.bytes; at = source.at } };

    ghost invariant = { λ source. source.at ≤ length source.bytes };
}

impl PlainSource {
    /// A source from which nothing was read yet. It takes no memory.
    pub fn new(bytes: Bytes) -> Self
        ensures { result ≡ record { bytes = bytes; at = 0 } }
    {
        PlainSource { bytes, at: 0 }
    }
}

impl Source for PlainSource {
    ghost use Rattle.std.specs.Prelude.{Some};
    ghost use Rattle.twe_io.specs.Plain.{plain_left_of, ReadsPlain};

    ghost faults = { λ _. 0 };

    ghost left = { λ source. Some (plain_left_of source) };

    ghost read_gives = { ReadsPlain };

    fn read(&mut self, buffer: &mut [u8]) -> Result<usize, Failed> {
        let left = self.bytes.as_slice();
        let given = buffer.len().min(left.len() - self.at);
        buffer[..given].copy_from_slice(&left[self.at..self.at + given]);
        self.at += given;
        Ok(given)
    }
}

/// A sink into memory of a fixed size. Contracts see the bytes written to it, its size, and how many of its writes
/// failed.
#[derive(Debug, Drop)]
pub struct PlainSink {
    bytes: Vec<u8>,
    room: usize,
    faults: u64,
}

impl Model for PlainSink {
    ghost use Rattle.std.specs.Prelude.{◌≤◌, vec_len, vec_capacity};
    ghost use Rattle.twe_io.specs.Plain.{Writing};

    ghost Value = { Writing };

    ghost view = { λ sink. record { bytes = sink.bytes.items; room = sink.room; faults = sink.faults } };

    ghost invariant = { λ sink. (vec_len sink.bytes ≤ sink.room) × (sink.room ≤ vec_capacity sink.bytes) };
}

impl PlainSink {
    /// An empty sink with room for `room` bytes. It allocates all of its memory here, so its writes allocate none.
    pub fn new(alloc: Global, room: usize) -> Result<Self, Memory>
        ensures { IfOk result (λ sink. sink ≡ record { bytes = []; room = room; faults = 0 }) }
    {
        Ok(PlainSink {
            bytes: Vec::with_capacity(alloc, room)?,
            room,
            faults: 0,
        })
    }

    /// The bytes written so far.
    pub fn bytes(&self) -> &[u8]
        ensures { result.now ≡ self.now.bytes }
    {
        self.bytes.as_slice()
    }

    /// The number of writes that failed.
    pub fn faults(&self) -> u64
        ensures { result ≡ self.now.faults }
    {
        self.faults
    }
}

impl Sink for PlainSink {
    ghost use Rattle.std.specs.Prelude.{Some};
    ghost use Rattle.twe_io.specs.Plain.{WritesPlain};

    ghost faults = { λ sink. sink.faults };

    ghost written = { λ sink. Some sink.bytes };

    ghost write_gives = { WritesPlain };

    fn write(&mut self, piece: &[u8]) -> Result<usize, Failed> {
        let room = self.room - self.bytes.len();
        if room == 0 {
            self.faults = self.faults.saturating_add(1);
            return Err(Failed);
        }
        let taken = piece.len().min(room);
        self.bytes.extend_from_slice(&piece[..taken]).unwrap();
        Ok(taken)
    }
}
