//! A source and a sink in memory that fail on purpose, to show what a fault leaves behind.
//!
//! Both move a few bytes a call, and fail in the calls whose numbers they were given. `ReadsMem` and `WritesMem` say
//! what each call does.
ghost use Rattle.std.specs.Prelude.{◌≡◌, ◌≤◌, ◌↔◌, ℕ, [], length, take, min, IsTrue, IfOk};
ghost use Rattle.twe_io.specs.Named.{NextIsNamed};

mod exact;

use crate::{Failed, Sink, Source};
use std::alloc::Global;
use std::marker::Model;
use twe_base::{Bytes, Calls, Memory};

/// A source of bytes in memory that gives at most `step` bytes a call, and fails in the calls listed in `fails`.
#[derive(Debug, Drop)]
pub struct MemSource {
    bytes: Bytes,
    at: usize,
    step: usize,
    calls: u64,
    fails: Calls,
    faults: u64,
}

impl Model for MemSource {
    ghost use Rattle.std.specs.Prelude.{◌≤◌, length};
    ghost use Rattle.twe_io.specs.Memory.{MemReading};

    ghost Value = { MemReading };

    ghost view = { λ source. record {
      bytes = source.bytes;
      at = source.at;
      step = source.step;
      calls = source.calls;
      fails = source.fails;
      faults = source.faults;
    } };

    ghost invariant = { λ source. (source.at ≤ length source.bytes) × (1 ≤ source.step) };
}

impl MemSource {
    /// A source from which nothing was read yet. It takes no memory.
    pub fn new(bytes: Bytes, step: usize, fails: Calls) -> Self
        requires { 1 ≤ step }
        ensures { result ≡ record { bytes = bytes; at = 0; step = step; calls = 0; fails = fails; faults = 0 } }
    {
        MemSource {
            bytes,
            at: 0,
            step,
            calls: 0,
            fails,
            faults: 0,
        }
    }

    /// The number of reads so far.
    pub fn calls(&self) -> u64
        ensures { result ≡ self.now.calls }
    {
        self.calls
    }

    /// The number of reads that failed.
    pub fn faults(&self) -> u64
        ensures { result ≡ self.now.faults }
    {
        self.faults
    }
}

impl Source for MemSource {
    ghost use Rattle.std.specs.Prelude.{Some};
    ghost use Rattle.twe_io.specs.Memory.{mem_left_of, ReadsMem};

    ghost faults = { λ source. source.faults };

    ghost left = { λ source. Some (mem_left_of source) };

    ghost read_gives = { ReadsMem };

    fn read(&mut self, buffer: &mut [u8]) -> Result<usize, Failed> {
        let fails = is_next_named(&self.fails, self.calls);
        self.calls = self.calls.saturating_add(1);
        if fails {
            self.faults = self.faults.saturating_add(1);
            return Err(Failed);
        }
        let given = copy_front(&self.bytes.as_slice()[self.at..], buffer, self.step);
        self.at += given;
        Ok(given)
    }
}

/// A sink into memory of a fixed size that takes at most `step` bytes a call. It fails in the calls listed in `fails`,
/// and if it is full.
#[derive(Debug, Drop)]
pub struct MemSink {
    bytes: Vec<u8>,
    room: usize,
    step: usize,
    calls: u64,
    fails: Calls,
    faults: u64,
}

impl Model for MemSink {
    ghost use Rattle.std.specs.Prelude.{◌≤◌, vec_len, vec_capacity};
    ghost use Rattle.twe_io.specs.Memory.{MemWriting};

    ghost Value = { MemWriting };

    ghost view = { λ sink. record {
      bytes = sink.bytes.items;
      room = sink.room;
      step = sink.step;
      calls = sink.calls;
      fails = sink.fails;
      faults = sink.faults;
    } };

    ghost invariant = { λ sink.
        (vec_len sink.bytes ≤ sink.room) × (sink.room ≤ vec_capacity sink.bytes) × (1 ≤ sink.step) };
}

impl MemSink {
    /// An empty sink with room for `room` bytes. It allocates all of its memory here, so its writes allocate none.
    pub fn new(alloc: Global, room: usize, step: usize, fails: Calls) -> Result<Self, Memory>
        requires { 1 ≤ step }
        ensures { IfOk result (λ sink.
            sink ≡ record { bytes = []; room = room; step = step; calls = 0; fails = fails; faults = 0 }) }
    {
        Ok(MemSink {
            bytes: Vec::with_capacity(alloc, room)?,
            room,
            step,
            calls: 0,
            fails,
            faults: 0,
        })
    }

    /// The bytes written so far.
    pub fn bytes(&self) -> &[u8]
        ensures { result.now ≡ self.now.bytes }
    {
        self.bytes.as_slice()
    }

    /// The number of writes so far.
    pub fn calls(&self) -> u64
        ensures { result ≡ self.now.calls }
    {
        self.calls
    }

    /// The number of writes that failed.
    pub fn faults(&self) -> u64
        ensures { result ≡ self.now.faults }
    {
        self.faults
    }
}

impl Sink for MemSink {
    ghost use Rattle.std.specs.Prelude.{Some};
    ghost use Rattle.twe_io.specs.Memory.{WritesMem};

    ghost faults = { λ sink. sink.faults };

    ghost written = { λ sink. Some sink.bytes };

    ghost write_gives = { WritesMem };

    fn write(&mut self, piece: &[u8]) -> Result<usize, Failed> {
        let room = self.room - self.bytes.len();
        let fails = room == 0 || is_next_named(&self.fails, self.calls);
        self.calls = self.calls.saturating_add(1);
        if fails {
            self.faults = self.faults.saturating_add(1);
            return Err(Failed);
        }
        let taken = piece.len().min(self.step.min(room));
        self.bytes.extend_from_slice(&piece[..taken]).unwrap();
        Ok(taken)
    }
}

/// Copies bytes from the front of one slice to the front of another, as many as there are and fit, but no more than
/// `most`. Returns how many it copied.
fn copy_front(from: &[u8], to: &mut [u8], most: usize) -> usize
    ensures count { result ≡ min (length to.old) (min most (length from.now)) }
    ensures copied { take result to.new ≡ take result from.now }
{
    let count = to.len().min(most.min(from.len()));
    to[..count].copy_from_slice(&from[..count]);
    count
}

/// Whether the call after the first `calls` calls is listed to fail. A call that 64 bits cannot count has no number.
fn is_next_named(fails: &Calls, calls: u64) -> bool
    ensures { IsTrue result ↔ NextIsNamed fails.now calls }
{
    match calls.checked_add(1) {
        Some(number) => fails.as_slice().contains(&number),
        None => false,
    }
}
