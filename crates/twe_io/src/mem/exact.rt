//! The exact effect of a whole read and a whole write on the ends in memory, by the numbers of the calls that fail.
ghost use Rattle.std.specs.Prelude.{◌≡◌, ◌↔◌, ◌<◌, ◌≤◌, ◌+◌, ◌-◌, ◌*◌, ℕ, ◌++◌, length, take, min, IfOk, OnOk, OnErr, IsErr, IsErrOf};
ghost use Rattle.twe_io.specs.Named.{NamedBetween};
ghost use Rattle.twe_io.specs.Memory.{mem_left_of, ReadsMem, WritesMem, IsFirstUse};
ghost use Rattle.twe_io.specs.Runs.{ReadsWhole, WritesWhole};

use super::{MemSink, MemSource};
use crate::{ReadFail, WriteFault};
use std::alloc::Global;
use twe_base::Bytes;

impl MemSource {
    /// [`crate::read_all`] of this source. It returns `ReadFault` exactly if one of the calls that it made is listed to
    /// fail.
    pub fn read_all(&mut self, alloc: Global, limit: usize) -> Result<Bytes, ReadFail>
        ensures whole { IfOk result (λ text. text ≡ mem_left_of self.old) }
        ensures short { IfOk result (λ text. length text ≤ limit) }
        ensures fault { IsErrOf result ReadFail.ReadFault ↔ NamedBetween self.old.fails self.old.calls self.new.calls }
        ensures too_long { IsErrOf result ReadFail.TooLong
            ↔ (length (mem_left_of self.old) ≡ length (mem_left_of self.new) + (limit + 1)) }
        // The sequence of reads, each as `ReadsMem` describes it. It determines the source afterwards.
        ensures reads { ReadsWhole ReadsMem limit self.old result self.new }
    {
        let _ = &self.calls;
        crate::read_all(alloc, self, limit)
    }
}

impl MemSink {
    /// [`crate::write_whole`] to this sink. Suppose that the sink is new and has room for the whole text, and that
    /// `first` is the first call that fails. Then the sink takes the bytes of the calls before that one, and the result
    /// is `WriteFault` exactly if these are not all bytes of the text.
    pub fn write_whole(&mut self, text: &[u8]) -> Result<(), WriteFault>
        ensures whole { OnOk result (self.new.bytes ≡ self.old.bytes ++ text.now) }
        ensures part { OnErr result ((n : ℕ) × (n < length text.now)
            × (self.new.bytes ≡ self.old.bytes ++ take n text.now)) }
        ensures written { (first : ℕ) → IsFirstUse self.old text.now first →
            self.new.bytes ≡ self.old.bytes
            ++ take (min (length text.now) ((first - 1) * self.old.step)) text.now }
        ensures fault { (first : ℕ) → IsFirstUse self.old text.now first →
            (IsErr result ↔ ((first - 1) * self.old.step < length text.now)) }
        // The sequence of writes, each as `WritesMem` describes it. It determines the sink afterwards.
        ensures writes { WritesWhole WritesMem text.now self.old result self.new }
    {
        let _ = &self.step;
        crate::write_whole(self, text)
    }
}
