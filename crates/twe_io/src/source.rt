//! Sources of bytes.
ghost use Rattle.std.specs.Prelude.{◌≡◌, ◌<◌, ◌≤◌, List, ℕ, Option, length, take, OnErr, IfOk};
ghost use Rattle.std.specs.Result.{result_ok};
ghost use Rattle.std.specs.Io.KnownBytes.{Consumes, IsAtEnd, Keeps};
ghost use Rattle.twe_io.specs.Faults.{Rose};
ghost use Rattle.twe_io.specs.Moved.{moved};

use crate::Failed;

/// A place to read bytes from.
///
/// Contracts see a count of its faults, which never falls. They also see the bytes left to read, if the source makes
/// them known, and what a single read does, if the source describes it.
pub trait Source {
    /// The number of reads that failed.
    ghost faults: { Self → ℕ };

    /// The bytes left to read, or `None` if the source does not make them known.
    ghost left: { Self → Option (List ℕ) };

    /// What one read does: a relation of the source before, the size of the buffer, the bytes that were given (`None`
    /// if the read failed), and the source after. Without a definition it says nothing.
    ghost read_gives: { Self → ℕ → Option (List ℕ) → Self → Type 0 } = { λ _ _ _ _. Unit {0} };

    /// Puts bytes at the front of the buffer, and returns how many. If it returns 0 and the buffer is not empty, the
    /// source is at its end. A read that fails takes nothing.
    fn read(&mut self, buffer: &mut [u8]) -> Result<usize, Failed>
        ensures within { IfOk result (λ n. n ≤ length buffer.old) }
        ensures given { IfOk result (λ n. Consumes (left self.old) (left self.new) (take n buffer.new)) }
        ensures ended { IfOk result (λ n. n ≡ 0 → 0 < length buffer.old → IsAtEnd (left self.new)) }
        ensures kept { OnErr result (Keeps (left self.old) (left self.new)) }
        ensures fault { OnErr result (Rose (faults self.old) (faults self.new)) }
        ensures counts { faults self.old ≤ faults self.new }
        ensures gives { read_gives self.old (length buffer.old) (moved (result_ok result) buffer.new) self.new };
}
