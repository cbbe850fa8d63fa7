//! Sinks of bytes.
ghost use Rattle.std.specs.Prelude.{◌<◌, ◌≤◌, List, ℕ, Option, length, take, OnErr, IfOk};
ghost use Rattle.std.specs.Result.{result_ok};
ghost use Rattle.std.specs.Io.KnownBytes.{Appends, Keeps};
ghost use Rattle.twe_io.specs.Faults.{Rose};

use crate::Failed;

/// A place to write bytes to.
///
/// Contracts see a count of its faults, which never falls. They also see the bytes written so far, if the sink makes
/// them known, and what a single write does, if the sink describes it.
pub trait Sink {
    /// The number of writes that failed.
    ghost faults: { Self → ℕ };

    /// The bytes written so far, or `None` if the sink does not make them known.
    ghost written: { Self → Option (List ℕ) };

    /// What one write does: a relation of the sink before, the piece, how many of its bytes were taken (`None` if the
    /// write failed), and the sink after. Without a definition it says nothing.
    ghost write_gives: { Self → List ℕ → Option ℕ → Self → Type 0 } = { λ _ _ _ _. Unit {0} };

    /// Takes bytes from the front of the piece, and returns how many: at least one, unless the piece is empty. A write
    /// that fails takes nothing.
    fn write(&mut self, piece: &[u8]) -> Result<usize, Failed>
        ensures some { IfOk result (λ n. 0 < length piece.now → 0 < n) }
        ensures within { IfOk result (λ n. n ≤ length piece.now) }
        ensures appended { IfOk result (λ n. Appends (written self.old) (written self.new) (take n piece.now)) }
        ensures kept { OnErr result (Keeps (written self.old) (written self.new)) }
        ensures fault { OnErr result (Rose (faults self.old) (faults self.new)) }
        ensures counts { faults self.old ≤ faults self.new }
        ensures gives { write_gives self.old piece.now (result_ok result) self.new };
}
