//! Why a sequential execution has no result.
ghost use Rattle.std.specs.Prelude.{◌≡◌};
ghost use Rattle.seq_elide.specs.declared.fail.ElideFail.TheVariants.{OutOfMemory};

use twe_base::{FaultKind, Memory, Place};

/// Why a sequential execution has no result.
#[derive(Clone, Copy, Debug, PartialEq, Eq)]
pub enum ElideFail {
    /// It met a fault.
    Fault {
        /// The kind of fault.
        kind: FaultKind,
        /// Its place in the text.
        place: Place,
    },
    /// It came to an `executeLater`, to a `getValue`, or to a join of a task that is no unjoined child of the joining one.
    NotForkJoin,
    /// There was not enough memory.
    OutOfMemory(Memory),
}

impl From<Memory> for ElideFail {
    ghost from_gives = { λ memory fail. fail ≡ OutOfMemory memory };

    fn from(memory: Memory) -> Self {
        ElideFail::OutOfMemory(memory)
    }
}
