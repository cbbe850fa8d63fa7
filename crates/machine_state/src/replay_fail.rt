//! Why a list of moves has no replay.
ghost use Rattle.std.specs.Prelude.{◌≡◌};
ghost use Rattle.machine_state.specs.declared.replay_fail.ReplayFail.TheVariants.{OutOfMemory};

use crate::why::Why;
use twe_base::Memory;

/// Why a list of moves has no replay.
#[derive(Clone, Copy, Debug, PartialEq, Eq)]
pub enum ReplayFail {
    /// Move `n`, counted from 1, is the first that is not legal.
    Illegal { n: u64, why: Why },
    /// There was not enough memory.
    OutOfMemory(Memory),
}

impl From<Memory> for ReplayFail {
    ghost from_gives = { λ memory fail. fail ≡ OutOfMemory memory };

    fn from(memory: Memory) -> Self {
        ReplayFail::OutOfMemory(memory)
    }
}
