//! Why a tree has no program.

use name_check::NRule;
use thiserror::Error;
use twe_base::{Memory, Place};

/// Why a tree has no program.
#[derive(Debug, Drop, Error)]
pub enum NameFail {
    /// A rule of names fails.
    #[error("a rule of names fails")]
    Names {
        /// The rule.
        rule: NRule,
        /// Where it fails.
        place: Place,
    },
    /// There was not enough memory.
    #[error("out of memory")]
    OutOfMemory(Memory),
}

impl From<Memory> for NameFail {
    ghost use Rattle.std.specs.Prelude.{◌≡◌};
    ghost use Rattle.twe_names.specs.declared.fail.NameFail.TheVariants.{OutOfMemory};

    ghost from_gives = { λ memory fail. fail ≡ OutOfMemory memory };

    fn from(memory: Memory) -> Self {
        NameFail::OutOfMemory(memory)
    }
}
