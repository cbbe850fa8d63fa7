//! Why there are no summaries.

use std::error::Error;
use std::fmt;
use twe_base::Memory;

/// Why the summaries of a program's methods are not given.
#[derive(Clone, Copy, Debug, PartialEq, Eq)]
pub enum InferFail {
    /// The summary of a method would have more than 8 effects. It is the first such method of the text.
    TooMany {
        /// The number of the method.
        method: u32,
    },
    /// There was not enough memory.
    OutOfMemory(Memory),
}

impl fmt::Display for InferFail {
    fn fmt<W: fmt::Write>(&self, f: &mut fmt::Formatter<W>) -> fmt::Result {
        match self {
            InferFail::TooMany { method } => write!(f, "too many effects of method {method}"),
            InferFail::OutOfMemory(memory) => write!(f, "{memory}"),
        }
    }
}

impl Error for InferFail {}

impl From<Memory> for InferFail {
    ghost use Rattle.std.specs.Prelude.{◌≡◌};
    ghost use Rattle.effect_infer.specs.declared.fail.InferFail.TheVariants.{OutOfMemory};

    ghost from_gives = { λ memory fail. fail ≡ OutOfMemory memory };

    fn from(memory: Memory) -> Self {
        InferFail::OutOfMemory(memory)
    }
}
