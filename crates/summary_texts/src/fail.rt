//! Why a text is not written with other summaries.

use std::error::Error;
use std::fmt;
use twe_base::Memory;

/// Why a text is not written with other summaries of its methods.
#[derive(Clone, Copy, Debug, PartialEq, Eq)]
pub enum PasteFail {
    /// With these summaries it would have more bytes than a text may have.
    TooLong,
    /// Read again, it is not the text with these summaries alone. No text is known with which this happens.
    Differs,
    /// There was not enough memory.
    OutOfMemory(Memory),
}

impl fmt::Display for PasteFail {
    fn fmt<W: fmt::Write>(&self, f: &mut fmt::Formatter<W>) -> fmt::Result {
        match self {
            PasteFail::TooLong => f.write_str("too long with these summaries"),
            PasteFail::Differs => f.write_str("another text with these summaries"),
            PasteFail::OutOfMemory(memory) => write!(f, "{memory}"),
        }
    }
}

impl Error for PasteFail {}

impl From<Memory> for PasteFail {
    ghost use Rattle.std.specs.Prelude.{◌≡◌};
    ghost use Rattle.summary_texts.specs.declared.fail.PasteFail.TheVariants.{OutOfMemory};

    ghost from_gives = { λ memory fail. fail ≡ OutOfMemory memory };

    fn from(memory: Memory) -> Self {
        PasteFail::OutOfMemory(memory)
    }
}
