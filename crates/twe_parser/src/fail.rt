//! Why a text is not a program.

use thiserror::Error;
use twe_base::{Memory, Place};

/// The rules of the text. The place of a failure is that of the byte, token or comment, or the end of the text for S3.
#[derive(Clone, Copy, Debug, PartialEq, Eq)]
pub enum SRule {
    /// The text contains a byte that is not allowed.
    S1,
    /// No program begins with the tokens up to this one.
    S2,
    /// The text ends before the program is whole.
    S3,
    /// A literal is too large.
    S4,
    /// Too many brackets are open, or a statement has too many operators.
    S5,
    /// A comment has no end.
    S6,
}

/// Why a text has no tree.
#[derive(Debug, Drop, Error)]
pub enum ParseFail {
    /// A rule of the text fails.
    #[error("a rule of the text fails")]
    Syntax {
        /// The rule.
        rule: SRule,
        /// Where it fails.
        place: Place,
    },
    /// An allocation failed, or the text is too long for its places to be counted.
    #[error("out of memory")]
    OutOfMemory(Memory),
}

impl From<Memory> for ParseFail {
    ghost use Rattle.std.specs.Prelude.{◌≡◌};
    ghost use Rattle.twe_parser.specs.declared.fail.ParseFail.TheVariants.{OutOfMemory};

    ghost from_gives = { λ memory fail. fail ≡ OutOfMemory memory };

    fn from(memory: Memory) -> Self {
        ParseFail::OutOfMemory(memory)
    }
}
