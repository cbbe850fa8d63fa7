//! The rules on effects, and the error of the check.

use std::error::Error;
use std::fmt;
use twe_base::{Memory, Place, Rule};

/// A rule on effects.
#[derive(Clone, Copy, Debug, PartialEq, Eq)]
pub enum ERule {
    /// In a task, an access or a print is not covered.
    E1,
    /// In a task, an effect of a called method is not covered.
    E2,
    /// An effect of a spawned task is not covered just before the spawn.
    E3,
    /// A join whose future is not surely out.
    E4,
    /// A spawn into a future that may be out.
    E5,
    /// An `executeLater` or a `getValue` in a deterministic task.
    E6,
    /// A deterministic task spawns one that is not.
    E7,
    /// In a method, an access, a print or an effect of a called method is not inside the method's summary.
    E8,
}

impl Rule for ERule {
    ghost use Rattle.effect_check.specs.FailsEffect.{effect_rule_number as number_in_name};

    ghost number_of = { number_in_name };

    /// The number in the rule's name.
    fn number(self) -> u8 {
        match self {
            ERule::E1 => 1,
            ERule::E2 => 2,
            ERule::E3 => 3,
            ERule::E4 => 4,
            ERule::E5 => 5,
            ERule::E6 => 6,
            ERule::E7 => 7,
            ERule::E8 => 8,
        }
    }
}

/// Why a program was not accepted.
#[derive(Clone, Copy, Debug, PartialEq, Eq)]
pub enum CheckFail {
    /// The program fails a rule.
    Rule {
        /// The rule.
        rule: ERule,
        /// Where it fails.
        place: Place,
    },
    /// There was not enough memory.
    OutOfMemory(Memory),
}

impl fmt::Display for CheckFail {
    fn fmt<W: fmt::Write>(&self, f: &mut fmt::Formatter<W>) -> fmt::Result {
        match self {
            CheckFail::Rule { rule, place } => {
                let (line, col) = (place.line, place.col);
                write!(f, "{rule:?} at {line}:{col}")
            }
            CheckFail::OutOfMemory(memory) => write!(f, "{memory}"),
        }
    }
}

impl Error for CheckFail {}

impl From<Memory> for CheckFail {
    ghost use Rattle.std.specs.Prelude.{◌≡◌};
    ghost use Rattle.effect_check.specs.declared.rule.CheckFail.TheVariants.{OutOfMemory};

    ghost from_gives = { λ memory fail. fail ≡ OutOfMemory memory };

    fn from(memory: Memory) -> Self {
        CheckFail::OutOfMemory(memory)
    }
}
