//! A rule that fails, and where.

use crate::Place;

/// A rule that a text can fail. The number decides which of two failures at one place is reported.
pub trait Rule: Copy {
    ghost use Rattle.std.specs.Prelude.{◌≡◌, ℕ};

    ghost number_of: { Self → ℕ };

    /// The number of the rule among those of its kind.
    fn number(self) -> u8
        ensures { result ≡ number_of self };
}

/// A rule that fails, and where.
#[derive(Clone, Copy, Debug, PartialEq, Eq)]
pub struct Failure<R> {
    /// The rule.
    pub rule: R,
    /// The place at which the rule reports the failure.
    pub place: Place,
}
