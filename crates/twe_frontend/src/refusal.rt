//! Why a text is refused: a rule, and the place where it fails.

use effect_check::ERule;
use name_check::NRule;
use twe_base::Place;
use twe_parser::SRule;

/// The name of a rule that a text can fail.
#[derive(Clone, Copy, Debug, PartialEq, Eq)]
pub enum RuleName {
    /// A rule of the text.
    Text(SRule),
    /// A rule of names.
    Name(NRule),
    /// A rule on effects.
    Effect(ERule),
}

/// The one refusal of a text.
#[derive(Clone, Copy, Debug, PartialEq, Eq)]
pub struct Refusal {
    /// The rule that fails.
    pub rule: RuleName,
    /// Where it fails.
    pub place: Place,
}
