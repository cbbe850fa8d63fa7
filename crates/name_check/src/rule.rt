//! The rules of names.

use twe_base::Rule;

/// A rule of names.
#[derive(Clone, Copy, Debug, PartialEq, Eq)]
pub enum NRule {
    /// A name is not declared where it is used.
    N1,
    /// A name is declared twice.
    N2,
    /// A wrong type or kind.
    N3,
    /// A wrong count of arguments.
    N4,
    /// A body that returns an `int` can end without a return.
    N5,
    /// An assignment to a parameter or to a `final` local.
    N6,
    /// A limit on cells, nodes, elements, effects or parameters.
    N7,
    /// There is no `task void main()`.
    N8,
    /// A path has a second `*`.
    N9,
}

impl Rule for NRule {
    ghost use Rattle.name_check.specs.FailsName.{name_rule_number as number_in_name};

    ghost number_of = { number_in_name };

    /// The number in the rule's name.
    fn number(self) -> u8 {
        match self {
            NRule::N1 => 1,
            NRule::N2 => 2,
            NRule::N3 => 3,
            NRule::N4 => 4,
            NRule::N5 => 5,
            NRule::N6 => 6,
            NRule::N7 => 7,
            NRule::N8 => 8,
            NRule::N9 => 9,
        }
    }
}
