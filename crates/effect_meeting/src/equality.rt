//! Equalities between parameters of two declarations and literals.
ghost use Rattle.std.specs.Prelude.{◌≡◌};
ghost use Rattle.effect_meeting.specs.Equalities.{same_term};

use twe_base::List;

/// What an index of a path is, if it is not any index.
#[derive(Clone, Copy, Debug, PartialEq, Eq)]
pub enum Term {
    /// A literal.
    Literal(i32),
    /// A parameter of the first declaration, by its number.
    First(u32),
    /// A parameter of the second declaration, by its number.
    Second(u32),
}

/// Two terms that have to have one value.
#[derive(Clone, Copy, Debug, PartialEq, Eq)]
pub struct Equality {
    /// A term.
    pub left: Term,
    /// Another.
    pub right: Term,
}

/// Equalities that have to hold together.
pub type Equalities = List<Equality>;

/// Whether the terms are the same.
pub(crate) fn is_same_term(left: Term, right: Term) -> bool
    ensures { result ≡ same_term left right }
{
    match (left, right) {
        (Term::Literal(i), Term::Literal(j)) => i == j,
        (Term::First(k), Term::First(l)) => k == l,
        (Term::Second(k), Term::Second(l)) => k == l,
        _ => false,
    }
}
