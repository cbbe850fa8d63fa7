//! What is needed at a place, and what is there.

use name_check::{Binding, Global, NameUse};
use twe_ast::{LocalType, ReturnType};
use twe_base::{List, Place};

/// What is limited in number.
#[derive(Clone, Copy, Debug)]
pub enum NameLimit {
    /// The cells of a text, and the nodes of their paths.
    Cells,
    /// The elements of a path.
    Elements,
    /// The effects of a method or a task.
    Effects,
    /// The parameters of a method or a task.
    Parameters,
}

/// What is needed at a place, and what is there.
#[derive(Clone, Copy, Debug)]
pub enum NameNeed {
    /// A name is used.
    Used {
        /// How it is used.
        name_use: NameUse,
        /// Its binding, if it is in scope.
        found: Option<Binding>,
    },
    /// A type is needed of an expression.
    Typed {
        /// The type that is needed.
        need: LocalType,
        /// The type of the expression. It has none if a rule fails inside it.
        found: Option<LocalType>,
    },
    /// A parameter, a local or a future gets a name.
    New {
        /// What the name is bound to already, if it is in scope.
        found: Option<Binding>,
    },
    /// A `return` in the body of a method or a task.
    Returned {
        /// Whether it has a value.
        valued: bool,
        /// What the method or the task returns.
        returns: ReturnType,
    },
    /// A global name is declared that is declared before, or is `Console`.
    Again,
    /// A body that returns a value can end without a `return`.
    NoReturn {
        /// The place of the name of the method or the task.
        decl_place: Place,
    },
    /// A limit is exceeded.
    Over {
        /// What is limited.
        limit: NameLimit,
        /// How many there are.
        count: u64,
    },
    /// No task is `main`.
    NoMain {
        /// What the name `main` is bound to, if it is declared.
        found: Option<Global>,
    },
    /// A path has a `*` after another.
    SecondStar {
        /// The place of the first.
        first: Option<Place>,
    },
}

/// A need at its place.
#[derive(Clone, Copy, Debug)]
pub struct PlacedNeed {
    /// The place.
    pub place: Place,
    /// What is needed there, and what is there.
    pub need: NameNeed,
}

/// Needs at their places, in the order of the text.
pub type PlacedNeeds = List<PlacedNeed>;
