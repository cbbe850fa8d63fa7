//! The states of the search.

use crate::standing::Values;
use twe_base::List;

/// A method, what its parameters stand for, and how the search came there.
#[derive(Debug, Drop)]
pub(crate) struct SearchState {
    /// The number of the method.
    pub method: u32,
    /// What its parameters stand for.
    pub values: Values,
    /// The place of the state whose method calls it.
    pub from: usize,
    /// The number of the step that is the call.
    pub step: usize,
}

/// States in the order in which they were found.
pub(crate) type States = List<SearchState>;
