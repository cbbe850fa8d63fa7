//! The active method calls of a task.

use twe_base::Place;

/// A method call that is active: its method has been entered, and has not returned.
#[derive(Clone, Copy, Debug, PartialEq, Eq)]
pub struct ActiveCall {
    /// The number of the method.
    pub method: u32,
    /// The place of its name where it is called.
    pub place: Place,
}
