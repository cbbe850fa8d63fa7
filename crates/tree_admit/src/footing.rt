//! What a worker has to know of itself when it goes into the tree.

/// What a worker has to know of itself when it goes into the tree.
#[derive(Clone, Copy, Debug, PartialEq, Eq)]
pub struct Footing {
    /// Its number.
    pub worker: u32,
    /// How many tasks may be made in the run.
    pub tasks: u32,
    /// How many slots its stand has out.
    pub slots: usize,
}
