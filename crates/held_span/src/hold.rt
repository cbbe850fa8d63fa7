//! How long an admission was held, and by whom.

/// An admission that was held: it could begin only after an entry that freed it had ended, later than its task was made.
#[derive(Clone, Copy, Debug, PartialEq, Eq)]
pub struct Hold {
    /// The number of the admission, counted from 0.
    pub entry: u64,
    /// The task that was admitted.
    pub task: u32,
    /// The task that held it last: the lowest of those from which the entry `freed_by` freed it.
    pub holder: u32,
    /// The number of the first of the entries that freed it last.
    pub freed_by: u64,
    /// How long it was held: from the end of the entry that made the task to the beginning of the admission.
    pub time: u64,
}
