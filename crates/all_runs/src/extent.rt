//! How far a search went.

/// How far a search went.
#[derive(Clone, Copy, Debug, PartialEq, Eq)]
pub enum Extent {
    /// To its end: each move that had to be taken was taken.
    All,
    /// Until more states were found than may be.
    TooManyStates,
    /// Until memory ran out.
    OutOfMemory,
}
