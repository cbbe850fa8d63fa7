//! A choice among the legal moves of a state.

/// A choice among the legal moves of a state.
#[derive(Clone, Copy, Debug, PartialEq, Eq)]
pub enum Choice {
    /// The next segment of this task alone.
    Segment(u32),
    /// The admission of this task alone.
    Admission(u32),
    /// Each admission.
    EachAdmission,
}
