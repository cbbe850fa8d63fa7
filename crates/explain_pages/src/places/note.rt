//! What is said of places of a text, before it is laid out.

use twe_base::{Bytes, List, Place};

/// Something that stands at a place of the text.
#[derive(Debug, Drop)]
pub struct Note {
    /// The place.
    pub place: Place,
    /// What is said of it; empty, if nothing is.
    pub caption: Bytes,
}

/// What is said of a refusal.
#[derive(Debug, Drop)]
pub struct Explanation {
    /// What is wrong.
    pub headline: Bytes,
    /// The places that belong to it.
    pub notes: List<Note>,
    /// What else is said, as what the rule asks.
    pub remarks: List<Bytes>,
}
