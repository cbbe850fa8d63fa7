//! Entries with their numbers.

use crate::Entry;
use twe_base::{Ints, List};

/// An entry of a journal with its number, and the numbers that its segment printed.
#[derive(Debug, Drop)]
pub struct NumberedEntry {
    /// How many entries of the journal come before it.
    pub number: u64,
    /// The entry.
    pub entry: Entry,
    /// The numbers that its segment printed, in order.
    pub prints: Ints,
}

/// The entries that one worker has drawn.
pub type JournalPart = List<NumberedEntry>;
