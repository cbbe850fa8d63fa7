//! How people want what is written.

use twe_base::Bytes;

/// How people want what is written.
#[derive(Debug, Drop)]
pub struct Wanted {
    /// The name of the text, which is shown before its places if it is not empty.
    pub name: Bytes,
    /// Whether each note is to be one line.
    pub lines: bool,
}
