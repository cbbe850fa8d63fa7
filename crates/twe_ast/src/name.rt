//! Names as they are written in a text.

use twe_base::{Place, Word};

/// A name in a text: an identifier.
#[derive(Debug, Drop)]
pub struct Name {
    /// Its letters, digits and `_`.
    pub text: Word,
    /// The place of its first byte.
    pub place: Place,
}
