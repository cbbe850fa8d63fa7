//! Why a rule of the text fails at a byte, a number, a bracket, an operator or a comment, as data that is true of the text.
//!
//! Beside it stand the brackets that are open at a place of a text, each by the place where it was opened.

mod behind;
mod cause;
mod end;
mod finding;
mod open;
mod standing;
mod walk;

pub use behind::from_place;
pub use cause::TextCause;
pub use end::{one_answer, open_at_end};
pub use finding::text_cause;
pub use open::OpenPlaces;
pub use walk::open_at;
