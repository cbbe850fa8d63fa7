//! The limits on the cells of a text and on the nodes of their paths, and the first declaration that goes over one.
//!
//! Paths are compared by the text of their names. What the names stand for, and whether they are declared at all, is
//! left to the crates above.

mod count;
mod growth;
mod laws;
mod names;
mod over;

pub use laws::a_declaration_goes_over_alone;
pub use over::first_over;
