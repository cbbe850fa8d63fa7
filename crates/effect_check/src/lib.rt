//! Whether a program keeps the rules on effects, and otherwise which failure comes first in its text.
//!
//! `specs/` says when each rule fails. `cover_flow` computes which futures may be out at a point, and `effect_sets` whether
//! effects cover one another or interfere. The rules on names and on the text are left to the crates that read it.
#![tactic(auto)]

mod act;
mod body;
mod collect;
mod cover;
mod futures;
mod judge;
mod marks;
mod rule;
mod settled;
mod whole;

pub use act::{Act, ActKind, Acts};
pub use body::acts_of_body;
pub use collect::{accessed_elements, element_of_index, elements_of};
pub use rule::{CheckFail, ERule};
pub use whole::check;
