//! The small types that every other crate shares: lists, stacks, words and places, the error for running out of memory, the
//! limits of the language and of a run, the faults that can stop a task, and which of several failures comes first in a text.
#![tactic(auto)]

mod failure;
mod fault;
mod first;
mod language;
mod limits;
mod list;
mod memory;
mod place;
mod stack;
mod word;

pub use failure::{Failure, Rule};
pub use fault::FaultKind;
pub use first::report_if;
pub use language::{
    MAX_ACTIVE_CALLS, MAX_CELLS, MAX_EFFECTS, MAX_LITERAL, MAX_NODES, MAX_OPEN_BRACKETS,
    MAX_OPERATORS, MAX_PARAMETERS, MAX_PATH_ELEMENTS, MAX_TEXT_BYTES,
};
pub use limits::Limits;
pub use list::{Bytes, Calls, Ints, List};
pub use memory::Memory;
pub use place::Place;
pub use stack::Stack;
pub use word::Word;
