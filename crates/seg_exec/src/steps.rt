//! The machine that goes in small steps: it pops one continuation frame, does one thing, and pushes what that leaves to be done.
//! A step asks for at most one access to the cells, or for the end of the run. Whoever makes the steps serves what they ask for.

mod begin;
mod call;
pub(crate) mod continuation;
mod evaluate;
mod execute;
pub(crate) mod frames;
mod held;
pub(crate) mod machine;
mod operate;
pub(crate) mod pushdown;
pub(crate) mod request;
mod resume;
mod step;
mod unfold;
mod values;
pub(crate) mod variables;
