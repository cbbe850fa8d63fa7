//! Tests of segments that are run ahead: what a draft has read and written, what a core answers to it, and that workers run
//! drafts at once. No run of a program shows when a draft was held or passed over. They stand in a crate of their own, since a
//! crate with tests is proved twice.
#![tactic(auto)]

#[cfg(test)]
mod answers;
#[cfg(test)]
mod held;
#[cfg(test)]
mod last_read;
#[cfg(test)]
mod meeting;
#[cfg(test)]
mod passed;
