//! Tests of the libraries that no run of the program shows: sources and sinks, a printed tree, the text of a journal and the
//! merging of its parts, the text of a load, the sequential execution of a task, decks, the quiet points of a floor, what holds
//! an admission back, how far one round of a crew goes, that its workers share what is to be done, and programs whose ends fail.
//! They also show that each call which may run out of memory can succeed.
//! They stand in a crate of their own, since a crate with tests is proved twice.
#![tactic(auto)]

#[cfg(test)]
mod admitting;
#[cfg(test)]
mod crews;
#[cfg(test)]
mod decks;
#[cfg(test)]
mod elisions;
#[cfg(test)]
mod failing;
#[cfg(test)]
mod journals;
#[cfg(test)]
mod loads;
#[cfg(test)]
mod merging;
#[cfg(test)]
mod printing;
#[cfg(test)]
mod resting;
#[cfg(test)]
mod streams;
#[cfg(test)]
mod watching;
