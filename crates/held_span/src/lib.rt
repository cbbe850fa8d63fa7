//! The held span of a journal: that of its order in which an admission also follows what freed it; the times of that order, and
//! the admissions that were held.
//!
//! While a task is enabled, it holds each task that is made and whose effects interfere with its own, until it ends or comes to
//! wait for that one. `specs/` says which entries free an admission. The held span less the span of `span_profile` is what the
//! order of admissions adds.
//!
//! Marks tell which lists of effects interfere: a list leaves some marks and sees some, and one list sees a mark that another
//! one leaves if and only if some effects of the two interfere. So whoever keeps something for each mark, instead of for each
//! list, finds what is kept for all lists that interfere with one without a look at the others.
//!
//! A hold is an admission that had to wait for another task. It counts for one pair of declared effects, and of these pairs those
//! that held tasks for longest are found.
#![tactic(auto)]

mod freeing;
mod gathered;
mod hold;
mod holders;
mod holds;
mod keys;
mod laws;
mod lists;
mod mark_laws;
mod marks;
mod meeting;
mod most_held;
mod notes;
mod pace_laws;
mod pair;
mod pair_laws;
mod placed;
mod same;
mod spanning;
mod tally;
mod ways;

pub use gathered::Gathered;
pub use hold::Hold;
pub use laws::{one_held_profile, the_held_span_is_between};
pub use mark_laws::shared_marks_tell_interference;
pub use marks::{EffectMark, EffectMarks};
pub use most_held::held_pairs;
pub use pace_laws::{one_worker_keeps_admissions, paced_workers_keep_admissions};
pub use pair::{DeclaredEffect, EffectPair, HeldPair};
pub use pair_laws::each_hold_counts_for_a_pair;
pub use spanning::{HeldProfile, held_profile};
