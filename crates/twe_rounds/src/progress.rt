//! When a round is over: once each worker has looked at all that it has to deal with since the last segment was run.

use std::sync::Wait;
use std::sync::atomic::{AtomicU64, Ordering};
use std::time::Duration;

/// How many microseconds a worker that finds nothing to do sleeps before it tries again, once it has yielded a few times.
const NAP: u64 = 100;

/// One more in the upper half of a word.
const UPPER: u64 = 1 << 32;

/// How many bits of a word say how many workers have come to a stage.
const COUNT_BITS: u32 = 16;

/// What the workers of a round share to find when it is over.
#[derive(Drop)]
pub struct RoundProgress {
    // In the lower half how many numbers were dealt, pushed or made ready and are not dealt with yet, and in the upper half how
    // often numbers were dealt with for which a segment was run.
    word: AtomicU64,
    // The last stage to which a worker has come, and in the lower bits how many have come to it.
    stage: AtomicU64,
    // How many workers are at work.
    workers: AtomicU64,
    // How many of them sleep.
    sleepers: AtomicU64,
}

impl RoundProgress {
    /// That of a round that begins with so many numbers.
    pub fn new(pending: u64) -> Self {
        RoundProgress {
            word: AtomicU64::new(pending),
            stage: AtomicU64::new(0),
            workers: AtomicU64::new(0),
            sleepers: AtomicU64::new(0),
        }
    }

    /// A worker begins.
    pub(crate) fn enter(&self) {
        self.workers.fetch_add(1, Ordering::SeqCst);
    }

    /// A worker ends.
    pub(crate) fn leave(&self) {
        self.workers.fetch_sub(1, Ordering::SeqCst);
    }

    /// One more number is to be dealt with.
    pub(crate) fn add(&self) {
        self.word.fetch_add(1, Ordering::SeqCst);
    }

    /// A number was dealt with, and perhaps a segment was run for it.
    pub(crate) fn finish(&self, moved: bool) {
        if moved {
            self.word.fetch_add(UPPER - 1, Ordering::SeqCst);
        } else {
            self.word.fetch_sub(1, Ordering::SeqCst);
        }
    }

    /// How the round stands: which numbers are left, and how many segments were run.
    pub(crate) fn read(&self) -> u64 {
        self.word.load(Ordering::SeqCst)
    }

    /// The stage of the round if it stood so before the caller looked for something to do, and still stands so with no number
    /// left. At an even stage a worker has found nothing to do since the last segment was run, and at the next one it has
    /// looked at all tasks of its list since then.
    pub(crate) fn stage_since(&self, before: u64) -> Option<u64> {
        if before % UPPER != 0 || self.read() != before {
            return None;
        }
        Some((before / UPPER).saturating_mul(2))
    }

    /// A worker comes to a stage. If it is the last one, those that sleep are woken.
    pub(crate) fn reach(&self, stage: u64) {
        let first = stage << COUNT_BITS;
        let mut seen = self.stage.load(Ordering::SeqCst);
        'exchanging: for _ in 0..u64::MAX {
            if seen >> COUNT_BITS > stage {
                return;
            }
            let now = if seen < first {
                first.saturating_add(1)
            } else {
                seen.saturating_add(1)
            };
            match self
                .stage
                .compare_exchange(seen, now, Ordering::SeqCst, Ordering::SeqCst)
            {
                Ok(_) => {
                    self.wake_if_all_came(now);
                    return;
                }
                Err(other) => seen = other,
            }
        }
    }

    /// Wakes those that sleep, if all workers have come to the stage that this word says.
    fn wake_if_all_came(&self, stage: u64) {
        if stage % (1 << COUNT_BITS) >= self.workers.load(Ordering::SeqCst) {
            self.word.wake_all();
        }
    }

    /// Whether all workers have come to a stage, or one has come to a later one.
    pub(crate) fn all_came_to(&self, stage: u64) -> bool {
        let seen = self.stage.load(Ordering::SeqCst);
        let at = seen >> COUNT_BITS;
        at > stage
            || (at == stage && seen % (1 << COUNT_BITS) >= self.workers.load(Ordering::SeqCst))
    }

    /// Sleeps a little, unless the round stands otherwise than the caller has read.
    pub(crate) fn nap<R: Wait>(&self, rt: &R, seen: u64) {
        self.sleepers.fetch_add(1, Ordering::SeqCst);
        self.word
            .park_timeout(rt, (seen % UPPER) as u32, Duration::from_micros(NAP));
        self.sleepers.fetch_sub(1, Ordering::SeqCst);
    }

    /// Wakes a worker that sleeps, if one does: there is a number on a deck.
    pub(crate) fn wake(&self) {
        if self.sleepers.load(Ordering::SeqCst) > 0 {
            self.word.wake_one();
        }
    }
}
