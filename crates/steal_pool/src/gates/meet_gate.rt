//! A gate for tests, at which two tasks wait for each other.

use crate::gates::Gate;
use std::sync::atomic::{AtomicBool, Ordering};
use std::{hint, thread};

/// How many turns a task looks before it lets another thread go on.
const TURNS: u64 = 256;

/// A gate at which tasks 1 and 2 raise a flag each and look for the other's flag, for at most so many turns. Tests learn
/// from it that segments of both were under way at once.
#[derive(Drop)]
pub struct MeetGate {
    limit: u64,
    // Whether the flags are raised at the touch of a cell, and not at the start of a segment.
    touch: bool,
    first: Flags,
    second: Flags,
}

// What one of the two tasks has raised and seen.
#[derive(Drop)]
struct Flags {
    raised: AtomicBool,
    saw_other: AtomicBool,
}

impl Flags {
    const fn new() -> Self {
        Flags {
            raised: AtomicBool::new(false),
            saw_other: AtomicBool::new(false),
        }
    }
}

impl MeetGate {
    /// A gate at which no flag is raised. If `touch` is true, flags are raised at the touch of a cell, and else at the
    /// start of a segment.
    pub fn new(limit: u64, touch: bool) -> Self {
        MeetGate {
            limit,
            touch,
            first: Flags::new(),
            second: Flags::new(),
        }
    }

    /// Whether both tasks saw the other's flag.
    pub fn met(&self) -> bool {
        self.first.saw_other.load(Ordering::SeqCst) && self.second.saw_other.load(Ordering::SeqCst)
    }

    // Raises the flag of the task and looks for the other's, if it is one of the two.
    fn meet(&self, task: u32) {
        match task {
            1 => look_for(&self.first, &self.second, self.limit),
            2 => look_for(&self.second, &self.first, self.limit),
            _ => {}
        }
    }
}

// Raises a flag and looks for the other one, for at most so many turns.
fn look_for(own: &Flags, other: &Flags, limit: u64) {
    own.raised.store(true, Ordering::SeqCst);
    for turn in 0..limit {
        if other.raised.load(Ordering::SeqCst) {
            own.saw_other.store(true, Ordering::SeqCst);
            break;
        }
        if turn % TURNS == TURNS - 1 {
            thread::yield_now();
        } else {
            hint::spin_loop();
        }
    }
}

impl Gate for MeetGate {
    fn pass(&self, task: u32) {
        if !self.touch {
            self.meet(task);
        }
    }

    fn touch(&self, task: u32) {
        if self.touch {
            self.meet(task);
        }
    }
}
