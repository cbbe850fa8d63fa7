//! What a gate sees of several workers on a floor: three tasks are under way at once only if three workers have run them. So each
//! worker has found tasks that another one made, and has gone on after its first segment.
use crate::crews::{all_done, step_and_round};
use std::sync::atomic::{AtomicBool, AtomicU64, Ordering};
use std::test::Fail;
use std::{hint, thread};
use steal_pool::gates::Gate;

/// How many workers there are, and how many tasks come together.
const CREW: u64 = 3;

/// How many turns a task looks for others before it gives up.
const LIMIT: u64 = 100_000_000;

/// How many turns a task looks before it lets another thread go on.
const TURNS: u64 = 256;

/// `main` makes nine tasks, one after the other, on a floor. Nobody knows before how long it and they take.
const NINE: &[u8] = b"task void c() pure { int i = 0; while (i < 1) { i = i + 1; } }\n\
int one() pure { return 1; }\n\
task void main() pure { int i = 0; while (i < 9) { future f = c.executeLater(); i = i + one(); } }\n";

/// `main` makes more tasks than the first floor has room for, and each is worth a worker.
const MANY: &[u8] = b"task void c() pure { int i = 0; while (i < 2000) { i = i + 1; } }\n\
int one() pure { return 1; }\n\
task void main() pure { int i = 0; while (i < 1300) { future f = c.executeLater(); i = i + one(); } }\n";

/// A gate at which tasks come together by threes, in the order in which they come. A task waits there until its three are
/// complete, and its worker runs nothing else meanwhile. Once a task has waited in vain, no other one waits.
#[derive(Drop)]
struct Threes {
    // The tasks below this number are not among them.
    from: u32,
    // How many turns those wait.
    pause: u64,
    // How many tasks have come.
    came: AtomicU64,
    // How many of them saw their three complete.
    met: AtomicU64,
    // Whether a task has waited in vain.
    failed: AtomicBool,
}

impl Threes {
    /// A gate for the tasks from this number on, to which nobody has come. The others wait for so many turns.
    fn new(from: u32, pause: u64) -> Self {
        Threes {
            from,
            pause,
            came: AtomicU64::new(0),
            met: AtomicU64::new(0),
            failed: AtomicBool::new(false),
        }
    }

    /// How many tasks saw their three complete.
    fn met(&self) -> u64 {
        self.met.load(Ordering::SeqCst)
    }

    // A task comes to the gate.
    fn come(&self) {
        let before = self.came.fetch_add(1, Ordering::SeqCst);
        let wanted = (before / CREW).saturating_add(1).saturating_mul(CREW);
        if self.failed.load(Ordering::SeqCst) {
            return;
        }
        if self.sees(wanted) {
            self.met.fetch_add(1, Ordering::SeqCst);
        } else {
            self.failed.store(true, Ordering::SeqCst);
        }
    }

    // Whether so many tasks come before the task gives up.
    fn sees(&self, wanted: u64) -> bool {
        for turn in 0..LIMIT {
            if self.came.load(Ordering::SeqCst) >= wanted {
                return true;
            }
            idle(turn);
        }
        false
    }
}

impl Gate for Threes {
    fn pass(&self, task: u32) {
        if task >= self.from {
            self.come();
            return;
        }
        for turn in 0..self.pause {
            idle(turn);
        }
    }

    fn touch(&self, _task: u32) {}
}

/// Lets a turn go by.
fn idle(turn: u64) {
    if turn % TURNS == TURNS - 1 {
        thread::yield_now();
    } else {
        hint::spin_loop();
    }
}

#[test]
fn three_workers_share_the_tasks_that_one_makes(rt: HostRuntime) -> Result<(), Fail> {
    // `main` is run slowly, so that the others look for tasks in vain before it has made them.
    let gate = Threes::new(1, 16_384);
    let ran = step_and_round(&rt, rt.alloc(), NINE, 3, &gate)?;
    assert_eq!(rt; ran, all_done(10));
    assert_eq!(rt; gate.met(), 9);
    Ok(())
}

#[test]
fn a_second_floor_is_laid_out(rt: HostRuntime) -> Result<(), Fail> {
    // The first floor has room for 1,024 tasks. The last tasks run on a floor that the work before it has paid for.
    let gate = Threes::new(1298, 0);
    let ran = step_and_round(&rt, rt.alloc(), MANY, 3, &gate)?;
    assert_eq!(rt; ran, all_done(1301));
    assert_eq!(rt; gate.met(), 3);
    Ok(())
}
