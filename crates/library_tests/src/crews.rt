//! A crew takes one quiet step, which admits `main`, and one round, in which the run comes to its end: all other tasks are
//! admitted in that round, whether while the run lies still or by its workers.
ghost use Rattle.std.specs.Prelude.{◌≤◌};

use floor_crew::FloorCrew;
use machine_state::Outcome;
use seg_journal::{End, Entry, Kind, Move};
use std::alloc::Global;
use std::sync::Wait;
use std::sync::atomic::{AtomicU64, Ordering};
use std::test::Fail;
use std::thread::Threads;
use steal_pool::gates::{FreeGate, Gate};
use twe_base::{FaultKind, Limits, Place};
use twe_frontend::read_program;
use twe_machine::outcome;

/// The effects of `all` meet those of the two other tasks: `deep` writes far below them, and `far` is at no node of its own. Each
/// has a loop, here and below, so that nobody knows before that it is short.
const NESTED: &[u8] = b"region Data, L;\n\
int d[4] in Data;\n\
int y in Data:[3]:L;\n\
task void all() writes Data:* { int i = 0; while (i < 1) { i = i + 1; } d[0] = 1; y = y + 1; }\n\
task void deep() writes Data:[3]:L { int i = 0; while (i < 1) { i = i + 1; } y = y + 10; }\n\
task void far(int j) writes Data:[j] { int i = 0; while (i < 1) { i = i + 1; } }\n\
task void main() pure {\n\
future f = all.executeLater();\n\
future g = deep.executeLater();\n\
future h = far.executeLater(9);\n\
}\n";

/// The two tasks may run at the same time.
const TWO_TASKS: &[u8] = b"task void c() pure { int i = 0; while (i < 1) { i = i + 1; } }\n\
task void main() pure { future f = c.executeLater(); future g = c.executeLater(); }\n";

/// Until `a` has ended, it holds `c` back. It waits for `b` meanwhile.
const HELD: &[u8] = b"region X;\n\
int x in X;\n\
task void b() pure { int i = 0; while (i < 1) { i = i + 1; } }\n\
task void a() writes X { int i = 0; while (i < 1) { i = i + 1; } future f = b.executeLater(); f.getValue(); }\n\
task void c() writes X { int i = 0; while (i < 1) { i = i + 1; } x = x + 1; }\n\
task void main() pure { future f = a.executeLater(); future g = c.executeLater(); }\n";

/// The same, but `a` and the first `b` have much to do, so that the run goes on a floor before `a` has ended, and the `b` that
/// `a` makes and waits for is held back by the first one.
const HELD_LONG: &[u8] = b"region X, Y;\n\
int x in X;\n\
int y in Y;\n\
task void b() writes Y { while (y < 1000) { y = y + 1; } y = 0; }\n\
task void a() writes X {\n\
while (x < 1000) { x = x + 1; }\n\
future f = b.executeLater();\n\
f.getValue();\n\
}\n\
task void c() writes X { x = x + 1; }\n\
task void main() pure {\n\
future f = a.executeLater();\n\
future g = c.executeLater();\n\
future h = b.executeLater();\n\
}\n";

/// The same with effects below one another: `all` may be admitted once `a` has ended, whose records stand below its wildcard.
const HELD_BELOW: &[u8] = b"region Data, L, Y;\n\
int d[4] in Data;\n\
int x in Data:[3]:L;\n\
int y in Y;\n\
task void b() writes Y { while (y < 1000) { y = y + 1; } y = 0; }\n\
task void a() writes Data:[2], Data:[3]:L {\n\
while (x < 1000) { x = x + 1; }\n\
future f = b.executeLater();\n\
f.getValue();\n\
}\n\
task void all() writes Data:* { d[2] = x; x = 0; }\n\
task void main() pure {\n\
future f = a.executeLater();\n\
future g = all.executeLater();\n\
future h = b.executeLater();\n\
}\n";

/// The first task meets a fault. It and the second one are admitted before there is a floor.
const FAULTY: &[u8] =
    b"task int bad(int n) pure { int i = 0; while (i < 1) { i = i + 1; } return 1 / n; }\n\
task void c() pure { int i = 0; while (i < 1) { i = i + 1; } }\n\
task void main() pure { future f = bad.executeLater(0); future g = c.executeLater(); }\n";

/// A gate that counts the segments of some tasks which workers are about to run.
#[derive(Drop)]
struct Watched {
    // The tasks from this number on, and below that one.
    from: u32,
    below: u32,
    passed: AtomicU64,
}

impl Watched {
    /// A gate for these tasks, which nobody has passed.
    fn new(from: u32, below: u32) -> Self {
        Watched {
            from,
            below,
            passed: AtomicU64::new(0),
        }
    }

    /// How many segments there were.
    fn passed(&self) -> u64 {
        self.passed.load(Ordering::SeqCst)
    }
}

impl Gate for Watched {
    fn pass(&self, task: u32) {
        if self.from <= task && task < self.below {
            self.passed.fetch_add(1, Ordering::SeqCst);
        }
    }

    fn touch(&self, _task: u32) {}
}

/// What a quiet step and a round have made of a run.
#[derive(Clone, Copy, Debug, PartialEq, Eq)]
pub(crate) struct Ran {
    /// The first entry of the journal.
    first: Option<Entry>,
    /// How many tasks were made.
    tasks: usize,
    /// The outcome.
    outcome: Outcome,
}

/// What a quiet step and a round of so many workers make of a run of the text, with this gate.
pub(crate) fn step_and_round<R: Threads + Wait + Sync, G: Gate + Sync>(
    rt: &R,
    alloc: Global,
    text: &[u8],
    workers: u32,
    gate: &G,
) -> Result<Ran, Fail>
    requires some { 1 ≤ workers }
    requires most { workers ≤ 64 }
{
    let p = read_program(alloc, text)?;
    let mut crew = FloorCrew::new(alloc, &p, Limits::default(), workers)?;
    let _found = crew.quiet_step(&p)?;
    crew.round(rt, &p, gate)?;
    let (journal, state) = crew.close()?;
    Ok(Ran {
        first: journal.get(0).copied(),
        tasks: state.tasks.len(),
        outcome: outcome(&p, &state),
    })
}

/// A run that began with the admission of `main` and made so many tasks, all of which are done.
pub(crate) fn all_done(tasks: usize) -> Ran {
    let mv = Move {
        kind: Kind::Admit,
        task: 0,
    };
    let end = End::Admitted;
    Ran {
        first: Some(Entry { mv, end }),
        tasks,
        outcome: Outcome::AllDone,
    }
}

#[test]
fn a_round_of_one_worker_admits_what_was_made(rt: HostRuntime) -> Result<(), Fail> {
    let ran = step_and_round(&rt, rt.alloc(), NESTED, 1, &FreeGate)?;
    assert_eq!(rt; ran, all_done(4));
    Ok(())
}

#[test]
fn a_round_of_two_workers_admits_what_was_made(rt: HostRuntime) -> Result<(), Fail> {
    let ran = step_and_round(&rt, rt.alloc(), TWO_TASKS, 2, &FreeGate)?;
    assert_eq!(rt; ran, all_done(3));
    Ok(())
}

#[test]
fn a_task_that_was_held_goes_on_in_the_same_round(rt: HostRuntime) -> Result<(), Fail> {
    let ran = step_and_round(&rt, rt.alloc(), HELD, 1, &FreeGate)?;
    assert_eq!(rt; ran, all_done(4));
    Ok(())
}

#[test]
fn a_worker_goes_on_with_a_task_that_was_held(rt: HostRuntime) -> Result<(), Fail> {
    // The only floor that this run pays for begins while `a`, task 1, holds back `c`, task 2. So a worker has admitted `c`.
    let gate = Watched::new(2, 3);
    let ran = step_and_round(&rt, rt.alloc(), HELD_LONG, 1, &gate)?;
    assert_eq!(rt; ran, all_done(5));
    assert_eq!(rt; gate.passed(), 1);
    Ok(())
}

#[test]
fn a_worker_goes_on_with_a_wildcard_that_was_held(rt: HostRuntime) -> Result<(), Fail> {
    // A worker has admitted `all`, task 2, and has walked through the nodes below its place.
    let gate = Watched::new(2, 3);
    let ran = step_and_round(&rt, rt.alloc(), HELD_BELOW, 1, &gate)?;
    assert_eq!(rt; ran, all_done(5));
    assert_eq!(rt; gate.passed(), 1);
    Ok(())
}

#[test]
fn no_worker_begins_a_segment_once_a_fault_is_known(rt: HostRuntime) -> Result<(), Fail> {
    // The only worker takes the tasks in order, and the first one meets a fault.
    let gate = Watched::new(1, 3);
    let ran = step_and_round(&rt, rt.alloc(), FAULTY, 1, &gate)?;
    let kind = FaultKind::DivZero;
    let place = Place { line: 1, col: 77 };
    let task = 1;
    assert_eq!(rt; ran.outcome, Outcome::Fault { task, kind, place });
    assert_eq!(rt; gate.passed(), 1);
    Ok(())
}
