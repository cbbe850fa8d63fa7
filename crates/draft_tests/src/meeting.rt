//! A task is drafted while it is held back, and its draft holds no lock: at a gate it meets the segment of the task that holds it
//! back.

use opt_crew::OptCrew;
use std::alloc::Global;
use std::sync::Wait;
use std::test::Fail;
use std::thread::Threads;
use steal_pool::gates::MeetGate;
use twe_base::{Ints, Limits};
use twe_frontend::read_program;

/// How many turns a task looks for the other one.
const TURNS: u64 = 100_000_000;

/// `first`, task 1, makes `second`, task 2, and holds it back from then on. Its own next segment and that of `second` are the
/// only ones that touch a cell. What it does before is long, so that its segments are not taken to be brief.
const HOLDS: &[u8] = b"region A;\n\
int a[4] in A;\n\
task void second(int n) writes A:* { a[n] = a[n] + 1; }\n\
task void first(int n) writes A:* {\n\
int i = 0;\n\
while (i < 1000) { i = i + 1; }\n\
future f = second.executeLater(2);\n\
a[n] = a[n] + 1;\n\
}\n\
task void main() pure { future f = first.executeLater(1); }\n";

/// The cells after a round of two workers, with this gate.
fn cells_after<R: Threads + Wait + Sync>(
    rt: &R,
    alloc: Global,
    gate: &MeetGate,
) -> Result<Ints, Fail> {
    let p = read_program(alloc, HOLDS)?;
    let mut crew = OptCrew::new(alloc, &p, Limits::default(), 2)?;
    crew.round(rt, &p, gate)?;
    let (_journal, state) = crew.close()?;
    Ok(state.cells.copy(alloc)?)
}

#[test]
fn a_draft_of_a_held_task_meets_the_segment_that_holds_it(rt: HostRuntime) -> Result<(), Fail> {
    let gate = MeetGate::new(TURNS, true);
    let cells = cells_after(&rt, rt.alloc(), &gate)?;
    assert_eq!(rt; cells.as_slice(), [0, 1, 1, 0].as_slice());
    assert!(rt; gate.met());
    Ok(())
}
