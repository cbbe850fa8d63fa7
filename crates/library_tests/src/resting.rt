//! A floor goes on from a quiet point and comes to one. Nobody runs on it meanwhile, so what it rests with is what it woke
//! with, and that was worked out by hand.
ghost use Rattle.std.specs.Prelude.{◌≡◌};
ghost use Rattle.twe_program.specs.WellFormed.{IsWellFormed};
ghost use Rattle.isolation_laws.specs.soundness.KeepsEffects.{KeepsEffects};
ghost use Rattle.machine_state.specs.Runs.{IsRun};

use effect_tree::Shape;
use floor_laws::table::Named;
use floor_laws::table::nodes::Planted;
use machine_state::{State, TaskRow, TaskStatus};
use seg_journal::{Kind, Move};
use std::alloc::Global;
use std::marker::Brand;
use std::test::Fail;
use task_floor::Floor;
use task_floor::steps::Rest;
use twe_base::{Limits, Memory};
use twe_frontend::read_program;
use twe_machine::replay_journal;
use twe_program::Prog;

/// `main` prints 7 and spawns two children, of which it joins the first.
const FAMILY: &[u8] = b"region D;\n\
int d[2] in D;\n\
task int set(int j) writes D:[j] { d[j] = 5; return j + 1; }\n\
task void main() writes D:[0], D:[1], Console {\n\
print(7);\n\
future f = set.spawn(0);\n\
future g = set.spawn(1);\n\
int a = f.join();\n\
print(a);\n\
}\n";

/// What a new floor rests with.
fn rest_of_new<N: Named + Planted>(
    alloc: Global,
    p: &Prog,
    shape: &Shape,
    lim: Limits,
) -> Result<Rest, Memory>
    requires accepted { IsWellFormed N.prog × KeepsEffects N.prog }
    requires named { (p.now ≡ N.prog) × (shape.now ≡ N.nodes) × (lim ≡ N.lim) }
{
    let (floor, stand, part) = Floor::<N>::new(alloc, p, shape, lim)?;
    floor.rest(alloc, stand, &[part])
}

/// What a floor for this program rests with that woke so.
fn rest_again<N: Named + Planted>(
    alloc: Global,
    p: &Prog,
    shape: &Shape,
    lim: Limits,
    rest: Rest,
) -> Result<Rest, Memory>
    requires accepted { IsWellFormed N.prog × KeepsEffects N.prog }
    requires named { (p.now ≡ N.prog) × (shape.now ≡ N.nodes) × (lim ≡ N.lim) }
    requires run { IsRun N.prog N.lim rest.journal rest.state }
{
    let _main = p.main;
    let (floor, stand, part) = Floor::<N>::wake(alloc, shape, lim, rest)?;
    floor.rest(alloc, stand, &[part])
}

/// What a new floor for the family rests with.
fn rest_at_start(alloc: Global, lim: Limits) -> Result<Rest, Fail> {
    let p = read_program(alloc, FAMILY)?;
    let _main = p.main;
    let shape = Shape::build(alloc, &p)?;
    Ok(rest_of_new::<Brand>(alloc, &p, &shape, lim)?)
}

/// What a floor for the family rests with that woke after these moves.
fn rest_after(alloc: Global, lim: Limits, moves: &[Move]) -> Result<Rest, Fail> {
    let p = read_program(alloc, FAMILY)?;
    let _main = p.main;
    let (journal, state) = replay_journal(alloc, &p, lim, moves)?;
    let rest = Rest { state, journal };
    let shape = Shape::build(alloc, &p)?;
    Ok(rest_again::<Brand>(alloc, &p, &shape, lim, rest)?)
}

/// A segment of this task.
fn run(task: u32) -> Move {
    Move {
        kind: Kind::Run,
        task,
    }
}

/// Whether the family has printed 7 and 1 and has set the first cell, and two tasks were asked for.
fn has_results(state: &State) -> bool {
    state.prints.as_slice() == [7, 1].as_slice()
        && state.cells.as_slice() == [5, 0].as_slice()
        && state.asked == 2
        && state.first_fault.is_none()
}

/// Whether `main` has joined its first child, which is done, and waits for the second, which is not joined.
fn has_tasks(rows: &[TaskRow]) -> bool {
    match rows {
        [main, first, second] => {
            main.out.as_slice() == [2].as_slice()
                && first.joined
                && first.value == 1
                && !second.joined
                && second.parent == Some(0)
                && second.status == TaskStatus::Enabled
        }
        _ => false,
    }
}

#[test]
fn a_new_floor_rests_in_the_first_state(rt: HostRuntime) -> Result<(), Fail> {
    let rest = rest_at_start(rt.alloc(), Limits::new(1000, 4))?;
    assert!(rt; rest.journal.is_empty());
    assert!(rt; rest.state.cells.as_slice() == [0, 0].as_slice());
    assert!(rt; rest.state.tasks.len() == 1);
    Ok(())
}

#[test]
fn a_floor_rests_in_the_state_that_it_woke_with(rt: HostRuntime) -> Result<(), Fail> {
    let admit = Move {
        kind: Kind::Admit,
        task: 0,
    };
    let moves = [admit, run(0), run(0), run(1), run(0), run(0)];
    let rest = rest_after(rt.alloc(), Limits::new(1000, 4), &moves)?;
    assert!(rt; rest.journal.len() == 6);
    assert!(rt; has_results(&rest.state));
    assert!(rt; has_tasks(rest.state.tasks.as_slice()));
    Ok(())
}
