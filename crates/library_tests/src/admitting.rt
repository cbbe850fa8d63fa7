//! Whether a task is admitted on a floor goes by who waits for whom: a task that it would meet holds it back, until that one
//! waits for it. What is in the way, and at which node, was worked out by hand.
ghost use Rattle.std.specs.Prelude.{◌≡◌, ◌<◌, IfOk, IfSome};
ghost use Rattle.twe_program.specs.WellFormed.{IsWellFormed};
ghost use Rattle.isolation_laws.specs.soundness.KeepsEffects.{KeepsEffects};
ghost use Rattle.machine_state.specs.Runs.{IsRun};
ghost use Rattle.floor_laws.specs.declared.rule.view.HeldTurn.{HeldTurn};
ghost use Rattle.floor_laws.specs.declared.rule.view.Phase.TheVariants.{Made};
ghost use Rattle.floor_laws.specs.rule.Rows.{phase_of};
ghost use Rattle.task_floor.specs.Holding.{HoldsTaskBeside, IsIdleBeside};

use effect_tree::Shape;
use floor_laws::rule::Phase;
use floor_laws::table::nodes::Planted;
use floor_laws::table::{KeptSlot, Named};
use seg_journal::{End, Kind, Move};
use std::alloc::Global;
use std::marker::Brand;
use std::sync::Wait;
use std::test::Fail;
use steal_pool::gates::FreeGate;
use task_floor::steps::Rest;
use task_floor::{EntryLog, Floor, Stand};
use tree_admit::serving::{Admission, Served, TreeWorker, Workshop};
use tree_admit::{Admittance, Bar, Footing, try_admit};
use twe_base::{Limits, Memory};
use twe_frontend::read_program;
use twe_machine::replay_journal;
use twe_program::Prog;

/// `main` makes `a`, which is task 1. That spawns `s`, task 2, which makes `t`, task 3, and waits for it.
const FAMILY: &[u8] = b"region X, Y;\n\
int x in X;\n\
int y in Y;\n\
task void t() writes X, Y { x = x + 1; y = y + 1; }\n\
task void s() writes X { future f = t.executeLater(); f.getValue(); }\n\
task void a() writes X, Y { future c = s.spawn(); y = y + 10; c.join(); y = y * 2; }\n\
task void main() pure { future f = a.executeLater(); }\n";

/// `main` makes `a` and `c`, tasks 1 and 2. While `a` waits for `b`, task 3, it holds `c` back.
const HELD: &[u8] = b"region X;\n\
int x in X;\n\
task void b() pure { }\n\
task void a() writes X { future f = b.executeLater(); f.getValue(); }\n\
task void c() writes X { x = x + 1; }\n\
task void main() pure { future f = a.executeLater(); future g = c.executeLater(); }\n";

/// The number of the only worker.
const WORKER: u32 = 1;

/// What a worker has met.
#[derive(Clone, Copy, Debug, PartialEq, Eq)]
struct Met {
    /// What was in the way of the admission of task 3.
    bar: Bar,
    /// What came of the next segment of task 1.
    served: Served,
    /// What came of the admission of task 3 after that.
    admission: Admission,
}

/// A worker that has tried to admit this task, whose turn it took, and what was in the way; none if nothing was.
fn bar_of_taken<R: Wait, N: Named + Planted>(
    rt: &R,
    alloc: Global,
    floor: &Floor<N>,
    shape: &Shape,
    lim: Limits,
    stand: Stand,
    log: EntryLog,
    task: u32,
    slot: KeptSlot,
) -> Result<Option<(TreeWorker, Bar)>, Memory>
    requires here { stand.table_id ≡ floor.now }
    requires named { (lim ≡ N.lim) × (shape.now ≡ N.nodes) }
    requires task { task < N.lim.tasks }
    requires holds { (turn : HeldTurn) × HoldsTaskBeside N.nodes 1 stand.me log task slot turn × (phase_of turn.row ≡ Made) }
    ensures here { IfOk result (λ found. IfSome found (λ met. met.0.table_id ≡ stand.table_id)) }
{
    let mut stand = stand;
    let effects = slot.slot.effects.effects.as_slice();
    if effects.len() > u32::MAX as usize {
        return Ok(None);
    }
    let footing = Footing {
        worker: WORKER,
        tasks: lim.tasks,
        slots: 1,
    };
    match try_admit(rt, alloc, floor, shape, &mut stand, footing, task, effects)? {
        Admittance::Admitted => Ok(None),
        Admittance::Held { bar } => {
            floor.give_turn(&mut stand, task, slot);
            Ok(Some((TreeWorker::new(WORKER, stand, log), bar)))
        }
    }
}

/// The worker that has this stand, once it has tried to admit a task, and what was in the way; none if nothing was, or if the
/// task does not wait for its admission.
fn bar_of<R: Wait, N: Named + Planted>(
    rt: &R,
    alloc: Global,
    floor: &Floor<N>,
    shape: &Shape,
    lim: Limits,
    stand: Stand,
    log: EntryLog,
    task: u32,
) -> Result<Option<(TreeWorker, Bar)>, Memory>
    requires here { stand.table_id ≡ floor.now }
    requires named { (lim ≡ N.lim) × (shape.now ≡ N.nodes) }
    requires task { task < N.lim.tasks }
    requires idle { IsIdleBeside 1 stand.me log }
    ensures here { IfOk result (λ found. IfSome found (λ met. met.0.table_id ≡ stand.table_id)) }
{
    let mut stand = stand;
    let Ok(slot) = floor.take_turn(&mut stand, WORKER, task) else {
        return Ok(None);
    };
    match floor.status(&mut stand, task) {
        Phase::Made => bar_of_taken(rt, alloc, floor, shape, lim, stand, log, task, slot),
        _ => Ok(None),
    }
}

/// What a worker meets on a floor that woke so: it tries to admit task 3, runs the next segment of task 1, and admits task 3.
/// Nothing if nothing was in the way at first.
fn meet<R: Wait, N: Named + Planted>(
    rt: &R,
    alloc: Global,
    p: &Prog,
    shape: &Shape,
    lim: Limits,
    rest: Rest,
) -> Result<Option<Met>, Memory>
    requires accepted { IsWellFormed N.prog × KeepsEffects N.prog }
    requires named { (p.now ≡ N.prog) × (lim ≡ N.lim) × (shape.now ≡ N.nodes) }
    requires run { IsRun N.prog N.lim rest.journal rest.state }
    requires tasks { 3 < N.lim.tasks }
{
    let (floor, stand, _part) = Floor::<N>::wake(alloc, shape, lim, rest)?;
    let mut stand = stand;
    let other = floor.split(&mut stand);
    let log = EntryLog::new(alloc);
    let Some((worker, bar)) = bar_of(rt, alloc, &floor, shape, lim, other, log, 3)? else {
        return Ok(None);
    };
    let shop = Workshop::new(alloc, p, lim, shape, &floor);
    let (worker, served) = shop.serve(rt, worker, 1, &FreeGate)?;
    let (_worker, admission) = shop.admit(rt, worker, 3)?;
    Ok(Some(Met {
        bar,
        served,
        admission,
    }))
}

/// What a worker meets in the family after these moves.
fn meet_after<R: Wait>(rt: &R, alloc: Global, moves: &[Move]) -> Result<Option<Met>, Fail> {
    let p = read_program(alloc, FAMILY)?;
    let lim = Limits::default();
    let (journal, state) = replay_journal(alloc, &p, lim, moves)?;
    let shape = Shape::build(alloc, &p)?;
    let rest = Rest { state, journal };
    Ok(meet::<R, Brand>(rt, alloc, &p, &shape, lim, rest)?)
}

/// What is in the way of the admission of task 2 on a floor that woke so; none if nothing is.
fn first_bar<R: Wait, N: Named + Planted>(
    rt: &R,
    alloc: Global,
    p: &Prog,
    shape: &Shape,
    lim: Limits,
    rest: Rest,
) -> Result<Option<Bar>, Memory>
    requires accepted { IsWellFormed N.prog × KeepsEffects N.prog }
    requires named { (p.now ≡ N.prog) × (lim ≡ N.lim) × (shape.now ≡ N.nodes) }
    requires run { IsRun N.prog N.lim rest.journal rest.state }
    requires tasks { 2 < N.lim.tasks }
{
    let _main = p.main;
    let (floor, stand, _part) = Floor::<N>::wake(alloc, shape, lim, rest)?;
    let mut stand = stand;
    let other = floor.split(&mut stand);
    let log = EntryLog::new(alloc);
    let Some((_worker, bar)) = bar_of(rt, alloc, &floor, shape, lim, other, log, 2)? else {
        return Ok(None);
    };
    Ok(Some(bar))
}

/// What is in the way of the admission of `c` after these moves.
fn bar_after<R: Wait>(rt: &R, alloc: Global, moves: &[Move]) -> Result<Option<Bar>, Fail> {
    let p = read_program(alloc, HELD)?;
    let lim = Limits::default();
    let (journal, state) = replay_journal(alloc, &p, lim, moves)?;
    let shape = Shape::build(alloc, &p)?;
    let rest = Rest { state, journal };
    Ok(first_bar::<R, Brand>(rt, alloc, &p, &shape, lim, rest)?)
}

/// The admission of this task.
fn admit(task: u32) -> Move {
    let kind = Kind::Admit;
    Move { kind, task }
}

/// A segment of this task.
fn run(task: u32) -> Move {
    let kind = Kind::Run;
    Move { kind, task }
}

#[test]
fn a_writer_is_held_until_the_other_waits_for_it(rt: HostRuntime) -> Result<(), Fail> {
    let moves = [admit(0), run(0), run(0), admit(1), run(1), run(2), run(2)];
    let met = meet_after(&rt, rt.alloc(), &moves)?;
    // The nodes are the root, `Console`, X and Y. The record of task 2, which also stands at X, is no bar to the task that it
    // waits for.
    let bar = Bar {
        node: 2,
        by: 1,
        end: 1,
    };
    let end = End::Joins { on: 2 };
    let wanted = Met {
        bar,
        served: Served::Ran { end },
        admission: Admission::Admitted,
    };
    assert_eq!(rt; met, Some(wanted));
    Ok(())
}

#[test]
fn a_bar_ends_at_the_task_that_its_own_task_waits_for(rt: HostRuntime) -> Result<(), Fail> {
    let moves = [admit(0), run(0), run(0), admit(1), run(1), run(1)];
    let met = bar_after(&rt, rt.alloc(), &moves)?;
    // The nodes are the root, `Console` and X.
    let bar = Bar {
        node: 2,
        by: 1,
        end: 3,
    };
    assert_eq!(rt; met, Some(bar));
    Ok(())
}
