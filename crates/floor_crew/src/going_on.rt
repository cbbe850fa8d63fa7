//! How a crew goes on from a run at rest: moves at rest and rounds in turn.
ghost use Rattle.std.specs.Prelude.{◌≡◌, ◌≤◌, ◌<◌, length, IfOk, IfSome, IsFalse, IsTrue, OnOk};
ghost use mathlib.Core.List.{IsPrefix};
ghost use Rattle.isolation_laws.specs.soundness.KeepsEffects.{KeepsEffects};
ghost use Rattle.machine_state.specs.declared.ending.Outcome.TheVariants.{Unfinished};
ghost use Rattle.machine_state.specs.Runs.{IsOutcome};
ghost use Rattle.floor_crew.specs.inner.GoingOn.{HasGoneOn, IsSound};
ghost use Rattle.floor_crew.specs.inner.Keeping.{IsShapeOf};

use crate::alone::{go_on_alone, take};
use crate::at_rest::RunAtRest;
use crate::quiet::next_move;
use crate::room::round_within;
use crate::round_setup::RoundSetup;
use crate::task_book::TaskBook;
use effect_tree::Shape;
use std::alloc::Global;
use std::sync::Wait;
use std::thread::Threads;
use steal_pool::gates::Gate;
use twe_base::Memory;
use twe_program::Prog;
use twe_rounds::Setup;

/// Takes moves at rest, and a round whenever two tasks may run beside each other, until no task may go on. If none was found that
/// may and the run can go on, the lowest legal move comes first. Returns the run after that.
pub(crate) fn go_on<R: Threads + Wait + Sync, G: Gate + Sync>(
    rt: &R,
    setup: &Setup<'_>,
    shape: &mut Option<Shape>,
    workers: u32,
    run: RunAtRest,
    book: &mut TaskBook,
    gate: &G,
) -> Result<RunAtRest, Memory>
    requires some { 1 ≤ workers }
    requires accepted { KeepsEffects setup.now.p.now }
    requires sound { IsSound setup.now.p.now setup.now.lim run }
    requires shape { IfSome shape.old (IsShapeOf setup.now.p.now) }
    ensures shape { IfSome shape.new (IsShapeOf setup.now.p.now) }
    ensures sound { IfOk result (IsSound setup.now.p.now setup.now.lim) }
    ensures begins { IfOk result (λ after. IsPrefix run.rest.journal after.rest.journal) }
    ensures longer { IfOk result (λ after. IsOutcome run.rest.state Unfinished
        → length run.rest.journal < length after.rest.journal) }
{
    let before = run.rest.journal.len();
    let mut run = go_on_from(rt, setup, shape, workers, run, book, gate)?;
    if run.rest.journal.len() > before {
        return Ok(run);
    }
    if !take_lowest(setup, &mut run, book)? {
        return Ok(run);
    }
    go_on_from(rt, setup, shape, workers, run, book, gate)
}

/// Takes the lowest legal move, if the run can go on. Returns whether it can.
fn take_lowest(setup: &Setup<'_>, run: &mut RunAtRest, book: &mut TaskBook) -> Result<bool, Memory>
    requires { IsSound setup.now.p.now setup.now.lim run.old }
    ensures gone { OnOk result (HasGoneOn setup.now.p.now setup.now.lim run.old.rest.journal run.new) }
    ensures moved { IfOk result (λ moved. IsTrue moved → length run.old.rest.journal < length run.new.rest.journal) }
    ensures still { IfOk result (λ moved. IsFalse moved → ¬ IsOutcome run.old.rest.state Unfinished) }
{
    let Some(mv) = next_move(setup.p, &run.rest.state) else {
        return Ok(false);
    };
    take(setup, run, book, mv)?;
    Ok(true)
}

/// Takes moves at rest, and a round whenever two tasks may run beside each other, until no task may go on. The shape of the
/// program's tree is built before the first round, and kept for the others.
#[tactic(auto, using(crate::proofs::GoingOn::still_there, crate::proofs::GoingOn::gone_on))]
fn go_on_from<R: Threads + Wait + Sync, G: Gate + Sync>(
    rt: &R,
    setup: &Setup<'_>,
    shape: &mut Option<Shape>,
    workers: u32,
    run: RunAtRest,
    book: &mut TaskBook,
    gate: &G,
) -> Result<RunAtRest, Memory>
    requires some { 1 ≤ workers }
    requires accepted { KeepsEffects setup.now.p.now }
    requires sound { IsSound setup.now.p.now setup.now.lim run }
    requires shape { IfSome shape.old (IsShapeOf setup.now.p.now) }
    ensures shape { IfSome shape.new (IsShapeOf setup.now.p.now) }
    ensures gone { IfOk result (HasGoneOn setup.now.p.now setup.now.lim run.rest.journal) }
{
    let mut run = run;
    'rounds: for _ in rt.forever() {
        if !go_on_alone(setup, &mut run, book)? {
            return Ok(run);
        }
        let tree = kept_or_built(setup.alloc, setup.p, shape.take())?;
        let room = book.account.room(setup.lim, &run.rest.state);
        book.account.lay_out(room, tree.nodes(), &run.rest);
        let round = RoundSetup {
            alloc: setup.alloc,
            p: setup.p,
            lim: setup.lim,
            shape: &tree,
            workers,
            gate,
        };
        run = side_by_side(rt, &round, room, run)?;
        *shape = Some(tree);
        book.account.recount(setup.lim, &run.rest);
        book.begin_anew(&run.rest.state, run.rest.journal.len())?;
    }
    unreachable!()
}

/// The shape of the program's tree: the one that was kept, or else one that is built now.
fn kept_or_built(alloc: Global, p: &Prog, kept: Option<Shape>) -> Result<Shape, Memory>
    requires { IfSome kept (IsShapeOf p.now) }
    ensures { IfOk result (IsShapeOf p.now) }
{
    match kept {
        Some(shape) => Ok(shape),
        None => Shape::build(alloc, p),
    }
}

/// The run after a round of the workers on a floor with room for so many tasks. It ends once one of them finds that tasks are
/// short, or once there is room for no more.
fn side_by_side<R: Threads + Wait + Sync, G: Gate + Sync>(
    rt: &R,
    setup: &RoundSetup<'_, G>,
    room: u32,
    run: RunAtRest,
) -> Result<RunAtRest, Memory>
    requires some { 1 ≤ setup.now.workers }
    requires accepted { KeepsEffects setup.now.p.now }
    requires sound { IsSound setup.now.p.now setup.now.lim run }
    ensures { IfOk result (HasGoneOn setup.now.p.now setup.now.lim run.rest.journal) }
{
    let RunAtRest { rest, .. } = run;
    let rest = round_within(rt, setup, room, rest)?;
    RunAtRest::of(setup.alloc, setup.p, setup.lim, rest)
}
