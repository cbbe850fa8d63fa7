//! Taking the moves that a draft stands for.
ghost use Rattle.std.specs.Prelude.{◌≡◌, ◌<◌, IfOk, OnOk, length, slice_set};
ghost use Rattle.std.specs.List.{All};
ghost use Rattle.machine_state.specs.Legal.{MayAdmit, MayRun};
ghost use Rattle.twe_machine.specs.Listings.{IsListing};
ghost use Rattle.machine_state.specs.Runs.{IsRun};
ghost use Rattle.opt_engine.specs.Drafts.{Fits, IsDraftedOf};
ghost use Rattle.opt_engine.specs.Touches.{with_writes};
ghost use Rattle.opt_engine.specs.Verdicts.{IsFree, Takes};
ghost use Rattle.opt_engine.specs.Taking.{TakingSteps};
ghost use Rattle.opt_engine.specs.inner.Judging.{Admits};

use crate::core_run::CoreRun;
use crate::drafts::Drafted;
use crate::hints::Hints;
use crate::touch::CellValue;
use flat_sched::is_made;
use seg_journal::{Entry, Kind, Move};
use std::alloc::Global;
use twe_base::{Ints, Limits, Memory};
use twe_machine::{EnabledTasks, settle};
use twe_program::Prog;

/// Takes the moves of a draft that fits and whose task may be admitted if it waits for that. Returns the run and the number
/// of the last entry, counted from 0. The enabled tasks are those of the run. By its code it stores what was written to the
/// hints.
pub(crate) fn take_moves(
    alloc: Global,
    p: &Prog,
    lim: Limits,
    hints: &Hints,
    run: CoreRun,
    enabled: &mut EnabledTasks,
    d: Drafted,
) -> Result<(CoreRun, u64), Memory>
    requires run { IsRun p.now lim run.journal run.state }
    requires drafted { IsDraftedOf p.now d }
    requires fits { Fits run.state d }
    requires free { IsFree run.state d.task }
    requires listing { IsListing run.state enabled.old }
    ensures run { IfOk result (λ took. IsRun p.now lim took.0.journal took.0.state) }
    ensures takes { IfOk result (λ took. Takes p.now lim run d took.1 took.0) }
    ensures listing { IfOk result (λ took. IsListing took.0.state enabled.new) }
{
    let _main = p.main;
    let mut run = run;
    let mv = Move {
        kind: Kind::Run,
        task: d.task,
    };
    admit_if_made(alloc, p, lim, &mut run, enabled, d.task)?;
    let before = run.state.links.task_count();
    hints.store_all(d.writes.as_slice());
    enter(alloc, p, lim, &mut run, d)?;
    enabled.note(&run.state, mv, before)?;
    let number = run.journal.len().saturating_sub(1) as u64;
    Ok((run, number))
}

/// Admits a task if it waits for its admission.
pub(crate) fn admit_if_made(
    alloc: Global,
    p: &Prog,
    lim: Limits,
    run: &mut CoreRun,
    enabled: &mut EnabledTasks,
    t: u32,
) -> Result<(), Memory>
    requires run { IsRun p.now lim run.old.journal run.old.state }
    requires free { IsFree run.old.state t }
    requires listing { IsListing run.old.state enabled.old }
    ensures admits { OnOk result (Admits p.now lim run.old t run.new) }
    ensures listing { OnOk result (IsListing run.new.state enabled.new) }
{
    if !is_made(&run.state, t) {
        return Ok(());
    }
    admit(alloc, p, lim, run, enabled, t)
}

/// Admits a task that may be admitted.
fn admit(
    alloc: Global,
    p: &Prog,
    lim: Limits,
    run: &mut CoreRun,
    enabled: &mut EnabledTasks,
    t: u32,
) -> Result<(), Memory>
    requires run { IsRun p.now lim run.old.journal run.old.state }
    requires may { MayAdmit run.old.state t }
    requires listing { IsListing run.old.state enabled.old }
    ensures steps { OnOk result (TakingSteps p.now lim run.old (record { kind = Kind.Admit; task = t }) run.new) }
    ensures listing { OnOk result (IsListing run.new.state enabled.new) }
{
    let _main = p.main;
    let mv = Move {
        kind: Kind::Admit,
        task: t,
    };
    let before = run.state.links.task_count();
    run.take(alloc, p, lim, mv)?;
    enabled.note(&run.state, mv, before)?;
    Ok(())
}

/// Enters the segment of a draft that fits, whose task may run.
fn enter(alloc: Global, p: &Prog, lim: Limits, run: &mut CoreRun, d: Drafted) -> Result<(), Memory>
    requires run { IsRun p.now lim run.old.journal run.old.state }
    requires drafted { IsDraftedOf p.now d }
    requires fits { Fits run.old.state d }
    requires may { MayRun run.old.state d.task }
    ensures { OnOk result (TakingSteps p.now lim run.old (record { kind = Kind.Run; task = d.task }) run.new) }
{
    let _main = p.main;
    let _tasks = lim.tasks;
    let mv = Move {
        kind: Kind::Run,
        task: d.task,
    };
    make_writes(&mut run.state.cells, d.writes.as_slice());
    let Drafted {
        task,
        after,
        stop,
        ..
    } = d;
    let end = settle(alloc, lim, &mut run.state, task, after, stop)?;
    run.journal.push(Entry { mv, end })?;
    Ok(())
}

/// Gives each written cell its value.
fn make_writes(cells: &mut Ints, writes: &[CellValue])
    requires { All (λ w. w.cell < length cells.old) writes.now }
    ensures { cells.new ≡ with_writes cells.old writes.now }
{
    for w in writes {
        make_write(cells, *w);
    }
}

/// Gives a written cell its value.
fn make_write(cells: &mut Ints, w: CellValue)
    requires { w.cell < length cells.old }
    ensures { cells.new ≡ slice_set cells.old w.cell w.value }
{
    cells.set(w.cell as usize, w.value);
}
