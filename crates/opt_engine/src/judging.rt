//! Whether a draft may be committed, and why it may not.
ghost use Rattle.std.specs.Prelude.{◌≡◌, ◌<◌, ◌↔◌, IfNone, IfOk, IfSome, IsTrue, MatchOption, Some, length, slice_get};
ghost use Rattle.std.specs.List.{All};
ghost use Rattle.machine_state.specs.Runs.{IsReached};
ghost use Rattle.seg_journal.specs.declared.moves.Kind.TheVariants.{Admit};
ghost use Rattle.machine_state.specs.declared.why.Why.TheVariants.{HeldBy};
ghost use Rattle.machine_state.specs.Legal.{Forbids, IsBar};
ghost use Rattle.twe_machine.specs.Listings.{IsListing};
ghost use Rattle.twe_base.specs.Limits.{Bounds};
ghost use Rattle.opt_engine.specs.Drafts.{IsDraftedOf, IsNext, StandsIn};
ghost use Rattle.opt_engine.specs.Verdicts.{IsFree};
ghost use Rattle.opt_engine.specs.inner.Judging.{Finds, HasChanged, IsChange};

use crate::drafts::Drafted;
use crate::readiness::{is_ready, ready_copy};
use crate::touch::CellValue;
use flat_sched::is_made;
use machine_state::{State, Why};
use seg_journal::{Kind, Move};
use state_copies::same_frame;
use std::alloc::Global;
use twe_base::{Ints, Memory};
use twe_machine::EnabledTasks;
use twe_program::Prog;

/// A cell that has another value than the one that was read.
#[derive(Clone, Copy, Debug)]
pub(crate) struct Change {
    pub cell: u32,
    pub read: i32,
    pub now: i32,
}

/// What is found of a draft.
#[derive(Debug, Drop)]
pub(crate) enum Finding {
    /// It fits, and its moves are legal.
    Fits,
    /// It is not of the segment that its task runs next.
    Passed,
    /// The task may not be admitted, and this is the lowest bar to it.
    Held(u32),
    /// A cell that it has read has another value now.
    Changed(Change),
}

/// What holds of a draft of the program in a reached state, whose enabled tasks these are.
pub(crate) fn judge(
    alloc: Global,
    p: &Prog,
    st: &State,
    enabled: &EnabledTasks,
    d: &Drafted,
) -> Result<Finding, Memory>
    requires reached { (lim : Bounds) × IsReached p.now lim st.now }
    requires listing { IsListing st.now enabled.now }
    requires drafted { IsDraftedOf p.now d.now }
    ensures { IfOk result (Finds st.now d.now) }
{
    let _main = p.main;
    if !is_next(alloc, p, st, d)? {
        return Ok(Finding::Passed);
    }
    if let Some(by) = holder(p, st, enabled, d.task) {
        return Ok(Finding::Held(by));
    }
    Ok(match first_change(&st.cells, d.reads.as_slice()) {
        Some(change) => Finding::Changed(change),
        None => Finding::Fits,
    })
}

/// Whether a draft is of the segment that its task runs next.
fn is_next(alloc: Global, p: &Prog, st: &State, d: &Drafted) -> Result<bool, Memory>
    requires reached { (lim : Bounds) × IsReached p.now lim st.now }
    requires drafted { IsDraftedOf p.now d.now }
    ensures { IfOk result (λ next. IsTrue next ↔ IsNext st.now d.now) }
{
    let _main = p.main;
    if !is_ready(st, d.task) {
        return Ok(false);
    }
    match st.tasks.get(d.task as usize) {
        None => Ok(false),
        Some(row) => Ok(same_frame(&d.before, &ready_copy(alloc, &st.tasks, row)?)),
    }
}

/// The lowest bar to the admission of a task, if it waits for its admission and has a bar. It is looked for among all tasks
/// only if there is one.
fn holder(p: &Prog, st: &State, enabled: &EnabledTasks, t: u32) -> Option<u32>
    requires reached { (lim : Bounds) × IsReached p.now lim st.now }
    requires listing { IsListing st.now enabled.now }
    ensures some { IfSome result (λ by. Forbids st.now Admit t (HeldBy by)) }
    ensures none { IfNone result (IsFree st.now t) }
{
    let admission = Move {
        kind: Kind::Admit,
        task: t,
    };
    match enabled.may(p, st, admission) {
        Ok(()) => None,
        Err(Why::HeldBy(by)) => Some(by),
        Err(Why::NoTask) => None,
        Err(Why::NotMade) => None,
        Err(Why::NotEnabled) => None,
        Err(Why::WaitsFor(_)) => None,
    }
}

/// Some bar to the admission of a task, if it waits for its admission and has a bar.
pub(crate) fn some_bar(p: &Prog, st: &State, enabled: &EnabledTasks, t: u32) -> Option<u32>
    requires reached { (lim : Bounds) × IsReached p.now lim st.now }
    requires listing { IsListing st.now enabled.now }
    ensures some { IfSome result (λ s. IsBar st.now s t) }
    ensures none { IfNone result (IsFree st.now t) }
{
    let _main = p.main;
    if !is_made(st, t) {
        return None;
    }
    enabled.bar(st, t)
}

/// The first read whose cell has another value now.
fn first_change(cells: &Ints, reads: &[CellValue]) -> Option<Change>
    requires { All (λ read. read.cell < length cells.now) reads.now }
    ensures { MatchOption result (All (StandsIn cells.now) reads.now) (IsChange cells.now reads.now) }
{
    for read in reads {
        if let Some(change) = change_of(cells, *read) {
            return Some(change);
        }
    }
    None
}

/// The change of a cell since it was read, if it has another value now.
fn change_of(cells: &Ints, read: CellValue) -> Option<Change>
    requires { read.cell < length cells.now }
    ensures { MatchOption result (StandsIn cells.now read) (HasChanged cells.now read) }
{
    let now = value_at(cells, read.cell);
    if now == read.value {
        return None;
    }
    Some(Change {
        cell: read.cell,
        read: read.value,
        now,
    })
}

/// The value of a cell.
fn value_at(cells: &Ints, cell: u32) -> i32
    requires { cell < length cells.now }
    ensures { slice_get cells.now cell ≡ Some result }
{
    cells.as_slice()[cell as usize]
}
