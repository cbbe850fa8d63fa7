//! The marks of entries, which are drawn as bars.
ghost use Rattle.std.specs.Prelude.{◌≡◌, ◌++◌, ◌∷◌, [], ◌==◌, ◌||◌, ◌&&◌, ℕ, Some, IfOk, OnOk, length, if◌then◌else◌};
ghost use Rattle.machine_state.specs.Legal.{MayMove};
ghost use Rattle.machine_state.specs.Moves.{move_result};
ghost use Rattle.machine_state.specs.Runs.{IsReached};
ghost use Rattle.twe_draw.specs.picture.Bars.{bar_in, concerns, giver_in, has_done, time_at};
ghost use Rattle.twe_draw.specs.picture.inner.Known.{AreKnown, KnowDone, KnowLast, giver_at, number_at};
ghost use Rattle.twe_draw.specs.picture.inner.Taken.{taken_at};

use crate::picture::numbers::{TaskNumbers, number_at, put_number};
use machine_state::State;
use seg_journal::{End, Kind, Limits, Move};
use std::alloc::Global;
use twe_base::{List, Memory};
use twe_machine::{awaited, step};
use twe_program::Prog;

/// The bar of an entry of a journal, in the row of its task. Entries are numbered from 0.
#[derive(Clone, Copy, Debug, PartialEq, Eq)]
pub struct EntryBar {
    /// The number of the entry.
    pub number: u64,
    /// Its task, in whose row the bar stands.
    pub task: u32,
    /// The kind of its move.
    pub kind: Kind,
    /// The task whose value it took first, if it took one.
    pub taken: Option<u32>,
    /// How it ended.
    pub end: End,
    /// When it begins.
    pub begins: u64,
    /// When it ends.
    pub ends: u64,
    /// The last entry before it that is of its task or has made its task, if there is one.
    pub previous: Option<u64>,
    /// The entry before it that has done the task whose value it took first, if it took one.
    pub giver: Option<u64>,
}

/// Bars so far, with what is looked up of them.
#[derive(Debug, Drop)]
pub(crate) struct Bars {
    /// The bars in the order of their entries.
    pub marks: List<EntryBar>,
    /// For each task the last entry that is of it or has made it.
    pub lasts: TaskNumbers,
    /// For each task the entry that has done it.
    pub done: TaskNumbers,
}

/// When entries begin and end.
#[derive(Debug, Drop)]
pub(crate) struct Times {
    /// For each entry when it begins.
    pub starts: List<u64>,
    /// For each entry when it ends.
    pub ends: List<u64>,
}

/// The time of the entry of this number, and 0 if it has none.
fn time_at(times: &List<u64>, number: usize) -> u64
    ensures { result ≡ time_at times.now number }
{
    match times.get(number) {
        Some(time) => *time,
        None => 0,
    }
}

/// Notes a bar as the last of the tasks that it concerns.
fn note_last(lasts: &mut TaskNumbers, bar: EntryBar) -> Result<(), Memory>
    ensures { OnOk result ((t : ℕ) → number_at lasts.new t
        ≡ (if concerns t bar then Some bar.number else number_at lasts.old t)) }
{
    put_number(lasts, bar.task, bar.number)?;
    match bar.end {
        End::Made { child } => put_number(lasts, child, bar.number),
        _ => Ok(()),
    }
}

/// Notes a bar as that of the entry that has done its task, if it has.
fn note_done(done: &mut TaskNumbers, bar: EntryBar) -> Result<(), Memory>
    ensures { OnOk result ((t : ℕ) → number_at done.new t
        ≡ (if has_done t bar then Some bar.number else number_at done.old t)) }
{
    match bar.end {
        End::Done { .. } => put_number(done, bar.task, bar.number),
        _ => Ok(()),
    }
}

/// The entry that has done the task whose value is taken, if one is.
fn giver_at(done: &TaskNumbers, taken: Option<u32>) -> Option<u64>
    ensures { result ≡ giver_at done.now taken }
{
    match taken {
        None => None,
        Some(task) => number_at(done, task),
    }
}

/// The task whose value a move takes, if it takes one.
fn taken_at(st: &State, mv: Move) -> Option<u32>
    ensures { result ≡ taken_at st.now mv.kind mv.task }
{
    match (mv.kind, st.tasks.get(mv.task as usize)) {
        (Kind::Run, Some(row)) => awaited(row.frame.next),
        _ => None,
    }
}

impl Bars {
    /// No bar.
    pub(crate) fn new(alloc: Global) -> Self
        ensures none { result.marks ≡ [] }
        ensures known { AreKnown result }
    {
        Bars {
            marks: List::new(alloc),
            lasts: List::new(alloc),
            done: List::new(alloc),
        }
    }

    /// Adds a bar after the others.
    pub(crate) fn add(&mut self, bar: EntryBar) -> Result<(), Memory>
        requires { AreKnown self.old }
        ensures marks { OnOk result (self.new.marks ≡ self.old.marks ++ bar ∷ []) }
        ensures known { OnOk result (AreKnown self.new) }
    {
        self.marks.push(bar)?;
        note_last(&mut self.lasts, bar)?;
        note_done(&mut self.done, bar)
    }

    /// Takes a legal move, and returns the bar of its entry, if that is the next one.
    pub(crate) fn take(
        &self,
        alloc: Global,
        p: &Prog,
        lim: Limits,
        st: &mut State,
        mv: Move,
        times: &Times,
    ) -> Result<EntryBar, Memory>
        requires known { AreKnown self.now }
        requires reached { IsReached p.now lim st.old }
        requires legal { MayMove st.old mv }
        ensures moved { IfOk result (λ bar. (st.new, bar.end) ≡ move_result p.now lim st.old mv) }
        ensures bar { IfOk result (λ bar. bar
            ≡ bar_in p.now times.now.starts times.now.ends st.old self.now.marks (record { mv = mv; end = bar.end })) }
    {
        let _main = p.main;
        let _tasks = lim.tasks;
        let number = self.marks.len();
        let taken = taken_at(st, mv);
        let end = step(alloc, p, lim, st, mv)?;
        Ok(EntryBar {
            number: number as u64,
            task: mv.task,
            kind: mv.kind,
            taken,
            end,
            begins: time_at(&times.starts, number),
            ends: time_at(&times.ends, number),
            previous: number_at(&self.lasts, mv.task),
            giver: giver_at(&self.done, taken),
        })
    }
}
