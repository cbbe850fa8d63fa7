//! Who made the tasks of a run, and where.
ghost use Rattle.std.specs.Prelude.{◌≡◌, ◌++◌, IfOk, OnOk, option_copied, slice_get};
ghost use Rattle.machine_state.specs.Runs.{Legal};
ghost use Rattle.run_facts.specs.Makings.{making_by, making_if, making_of, makings_of, place_of_row};

use crate::last_begun::stands_at;
use machine_state::State;
use seg_journal::{End, Entry, Limits};
use std::alloc::Global;
use twe_base::{List, Memory, Place};
use twe_machine::{start, step};
use twe_program::Prog;

/// How a task was made.
#[derive(Clone, Copy, Debug, PartialEq, Eq)]
pub struct TaskMaking {
    /// The task.
    pub child: u32,
    /// The task that made it.
    pub maker: u32,
    /// The place of its name where it was made.
    pub place: Option<Place>,
}

/// The place where a task stands, if there is such a task.
pub fn place_of(p: &Prog, st: &State, task: u32) -> Option<Place>
    ensures { result ≡ place_of_row p.now (slice_get st.now.tasks task) }
{
    match st.tasks.get(task as usize) {
        None => None,
        Some(row) => stands_at(p, row),
    }
}

/// Notes what a move of a task with this end has made, in the state after it.
fn note_making(
    makings: &mut List<TaskMaking>,
    p: &Prog,
    after: &State,
    maker: u32,
    end: End,
) -> Result<(), Memory>
    ensures { OnOk result (makings.new ≡ makings.old ++ making_by p.now after.now maker end) }
{
    match end {
        End::Made { child } => makings.push(TaskMaking {
            child,
            maker,
            place: place_of(p, after, maker),
        }),
        _ => Ok(()),
    }
}

/// How the tasks of a run with this journal were made, in the order in which they were. The moves of the journal are taken again
/// for it.
pub fn makings_of(
    alloc: Global,
    p: &Prog,
    lim: Limits,
    journal: &[Entry],
) -> Result<List<TaskMaking>, Memory>
    requires { Legal p.now lim journal.now }
    ensures { IfOk result (λ makings. makings ≡ makings_of p.now lim journal.now) }
{
    let _main = p.main;
    let _tasks = lim.tasks;
    let mut st = start(alloc, p, lim)?;
    let mut makings = List::new(alloc);
    for entry in journal {
        step(alloc, p, lim, &mut st, entry.mv)?;
        note_making(&mut makings, p, &st, entry.mv.task, entry.end)?;
    }
    Ok(makings)
}

/// The making, if it is of this task.
fn making_if(task: u32, making: Option<&TaskMaking>) -> Option<TaskMaking>
    ensures { result ≡ making_if task (option_copied making.entry) }
{
    match making {
        None => None,
        Some(making) => {
            if making.child == task {
                Some(*making)
            } else {
                None
            }
        }
    }
}

/// How a task was made, if it was. Task 0 was made by none.
pub fn making_of(makings: &[TaskMaking], task: u32) -> Option<TaskMaking>
    ensures { result ≡ making_of makings.now task }
{
    making_if(task, makings.get(task.saturating_sub(1) as usize))
}
