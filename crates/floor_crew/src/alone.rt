//! Moves of a run at rest, up to the point at which tasks may run beside each other.
//!
//! A task that may run alone runs its segments at rest, and so does one whose next segment is short, unless many others wait for
//! the workers. Once workers have found that tasks are short, each runs as soon as it may, so that few are held back. All others
//! wait for a round, unless the work since the last one has not paid for another.
ghost use Rattle.std.specs.Prelude.{◌≡◌, ◌∷◌, ◌++◌, [], OnOk};
ghost use Rattle.machine_state.specs.Legal.{MayMove};
ghost use Rattle.machine_state.specs.Runs.{entry_of};
ghost use Rattle.floor_crew.specs.inner.GoingOn.{HasGoneOn, IsSound};

use crate::at_rest::RunAtRest;
use crate::brief::is_next_brief;
use crate::outlook_at_rest::{OutlookAtRest, outlook_at_rest};
use crate::task_book::TaskBook;
use seg_journal::{Kind, Move};
use twe_base::Memory;
use twe_rounds::{Setup, fuel_left};

/// Takes moves until two tasks may run beside each other, none may run, or one has met a fault. After a fault it takes none.
/// Returns whether two may run.
pub(crate) fn go_on_alone(
    setup: &Setup<'_>,
    run: &mut RunAtRest,
    book: &mut TaskBook,
) -> Result<bool, Memory>
    requires { IsSound setup.now.p.now setup.now.lim run.old }
    ensures { OnOk result (HasGoneOn setup.now.p.now setup.now.lim run.old.rest.journal run.new) }
{
    'moves: for _ in 0..u64::MAX {
        if run.rest.state.first_fault.is_some() {
            return Ok(false);
        }
        admit_all_ready(setup, run, book)?;
        if !go_on_once(setup, run, book)? {
            return Ok(book.has_two());
        }
    }
    Ok(false)
}

/// Runs the next segment that is run alone, if there is one. Returns whether there may be another, perhaps after a look at the
/// tasks that are to be looked at.
fn go_on_once(setup: &Setup<'_>, run: &mut RunAtRest, book: &mut TaskBook) -> Result<bool, Memory>
    requires { IsSound setup.now.p.now setup.now.lim run.old }
    ensures { OnOk result (HasGoneOn setup.now.p.now setup.now.lim run.old.rest.journal run.new) }
{
    let Some(task) = book.next_alone() else {
        return book.look_again();
    };
    run_next(setup, run, book, task)?;
    Ok(true)
}

/// Looks at the tasks that are to be looked at, and admits each that may be admitted.
fn admit_all_ready(
    setup: &Setup<'_>,
    run: &mut RunAtRest,
    book: &mut TaskBook,
) -> Result<(), Memory>
    requires { IsSound setup.now.p.now setup.now.lim run.old }
    ensures { OnOk result (HasGoneOn setup.now.p.now setup.now.lim run.old.rest.journal run.new) }
{
    'looks: for _ in 0..u64::MAX {
        let Some(task) = book.next() else {
            break;
        };
        admit_or_keep(setup, run, book, task)?;
    }
    Ok(())
}

/// Looks at a task, and admits it if it may be admitted.
fn admit_or_keep(
    setup: &Setup<'_>,
    run: &mut RunAtRest,
    book: &mut TaskBook,
    task: u32,
) -> Result<(), Memory>
    requires { IsSound setup.now.p.now setup.now.lim run.old }
    ensures { OnOk result (HasGoneOn setup.now.p.now setup.now.lim run.old.rest.journal run.new) }
{
    match outlook_at_rest(setup.p, &run.rest.state, &run.enabled, task) {
        OutlookAtRest::Admissible => {
            let kind = Kind::Admit;
            take(setup, run, book, Move { kind, task })
        }
        OutlookAtRest::Held { by } => book.hold(task, by),
        OutlookAtRest::Runs => {
            let short = book.account.are_tasks_short();
            book.add_running(task, short || is_next_brief(setup.p, &run.rest.state, task))
        }
        OutlookAtRest::Waits { on, next } => book.wait(task, on, next),
        OutlookAtRest::Over => Ok(()),
    }
}

/// Runs the next segment of a task, if it may run.
fn run_next(
    setup: &Setup<'_>,
    run: &mut RunAtRest,
    book: &mut TaskBook,
    task: u32,
) -> Result<(), Memory>
    requires { IsSound setup.now.p.now setup.now.lim run.old }
    ensures { OnOk result (HasGoneOn setup.now.p.now setup.now.lim run.old.rest.journal run.new) }
{
    let OutlookAtRest::Runs = outlook_at_rest(setup.p, &run.rest.state, &run.enabled, task) else {
        return Ok(());
    };
    let kind = Kind::Run;
    take(setup, run, book, Move { kind, task })
}

/// Takes a legal move, and notes it in the book.
pub(crate) fn take(
    setup: &Setup<'_>,
    run: &mut RunAtRest,
    book: &mut TaskBook,
    mv: Move,
) -> Result<(), Memory>
    requires sound { IsSound setup.now.p.now setup.now.lim run.old }
    requires legal { MayMove run.old.rest.state mv }
    ensures gone { OnOk result (HasGoneOn setup.now.p.now setup.now.lim run.old.rest.journal run.new) }
    ensures journal { OnOk result (run.new.rest.journal
        ≡ run.old.rest.journal ++ entry_of setup.now.p.now setup.now.lim run.old.rest.state mv ∷ []) }
{
    let before = fuel_left(&run.rest.state, mv.task);
    run.take(setup.alloc, setup.p, setup.lim, mv)?;
    let after = fuel_left(&run.rest.state, mv.task);
    book.account.count(before.saturating_sub(after));
    book.read(run.rest.journal.as_slice())
}
