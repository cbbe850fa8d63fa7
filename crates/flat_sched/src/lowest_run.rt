//! The lowest-first run of a program: at each step the move of the lowest-numbered task that has one.
ghost use Rattle.std.specs.Prelude.{◌≡◌, ◌≤◌, ◌+◌, ◌*◌, [], ◌∷◌, ◌++◌, length, None, IfOk, IfSome, IfNone, OnOk};
ghost use Rattle.machine_state.specs.declared.ending.Outcome.TheVariants.{AllDone, Unfinished};
ghost use Rattle.twe_base.specs.Limits.{Bounds};
ghost use Rattle.twe_program.specs.Program.{Program};
ghost use Rattle.machine_state.specs.Legal.{MayMove};
ghost use Rattle.machine_state.specs.LowestFirst.{IsLowest, IsOver, LowestFirst};
ghost use Rattle.machine_state.specs.Moves.{move_result, start_of};
ghost use Rattle.machine_state.specs.Runs.{IsReachable, IsReached, Legal, state_after, IsOutcome, EachOnce, EachAtMostOnce, counted, entry_of};
ghost use Rattle.flat_sched.specs.SoFar.{LowestSoFar};
ghost use Rattle.flat_sched.specs.inner.Books.{Keeps};
ghost use Rattle.flat_sched.specs.inner.Lists.{IsReady};

use crate::books::Books;
use crate::looking::look;
use crate::lookout::Lookout;
use crate::noting::note;
use machine_state::{State, each_thing_happens_once, journals_are_short, links_agree};
use seg_journal::{Entry, Journal, Limits, Move};
use std::alloc::Global;
use twe_base::Memory;
use twe_machine::{start, step};
use twe_program::Prog;

/// Runs the program under these limits to its end. Returns the journal of the run and the state that it leads to. At
/// each step the run takes the move of the lowest-numbered task that has one, up to a fault or until no task has one.
/// Nothing comes after a fault. Like every legal journal, that of the run has each task made, enabled and finished at
/// most once, and exactly once if all tasks are done, and it has at most two entries for each unit of fuel of each task
/// that the limits allow, and two for each such task.
pub fn run_lowest(alloc: Global, p: &Prog, lim: Limits) -> Result<(Journal, State), Memory>
    ensures legal { IfOk result (λ run. Legal p.now lim run.0) }
    ensures state { IfOk result (λ run. run.1 ≡ state_after p.now lim run.0) }
    ensures lowest { IfOk result (λ run. LowestFirst p.now lim run.0) }
    ensures ended { IfOk result (λ run. IsOver run.1) }
    ensures once { IfOk result (λ run. IsOutcome run.1 AllDone → EachOnce run.0 run.1) }
    ensures at_most_once { IfOk result (λ run. EachAtMostOnce run.0) }
    ensures counted { IfOk result (λ run. counted run.0 ≡ run.0) }
    ensures short { IfOk result (λ run. length run.0 ≤ lim.tasks * (2 * lim.fuel + 2)) }
{
    each_thing_happens_once();
    journals_are_short();
    let (_main, _fuel) = (p.main, lim.fuel);
    let mut st = start(alloc, p, lim)?;
    let mut journal = Journal::new(alloc);
    let mut books = first_books(alloc)?;
    'moves: while let Some(mv) = next_move(alloc, p, &st, &mut books)? {
        take(alloc, p, lim, &mut st, &mut books, &mut journal, mv)?;
    }
    Ok((journal, st))
}

/// Runs the program under these limits as [`run_lowest`] does, as long as the lookout lets it go on. Returns the journal so far
/// and the state that it leads to.
pub fn run_lowest_while<L: Lookout>(
    alloc: Global,
    p: &Prog,
    lim: Limits,
    lookout: &mut L,
) -> Result<(Journal, State), Memory>
    ensures legal { IfOk result (λ run. Legal p.now lim run.0) }
    ensures state { IfOk result (λ run. run.1 ≡ state_after p.now lim run.0) }
    ensures lowest { IfOk result (λ run. LowestSoFar p.now lim run.0) }
{
    journals_are_short();
    let (_main, _fuel) = (p.main, lim.fuel);
    let mut st = start(alloc, p, lim)?;
    let mut journal = Journal::new(alloc);
    let mut books = first_books(alloc)?;
    'moves: while let Some(mv) = next_move(alloc, p, &st, &mut books)? {
        if !lookout.goes_on(p, &st, mv) {
            break;
        }
        take(alloc, p, lim, &mut st, &mut books, &mut journal, mv)?;
    }
    Ok((journal, st))
}

/// The books of a run that has not begun. Task 0 is to be looked at.
fn first_books(alloc: Global) -> Result<Books, Memory>
    ensures { IfOk result (λ books. (p : Program) (lim : Bounds) → Keeps (start_of p lim) books) }
{
    let mut books = Books::new(alloc)?;
    books.ready.add(0)?;
    Ok(books)
}

/// The move of the lowest-numbered task that has one, and `None` after a fault or if no move is legal.
fn next_move(alloc: Global, p: &Prog, st: &State, books: &mut Books) -> Result<Option<Move>, Memory>
    requires reachable { IsReachable p.now st.now }
    requires keeps { st.now.first_fault ≡ None → Keeps st.now books.old }
    ensures lowest { IfOk result (λ next. IfSome next (IsLowest st.now)) }
    ensures unfinished { IfOk result (λ next. IfSome next (λ _. IsOutcome st.now Unfinished)) }
    ensures over { IfOk result (λ next. IfNone next (IsOver st.now)) }
    ensures keeps { OnOk result (st.now.first_fault ≡ None → Keeps st.now books.new) }
    ensures ready { IfOk result (λ next. IfSome next (λ mv. IsReady books.new.ready mv.task)) }
{
    if st.first_fault.is_some() {
        return Ok(None);
    }
    lowest_ready(alloc, p, st, books)
}

/// The move of the lowest-numbered task that has one, if a move is legal. Each task that is looked at and has none is
/// no longer to be looked at.
fn lowest_ready(
    alloc: Global,
    p: &Prog,
    st: &State,
    books: &mut Books,
) -> Result<Option<Move>, Memory>
    requires reachable { IsReachable p.now st.now }
    requires keeps { Keeps st.now books.old }
    ensures lowest { IfOk result (λ next. IfSome next (IsLowest st.now)) }
    ensures none { IfOk result (λ next. IfNone next ((mv : Move) → ¬ MayMove st.now mv)) }
    ensures keeps { OnOk result (Keeps st.now books.new) }
    ensures ready { IfOk result (λ next. IfSome next (λ mv. IsReady books.new.ready mv.task)) }
{
    links_agree();
    let _main = p.main;
    let mut from: u64 = 0;
    'looking: while let Some(t) = books.ready.lowest_from(from) {
        if let Some(mv) = look(alloc, st, books, t)? {
            return Ok(Some(mv));
        }
        from = u64::from(t) + 1;
    }
    Ok(None)
}

/// Takes a legal move in a reached state, and appends its entry to the run's journal.
fn take(
    alloc: Global,
    p: &Prog,
    lim: Limits,
    st: &mut State,
    books: &mut Books,
    journal: &mut Journal,
    mv: Move,
) -> Result<(), Memory>
    requires reached { IsReached p.now lim st.old }
    requires legal { MayMove st.old mv }
    requires keeps { Keeps st.old books.old }
    requires ready { IsReady books.old.ready mv.task }
    ensures entered { OnOk result (journal.new ≡ journal.old ++ entry_of p.now lim st.old mv ∷ []) }
    ensures state { OnOk result (st.new ≡ (move_result p.now lim st.old mv).0) }
    ensures keeps { OnOk result (st.new.first_fault ≡ None → Keeps st.new books.new) }
{
    let _main = p.main;
    let before = st.links.task_count();
    let end = step(alloc, p, lim, st, mv)?;
    journal.push(Entry { mv, end })?;
    if st.first_fault.is_some() {
        return Ok(());
    }
    note(alloc, st, books, mv, before)?;
    Ok(())
}
