//! Looking at a task: its legal move, or the bar to it.
ghost use Rattle.std.specs.Prelude.{◌≡◌, length, IfNone, IfSome, IfOk, OnOk};
ghost use Rattle.seg_journal.specs.declared.moves.Kind.{Kind};
ghost use Rattle.twe_program.specs.Program.{Program};
ghost use Rattle.twe_program.specs.WellFormed.{IsWellFormed};
ghost use Rattle.machine_state.specs.declared.state.TaskStatus.TheVariants.{Made, Enabled};
ghost use Rattle.machine_state.specs.Legal.{MayMove, MayTake};
ghost use Rattle.twe_machine.specs.Listings.{IsListing};
ghost use Rattle.machine_state.specs.Rows.{EffectsAreFilled, HasStatus};
ghost use Rattle.machine_state.specs.Runs.{IsReachable};
ghost use Rattle.flat_sched.specs.inner.Books.{HeldMore, IsUnder, Looked};
ghost use Rattle.flat_sched.specs.inner.Groups.{AreGroups};

use crate::books::Books;
use crate::groups::join;
use crate::lists::add;
use crate::passing::release;
use machine_state::{State, TaskStatus, effects_are_filled};
use seg_journal::{Kind, Move};
use std::alloc::Global;
use twe_base::Memory;

/// Looks at a task: returns its legal move, if it has one. If it was made and has a bar, it is put on the list of a bar or in its
/// group, and those of its own group are to be looked at.
pub(crate) fn look(
    alloc: Global,
    st: &State,
    books: &mut Books,
    t: u32,
) -> Result<Option<Move>, Memory>
    requires linked { length st.now.links ≡ length st.now.tasks }
    requires reachable { (p : Program) × IsWellFormed p × IsReachable p st.now }
    requires groups { AreGroups st.now books.old.groups }
    requires listing { IsListing st.now books.old.enabled }
    ensures legal { IfOk result (λ mv. IfSome mv (MayMove st.now)) }
    ensures task { IfOk result (λ mv. IfSome mv (λ m. m.task ≡ t)) }
    ensures same { IfOk result (λ mv. IfSome mv (λ m. books.new ≡ books.old)) }
    ensures looked { IfOk result (λ mv. IfNone mv (Looked st.now t books.old books.new)) }
{
    let Some(row) = st.tasks.get(t as usize) else {
        return Ok(None);
    };
    match row.status {
        TaskStatus::Made => look_at_made(alloc, st, books, t),
        TaskStatus::Enabled => Ok(run_of(st, t)),
        _ => Ok(None),
    }
}

/// The segment of an enabled task, if it waits for nobody.
fn run_of(st: &State, t: u32) -> Option<Move>
    requires enabled { HasStatus st.now t Enabled }
    requires linked { length st.now.links ≡ length st.now.tasks }
    ensures legal { IfSome result (MayMove st.now) }
    ensures task { IfSome result (λ mv. mv.task ≡ t) }
    ensures none { IfNone result ((kind : Kind) → ¬ MayTake st.now kind t) }
{
    match st.links.awaited(t) {
        None => Some(Move {
            kind: Kind::Run,
            task: t,
        }),
        Some(_) => None,
    }
}

/// The admission of a task that was made, if it has no bar. Else it is put on the list of a bar or in its group.
fn look_at_made(
    alloc: Global,
    st: &State,
    books: &mut Books,
    t: u32,
) -> Result<Option<Move>, Memory>
    requires made { HasStatus st.now t Made }
    requires reachable { (p : Program) × IsWellFormed p × IsReachable p st.now }
    requires groups { AreGroups st.now books.old.groups }
    requires listing { IsListing st.now books.old.enabled }
    ensures legal { IfOk result (λ mv. IfSome mv (MayMove st.now)) }
    ensures task { IfOk result (λ mv. IfSome mv (λ m. m.task ≡ t)) }
    ensures same { IfOk result (λ mv. IfSome mv (λ m. books.new ≡ books.old)) }
    ensures looked { IfOk result (λ mv. IfNone mv (Looked st.now t books.old books.new)) }
{
    effects_are_filled();
    match books.enabled.bar(st, t) {
        None => Ok(Some(Move {
            kind: Kind::Admit,
            task: t,
        })),
        Some(s) => {
            hold(alloc, st, books, s, t)?;
            release(books, t)?;
            Ok(None)
        }
    }
}

/// Puts a task that `s` holds into the group of `s`, if it is like the others there, and else on the list of `s`.
fn hold(alloc: Global, st: &State, books: &mut Books, s: u32, t: u32) -> Result<(), Memory>
    requires filled { EffectsAreFilled st.now }
    requires groups { AreGroups st.now books.old.groups }
    ensures under { OnOk result (IsUnder books.new s t) }
    ensures held { OnOk result (HeldMore st.now books.old books.new) }
{
    if join(alloc, st, &mut books.groups, s, t)? {
        return Ok(());
    }
    add(alloc, &mut books.held, s, t)?;
    Ok(())
}
