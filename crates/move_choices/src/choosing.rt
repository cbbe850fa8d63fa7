//! The choice of moves.
ghost use Rattle.std.specs.Prelude.{◌<◌, ◌↔◌, ℕ, IfNone, IfSome, IsTrue};
ghost use Rattle.machine_state.specs.Legal.{MayAdmit, MayRun, MayTake};
ghost use Rattle.machine_state.specs.Runs.{IsReachable};
ghost use Rattle.reduction_laws.specs.Enough.{IsEnough};
ghost use Rattle.reduction_laws.specs.Meeting.{NothingMeets};

use crate::alone::is_alone;
use machine_state::State;
use reduction_laws::Choice;
use seg_journal::{Kind, Move};
use twe_machine::may;
use twe_program::Prog;

/// Enough moves of a reached state of the program: the next segment of the lowest task that may run; or else the admission of the
/// lowest task that may be admitted and of which a test shows that nothing meets it; or else each admission.
pub fn choice_in(p: &Prog, st: &State) -> Choice
    requires { IsReachable p.now st.now }
    ensures { IsEnough p.now st.now result }
{
    let _main = p.main;
    if let Some(t) = lowest_that_may_run(p, st) {
        return Choice::Segment(t);
    }
    match lowest_alone(p, st) {
        Some(t) => Choice::Admission(t),
        None => Choice::EachAdmission,
    }
}

/// The lowest task that may run.
fn lowest_that_may_run(p: &Prog, st: &State) -> Option<u32>
    requires { IsReachable p.now st.now }
    ensures some { IfSome result (MayRun st.now) }
    ensures lowest { IfSome result (λ t. (s : ℕ) → s < t → ¬ MayRun st.now s) }
    ensures none { IfNone result ((t : ℕ) → ¬ MayRun st.now t) }
{
    let _main = p.main;
    for t in 0..st.links.task_count() {
        if may_take(p, st, Kind::Run, t) {
            return Some(t);
        }
    }
    None
}

/// The lowest task that may be admitted and of which the test shows that nothing meets it.
fn lowest_alone(p: &Prog, st: &State) -> Option<u32>
    requires { IsReachable p.now st.now }
    ensures may { IfSome result (MayAdmit st.now) }
    ensures alone { IfSome result (NothingMeets p.now st.now) }
{
    let _main = p.main;
    for t in 0..st.links.task_count() {
        if may_take(p, st, Kind::Admit, t) && is_alone(p, st, t) {
            return Some(t);
        }
    }
    None
}

/// Whether a task may be admitted, or may run, as the kind says.
fn may_take(p: &Prog, st: &State, kind: Kind, t: u32) -> bool
    requires { IsReachable p.now st.now }
    ensures { IsTrue result ↔ MayTake st.now kind t }
{
    may(p, st, Move { kind, task: t }).is_ok()
}
