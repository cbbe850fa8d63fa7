//! A test whether nothing meets a task that waits for its admission.
ghost use Rattle.std.specs.Prelude.{◌≡◌, ◌≢◌, ℕ, false, IsTrue, Some, slice_get};
ghost use Rattle.effect_sets.specs.Interference.{SomeInterfere, statically_interfere};
ghost use Rattle.effect_sets.specs.Filled.{all_filled};
ghost use Rattle.machine_state.specs.declared.state.TaskRow.{TaskRow};
ghost use Rattle.machine_state.specs.declared.state.TaskStatus.TheVariants.{Done, Made};
ghost use Rattle.machine_state.specs.Rows.{EffectsAreFilled, IsRow};
ghost use Rattle.machine_state.specs.Runs.{IsReachable};
ghost use Rattle.reduction_laws.specs.Meeting.{NothingMeets};
ghost use Rattle.seg_meaning.specs.Entry.{future_count_of};
ghost use Rattle.twe_program.specs.declared.program.Decl.{Decl};

use effect_sets::{Summary, summaries_interfere};
use machine_state::{State, TaskRow, TaskStatus};
use twe_program::Prog;

/// Whether the test shows that nothing meets task `t` of a reached state: no other task that waits for its admission interferes with
/// it; and no other task that isn't done makes tasks at all, or else no declaration of the program interferes with it.
pub(crate) fn is_alone(p: &Prog, st: &State, t: u32) -> bool
    requires { IsReachable p.now st.now }
    ensures { IsTrue result → NothingMeets p.now st.now t }
{
    let _main = p.main;
    let Some(row) = st.tasks.get(t as usize) else {
        return false;
    };
    spares_made(st, t, &row.effects)
        && (others_make_none(p, st, t) || spares_declared(p, &row.effects))
}

/// Whether no task but `t` that waits for its admission interferes with these effects.
fn spares_made(st: &State, t: u32, effects: &Summary) -> bool
    requires filled { EffectsAreFilled st.now }
    requires filled_too { IsTrue (all_filled effects.now.effects) }
    ensures { IsTrue result → (u : ℕ) (row : TaskRow) → u ≢ t → IsRow st.now u row → row.status ≡ Made
        → ¬ SomeInterfere row.effects.effects effects.now.effects }
{
    let tasks = st.tasks.as_slice();
    for u in 0..tasks.len() {
        if u != t as usize && is_made_and_interferes(&tasks[u], effects) {
            return false;
        }
    }
    true
}

/// Whether the task of this row waits for its admission and interferes with these effects.
fn is_made_and_interferes(row: &TaskRow, effects: &Summary) -> bool
    requires filled { IsTrue (all_filled row.now.effects.effects) }
    requires filled_too { IsTrue (all_filled effects.now.effects) }
    ensures { result ≡ false → row.now.status ≡ Made → ¬ SomeInterfere row.now.effects.effects effects.now.effects }
{
    matches!(row.status, TaskStatus::Made) && summaries_interfere(&row.effects, effects)
}

/// Whether no task but `t` that isn't done is of a declaration that makes tasks.
fn others_make_none(p: &Prog, st: &State, t: u32) -> bool
    ensures { IsTrue result → (u : ℕ) (row : TaskRow) → u ≢ t → IsRow st.now u row → row.status ≢ Done
        → future_count_of (slice_get p.now.tasks row.decl) ≡ 0 }
{
    let tasks = st.tasks.as_slice();
    for u in 0..tasks.len() {
        if u != t as usize && may_make(p, &tasks[u]) {
            return false;
        }
    }
    true
}

/// Whether the task of this row isn't done and is of a declaration that makes tasks.
fn may_make(p: &Prog, row: &TaskRow) -> bool
    ensures { result ≡ false → row.now.status ≢ Done → future_count_of (slice_get p.now.tasks row.now.decl) ≡ 0 }
{
    !matches!(row.status, TaskStatus::Done) && makes_some(p, row.decl)
}

/// Whether the declaration makes tasks.
fn makes_some(p: &Prog, decl: u32) -> bool
    ensures { result ≡ false → future_count_of (slice_get p.now.tasks decl) ≡ 0 }
{
    match p.tasks.get(decl as usize) {
        None => false,
        Some(decl) => decl.body.futures > 0,
    }
}

/// Whether no declaration of a task interferes with these effects, whatever its arguments are.
fn spares_declared(p: &Prog, effects: &Summary) -> bool
    ensures { IsTrue result → (n : ℕ) (decl : Decl) → slice_get p.now.tasks n ≡ Some decl
        → statically_interfere decl.summary effects.now ≡ false }
{
    let tasks = p.tasks.as_slice();
    for n in 0..tasks.len() {
        if summaries_interfere(&tasks[n].summary, effects) {
            return false;
        }
    }
    true
}
