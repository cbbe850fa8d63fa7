//! One move more.
ghost use Rattle.std.specs.Prelude.{◌≡◌, ◌++◌, ◌∷◌, [], IfOk};
ghost use Rattle.machine_state.specs.Legal.{MayMove};
ghost use Rattle.machine_state.specs.Moves.{move_result};
ghost use Rattle.machine_state.specs.Runs.{IsRun};
ghost use Rattle.all_runs.specs.Explored.{CanGoOn};

use crate::found::FoundRun;
use seg_journal::{Entry, Journal, Limits, Move};
use state_copies::copy_state;
use std::alloc::Global;
use twe_base::Memory;
use twe_machine::step;
use twe_program::Prog;

/// The run with one legal move more. The run itself stays as it is.
pub(crate) fn with_move(
    alloc: Global,
    p: &Prog,
    lim: Limits,
    run: &FoundRun,
    mv: Move,
) -> Result<FoundRun, Memory>
    requires goes_on { CanGoOn p.now lim run.now }
    requires legal { MayMove run.now.state mv }
    ensures is_run { IfOk result (λ next. IsRun p.now lim next.journal next.state) }
    ensures state { IfOk result (λ next. next.state ≡ (move_result p.now lim run.now.state mv).0) }
{
    let (_main, _fuel) = (p.main, lim.fuel);
    let mut state = copy_state(alloc, &run.state)?;
    let end = step(alloc, p, lim, &mut state, mv)?;
    let journal = with_entry(alloc, &run.journal, Entry { mv, end })?;
    Ok(FoundRun { journal, state })
}

/// The journal with one entry more.
fn with_entry(alloc: Global, journal: &Journal, entry: Entry) -> Result<Journal, Memory>
    ensures { IfOk result (λ longer. longer ≡ journal.now ++ entry ∷ []) }
{
    let mut longer = Journal::with_capacity(alloc, journal.len().saturating_add(1))?;
    longer.push_all(journal.as_slice())?;
    longer.push(entry)?;
    Ok(longer)
}
