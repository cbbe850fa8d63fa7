//! From a text to the run of its program.
ghost use Rattle.std.specs.Prelude.{◌≡◌, IfErr, IfOk};
ghost use Rattle.twe_frontend.specs.Accepted.{Accepted};
ghost use Rattle.twe_frontend.specs.Reads.{HasCause};
ghost use Rattle.machine_state.specs.LowestFirst.{IsOver, LowestFirst};
ghost use Rattle.machine_state.specs.Runs.{Legal, state_after};
ghost use Rattle.run_laws.specs.SafeRuns.{IsSafeRun};

use crate::calls::run_accepted;
use machine_state::State;
use seg_journal::{Journal, Limits};
use std::alloc::Global;
use twe_frontend::{FrontFail, read_program};
use twe_program::Prog;

/// What came of a text that is accepted.
#[derive(Debug, Drop)]
pub struct RanText {
    /// Its program.
    pub program: Prog,
    /// The journal of its run.
    pub journal: Journal,
    /// The state that the journal leads to.
    pub state: State,
}

/// Reads a text, and runs its program under these limits to its end if the text is accepted. The run is safe: `IsSafeRun` says
/// what it keeps to.
pub fn run_text(alloc: Global, text: &[u8], lim: Limits) -> Result<RanText, FrontFail>
    ensures accepted { IfOk result (λ ran. Accepted text.now ran.program) }
    ensures legal { IfOk result (λ ran. Legal ran.program lim ran.journal) }
    ensures state { IfOk result (λ ran. ran.state ≡ state_after ran.program lim ran.journal) }
    ensures lowest { IfOk result (λ ran. LowestFirst ran.program lim ran.journal) }
    ensures ended { IfOk result (λ ran. IsOver ran.state) }
    ensures safe { IfOk result (λ ran. IsSafeRun ran.program lim ran.journal) }
    ensures refused { IfErr result (HasCause text.now) }
{
    let program = read_program(alloc, text)?;
    let (journal, state) = run_accepted(alloc, &program, lim)?;
    Ok(RanText {
        program,
        journal,
        state,
    })
}
