//! The answer to a text that is to be run.
ghost use Rattle.std.specs.Prelude.{IfOk};
ghost use Rattle.twe_frontend.specs.Accepted.{Accepted};
ghost use Rattle.twe_explain.specs.Runs.{RunDue};

use determinism_laws::results::{
    deterministic_mains_have_their_results, deterministic_tasks_have_results,
};
use explain_pages::Wanted;
use flat_sched::run_lowest;
use isolation_laws::accepted_runs_are_isolated;
use refusal_notes::explain_as;
use run_notes::tell_run;
use std::alloc::Global;
use twe_base::{Limits, Memory};
use twe_frontend::{FrontFail, read_program};
use twe_io::Answer;
use twe_program::Prog;

/// The answer to a text that is to be run under these limits, on the calling thread.
pub(crate) fn explain_run(
    alloc: Global,
    wanted: &Wanted,
    all: bool,
    lim: Limits,
    text: &[u8],
) -> Result<Answer, Memory>
    ensures { IfOk result (RunDue all wanted.now text.now lim) }
{
    match read_program(alloc, text) {
        Ok(p) => explain_accepted(alloc, wanted, all, text, lim, &p),
        Err(FrontFail::Refused(refusal)) => {
            let _ = refusal;
            let answer = explain_as(alloc, wanted, all, text)?;
            Ok(answer)
        }
        Err(FrontFail::OutOfMemory(memory)) => Err(memory),
    }
}

/// The answer to a text that is accepted and has this program, which is to be run.
fn explain_accepted(
    alloc: Global,
    wanted: &Wanted,
    all: bool,
    text: &[u8],
    lim: Limits,
    p: &Prog,
) -> Result<Answer, Memory>
    requires { Accepted text.now p.now }
    ensures { IfOk result (RunDue all wanted.now text.now lim) }
{
    let _ = all;
    accepted_runs_are_isolated();
    deterministic_tasks_have_results();
    deterministic_mains_have_their_results();
    let (_main, _tasks) = (p.main, lim.tasks);
    let (journal, st) = run_lowest(alloc, p, lim)?;
    let answer = tell_run(alloc, wanted, text, p, lim, &journal, &st)?;
    Ok(answer)
}
