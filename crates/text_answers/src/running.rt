//! The reply to the run of an accepted program.
ghost use Rattle.std.specs.Prelude.{◌≡◌, IfOk};
ghost use Rattle.isolation_laws.specs.soundness.KeepsEffects.{KeepsEffects};
ghost use Rattle.machine_state.specs.Runs.{IsRun};
ghost use Rattle.flat_sched.specs.RunEnds.{IsRunEnd};
ghost use Rattle.text_answers.specs.Answers.{for_load, with_journal};
ghost use Rattle.text_answers.specs.Running.{IsDueForRun, IsWholeRun};
ghost use Rattle.text_answers.specs.inner.Given.{IsReplyToRun, reported};

use crate::asked::{AskedRun, Report};
use crate::book::{Book, Reply};
use crate::ended::answer_ended;
use determinism_laws::results::{
    deterministic_mains_have_their_results, deterministic_tasks_have_results,
};
use flat_sched::WholeRun;
use isolation_laws::accepted_runs_are_isolated;
use machine_state::{State, each_thing_happens_once};
use seg_journal::Journal;
use std::alloc::Global;
use twe_base::{Limits, Memory};
use twe_io::{Answer, Status};
use twe_program::Prog;
use twe_report::{journal_part, load_result_text};

/// The reply to the run that was asked for, whoever made its moves, and the state to which it has come. If entries come after
/// the first fault, the journal is written with them, and the numbers that they printed are not. The book has the program, the
/// journal and the outcome.
pub fn answer_run(
    alloc: Global,
    asked: &AskedRun,
    p: Prog,
    run: WholeRun,
) -> Result<(Reply, State), Memory>
    requires keeps { KeepsEffects p }
    requires whole { IsWholeRun p asked.now run }
    ensures { IfOk result (λ made. IsDueForRun asked.now p made.0) }
{
    let (reply, state) = reply_to_run(alloc, asked.limits, p, run)?;
    let Reply {
        answer: plain,
        book,
    } = reply;
    let answer = answer_reported(alloc, asked, plain, &book.journal, &state)?;
    Ok((Reply { answer, book }, state))
}

/// The reply to a run under these limits, without its journal, and the state to which it has come. The book has the program,
/// the journal and the outcome.
pub(crate) fn reply_to_run(
    alloc: Global,
    lim: Limits,
    p: Prog,
    run: WholeRun,
) -> Result<(Reply, State), Memory>
    requires keeps { KeepsEffects p }
    requires run { IsRun p lim run.journal run.state }
    requires end { IsRunEnd run.state run.end }
    ensures reply { IfOk result (λ made. IsReplyToRun p lim run made.0) }
    ensures state { IfOk result (λ made. made.1 ≡ run.state) }
{
    accepted_runs_are_isolated();
    deterministic_tasks_have_results();
    deterministic_mains_have_their_results();
    each_thing_happens_once();
    let _tasks = lim.tasks;
    let answer = answer_ended(alloc, &p, lim, &run)?;
    let outcome = run.end.outcome();
    let WholeRun { journal, state, .. } = run;
    let book = Book {
        prog: Some(p),
        journal,
        outcome: Some(outcome),
        refusal: None,
    };
    Ok((Reply { answer, book }, state))
}

/// The answer to the run that was asked for, which has this answer without its journal.
fn answer_reported(
    alloc: Global,
    asked: &AskedRun,
    plain: Answer,
    journal: &Journal,
    st: &State,
) -> Result<Answer, Memory>
    ensures { IfOk result (λ answer. answer ≡ reported asked.now st.now journal.now plain) }
{
    match asked.report {
        Report::OfRun { journal: wanted } => {
            add_journal(alloc, plain, wanted, asked.limits, journal)
        }
        Report::OfLoad { n } => answer_load(alloc, n, st, plain),
    }
}

/// The answer to the run of a load that has come to this state.
#[tactic(auto, using(crate::proofs::Runs::done_load, crate::proofs::Runs::other_load))]
fn answer_load(alloc: Global, n: u32, st: &State, plain: Answer) -> Result<Answer, Memory>
    ensures { IfOk result (λ answer. answer ≡ for_load n st.now plain) }
{
    if plain.status.is_done() {
        return Ok(Answer::on_out(alloc, Status::Done, load_result_text(alloc, n, st)?));
    }
    let Answer { status, err, .. } = plain;
    Ok(Answer::on_err(alloc, status, err))
}

/// The answer with the journal after its lines on out, if `asked` is true.
fn add_journal(
    alloc: Global,
    plain: Answer,
    asked: bool,
    lim: Limits,
    entries: &Journal,
) -> Result<Answer, Memory>
    ensures { IfOk result (λ answer. answer ≡ with_journal asked lim entries.now plain) }
{
    let mut answer = plain;
    if asked {
        let part = journal_part(alloc, entries, lim)?;
        answer.out.push_all(part.as_slice())?;
    }
    Ok(answer)
}
