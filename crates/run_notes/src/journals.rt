//! The answer to a journal on an accepted program.
ghost use Rattle.std.specs.Prelude.{◌≡◌, ◌≤◌, ◌<◌, ◌+◌, ℕ, IfOk, IsErrOf, length};
ghost use Rattle.seg_journal.specs.Spelling.{Spells};
ghost use Rattle.machine_state.specs.declared.ending.Outcome.TheVariants as outcomes;
ghost use Rattle.machine_state.specs.declared.why.Why.{Why as AnyWhy};
ghost use Rattle.machine_state.specs.declared.replay_fail.ReplayFail.TheVariants.{Illegal};
ghost use Rattle.machine_state.specs.Replays.{IsFirstIllegal};
ghost use Rattle.machine_state.specs.Runs.{IsOutcome, IsRun};
ghost use Rattle.twe_report.specs.Texts as texts;
ghost use Rattle.twe_io.specs.Answers.{on_out};
ghost use Rattle.text_answers.specs.Answers.{default_limits, limits_with};
ghost use Rattle.run_notes.specs.Journals.{JournalTold, MovesTold, RunTold};

use crate::cycles::stuck_explanation;
use crate::faulted::fault_explanation;
use crate::next_shown::{MOST_MOVES, next_explanation};
use crate::not_legal::illegal_page;
use crate::trees::tree_if_any;
use crate::variables_shown::items_of;
use explain_pages::{Wanted, text_of_run};
use flat_sched::stuck_cycle;
use machine_state::{FirstFault, Outcome, ReplayFail, State, Why};
use run_facts::{makings_of, next_moves, snapshot_of_fault};
use seg_journal::{Journal, JournalFail, JournalText, Limits, Move, read_journal};
use std::alloc::Global;
use text_answers::{answer_done, line_of};
use twe_base::Memory;
use twe_io::{Answer, Status};
use twe_machine::{outcome, replay_journal};
use twe_program::Prog;
use twe_report::{fault_text, not_a_move_text, not_legal_text, stuck_text, unfinished_text};

/// The answer to a journal on the program of a text.
pub fn answer_journal(
    alloc: Global,
    wanted: &Wanted,
    text: &[u8],
    p: &Prog,
    journal: &[u8],
) -> Result<Answer, Memory>
    ensures { IfOk result (JournalTold wanted.now text.now p.now journal.now) }
{
    match read_journal(alloc, journal) {
        Ok(found) => answer_found(alloc, wanted, text, p, journal, &found),
        Err(JournalFail::BadLine(n)) => {
            let line = not_a_move_text(alloc, n)?;
            Ok(Answer::on_out(alloc, Status::BadJournal, line))
        }
        Err(JournalFail::OutOfMemory(memory)) => Err(memory),
    }
}

/// The answer to what was found in a journal.
fn answer_found(
    alloc: Global,
    wanted: &Wanted,
    text: &[u8],
    p: &Prog,
    journal: &[u8],
    found: &JournalText,
) -> Result<Answer, Memory>
    requires { Spells journal.now found.now.head found.now.moves }
    ensures { IfOk result (JournalTold wanted.now text.now p.now journal.now) }
{
    let lim = found.head.unwrap_or(Limits::default());
    let moves = found.moves.as_slice();
    match answer_moves(alloc, wanted, text, p, lim, moves) {
        Ok(answer) => Ok(answer),
        Err(ReplayFail::Illegal { n, why }) => {
            answer_illegal(alloc, wanted, text, p, lim, journal, found, n, why)
        }
        Err(ReplayFail::OutOfMemory(memory)) => Err(memory),
    }
}

/// The answer to moves of which this one is the first that is not legal, counted from 1.
fn answer_illegal(
    alloc: Global,
    wanted: &Wanted,
    text: &[u8],
    p: &Prog,
    lim: Limits,
    journal: &[u8],
    found: &JournalText,
    n: u64,
    why: Why,
) -> Result<Answer, Memory>
    requires spelled { Spells journal.now found.now.head found.now.moves }
    requires limits { lim ≡ limits_with found.now.head default_limits }
    requires first { 0 < n }
    requires last { n ≤ length found.now.moves }
    requires illegal { IsFirstIllegal p.now lim found.now.moves n why }
    ensures { IfOk result (JournalTold wanted.now text.now p.now journal.now) }
{
    let _ = journal;
    let moves = found.moves.as_slice();
    let line = not_legal_text(alloc, line_of(found.head, n, moves))?;
    let page = illegal_page(alloc, wanted, text, p, lim, moves, n, why, line)?;
    Ok(Answer::on_out(alloc, Status::BadJournal, page))
}

/// The answer to moves, or the number of the first that is not legal, counted from 1.
fn answer_moves(
    alloc: Global,
    wanted: &Wanted,
    text: &[u8],
    p: &Prog,
    lim: Limits,
    moves: &[Move],
) -> Result<Answer, ReplayFail>
    ensures told { IfOk result (MovesTold wanted.now text.now p.now lim moves.now) }
    ensures illegal { (n : ℕ) (why : AnyWhy) → IsErrOf result (Illegal n why) → IsFirstIllegal p.now lim moves.now n why }
{
    let (journal, st) = replay_journal(alloc, p, lim, moves)?;
    let answer = tell_run(alloc, wanted, text, p, lim, &journal, &st)?;
    Ok(answer)
}

/// The answer to a run with this journal, which has led to this state.
pub fn tell_run(
    alloc: Global,
    wanted: &Wanted,
    text: &[u8],
    p: &Prog,
    lim: Limits,
    journal: &Journal,
    st: &State,
) -> Result<Answer, Memory>
    requires { IsRun p.now lim journal.now st.now }
    ensures { IfOk result (RunTold wanted.now text.now p.now lim journal.now st.now) }
{
    let _tasks = lim.tasks;
    match outcome(p, st) {
        Outcome::AllDone => {
            let answer = answer_done(alloc, p, st)?;
            Ok(answer)
        }
        Outcome::Fault { task, kind, place } => {
            let fault = FirstFault { task, kind, place };
            answer_fault(alloc, wanted, text, p, lim, journal, st, fault)
        }
        Outcome::Stuck => answer_stuck(alloc, wanted, text, p, lim, journal, st),
        Outcome::Unfinished => answer_unfinished(alloc, wanted, text, p, st, journal, lim),
    }
}

/// The answer to a run in which this fault came first.
fn answer_fault(
    alloc: Global,
    wanted: &Wanted,
    text: &[u8],
    p: &Prog,
    lim: Limits,
    journal: &Journal,
    st: &State,
    fault: FirstFault,
) -> Result<Answer, Memory>
    requires run { IsRun p.now lim journal.now st.now }
    requires fault { IsOutcome st.now (outcomes.Fault fault.task fault.kind fault.place) }
    ensures { IfOk result (RunTold wanted.now text.now p.now lim journal.now st.now) }
{
    let makings = makings_of(alloc, p, lim, journal.as_slice())?;
    let snapshot = snapshot_of_fault(alloc, p, lim, journal.as_slice(), fault)?;
    let tree = tree_if_any(alloc, text)?;
    let items = items_of(&tree);
    let known = makings.as_slice();
    let said = fault_explanation(alloc, text, items, p, lim, st, known, &snapshot, fault)?;
    let line = fault_text(alloc, fault.task, fault.kind, fault.place)?;
    let page = text_of_run(alloc, wanted, text, line, &said)?;
    Ok(Answer::on_out(alloc, Status::Fault, page))
}

/// The answer to a run that is stuck.
fn answer_stuck(
    alloc: Global,
    wanted: &Wanted,
    text: &[u8],
    p: &Prog,
    lim: Limits,
    journal: &Journal,
    st: &State,
) -> Result<Answer, Memory>
    requires run { IsRun p.now lim journal.now st.now }
    requires stuck { IsOutcome st.now outcomes.Stuck }
    ensures { IfOk result (RunTold wanted.now text.now p.now lim journal.now st.now) }
{
    let cycle = stuck_cycle(alloc, p, st)?;
    let makings = makings_of(alloc, p, lim, journal.as_slice())?;
    let said = stuck_explanation(alloc, p, st, makings.as_slice(), cycle.as_slice())?;
    let line = stuck_text(alloc, &cycle)?;
    let page = text_of_run(alloc, wanted, text, line, &said)?;
    Ok(Answer::on_out(alloc, Status::Stuck, page))
}

/// The answer to a run that goes on.
fn answer_unfinished(
    alloc: Global,
    wanted: &Wanted,
    text: &[u8],
    p: &Prog,
    st: &State,
    journal: &Journal,
    lim: Limits,
) -> Result<Answer, Memory>
    requires run { IsRun p.now lim journal.now st.now }
    requires unfinished { IsOutcome st.now outcomes.Unfinished }
    ensures { IfOk result (RunTold wanted.now text.now p.now lim journal.now st.now) }
{
    let moves = next_moves(alloc, p, st, MOST_MOVES)?;
    let makings = makings_of(alloc, p, lim, journal.as_slice())?;
    let said = next_explanation(alloc, p, st, makings.as_slice(), moves.as_slice())?;
    let line = unfinished_text(alloc, st)?;
    let page = text_of_run(alloc, wanted, text, line, &said)?;
    Ok(Answer::on_out(alloc, Status::Unfinished, page))
}
