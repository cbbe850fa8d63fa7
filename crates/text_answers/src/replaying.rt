//! The replay of a journal text on an accepted program, and the reply to it.
ghost use Rattle.std.specs.Prelude.{◌≡◌, IfOk};
ghost use Rattle.isolation_laws.specs.soundness.KeepsEffects.{KeepsEffects};
ghost use Rattle.machine_state.specs.Replays.{IsReplay};
ghost use Rattle.twe_io.specs.Answers.{on_err};
ghost use Rattle.twe_io.specs.declared.status.Status.TheVariants.{BadJournal};
ghost use Rattle.text_answers.specs.Theorem.{HasProgram};
ghost use Rattle.text_answers.specs.inner.Given.{AnswersFound, IsReplyOfReplay, IsReplyToMoves};

use crate::book::{Book, Reply};
use crate::counting::line_of;
use crate::running::reply_to_run;
use flat_sched::WholeRun;
use machine_state::{ReplayFail, State};
use seg_journal::{Journal, JournalFail, JournalText, Move, read_journal};
use std::alloc::Global;
use twe_base::{Bytes, Limits, Memory};
use twe_io::{Answer, Status};
use twe_machine::replay_journal;
use twe_program::Prog;
use twe_report::{not_a_move_text, not_legal_text};

/// Replays a journal text on a program and returns the reply. The limits are those of the journal's head, or `lim` if it has
/// no head. The book has the program, and if each move is legal, the journal and its outcome.
pub(crate) fn replay_program(
    alloc: Global,
    lim: Limits,
    p: Prog,
    text: &[u8],
) -> Result<Reply, Memory>
    requires { KeepsEffects p }
    ensures { IfOk result (IsReplyOfReplay p lim text.now) }
{
    match read_journal(alloc, text) {
        Ok(found) => replay_found(alloc, lim, p, found),
        Err(JournalFail::BadLine(n)) => {
            let line = not_a_move_text(alloc, n)?;
            Ok(refuse_journal(alloc, p, line))
        }
        Err(JournalFail::OutOfMemory(memory)) => Err(memory),
    }
}

/// The reply to a journal text that is refused with this line.
fn refuse_journal(alloc: Global, p: Prog, line: Bytes) -> Reply
    ensures program { HasProgram p result.book }
    ensures answer { result.answer ≡ on_err BadJournal line }
{
    Reply {
        answer: Answer::on_err(alloc, Status::BadJournal, line),
        book: Book::of_program(alloc, p),
    }
}

/// Replays what was found in a journal text.
fn replay_found(alloc: Global, lim: Limits, p: Prog, found: JournalText) -> Result<Reply, Memory>
    requires { KeepsEffects p }
    ensures { IfOk result (AnswersFound p lim found) }
{
    let lim = found.head.unwrap_or(lim);
    let moves = found.moves.as_slice();
    match replay_journal(alloc, &p, lim, moves) {
        Ok((journal, st)) => answer_replay(alloc, lim, p, moves, journal, st),
        Err(ReplayFail::Illegal { n, .. }) => {
            let line = not_legal_text(alloc, line_of(found.head, n, moves))?;
            Ok(refuse_journal(alloc, p, line))
        }
        Err(ReplayFail::OutOfMemory(memory)) => Err(memory),
    }
}

/// The reply to a replay of legal moves.
fn answer_replay(
    alloc: Global,
    lim: Limits,
    p: Prog,
    moves: &[Move],
    journal: Journal,
    st: State,
) -> Result<Reply, Memory>
    requires keeps { KeepsEffects p }
    requires replayed { IsReplay p lim moves.now journal st }
    ensures { IfOk result (IsReplyToMoves p lim moves.now) }
{
    let (_main, _) = (p.main, moves);
    let run = WholeRun::of(alloc, &p, journal, st)?;
    let (reply, _) = reply_to_run(alloc, lim, p, run)?;
    Ok(reply)
}
