//! The answer to an input.
ghost use Rattle.std.specs.Prelude.{◌≡◌, ◌≤◌, IfOk, length};
ghost use Rattle.twe_base.specs.Language.{max_text_bytes};
ghost use Rattle.twe_frontend.specs.Accepted.{Accepted};
ghost use Rattle.text_answers.specs.Due.{JournalDue, no_journal_text};
ghost use Rattle.text_answers.specs.Input.{program_part};
ghost use Rattle.text_answers.specs.inner.GivenToPrograms.{DueToFound, DueToJournal};

use crate::counting::line_of;
use crate::input::{cut_at_mark, cut_input};
use crate::program::JournalProgram;
use machine_state::ReplayFail;
use seg_journal::{JournalFail, JournalText, Limits, read_journal};
use std::alloc::Global;
use twe_base::{Bytes, Memory};
use twe_frontend::{FrontFail, read_program};
use twe_io::{Answer, Status};
use twe_program::Prog;
use twe_report::{not_a_move_text, not_legal_text, refusal_text};

/// The answer to an input: to the text of a program, and after the first line that is exactly `%%` the text of a journal. If the
/// program is accepted and there is no such line, the answer is that there is no journal. A journal may be unfinished or stuck,
/// or end with a fault.
pub fn answer_with_journal<P: JournalProgram>(
    alloc: Global,
    program: &P,
    input: &[u8],
) -> Result<Answer, Memory>
    requires { length input.now ≤ max_text_bytes }
    ensures { IfOk result (JournalDue (P.gives program.now) input.now) }
{
    let (text, _) = cut_input(input);
    match read_program(alloc, text) {
        Ok(p) => answer_accepted(alloc, program, &p, input),
        Err(FrontFail::Refused(refusal)) => Ok(Answer::on_err(
            alloc,
            Status::Refused,
            refusal_text(alloc, refusal)?,
        )),
        Err(FrontFail::OutOfMemory(memory)) => Err(memory),
    }
}

/// The answer to an input whose program is accepted.
fn answer_accepted<P: JournalProgram>(
    alloc: Global,
    program: &P,
    p: &Prog,
    input: &[u8],
) -> Result<Answer, Memory>
    requires short { length input.now ≤ max_text_bytes }
    requires accepted { Accepted (program_part input.now) p.now }
    ensures { IfOk result (JournalDue (P.gives program.now) input.now) }
{
    match cut_at_mark(input) {
        None => Ok(Answer::on_err(alloc, Status::BadJournal, no_journal_text(alloc)?)),
        Some((_, journal)) => answer_journal(alloc, program, p, journal),
    }
}

/// The line for an input that has no journal.
fn no_journal_text(alloc: Global) -> Result<Bytes, Memory>
    ensures { IfOk result (λ text. text ≡ no_journal_text) }
{
    Bytes::from_slice(alloc, b"there is no journal\n")
}

/// The answer to a journal text on an accepted program.
fn answer_journal<P: JournalProgram>(
    alloc: Global,
    program: &P,
    p: &Prog,
    journal: &[u8],
) -> Result<Answer, Memory>
    ensures { IfOk result (DueToJournal (P.gives program.now) p.now journal.now) }
{
    match read_journal(alloc, journal) {
        Ok(found) => answer_found(alloc, program, p, &found),
        Err(JournalFail::BadLine(n)) => Ok(Answer::on_err(
            alloc,
            Status::BadJournal,
            not_a_move_text(alloc, n)?,
        )),
        Err(JournalFail::OutOfMemory(memory)) => Err(memory),
    }
}

/// The answer to what was found in a journal text.
fn answer_found<P: JournalProgram>(
    alloc: Global,
    program: &P,
    p: &Prog,
    found: &JournalText,
) -> Result<Answer, Memory>
    ensures { IfOk result (DueToFound (P.gives program.now) p.now found.now) }
{
    let lim = found.head.unwrap_or(Limits::default());
    let moves = found.moves.as_slice();
    match program.answer_moves(alloc, p, lim, moves) {
        Ok(answer) => Ok(answer),
        Err(ReplayFail::Illegal { n, .. }) => Ok(Answer::on_err(
            alloc,
            Status::BadJournal,
            not_legal_text(alloc, line_of(found.head, n, moves))?,
        )),
        Err(ReplayFail::OutOfMemory(memory)) => Err(memory),
    }
}
