//! The answer to an input: to a text, or to a text and a journal.
ghost use Rattle.std.specs.Prelude.{◌≡◌, ◌≤◌, length, true, IfOk};
ghost use Rattle.text_answers.specs.Input.{has_mark, journal_part, program_part};
ghost use Rattle.twe_base.specs.Language.{max_text_bytes};
ghost use Rattle.twe_explain.specs.Inputs.{InputDue, PartsDue, WishDue};

use crate::running::explain_run;
use crate::words::Wish;
use explain_pages::Wanted;
use refusal_notes::explain_as;
use run_notes::answer_journal;
use std::alloc::Global;
use text_answers::cut_at_mark;
use twe_base::Memory;
use twe_frontend::{FrontFail, read_program};
use twe_io::Answer;

/// The answer to an input, if this is asked for.
pub(crate) fn answer_wish(alloc: Global, wish: &Wish, input: &[u8]) -> Result<Answer, Memory>
    requires { length input.now ≤ max_text_bytes }
    ensures { IfOk result (WishDue wish.now input.now) }
{
    match wish.run {
        None => {
            let answer = answer_input(alloc, &wish.wanted, wish.all, input)?;
            Ok(answer)
        }
        Some(lim) => {
            let answer = explain_run(alloc, &wish.wanted, wish.all, lim, input)?;
            Ok(answer)
        }
    }
}

/// The answer to an input: to the text of a program, and if it has a line that is exactly `%%`, to the journal after it.
fn answer_input(alloc: Global, wanted: &Wanted, all: bool, input: &[u8]) -> Result<Answer, Memory>
    requires { length input.now ≤ max_text_bytes }
    ensures { IfOk result (InputDue all wanted.now input.now) }
{
    match cut_at_mark(input) {
        None => {
            let answer = explain_as(alloc, wanted, all, input)?;
            Ok(answer)
        }
        Some(parts) => answer_cut(alloc, wanted, all, input, parts),
    }
}

/// The answer to an input that has these parts.
fn answer_cut(
    alloc: Global,
    wanted: &Wanted,
    all: bool,
    input: &[u8],
    parts: (&[u8], &[u8]),
) -> Result<Answer, Memory>
    requires mark { has_mark input.now ≡ true }
    requires text { parts.0.now ≡ program_part input.now }
    requires journal { parts.1.now ≡ journal_part input.now }
    ensures { IfOk result (InputDue all wanted.now input.now) }
{
    let _ = input;
    let answer = answer_parts(alloc, wanted, all, parts.0, parts.1)?;
    Ok(answer)
}

/// The answer to a text and a journal.
fn answer_parts(
    alloc: Global,
    wanted: &Wanted,
    all: bool,
    text: &[u8],
    journal: &[u8],
) -> Result<Answer, Memory>
    ensures { IfOk result (PartsDue all wanted.now text.now journal.now) }
{
    match read_program(alloc, text) {
        Ok(p) => {
            let answer = answer_journal(alloc, wanted, text, &p, journal)?;
            Ok(answer)
        }
        Err(FrontFail::Refused(refusal)) => {
            let _ = refusal;
            let answer = explain_as(alloc, wanted, all, text)?;
            Ok(answer)
        }
        Err(FrontFail::OutOfMemory(memory)) => Err(memory),
    }
}
