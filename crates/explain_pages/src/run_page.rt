//! What is written of a run.
ghost use Rattle.std.specs.Prelude.{◌≡◌, ◌++◌, IfOk, OnOk};
ghost use Rattle.explain_pages.specs.RunPage.{first_spot, first_spot_line, run_line, run_lines, run_page, run_text, without_end};

use crate::page::{push_excerpts, push_remark_lines, push_remarks, push_spot, push_spot_lines};
use crate::places::{Explanation, Note};
use crate::wanted::Wanted;
use std::alloc::Global;
use twe_base::{Bytes, Memory, Place};

/// A line without its end.
fn without_end(line: Bytes) -> Bytes
    ensures { result ≡ without_end line }
{
    let mut text = line;
    let size = text.len();
    text.truncate(size.saturating_sub(1));
    text
}

/// The line that `twe replay` writes, and what it comes from.
fn run_line(answer: Bytes, headline: &[u8]) -> Result<Bytes, Memory>
    ensures { IfOk result (λ text. text ≡ run_line answer headline.now) }
{
    let mut text = without_end(answer);
    text.push_all(b": ")?;
    text.push_all(headline)?;
    text.push(b'\n')?;
    Ok(text)
}

/// The place of the first note, or the beginning of the text if there is none.
fn first_spot(notes: &[Note]) -> Place
    ensures { result ≡ first_spot notes.now }
{
    match notes {
        [] => Place { line: 1, col: 1 },
        [note, ..] => note.place,
    }
}

/// Appends the place of the first note as a line, if there is one.
fn push_first_spot(text: &mut Bytes, name: &[u8], notes: &[Note]) -> Result<(), Memory>
    ensures { OnOk result (text.new ≡ text.old ++ first_spot_line name.now notes.now) }
{
    match notes {
        [] => Ok(()),
        [note, ..] => {
            push_spot(text, name, note.place)?;
            text.push(b'\n')
        }
    }
}

/// What is written of a run for editors.
fn run_lines(name: &[u8], answer: Bytes, e: &Explanation) -> Result<Bytes, Memory>
    ensures { IfOk result (λ text. text ≡ run_lines name.now answer e.now) }
{
    let notes = e.notes.as_slice();
    let mut text = run_line(answer, e.headline.as_slice())?;
    push_spot_lines(&mut text, name, notes)?;
    push_remark_lines(&mut text, name, first_spot(notes), e.remarks.as_slice())?;
    Ok(text)
}

/// What is written of a run for people.
fn run_page(
    alloc: Global,
    name: &[u8],
    program: &[u8],
    answer: Bytes,
    e: &Explanation,
) -> Result<Bytes, Memory>
    ensures { IfOk result (λ text. text ≡ run_page name.now program.now answer e.now) }
{
    let notes = e.notes.as_slice();
    let mut text = run_line(answer, e.headline.as_slice())?;
    push_first_spot(&mut text, name, notes)?;
    push_excerpts(&mut text, alloc, program, notes)?;
    push_remarks(&mut text, e.remarks.as_slice())?;
    Ok(text)
}

/// What is written of a run of this text, whose line of `twe replay` is the answer.
pub fn text_of_run(
    alloc: Global,
    wanted: &Wanted,
    program: &[u8],
    answer: Bytes,
    e: &Explanation,
) -> Result<Bytes, Memory>
    ensures { IfOk result (λ text. text ≡ run_text wanted.now program.now answer e.now) }
{
    let name = wanted.name.as_slice();
    if wanted.lines {
        run_lines(name, answer, e)
    } else {
        run_page(alloc, name, program, answer, e)
    }
}
