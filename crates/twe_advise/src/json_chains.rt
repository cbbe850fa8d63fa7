//! The heaviest chain as JSON: an object for each of its entries.
ghost use Rattle.std.specs.Prelude.{◌≡◌, ◌++◌, OnOk, codes, slice_get, true};
ghost use Rattle.run_texts.specs.CellTexts.{cell_text};
ghost use Rattle.twe_advise.specs.JsonChains.{json_label, json_label_found, json_next_step, json_path, json_place, json_place_found, json_reason, json_step, json_steps, json_wrote};
ghost use Rattle.twe_advise.specs.Texts.{word_number};

use crate::chains::begin_of;
use crate::json::{push_comma, push_small};
use itoa::Buffer;
use machine_state::TaskRow;
use run_texts::{push_cell_path, push_listed_args, task_name};
use span_profile::{ChainStep, LinkReason};
use twe_base::{Bytes, Memory, Place};
use twe_program::Prog;

/// Appends a word and the number of a task, a line or a column.
fn push_short(text: &mut Bytes, word: &[u8], number: u32) -> Result<(), Memory>
    ensures { OnOk result (text.new ≡ text.old ++ word_number word.now number) }
{
    text.push_all(word)?;
    text.push_all(Buffer::new().format(number).as_bytes())
}

/// Whether the entry before wrote a path.
fn json_wrote(wrote: bool) -> &'static [u8]
    ensures { result.now ≡ json_wrote wrote }
{
    if wrote {
        b"\",\"wrote\":true"
    } else {
        b"\",\"wrote\":false"
    }
}

/// Appends that an entry reads the path of a cell, which the one before wrote.
fn push_json_read(text: &mut Bytes, p: &Prog, cell: u32) -> Result<(), Memory>
    ensures { OnOk result (text.new ≡ text.old ++ json_path (codes "\"reads\"") (cell_text p.now cell) true) }
{
    text.push_all(b"\"reads\"")?;
    text.push_all(b",\"path\":\"")?;
    push_cell_path(text, p, cell)?;
    text.push_all(json_wrote(true))
}

/// Appends that an entry writes `Console`, which the one before accessed.
fn push_json_printed(text: &mut Bytes, wrote: bool) -> Result<(), Memory>
    ensures { OnOk result (text.new ≡ text.old ++ json_path (codes "\"writes\"") (codes "Console") wrote) }
{
    text.push_all(b"\"writes\"")?;
    text.push_all(b",\"path\":\"")?;
    text.push_all(b"Console")?;
    text.push_all(json_wrote(wrote))
}

/// Appends that an entry writes the path of a cell, which the one before accessed.
fn push_json_wrote(text: &mut Bytes, p: &Prog, cell: u32, wrote: bool) -> Result<(), Memory>
    ensures { OnOk result (text.new ≡ text.old ++ json_path (codes "\"writes\"") (cell_text p.now cell) wrote) }
{
    text.push_all(b"\"writes\"")?;
    text.push_all(b",\"path\":\"")?;
    push_cell_path(text, p, cell)?;
    text.push_all(json_wrote(wrote))
}

/// Appends why an entry comes after the one before it.
fn push_json_reason(text: &mut Bytes, p: &Prog, reason: LinkReason) -> Result<(), Memory>
    ensures { OnOk result (text.new ≡ text.old ++ json_reason p.now reason) }
{
    match reason {
        LinkReason::First => text.push_all(b"\"first\""),
        LinkReason::GoesOn => text.push_all(b"\"same task\""),
        LinkReason::Made => text.push_all(b"\"made\""),
        LinkReason::Took => text.push_all(b"\"waited\""),
        LinkReason::Read { cell } => push_json_read(text, p, cell),
        LinkReason::Printed { wrote } => push_json_printed(text, wrote),
        LinkReason::Wrote { cell, wrote } => push_json_wrote(text, p, cell, wrote),
        LinkReason::Unlinked => text.push_all(b"null"),
    }
}

/// Appends a place.
fn push_json_place(text: &mut Bytes, place: Place) -> Result<(), Memory>
    ensures { OnOk result (text.new ≡ text.old ++ json_place place) }
{
    push_short(text, b",\"line\":", place.line)?;
    push_short(text, b",\"column\":", place.col)
}

/// Appends the place of the task declaration of this number, if there is one.
pub(crate) fn push_json_place_of(text: &mut Bytes, p: &Prog, decl: u32) -> Result<(), Memory>
    ensures { OnOk result (text.new ≡ text.old ++ json_place_found (slice_get p.now.tasks decl)) }
{
    match p.tasks.get(decl as usize) {
        None => Ok(()),
        Some(decl) => push_json_place(text, decl.place),
    }
}

/// Appends the name of a task, its arguments and the place of its declaration.
fn push_json_label(text: &mut Bytes, p: &Prog, row: &TaskRow) -> Result<(), Memory>
    ensures { OnOk result (text.new ≡ text.old ++ json_label p.now row.now) }
{
    text.push_all(b",\"name\":\"")?;
    text.push_all(task_name(p, row.decl))?;
    text.push_all(b"\",\"args\":[")?;
    push_listed_args(text, row.args.as_slice())?;
    text.push_all(b"]")?;
    push_json_place_of(text, p, row.decl)
}

/// Appends the same of the task of this number, if there is one.
fn push_json_label_of(
    text: &mut Bytes,
    p: &Prog,
    tasks: &[TaskRow],
    task: u32,
) -> Result<(), Memory>
    ensures { OnOk result (text.new ≡ text.old ++ json_label_found p.now (slice_get tasks.now task)) }
{
    match tasks.get(task as usize) {
        None => Ok(()),
        Some(row) => push_json_label(text, p, row),
    }
}

/// Appends an entry of the chain.
fn push_json_step(
    text: &mut Bytes,
    p: &Prog,
    tasks: &[TaskRow],
    starts: &[u64],
    step: ChainStep,
) -> Result<(), Memory>
    ensures { OnOk result (text.new ≡ text.old ++ json_step p.now tasks.now starts.now step) }
{
    push_small(text, b"{\"entry\":", step.entry)?;
    push_small(text, b",\"begins\":", begin_of(starts, step.entry))?;
    push_short(text, b",\"task\":", step.task)?;
    push_json_label_of(text, p, tasks, step.task)?;
    text.push_all(b",\"why\":")?;
    push_json_reason(text, p, step.reason)?;
    text.push_all(b"}")
}

/// Appends the entry with this number in the chain, after a comma unless it is the first.
fn push_next_step(
    text: &mut Bytes,
    p: &Prog,
    tasks: &[TaskRow],
    starts: &[u64],
    number: usize,
    step: ChainStep,
) -> Result<(), Memory>
    ensures { OnOk result (text.new ≡ text.old ++ json_next_step p.now tasks.now starts.now number step) }
{
    push_comma(text, number)?;
    push_json_step(text, p, tasks, starts, step)
}

/// Appends the entries of the chain.
pub(crate) fn push_json_steps(
    text: &mut Bytes,
    p: &Prog,
    tasks: &[TaskRow],
    starts: &[u64],
    steps: &[ChainStep],
) -> Result<(), Memory>
    ensures { OnOk result (text.new ≡ text.old ++ json_steps p.now tasks.now starts.now 0 steps.now) }
{
    for (number, step) in steps.iter().enumerate() {
        push_next_step(text, p, tasks, starts, number, *step)?;
    }
    Ok(())
}
