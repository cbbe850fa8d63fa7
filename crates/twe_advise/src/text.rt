//! What is written for people: lines of a head, and tables whose columns are twelve bytes wide; and the usage line.
ghost use Rattle.std.specs.Prelude.{◌≡◌, ◌<◌, ◌++◌, IfOk, OnOk};
ghost use Rattle.std.specs.List.{All, flat_map};
ghost use Rattle.span_profile.specs.Totals.{CanBeSummed};
ghost use Rattle.twe_advise.specs.Texts.{head_text, held_text, hundredths_column, hundredths_text, number_column, speed_up_end, task_rows, tasks_text, time_row, times_text, word_number};
ghost use Rattle.twe_advise.specs.Texts as texts;
ghost use Rattle.twe_advise.specs.Words.{advise_usage_text};

use crate::held_times::held_time;
use crate::paces::{PacedTime, shown_time, speed_up};
use held_span::Hold;
use itoa::Buffer;
use machine_state::TaskRow;
use schedules::least_time;
use span_profile::{TaskTotal, TaskWork, parallelism_of, total_of};
use std::alloc::Global;
use twe_base::{Bytes, Memory};
use twe_program::Decl;

/// The usage line.
pub(crate) fn usage_text(alloc: Global) -> Result<Bytes, Memory>
    ensures { IfOk result (λ text. text ≡ advise_usage_text) }
{
    Bytes::from_slice(alloc, b"usage: twe_advise [--json] [--workers K]\n")
}

/// Appends a number at the right of a column.
pub(crate) fn push_column(text: &mut Bytes, number: u128) -> Result<(), Memory>
    ensures { OnOk result (text.new ≡ text.old ++ number_column number) }
{
    let mut buffer = Buffer::new();
    let digits = buffer.format(number).as_bytes();
    let blanks = b"            ";
    let used = digits.len().min(12);
    text.push_all(&blanks[used..])?;
    text.push_all(digits)
}

/// Appends a word and a number.
pub(crate) fn push_number(text: &mut Bytes, word: &[u8], number: u128) -> Result<(), Memory>
    ensures { OnOk result (text.new ≡ text.old ++ word_number word.now number) }
{
    text.push_all(word)?;
    text.push_all(Buffer::new().format(number).as_bytes())
}

/// Appends hundredths, as `1.33`.
pub(crate) fn push_hundredths(text: &mut Bytes, number: u128) -> Result<(), Memory>
    ensures { OnOk result (text.new ≡ text.old ++ hundredths_text number) }
{
    text.push_all(Buffer::new().format(number / 100).as_bytes())?;
    push_number(text, b".", number / 10 % 10)?;
    text.push_all(Buffer::new().format(number % 10).as_bytes())
}

/// Appends hundredths at the right of a column.
fn push_hundredths_column(text: &mut Bytes, number: u128) -> Result<(), Memory>
    ensures { OnOk result (text.new ≡ text.old ++ hundredths_column number) }
{
    let mut buffer = Buffer::new();
    let digits = buffer.format(number / 100).as_bytes();
    let blanks = b"         ";
    let used = digits.len().min(9);
    text.push_all(&blanks[used..])?;
    push_hundredths(text, number)
}

/// Appends the work, the span and the parallelism.
pub(crate) fn push_head(text: &mut Bytes, work: u64, span: u64) -> Result<(), Memory>
    ensures { OnOk result (text.new ≡ text.old ++ head_text work span) }
{
    push_number(text, b"work ", u128::from(work))?;
    push_number(text, b", span ", u128::from(span))?;
    text.push_all(b", parallelism ")?;
    push_hundredths(text, parallelism_of(work, span))?;
    text.push_all(b"\n")
}

/// Appends the held span, and how much longer than the span the order of admissions makes it.
pub(crate) fn push_held(text: &mut Bytes, span: u64, held: u64) -> Result<(), Memory>
    ensures { OnOk result (text.new ≡ text.old ++ held_text span held) }
{
    push_number(text, b"held span ", u128::from(held))?;
    push_number(
        text,
        b": the order of admissions adds ",
        u128::from(held.saturating_sub(span)),
    )?;
    text.push_all(b"\n")
}

/// Appends a number of 64 bits at the right of a column.
pub(crate) fn push_small_column(text: &mut Bytes, number: u64) -> Result<(), Memory>
    ensures { OnOk result (text.new ≡ text.old ++ number_column number) }
{
    push_column(text, u128::from(number))
}

/// Appends this time, and the speed-up of this work in it, at the end of a row.
fn push_speed_up(text: &mut Bytes, work: u64, time: u128) -> Result<(), Memory>
    ensures { OnOk result (text.new ≡ text.old ++ speed_up_end work time) }
{
    push_column(text, time)?;
    push_hundredths_column(text, speed_up(work, time))?;
    text.push_all(b"\n")
}

/// Appends the row of so many workers.
fn push_time(text: &mut Bytes, work: u64, span: u64, pace: PacedTime) -> Result<(), Memory>
    requires { 0 < pace.workers }
    ensures { OnOk result (text.new ≡ text.old ++ time_row work span pace) }
{
    push_small_column(text, pace.workers)?;
    push_small_column(text, least_time(work, span, pace.workers))?;
    push_column(text, shown_time(work, pace.time))?;
    push_speed_up(text, work, shown_time(work, pace.held))
}

/// Appends a row for each of these numbers of workers.
fn push_times(text: &mut Bytes, work: u64, span: u64, paces: &[PacedTime]) -> Result<(), Memory>
    requires { All (λ pace. 0 < pace.workers) paces.now }
    ensures { OnOk result (text.new ≡ text.old ++ flat_map (time_row work span) paces.now) }
{
    for pace in paces {
        push_time(text, work, span, *pace)?;
    }
    Ok(())
}

/// Appends the row of what the tasks of this name took.
fn push_task(text: &mut Bytes, total: TaskTotal, held: u128, name: &[u8]) -> Result<(), Memory>
    ensures { OnOk result (text.new ≡ text.old ++ texts.task_row total held name.now) }
{
    push_small_column(text, total.made)?;
    push_small_column(text, total.work)?;
    push_small_column(text, total.heaviest)?;
    push_column(text, held)?;
    text.push_all(b"  ")?;
    text.push_all(name)?;
    text.push_all(b"\n")
}

/// Appends a row for each declared task.
fn push_tasks(
    text: &mut Bytes,
    works: &[TaskWork],
    rows: &[TaskRow],
    holds: &[Hold],
    decls: &[Decl],
) -> Result<(), Memory>
    requires { CanBeSummed works.now }
    ensures { OnOk result (text.new ≡ text.old ++ task_rows works.now rows.now holds.now 0 decls.now) }
{
    for (number, decl) in decls.iter().enumerate() {
        let held = held_time(rows, holds, number);
        push_task(text, total_of(works, number), held, decl.name.as_bytes())?;
    }
    Ok(())
}

/// Appends the table of times.
pub(crate) fn push_times_table(
    text: &mut Bytes,
    work: u64,
    span: u64,
    paces: &[PacedTime],
) -> Result<(), Memory>
    requires { All (λ pace. 0 < pace.workers) paces.now }
    ensures { OnOk result (text.new ≡ text.old ++ times_text work span paces.now) }
{
    text.push_all(b"\n     workers  least time  paced time  paced held    speed-up\n")?;
    push_times(text, work, span, paces)
}

/// Appends the table of tasks.
pub(crate) fn push_tasks_table(
    text: &mut Bytes,
    works: &[TaskWork],
    rows: &[TaskRow],
    holds: &[Hold],
    decls: &[Decl],
) -> Result<(), Memory>
    requires { CanBeSummed works.now }
    ensures { OnOk result (text.new ≡ text.old ++ tasks_text works.now rows.now holds.now decls.now) }
{
    text.push_all(b"\n       tasks        work    heaviest        held  name\n")?;
    push_tasks(text, works, rows, holds, decls)
}
