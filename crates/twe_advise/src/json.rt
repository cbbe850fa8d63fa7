//! What is written as JSON: one object, on one line.
ghost use Rattle.std.specs.Prelude.{◌≡◌, ◌<◌, ◌++◌, OnOk};
ghost use Rattle.std.specs.List.{All, flat_map};
ghost use Rattle.span_profile.specs.Totals.{CanBeSummed};
ghost use Rattle.twe_advise.specs.Json.{comma_before, json_head, json_held, json_next_time, json_paces, json_speed_up, json_tasks, json_time, json_times};
ghost use Rattle.twe_advise.specs.Json as json;
ghost use Rattle.twe_advise.specs.Texts.{word_number};

use crate::held_times::held_time;
use crate::paces::{PacedTime, shown_time, speed_up};
use crate::text::{push_hundredths, push_number};
use held_span::Hold;
use machine_state::TaskRow;
use schedules::least_time;
use span_profile::{TaskTotal, TaskWork, parallelism_of, total_of};
use twe_base::{Bytes, Memory};
use twe_program::Decl;

/// Appends a word and a number.
pub(crate) fn push_small(text: &mut Bytes, word: &[u8], number: u64) -> Result<(), Memory>
    ensures { OnOk result (text.new ≡ text.old ++ word_number word.now number) }
{
    push_number(text, word, u128::from(number))
}

/// Appends the work, the span and the parallelism.
pub(crate) fn push_json_head(text: &mut Bytes, work: u64, span: u64) -> Result<(), Memory>
    ensures { OnOk result (text.new ≡ text.old ++ json_head work span) }
{
    push_small(text, b"{\"work\":", work)?;
    push_small(text, b",\"span\":", span)?;
    text.push_all(b",\"parallelism\":")?;
    push_hundredths(text, parallelism_of(work, span))
}

/// Appends the held span, and how much longer it is than the span.
pub(crate) fn push_json_held(text: &mut Bytes, span: u64, held: u64) -> Result<(), Memory>
    ensures { OnOk result (text.new ≡ text.old ++ json_held span held) }
{
    push_small(text, b",\"held_span\":", held)?;
    push_small(text, b",\"held_longer_by\":", held.saturating_sub(span))
}

/// Appends the time with admissions, and the speed-up of this work in it, at the end of an object.
fn push_json_speed_up(text: &mut Bytes, work: u64, time: u128) -> Result<(), Memory>
    ensures { OnOk result (text.new ≡ text.old ++ json_speed_up work time) }
{
    push_number(text, b",\"paced_held\":", time)?;
    text.push_all(b",\"speed_up\":")?;
    push_hundredths(text, speed_up(work, time))?;
    text.push_all(b"}")
}

/// Appends the times with so many workers.
fn push_json_time(text: &mut Bytes, work: u64, span: u64, pace: PacedTime) -> Result<(), Memory>
    requires { 0 < pace.workers }
    ensures { OnOk result (text.new ≡ text.old ++ json_time work span pace) }
{
    push_small(text, b"{\"workers\":", pace.workers)?;
    push_small(text, b",\"least\":", least_time(work, span, pace.workers))?;
    push_number(text, b",\"paced\":", shown_time(work, pace.time))?;
    push_json_speed_up(text, work, shown_time(work, pace.held))
}

/// Appends a comma, and the times with so many workers.
fn push_next_time(text: &mut Bytes, work: u64, span: u64, pace: PacedTime) -> Result<(), Memory>
    requires { 0 < pace.workers }
    ensures { OnOk result (text.new ≡ text.old ++ json_next_time work span pace) }
{
    text.push_all(b",")?;
    push_json_time(text, work, span, pace)
}

/// Appends the times for each of these numbers of workers, each after a comma.
fn push_next_times(
    text: &mut Bytes,
    work: u64,
    span: u64,
    paces: &[PacedTime],
) -> Result<(), Memory>
    requires { All (λ pace. 0 < pace.workers) paces.now }
    ensures { OnOk result (text.new ≡ text.old ++ flat_map (json_next_time work span) paces.now) }
{
    for pace in paces {
        push_next_time(text, work, span, *pace)?;
    }
    Ok(())
}

/// Appends the times for each of these numbers of workers, with commas between them.
fn push_paces(text: &mut Bytes, work: u64, span: u64, paces: &[PacedTime]) -> Result<(), Memory>
    requires { All (λ pace. 0 < pace.workers) paces.now }
    ensures { OnOk result (text.new ≡ text.old ++ json_paces work span paces.now) }
{
    match paces {
        [] => Ok(()),
        [pace, others @ ..] => {
            push_json_time(text, work, span, *pace)?;
            push_next_times(text, work, span, others)
        }
    }
}

/// Appends the times.
pub(crate) fn push_json_times(
    text: &mut Bytes,
    work: u64,
    span: u64,
    paces: &[PacedTime],
) -> Result<(), Memory>
    requires { All (λ pace. 0 < pace.workers) paces.now }
    ensures { OnOk result (text.new ≡ text.old ++ json_times work span paces.now) }
{
    text.push_all(b",\"times\":[")?;
    push_paces(text, work, span, paces)
}

/// Appends a comma, unless this is the first one.
pub(crate) fn push_comma(text: &mut Bytes, number: usize) -> Result<(), Memory>
    ensures { OnOk result (text.new ≡ text.old ++ comma_before number) }
{
    if number == 0 {
        return Ok(());
    }
    text.push_all(b",")
}

/// Appends what the tasks of this name took.
fn push_json_task(text: &mut Bytes, total: TaskTotal, held: u128, name: &[u8]) -> Result<(), Memory>
    ensures { OnOk result (text.new ≡ text.old ++ json.json_task total held name.now) }
{
    text.push_all(b"{\"name\":\"")?;
    text.push_all(name)?;
    push_small(text, b"\",\"made\":", total.made)?;
    push_small(text, b",\"work\":", total.work)?;
    push_small(text, b",\"heaviest\":", total.heaviest)?;
    push_number(text, b",\"held\":", held)?;
    text.push_all(b"}")
}

/// Appends what the tasks of each declaration took.
pub(crate) fn push_json_tasks(
    text: &mut Bytes,
    works: &[TaskWork],
    rows: &[TaskRow],
    holds: &[Hold],
    decls: &[Decl],
) -> Result<(), Memory>
    requires { CanBeSummed works.now }
    ensures { OnOk result (text.new ≡ text.old ++ json_tasks works.now rows.now holds.now 0 decls.now) }
{
    for (number, decl) in decls.iter().enumerate() {
        let held = held_time(rows, holds, number);
        push_comma(text, number)?;
        push_json_task(text, total_of(works, number), held, decl.name.as_bytes())?;
    }
    Ok(())
}
