//! A run as Chrome's trace events.
ghost use Rattle.std.specs.Prelude.{◌≡◌, ◌++◌, IfOk, Some, map, slice_get, string_bytes};
ghost use Rattle.serde_json.specs.Read.{read};
ghost use Rattle.serde_json.specs.View.{view};
ghost use Rattle.serde_json.specs.Written.{compact_text};
ghost use Rattle.twe_draw.specs.Trace.{bar_event, end_name, entry_args, IsTrace, row_event, row_name, row_name_found, trace_data};

use crate::bars::class_of;
use crate::picture::{EntryBar, Picture};
use machine_state::TaskRow;
use seg_journal::End;
use serde_json::{Value, json};
use std::alloc::{AllocError, Global};
use twe_base::{Bytes, Memory};
use twe_program::Prog;

/// The name of the declaration of a row.
fn row_name<'a>(p: &'a Prog, row: &TaskRow) -> &'a str
    ensures { result.now ≡ row_name p.now row.now }
{
    match p.tasks.get(row.decl as usize) {
        None => "",
        Some(decl) => decl.name.as_str(),
    }
}

/// The name of the declaration of the task of this number.
fn name_of<'a>(p: &'a Prog, tasks: &[TaskRow], task: u32) -> &'a str
    ensures { result.now ≡ row_name_found p.now (slice_get tasks.now task) }
{
    match tasks.get(task as usize) {
        None => "",
        Some(row) => row_name(p, row),
    }
}

/// How an entry ended, in a word.
fn end_name<'a>(end: End) -> &'a str
    ensures { result.now ≡ end_name end }
{
    match end {
        End::Admitted => "admitted",
        End::Made { .. } => "made",
        End::Waits { .. } => "waits",
        End::Joins { .. } => "joins",
        End::Done { .. } => "done",
        End::Fault { .. } => "fault",
    }
}

/// The event that names a row.
fn row_event(alloc: Global, p: &Prog, row: &TaskRow) -> Result<Value, AllocError>
    ensures { IfOk result (λ event. view event ≡ row_event p.now row.now) }
{
    let name = row_name(p, row);
    json!(in alloc; {"args": {"name": name}, "name": "thread_name", "ph": "M", "pid": 0u32, "tid": row.frame.task})
}

/// What is told of an entry.
fn entry_args(alloc: Global, bar: &EntryBar) -> Result<Value, AllocError>
    ensures { IfOk result (λ args. view args ≡ entry_args bar.now) }
{
    let end = end_name(bar.end);
    json!(in alloc; {"end": end, "entry": bar.number})
}

/// The event of an entry.
fn bar_event(
    alloc: Global,
    p: &Prog,
    tasks: &[TaskRow],
    bar: &EntryBar,
) -> Result<Value, AllocError>
    ensures { IfOk result (λ event. view event ≡ bar_event p.now tasks.now bar.now) }
{
    let args = entry_args(alloc, bar)?;
    let class = class_of(p, tasks, bar);
    let name = name_of(p, tasks, bar.task);
    let length = bar.ends.saturating_sub(bar.begins);
    json!(in alloc; {
        "args": args,
        "cat": class,
        "dur": length,
        "name": name,
        "ph": "X",
        "pid": 0u32,
        "tid": bar.task,
        "ts": bar.begins
    })
}

/// The events of a run.
fn trace_events(
    alloc: Global,
    p: &Prog,
    tasks: &[TaskRow],
    bars: &[EntryBar],
) -> Result<Vec<Value>, AllocError>
    ensures { IfOk result (λ events. map view events.items
        ≡ map (row_event p.now) tasks.now ++ map (bar_event p.now tasks.now) bars.now) }
{
    let mut events = Vec::new(alloc);
    for row in tasks {
        events.push(row_event(alloc, p, row)?)?;
    }
    for bar in bars {
        events.push(bar_event(alloc, p, tasks, bar)?)?;
    }
    Ok(events)
}

/// The events of a run as JSON.
fn trace_json(
    alloc: Global,
    p: &Prog,
    tasks: &[TaskRow],
    bars: &[EntryBar],
) -> Result<String, AllocError>
    ensures text { IfOk result (λ json. string_bytes json ≡ compact_text (trace_data p.now bars.now tasks.now)) }
    ensures read { IfOk result (λ json. read (string_bytes json) ≡ Some (trace_data p.now bars.now tasks.now)) }
{
    let events = trace_events(alloc, p, tasks, bars)?;
    Value::from(events).to_string(alloc)
}

/// The events of a run as JSON, with the end of a line.
pub(crate) fn trace_text(alloc: Global, p: &Prog, picture: &Picture) -> Result<Bytes, Memory>
    ensures { IfOk result (IsTrace p.now picture.now.bars picture.now.tasks) }
{
    let json = trace_json(alloc, p, picture.tasks.as_slice(), picture.bars.as_slice())?;
    let mut text = Bytes::from_slice(alloc, json.as_bytes())?;
    text.push(b'\n')?;
    Ok(text)
}
