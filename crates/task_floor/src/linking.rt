//! The links between tasks, by their rows.
ghost use Rattle.std.specs.Prelude.{◌≡◌, ◌<◌, length, map, slice_set, IfOk, if◌then◌else◌};
ghost use Rattle.std.specs.Option.{ForSome};
ghost use Rattle.wait_graph.specs.Link.{IsOrdered, link_of, new_link, with_done, with_joined};
ghost use Rattle.machine_state.specs.Rows.{row_awaited, is_done_status, link_of_row};
ghost use Rattle.task_floor.specs.steps.inner.Reading.{links_to};

use machine_state::{TaskRow, TaskStatus};
use std::alloc::Global;
use twe_base::Memory;
use twe_machine::awaited;
use wait_graph::Links;

/// The links of the tasks with these rows.
pub(crate) fn links_of(alloc: Global, rows: &[TaskRow]) -> Result<Links, Memory>
    requires { IsOrdered (map link_of_row rows.now) }
    ensures { IfOk result (λ links. links ≡ map link_of_row rows.now) }
{
    let mut links = fresh_links(alloc, rows)?;
    for (t, row) in rows.iter().enumerate() {
        set_link(&mut links, t as u32, row);
    }
    Ok(links)
}

/// A link for each row, with the parent alone.
fn fresh_links(alloc: Global, rows: &[TaskRow]) -> Result<Links, Memory>
    requires { IsOrdered (map link_of_row rows.now) }
    ensures { IfOk result (λ links. links ≡ links_to 0 rows.now) }
{
    let mut links = Links::new(alloc);
    for row in rows {
        links.add(row.parent)?;
    }
    Ok(links)
}

/// Sets the waits and the marks of task `t`, which has this row.
fn set_link(links: &mut Links, t: u32, row: &TaskRow)
    requires there { t < length links.old }
    requires fresh { link_of links.old t ≡ new_link row.now.parent }
    requires on_above { ForSome (row_awaited row.now.frame.next) (λ u. t < u) }
    requires on_there { ForSome (row_awaited row.now.frame.next) (λ u. u < length links.old) }
    ensures { links.new ≡ slice_set links.old t (link_of_row row.now) }
{
    links.set_wait(t, awaited(row.frame.next));
    mark_joined(links, t, row.joined);
    mark_done(links, t, is_done(row.status));
}

/// Whether a task with this status is done.
fn is_done(status: TaskStatus) -> bool
    ensures { result ≡ is_done_status status }
{
    match status {
        TaskStatus::Done => true,
        TaskStatus::Made => false,
        TaskStatus::Enabled => false,
        TaskStatus::Faulted => false,
    }
}

/// Marks a task as joined, if it is.
fn mark_joined(links: &mut Links, t: u32, joined: bool)
    requires { t < length links.old }
    ensures { links.new ≡ (if joined then with_joined links.old t else links.old) }
{
    if joined {
        links.set_joined(t);
    }
}

/// Marks a task as done, if it is.
fn mark_done(links: &mut Links, t: u32, done: bool)
    requires { t < length links.old }
    ensures { links.new ≡ (if done then with_done links.old t else links.old) }
{
    if done {
        links.set_done(t);
    }
}
