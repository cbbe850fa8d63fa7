//! What is said of a run that is stuck.
ghost use Rattle.std.specs.Prelude.{◌≡◌, ◌++◌, IfOk, OnOk, decimal, take};
ghost use Rattle.std.specs.List.{flat_map};
ghost use Rattle.run_notes.specs.Cycles.{count_remarks, cycle_notes, edge_notes, stuck_explanation, stuck_remarks, undone_count};

use crate::waits::{held_rule, push_held_notes, push_wait_notes};
use explain_pages::{Explanation, Note};
use itoa::Buffer;
use machine_state::State;
use run_facts::TaskMaking;
use std::alloc::Global;
use twe_base::{Bytes, List, Memory};
use twe_program::Prog;
use twe_report::undone;
use wait_graph::Edge;

/// The most tasks of a cycle that are shown.
const MOST_EDGES: usize = 50;

/// Appends that the task of an edge waits for the next one, or is held by it.
fn push_edge_notes(
    notes: &mut List<Note>,
    alloc: Global,
    p: &Prog,
    st: &State,
    makings: &[TaskMaking],
    edge: Edge,
) -> Result<(), Memory>
    ensures { OnOk result (notes.new ≡ notes.old ++ edge_notes p.now st.now makings.now edge) }
{
    if edge.held {
        push_held_notes(notes, alloc, p, st, makings, edge.from, edge.to)
    } else {
        push_wait_notes(notes, alloc, p, st, edge.from, edge.to)
    }
}

/// The first edges, as many as are shown.
fn shown_edges(cycle: &[Edge]) -> &[Edge]
    ensures { result.now ≡ take 50 cycle.now }
{
    if cycle.len() <= MOST_EDGES {
        cycle
    } else {
        &cycle[..MOST_EDGES]
    }
}

/// What is said of the edges.
fn edges_notes(
    alloc: Global,
    p: &Prog,
    st: &State,
    makings: &[TaskMaking],
    edges: &[Edge],
) -> Result<List<Note>, Memory>
    ensures { IfOk result (λ notes. notes ≡ flat_map (edge_notes p.now st.now makings.now) edges.now) }
{
    let mut notes = List::new(alloc);
    for edge in edges {
        push_edge_notes(&mut notes, alloc, p, st, makings, *edge)?;
    }
    Ok(notes)
}

/// What is said of the tasks of a cycle.
fn cycle_notes(
    alloc: Global,
    p: &Prog,
    st: &State,
    makings: &[TaskMaking],
    cycle: &[Edge],
) -> Result<List<Note>, Memory>
    ensures { IfOk result (λ notes. notes ≡ cycle_notes p.now st.now makings.now cycle.now) }
{
    edges_notes(alloc, p, st, makings, shown_edges(cycle))
}

/// Words and a number.
fn counted(alloc: Global, words: &[u8], number: usize) -> Result<Bytes, Memory>
    ensures { IfOk result (λ text. text ≡ words.now ++ decimal number) }
{
    let mut text = Bytes::from_slice(alloc, words)?;
    text.push_all(Buffer::new().format(number).as_bytes())?;
    Ok(text)
}

/// Appends words and a number, unless it is 0.
fn push_count(
    remarks: &mut List<Bytes>,
    alloc: Global,
    words: &[u8],
    number: usize,
) -> Result<(), Memory>
    ensures { OnOk result (remarks.new ≡ remarks.old ++ count_remarks words.now number) }
{
    if number == 0 {
        return Ok(());
    }
    remarks.push(counted(alloc, words, number)?)
}

/// How many tasks are not done.
fn undone_count(st: &State) -> usize
    ensures { result ≡ undone_count st.now }
{
    undone(st.tasks.as_slice())
}

/// What is said beside the places of a cycle.
fn stuck_remarks(alloc: Global, st: &State, length: usize) -> Result<List<Bytes>, Memory>
    ensures { IfOk result (λ remarks. remarks ≡ stuck_remarks st.now length) }
{
    let mut remarks = List::new(alloc);
    remarks.push(Bytes::from_slice(alloc, held_rule())?)?;
    let further = length.saturating_sub(MOST_EDGES);
    push_count(
        &mut remarks,
        alloc,
        b"further tasks of the cycle: ",
        further,
    )?;
    let others = undone_count(st).saturating_sub(length);
    push_count(
        &mut remarks,
        alloc,
        b"other tasks that are not done: ",
        others,
    )?;
    Ok(remarks)
}

/// What is said of a run that is stuck in this cycle.
pub(crate) fn stuck_explanation(
    alloc: Global,
    p: &Prog,
    st: &State,
    makings: &[TaskMaking],
    cycle: &[Edge],
) -> Result<Explanation, Memory>
    ensures { IfOk result (λ e. e ≡ stuck_explanation p.now st.now makings.now cycle.now) }
{
    let headline =
        b"each of these tasks waits for the next, or is held by it, and the last one by the first";
    Ok(Explanation {
        headline: Bytes::from_slice(alloc, headline)?,
        notes: cycle_notes(alloc, p, st, makings, cycle)?,
        remarks: stuck_remarks(alloc, st, cycle.len())?,
    })
}
