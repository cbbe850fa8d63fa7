//! The line of a run that is stuck.
ghost use Rattle.std.specs.Prelude.{◌≡◌, ◌++◌, IfOk, OnOk};
ghost use Rattle.twe_report.specs.Texts.{edge_text, edge_word, edges_text, more_edges};
ghost use Rattle.twe_report.specs.Texts as texts;

use itoa::Buffer;
use std::alloc::Global;
use twe_base::{Bytes, Memory};
use wait_graph::{Cycle, Edge};

/// The line of a stuck run, with the cycle of tasks that hold one another up, as
/// `stuck: 1 waits 3, 3 held by 1`.
pub fn stuck_text(alloc: Global, cycle: &Cycle) -> Result<Bytes, Memory>
    ensures { IfOk result (λ text. text ≡ texts.stuck_text cycle.now) }
{
    let mut text = Bytes::from_slice(alloc, b"stuck: ")?;
    push_edges(&mut text, cycle.as_slice())?;
    text.push(b'\n')?;
    Ok(text)
}

/// Appends edges, with `, ` between them.
fn push_edges(text: &mut Bytes, edges: &[Edge]) -> Result<(), Memory>
    ensures { OnOk result (text.new ≡ text.old ++ edges_text edges.now) }
{
    match edges {
        [] => Ok(()),
        [edge, others @ ..] => {
            push_edge(text, *edge)?;
            push_more_edges(text, others)
        }
    }
}

/// Appends edges, each after `, `.
fn push_more_edges(text: &mut Bytes, edges: &[Edge]) -> Result<(), Memory>
    ensures { OnOk result (text.new ≡ text.old ++ more_edges edges.now) }
{
    for edge in edges {
        text.push_all(b", ")?;
        push_edge(text, *edge)?;
    }
    Ok(())
}

/// Appends an edge, as `1 waits 3` or `3 held by 1`.
fn push_edge(text: &mut Bytes, edge: Edge) -> Result<(), Memory>
    ensures { OnOk result (text.new ≡ text.old ++ edge_text edge) }
{
    text.push_all(Buffer::new().format(edge.from).as_bytes())?;
    text.push_all(word_of(edge.held))?;
    text.push_all(Buffer::new().format(edge.to).as_bytes())
}

/// The words between the two tasks of an edge.
fn word_of(held: bool) -> &'static [u8]
    ensures { result.now ≡ edge_word held }
{
    if held { b" held by " } else { b" waits " }
}
