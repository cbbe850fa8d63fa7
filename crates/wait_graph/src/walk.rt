//! The walk along waits and holders, and the cycle that it ends in.
ghost use Rattle.std.specs.Prelude.{◌≡◌, ℕ, ◌<◌, ◌≤◌, ◌++◌, not, length, map, vec_len, IfOk, OnOk};
ghost use Rattle.std.specs.List.{All, position};
ghost use Rattle.wait_graph.specs.Link.{IsOrdered};
ghost use Rattle.wait_graph.specs.Walk.{walk, lowest_place, walk_turned};
ghost use Rattle.wait_graph.specs.inner.Again.{ComesAgain};
ghost use Rattle.wait_graph.specs.StuckCycle.{IsCycle, IsUndone, AllAreHeldUp, edge_from, next_of, lowest_undone, stuck_cycle};

use crate::chains;
use crate::stuck::Edge;
use crate::tasks::Link;
use std::alloc::Global;
use twe_base::Memory;

/// The edge by which the walk leaves `t`: to the task that it waits for, or to its holder if it waits for nobody.
fn edge_from(links: &[Link], held: &[Option<u32>], t: u32) -> Edge
    requires ordered { IsOrdered links.now }
    requires holders { length held.now ≡ length links.now }
    requires held_up { AllAreHeldUp links.now held.now }
    requires undone { IsUndone links.now t }
    ensures value { result ≡ edge_from links.now held.now t }
    ensures undone { IsUndone links.now result.to }
{
    match chains::awaited(links, t) {
        Some(to) => Edge {
            from: t,
            held: false,
            to,
        },
        None => Edge {
            from: t,
            held: true,
            to: held[t as usize].unwrap_or(t),
        },
    }
}

/// The place of the first task that isn't done.
fn first_undone(links: &[Link]) -> Option<usize>
    ensures { result ≡ position (λ link. not link.done) links.now }
{
    links.iter().position(|link| !link.done)
}

/// The lowest task that isn't done.
fn lowest_undone(links: &[Link]) -> u32
    requires ordered { IsOrdered links.now }
    requires some { (t : ℕ) × IsUndone links.now t }
    ensures value { result ≡ lowest_undone links.now }
    ensures undone { IsUndone links.now result }
{
    first_undone(links).unwrap_or(0) as u32
}

/// The tasks that a walk meets before it comes to one of them again.
#[derive(Drop)]
struct Walk {
    /// Each task once, in the order in which the walk met them.
    tasks: Vec<u32>,
    /// The place of the task that the walk comes to again.
    again: usize,
}

/// The walk from `start`, up to the first task that it comes to again.
fn walk_from(
    alloc: Global,
    links: &[Link],
    held: &[Option<u32>],
    start: u32,
) -> Result<Walk, Memory>
    requires ordered { IsOrdered links.now }
    requires holders { length held.now ≡ length links.now }
    requires held_up { AllAreHeldUp links.now held.now }
    requires undone { IsUndone links.now start }
    ensures tasks { IfOk result (λ found. found.tasks.items ≡ walk (next_of links.now held.now) (vec_len found.tasks) start) }
    ensures again { IfOk result (λ found. ComesAgain (next_of links.now held.now) found.again (vec_len found.tasks) start) }
    ensures within { IfOk result (λ found. vec_len found.tasks ≤ length links.now) }
{
    let mut places: Vec<Option<u32>> = vec![in alloc; None; links.len()]?;
    let mut tasks = Vec::new(alloc);
    let mut at = start;
    loop {
        if let Some(again) = places[at as usize] {
            return Ok(Walk {
                tasks,
                again: again as usize,
            });
        }
        places[at as usize] = Some(tasks.len() as u32);
        tasks.push(at)?;
        at = edge_from(links, held, at).to;
    }
}

/// The place of the lowest task.
fn lowest_place(tasks: &[u32]) -> usize
    requires { 0 < length tasks.now }
    ensures value { result ≡ lowest_place tasks.now }
    ensures within { result < length tasks.now }
{
    let mut lowest = 0;
    for i in 1..tasks.len() {
        if tasks[i] < tasks[lowest] {
            lowest = i;
        }
    }
    lowest
}

/// Appends the edges by which the walk leaves these tasks.
fn push_edges(
    links: &[Link],
    held: &[Option<u32>],
    tasks: &[u32],
    edges: &mut Vec<Edge>,
) -> Result<(), Memory>
    requires ordered { IsOrdered links.now }
    requires holders { length held.now ≡ length links.now }
    requires held_up { AllAreHeldUp links.now held.now }
    requires undone { All (IsUndone links.now) tasks.now }
    ensures { OnOk result (edges.new.items ≡ edges.old.items ++ map (edge_from links.now held.now) tasks.now) }
{
    for t in tasks {
        edges.push(edge_from(links, held, *t))?;
    }
    Ok(())
}

/// The edges by which the walk leaves the tasks of a round, from the lowest of them on.
fn turned_edges(
    alloc: Global,
    links: &[Link],
    held: &[Option<u32>],
    round: &[u32],
) -> Result<Vec<Edge>, Memory>
    requires ordered { IsOrdered links.now }
    requires holders { length held.now ≡ length links.now }
    requires held_up { AllAreHeldUp links.now held.now }
    requires undone { All (IsUndone links.now) round.now }
    requires some { 0 < length round.now }
    ensures { IfOk result (λ edges. edges.items ≡ map (edge_from links.now held.now) (walk_turned round.now)) }
{
    let (before, rest) = round.split_at(lowest_place(round));
    let mut edges = Vec::with_capacity(alloc, round.len())?;
    push_edges(links, held, rest, &mut edges)?;
    push_edges(links, held, before, &mut edges)?;
    Ok(edges)
}

/// The cycle that the walk from the lowest task that isn't done ends in, from the lowest of its tasks on.
pub(crate) fn find_cycle(
    alloc: Global,
    links: &[Link],
    held: &[Option<u32>],
) -> Result<Vec<Edge>, Memory>
    requires ordered { IsOrdered links.now }
    requires holders { length held.now ≡ length links.now }
    requires some { (t : ℕ) × IsUndone links.now t }
    requires held_up { AllAreHeldUp links.now held.now }
    ensures exact { IfOk result (λ edges. edges.items ≡ stuck_cycle links.now held.now) }
    ensures cycle { IfOk result (λ edges. IsCycle links.now held.now edges.items) }
{
    let walk = walk_from(alloc, links, held, lowest_undone(links))?;
    turned_edges(alloc, links, held, &walk.tasks[walk.again..])
}
