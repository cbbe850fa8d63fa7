//! Copies of the links between tasks.
ghost use Rattle.std.specs.Prelude.{◌≡◌, ◌<◌, length, map, slice_set, IfOk};
ghost use Rattle.std.specs.Option.{ForSome};
ghost use Rattle.wait_graph.specs.Link.{link_of, new_link};
ghost use Rattle.state_copies.specs.inner.Links.{new_again};

use std::alloc::Global;
use twe_base::Memory;
use wait_graph::{Link, Links};

/// The same links in their own memory.
pub(crate) fn copy_links(alloc: Global, links: &Links) -> Result<Links, Memory>
    ensures { IfOk result (λ copy. copy ≡ links.now) }
{
    let mut copy = parents_alone(alloc, links)?;
    for t in 0..links.task_count() {
        set_link(&mut copy, t, links.link(t));
    }
    Ok(copy)
}

/// As many links, each with the parent alone.
fn parents_alone(alloc: Global, links: &Links) -> Result<Links, Memory>
    ensures { IfOk result (λ copy. copy ≡ map new_again links.now) }
{
    let mut copy = Links::new(alloc);
    for t in 0..links.task_count() {
        copy.add(links.link(t).parent)?;
    }
    Ok(copy)
}

/// Sets the wait and the marks of task `t`, which has nothing but its parent yet.
fn set_link(links: &mut Links, t: u32, link: Link)
    requires there { t < length links.old }
    requires fresh { link_of links.old t ≡ new_link link.parent }
    requires above { ForSome link.waits (λ on. t < on) }
    requires within { ForSome link.waits (λ on. on < length links.old) }
    ensures { links.new ≡ slice_set links.old t link }
{
    links.set_wait(t, link.waits);
    match (link.joined, link.done) {
        (false, false) => {}
        (true, false) => links.set_joined(t),
        (false, true) => links.set_done(t),
        (true, true) => {
            links.set_joined(t);
            links.set_done(t);
        }
    }
}
