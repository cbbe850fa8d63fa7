//! Walks along waits and along spawn parents, over the links of all tasks as a slice.
//! Each walk ends because a wait leads to a higher number and a parent has a lower one.
ghost use Rattle.std.specs.Prelude.{◌≡◌, ℕ, ◌<◌, ◌↔◌, length, IfSome, IfNone, IsTrue};
ghost use Rattle.wait_graph.specs.Link.{IsOrdered};
ghost use Rattle.wait_graph.specs.Waiting.{awaited, WaitsFor, WaitsForNobody, WaitsOn, SpawnedBy, DescendsFrom, YieldsTo};

use crate::tasks::Link;

/// The task that `t` waits for: the task that its next operation awaits, if that task isn't done.
pub(crate) fn awaited(links: &[Link], t: u32) -> Option<u32>
    requires there { t < length links.now }
    requires ordered { IsOrdered links.now }
    ensures value { result ≡ awaited links.now t }
    ensures waits { IfSome result (λ u. WaitsFor links.now t u) }
    ensures none { IfNone result (WaitsForNobody links.now t) }
    ensures above { IfSome result (λ u. (t < u) × (u < length links.now)) }
{
    let on = links[t as usize].waits?;
    if links[on as usize].done {
        None
    } else {
        Some(on)
    }
}

/// The last task of the chain of waits from `t`.
pub(crate) fn end_of_waits(links: &[Link], t: u32) -> u32
    requires there { t < length links.now }
    requires ordered { IsOrdered links.now }
    ensures chain { WaitsOn links.now t result }
    ensures last { WaitsForNobody links.now result }
    ensures within { result < length links.now }
{
    let mut end = t;
    while let Some(next) = awaited(links, end) {
        end = next;
    }
    end
}

/// The task that spawned `t`, if `t` isn't joined.
fn unjoined_parent(links: &[Link], t: u32) -> Option<u32>
    requires there { t < length links.now }
    requires ordered { IsOrdered links.now }
    ensures spawned { IfSome result (λ p. SpawnedBy links.now t p) }
    ensures none { IfNone result ((p : ℕ) → ¬ SpawnedBy links.now t p) }
    ensures below { IfSome result (λ p. p < t) }
{
    let link = &links[t as usize];
    if link.joined { None } else { link.parent }
}

/// Whether `u` is `t` or a spawn ancestor of `t` over unjoined children. The walk to the ancestors ends when their
/// numbers come down to `u`. It takes one turn for each ancestor of `t` above `u`, and none if `u` is above `t`.
fn descends_from(links: &[Link], t: u32, u: u32) -> bool
    requires there { t < length links.now }
    requires ordered { IsOrdered links.now }
    ensures { IsTrue result ↔ DescendsFrom links.now t u }
{
    let mut at = t;
    while u < at {
        let Some(parent) = unjoined_parent(links, at) else {
            return false;
        };
        at = parent;
    }
    at == u
}

/// Whether `s` yields to `t`. For each task of the chain of waits from `s`, it walks to those ancestors of `t` that
/// are above that task.
pub(crate) fn yields(links: &[Link], s: u32, t: u32) -> bool
    requires waiter { s < length links.now }
    requires passing { t < length links.now }
    requires ordered { IsOrdered links.now }
    ensures { IsTrue result ↔ YieldsTo links.now s t }
{
    let mut at = s;
    while !descends_from(links, t, at) {
        let Some(next) = awaited(links, at) else {
            return false;
        };
        at = next;
    }
    true
}
