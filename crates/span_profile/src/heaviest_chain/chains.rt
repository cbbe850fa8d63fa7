//! Chains as their nodes come, and the heaviest of them.
ghost use Rattle.std.specs.Prelude.{◌≡◌, ◌<◌, ◌+◌, ◌++◌, ◌∷◌, [], ◌^◌, Some, IfOk, OnOk, length, map, reverse};
ghost use Rattle.schedules.specs.Timetables.{AreEarliest};
ghost use Rattle.span_profile.specs.heaviest_chain.Chains.{IsHeaviest, Leads, weight_at};
ghost use Rattle.span_profile.specs.heaviest_chain.LastBefore.{AreLastBefore};
ghost use Rattle.span_profile.specs.heaviest_chain.Nodes.{Nodes, SharesKey, weight_of};
ghost use Rattle.span_profile.specs.heaviest_chain.Built.{HasRoom, FrontHolds, IsBuilt};
ghost use Rattle.span_profile.specs.heaviest_chain.inner.Tops.{IsHighest, PreviousAreLower, best_after, start_after, weight_before};
ghost use Rattle.span_profile.specs.heaviest_chain.inner.Following.{Follows};

use crate::heaviest_chain::fronts::Fronts;
use crate::heaviest_chain::key::Key;
use crate::heaviest_chain::top::{Best, Top, higher};
use std::alloc::Global;
use std::marker::Model;
use twe_base::{List, Memory, Stack};

/// The nodes so far, as far as chains that end at them or at later ones depend on them.
#[derive(Debug, Drop)]
pub struct Chains {
    /// The weights of all nodes together.
    work: u64,
    /// For each node the heaviest chain that ends there.
    bests: List<Best>,
    /// For each key the highest of the nodes that gave it.
    fronts: Fronts,
}

/// Callers see the best chains of the nodes so far, and not the tables that keep them.
impl Model for Chains {
    ghost use Rattle.span_profile.specs.heaviest_chain.BestChains.{BestChains};
    ghost use Rattle.span_profile.specs.heaviest_chain.inner.Fronts.{givers_in};

    ghost Value = { BestChains };

    ghost view = { λ c. record { work = c.work; bests = c.bests; givers = givers_in c.fronts } };
}

/// The heaviest chain.
#[derive(Debug, Drop)]
pub struct Heaviest {
    /// The weights of all nodes together.
    pub work: u64,
    /// The weight of the heaviest chain, which is 0 if there is no node.
    pub span: u64,
    /// The numbers of its nodes, counted from 0. Of the heaviest chains it is the one whose last node is the lowest, then
    /// whose last but one is the lowest, and so on.
    pub chain: List<u64>,
    /// For each node the earliest time at which it can start, with any number of processors, if it takes as long as it weighs.
    pub starts: List<u64>,
    /// For each node the time at which it has ended then.
    pub ends: List<u64>,
    /// For each node the first that leads to it and ends as it starts, and none if it starts at 0.
    pub before: List<Option<u64>>,
}

/// The heaviest chain that ends at a node of this weight, if this is the highest node that leads to it.
fn best_after(before: Option<Top>, weight: u64) -> Best
    requires { weight_before before + weight < 2 ^ 64 }
    ensures { result ≡ best_after before weight }
{
    match before {
        None => Best {
            weight,
            previous: None,
        },
        Some(top) => Best {
            weight: top.weight + weight,
            previous: Some(top.node),
        },
    }
}

/// The highest of all nodes.
fn highest(bests: &[Best]) -> Option<Top>
    ensures { IsHighest bests.now result }
{
    let mut top = None;
    for (node, best) in bests.iter().enumerate() {
        let next = Top {
            weight: best.weight,
            node: node as u64,
        };
        top = higher(top, Some(next));
    }
    top
}

/// The weight of the heaviest chain up to a node before another one, and 0 if there is none before it.
fn start_after(bests: &[Best], previous: Option<u64>) -> u64
    ensures { result ≡ start_after bests.now previous }
{
    match previous {
        None => 0,
        Some(node) => match bests.get(node as usize) {
            None => 0,
            Some(best) => best.weight,
        },
    }
}

/// The earliest starts of nodes.
fn starts_of(alloc: Global, bests: &[Best]) -> Result<List<u64>, Memory>
    ensures { IfOk result (λ starts. starts ≡ map (λ best. start_after bests.now best.previous) bests.now) }
{
    let mut starts = List::new(alloc);
    for best in bests {
        starts.push(start_after(bests, best.previous))?;
    }
    Ok(starts)
}

/// The earliest ends of nodes.
fn ends_of(alloc: Global, bests: &[Best]) -> Result<List<u64>, Memory>
    ensures { IfOk result (λ ends. ends ≡ map (λ best. best.weight) bests.now) }
{
    let mut ends = List::new(alloc);
    for best in bests {
        ends.push(best.weight)?;
    }
    Ok(ends)
}

/// The last nodes but one of the heaviest chains that end at nodes.
fn before_of(alloc: Global, bests: &[Best]) -> Result<List<Option<u64>>, Memory>
    ensures { IfOk result (λ before. before ≡ map (λ best. best.previous) bests.now) }
{
    let mut before = List::new(alloc);
    for best in bests {
        before.push(best.previous)?;
    }
    Ok(before)
}

/// The nodes of the heaviest chain that ends at this node.
fn chain_to(alloc: Global, bests: &List<Best>, last: u64) -> Result<List<u64>, Memory>
    requires there { last < length bests.now }
    requires lower { PreviousAreLower bests.now }
    ensures { IfOk result (λ chain. Follows bests.now (Some last) (reverse chain)) }
{
    let mut chain = Stack::new(alloc);
    let mut at = Some(last);
    'following: while let Some(node) = at {
        chain.push(node)?;
        at = bests.as_slice()[node as usize].previous;
    }
    Ok(chain.into_list())
}

impl Chains {
    /// No node.
    pub fn new(alloc: Global) -> Self
        ensures { FrontHolds [] result }
    {
        Chains {
            work: 0,
            bests: List::new(alloc),
            fronts: Fronts::new(alloc),
        }
    }

    /// Adds a node with this weight, which is not 0, after the others. After `Memory` nothing is known of the chains, which can
    /// only be dropped.
    pub fn add(&mut self, weight: u64, asks: &[Key], gives: &[Key]) -> Result<(), Memory>
        requires some { 0 < weight }
        requires room { HasRoom self.old weight }
        ensures { (nodes : Nodes) → FrontHolds nodes self.old
            → OnOk result (FrontHolds (nodes ++ record { weight = weight; asks = asks.now; gives = gives.now } ∷ []) self.new) }
    {
        let node = self.bests.len() as u64;
        let best = best_after(self.fronts.highest(asks), weight);
        let top = Top {
            weight: best.weight,
            node,
        };
        self.bests.push(best)?;
        self.fronts.give_all(gives, top)?;
        self.work += weight;
        Ok(())
    }

    /// The heaviest chain of these nodes, their earliest times, and the first of those for which each waits the longest.
    pub fn heaviest(self, alloc: Global) -> Result<Heaviest, Memory>
        requires { IsBuilt self }
        ensures heaviest { (nodes : Nodes) → FrontHolds nodes self
            → IfOk result (λ h. IsHeaviest SharesKey weight_of nodes h.work h.span h.chain) }
        ensures earliest { (nodes : Nodes) → FrontHolds nodes self
            → IfOk result (λ h.
            AreEarliest (Leads SharesKey nodes) (weight_at weight_of nodes) (length nodes) h.span h.starts h.ends) }
        ensures last { (nodes : Nodes) → FrontHolds nodes self
            → IfOk result (λ h. AreLastBefore nodes h.starts h.ends h.before) }
    {
        let Chains {
            work,
            bests,
            fronts: _fronts,
        } = self;
        let all = bests.as_slice();
        let starts = starts_of(alloc, all)?;
        let ends = ends_of(alloc, all)?;
        let before = before_of(alloc, all)?;
        match highest(all) {
            None => Ok(Heaviest {
                work,
                span: 0,
                chain: List::new(alloc),
                starts,
                ends,
                before,
            }),
            Some(top) => Ok(Heaviest {
                work,
                span: top.weight,
                chain: chain_to(alloc, &bests, top.node)?,
                starts,
                ends,
                before,
            }),
        }
    }
}
