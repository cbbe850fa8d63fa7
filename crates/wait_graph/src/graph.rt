//! The links of all tasks, in which a wait leads to a higher number and a parent has a lower one.
ghost use Rattle.std.specs.Prelude.{◌≡◌, ℕ, ◌-◌, ◌^◌, ◌<◌, ◌↔◌, [], ◌∷◌, ◌++◌, length, IsTrue, IfSome, IfNone, IfOk, OnOk, OnErr};
ghost use Rattle.std.specs.Option.{ForSome};
ghost use Rattle.std.specs.List.{All};

use crate::stuck::Cycle;
use crate::tasks::Link;
use crate::{chains, walk};
use std::alloc::Global;
use std::marker::Model;
use twe_base::Memory;

/// The links between the tasks. The tasks are numbered from 0 in the order in which they were added. Contracts see it
/// as the list of their links.
///
/// A task waits only for a task with a higher number, and the parent of a task has a lower one.
#[derive(Debug, Drop)]
pub struct Links {
    tasks: Vec<Link>,
}

impl Model for Links {
    ghost use Rattle.std.specs.Prelude.{List};
    ghost use Rattle.wait_graph.specs.declared.tasks.Link.{Link};
    ghost use Rattle.wait_graph.specs.Link.{IsOrdered};

    ghost Value = { List Link };

    ghost view = { λ links. links.tasks.items };

    ghost invariant = { λ links. IsOrdered links.tasks.items };
}

impl Links {
    ghost use Rattle.wait_graph.specs.Link.{IsOrdered, new_link, link_of, with_wait, with_joined, with_done};
    ghost use Rattle.wait_graph.specs.Waiting.{WaitsFor, WaitsForNobody, WaitsOn, YieldsTo};
    ghost use Rattle.wait_graph.specs.StuckCycle.{IsUndone, AllAreHeldUp, stuck_cycle, IsTrueEdge, IsClosed, HasEachOnce, BeginsLowest};

    /// The links of no tasks. It takes no memory.
    pub fn new(alloc: Global) -> Self
        ensures { result ≡ [] }
    {
        Links {
            tasks: Vec::new(alloc),
        }
    }

    /// How many tasks there are.
    pub fn task_count(&self) -> u32
        ensures count { result ≡ length self.now }
        ensures ordered { IsOrdered self.now }
    {
        self.tasks.len() as u32
    }

    /// The links of `t`.
    pub fn link(&self, t: u32) -> Link
        requires { t < length self.now }
        ensures { result ≡ link_of self.now t }
    {
        self.tasks[t as usize]
    }

    /// Adds a task with this parent and returns its number, which is the number of tasks before. The new task waits
    /// for nobody, and is neither joined nor done. After `Memory` nothing was added.
    pub fn add(&mut self, parent: Option<u32>) -> Result<u32, Memory>
        requires parent_there { ForSome parent (λ p. p < length self.old) }
        requires room { length self.old < 2 ^ 32 - 1 }
        ensures number { IfOk result (λ t. t ≡ length self.old) }
        ensures ok { OnOk result (self.new ≡ self.old ++ new_link parent ∷ []) }
        ensures err { OnErr result (self.new ≡ self.old) }
    {
        let number = self.tasks.len() as u32;
        self.tasks.push(Link::new(parent))?;
        Ok(number)
    }

    /// Sets the task that the next operation of `t` awaits, or that it is no wait. It takes no memory.
    pub fn set_wait(&mut self, t: u32, on: Option<u32>)
        requires there { t < length self.old }
        requires on_above { ForSome on (λ u. t < u) }
        requires on_there { ForSome on (λ u. u < length self.old) }
        ensures { self.new ≡ with_wait self.old t on }
    {
        self.tasks[t as usize].waits = on;
    }

    /// Marks `t` as joined. It takes no memory.
    pub fn set_joined(&mut self, t: u32)
        requires { t < length self.old }
        ensures { self.new ≡ with_joined self.old t }
    {
        self.tasks[t as usize].joined = true;
    }

    /// Marks `t` as done. It takes no memory.
    pub fn set_done(&mut self, t: u32)
        requires { t < length self.old }
        ensures { self.new ≡ with_done self.old t }
    {
        self.tasks[t as usize].done = true;
    }

    /// The task that `t` waits for, if it waits: the task that its next operation awaits, if that task isn't done. It
    /// takes no memory.
    pub fn awaited(&self, t: u32) -> Option<u32>
        requires { t < length self.now }
        ensures some { IfSome result (λ u. WaitsFor self.now t u) }
        ensures none { IfNone result (WaitsForNobody self.now t) }
    {
        chains::awaited(&self.tasks, t)
    }

    /// The last task of the chain of waits from `t`, which is `t` itself if it waits for nobody. It takes no memory,
    /// and time linear in the chain.
    pub fn end_of_waits(&self, t: u32) -> u32
        requires { t < length self.now }
        ensures chain { WaitsOn self.now t result }
        ensures last { WaitsForNobody self.now result }
    {
        chains::end_of_waits(&self.tasks, t)
    }

    /// Whether `s` yields to `t`: it waits, directly or through others, for `t` or for a spawn ancestor of `t` over
    /// unjoined children, or is one of these itself. It takes no memory.
    ///
    /// It goes along the chain of waits from `s`, and at each task of it that is below `t` it looks at those
    /// ancestors of `t` that are above that task. If `s` waits for nobody or `t` has no parent, it takes time linear
    /// in the one chain. Else it takes at most the product of the lengths of the two chains.
    pub fn yields(&self, s: u32, t: u32) -> bool
        requires waiter { s < length self.now }
        requires passing { t < length self.now }
        ensures { IsTrue result ↔ YieldsTo self.now s t }
    {
        chains::yields(&self.tasks, s, t)
    }

    /// The cycle in which the tasks are stuck. The entry of `held` at a task's number is the holder of that task.
    ///
    /// The walk starts at the lowest task that isn't done. From a task that waits it goes to the task waited for, and
    /// from another one to its holder. The tasks from the first one that it comes to again on are the cycle, which
    /// begins with the lowest of them. It takes time linear in the number of tasks.
    pub fn find_cycle(&self, alloc: Global, held: &[Option<u32>]) -> Result<Cycle, Memory>
        requires holders { length held.now ≡ length self.now }
        requires some_undone { (t : ℕ) × IsUndone self.now t }
        requires all_held_up { AllAreHeldUp self.now held.now }
        ensures exact { IfOk result (λ cycle. cycle ≡ stuck_cycle self.now held.now) }

        // What the edges of that cycle are.
        ensures some { IfOk result (λ cycle. 0 < length cycle) }
        ensures true_edges { IfOk result (λ cycle. All (IsTrueEdge self.now held.now) cycle) }
        ensures closed { IfOk result (λ cycle. IsClosed cycle) }
        ensures once { IfOk result (λ cycle. HasEachOnce cycle) }
        ensures begins_lowest { IfOk result (λ cycle. BeginsLowest cycle) }
    {
        Ok(Cycle::from(walk::find_cycle(alloc, &self.tasks, held)?))
    }
}
