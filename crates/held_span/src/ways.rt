//! The tasks through which others wait for a task. A task waits only for tasks that it has made, so the way from it leads down
//! along those that made one another.
ghost use Rattle.std.specs.Prelude.{◌≡◌, ◌<◌, ◌^◌, [], ◌∷◌, ◌++◌, ℕ, List as AnyList, Some, length, map, slice_get, slice_set, IfOk, OnOk};
ghost use Rattle.span_profile.specs.declared.heaviest_chain.key.Key.TheVariants.{Task};
ghost use Rattle.held_span.specs.inner.Walking.{AreWays, IsWalk, entered};

use span_profile::heaviest_chain::Key;
use std::alloc::Global;
use twe_base::{List, Memory};

/// The tasks that were made, and how far the ways to them were looked at when they were admitted.
#[derive(Debug, Drop)]
pub(crate) struct Ways {
    /// The task that made each one.
    makers: List<u32>,
    /// The first task of the way whose entries the admission of each one follows, which is the task itself if it follows those of
    /// no other.
    firsts: List<u32>,
}

impl Ways {
    /// The first task.
    pub(crate) fn new(alloc: Global) -> Result<Self, Memory>
        ensures { IfOk result (λ ways. ways ≡ record { makers = 0 ∷ []; firsts = 0 ∷ [] }) }
    {
        let mut ways = Ways {
            makers: List::new(alloc),
            firsts: List::new(alloc),
        };
        ways.enter(0)?;
        Ok(ways)
    }

    /// Adds the next task, which this one has made.
    pub(crate) fn enter(&mut self, maker: u32) -> Result<(), Memory>
        requires { length self.old.firsts < 2 ^ 32 }
        ensures { OnOk result (self.new ≡ entered self.old maker) }
    {
        let number = self.firsts.len() as u32;
        self.firsts.push(number)?;
        self.makers.push(maker)?;
        Ok(())
    }

    /// The task that made this one.
    fn maker_of(&self, t: u32) -> u32
        requires { t < length self.now.makers }
        ensures { slice_get self.now.makers t ≡ Some result }
    {
        self.makers.as_slice()[t as usize]
    }

    /// The first task of the way whose entries the admission of this one follows.
    fn first_of(&self, t: u32) -> u32
        requires { t < length self.now.firsts }
        ensures { slice_get self.now.firsts t ≡ Some result }
    {
        self.firsts.as_slice()[t as usize]
    }

    /// Adds the keys of tasks on the way from s to t, and notes that the admission of t follows the entries of all of them.
    ///
    /// A task is left out if the admission of a later one on the way follows its entries: it has waited since then, so the
    /// later one's entries follow all of its own.
    pub(crate) fn push_way(&mut self, keys: &mut List<Key>, s: u32, t: u32) -> Result<(), Memory>
        requires ways { AreWays self.old }
        requires there { t < length self.old.makers }
        ensures walked { OnOk result ((tasks : AnyList ℕ) × IsWalk self.old s t tasks
            × (keys.new ≡ keys.old ++ map (λ task. Task task) tasks)) }
        ensures noted { OnOk result (self.new ≡ record { makers = self.old.makers; firsts = slice_set self.old.firsts t s }) }
    {
        let mut at = t;
        'walking: while at > s {
            let maker = self.maker_of(at);
            keys.push(Key::Task(maker))?;
            at = self.first_of(maker);
        }
        self.firsts.set(t as usize, s);
        Ok(())
    }
}
