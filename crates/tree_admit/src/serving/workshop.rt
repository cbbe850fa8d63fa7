//! Where the workers of a floor serve.
ghost use Rattle.std.specs.Prelude.{◌≡◌};

use crate::Footing;
use effect_tree::Shape;
use floor_laws::table::Named;
use floor_laws::table::nodes::Planted;
use std::alloc::Global;
use std::marker::Model;
use task_floor::Floor;
use twe_base::Limits;
use twe_program::Prog;

/// A floor with its nodes, and what every worker there knows: the program that is run, its limits and the shape of its tree.
/// Clauses see the name of the floor's table.
#[derive(Drop)]
pub struct Workshop<'a, N: Named + Planted> {
    pub(crate) alloc: Global,
    pub(crate) p: &'a Prog,
    pub(crate) lim: Limits,
    pub(crate) shape: &'a Shape,
    pub(crate) floor: &'a Floor<N>,
}

impl<'a, N: Named + Planted> Model for Workshop<'a, N> {
    ghost use Rattle.std.specs.Prelude.{◌≡◌};
    ghost use Rattle.atomic_table.specs.Seated.{TableId};

    ghost Value = { TableId };

    ghost view = { λ shop. shop.floor.now };

    ghost invariant = { λ shop. (shop.p.now ≡ N.prog) × (shop.lim ≡ N.lim) × (shop.shape.now ≡ N.nodes) };
}

impl<'a, N: Named + Planted> Workshop<'a, N> {
    /// The workshop on this floor.
    pub fn new(
        alloc: Global,
        p: &'a Prog,
        lim: Limits,
        shape: &'a Shape,
        floor: &'a Floor<N>,
    ) -> Self
        requires named { (p.now ≡ N.prog) × (lim ≡ N.lim) × (shape.now ≡ N.nodes) }
        ensures { result ≡ floor.now }
    {
        Workshop {
            alloc,
            p,
            lim,
            shape,
            floor,
        }
    }

    /// How many tasks may be made.
    pub fn tasks(&self) -> u32
        ensures { result ≡ N.lim.tasks }
    {
        self.lim.tasks
    }

    /// Where memory comes from.
    pub fn alloc(&self) -> Global {
        self.alloc
    }

    /// What a worker with this number has to know of itself in the tree, if its stand has so many slots out.
    pub(crate) fn footing(&self, worker: u32, slots: usize) -> Footing
        ensures { (result.worker ≡ worker) × (result.tasks ≡ N.lim.tasks) × (result.slots ≡ slots) }
    {
        Footing {
            worker,
            tasks: self.lim.tasks,
            slots,
        }
    }
}
