//! The workers of a round, each with its stand on the floor.
ghost use Rattle.std.specs.Prelude.{◌≡◌, None, IfSome};
ghost use Rattle.floor_crew.specs.inner.Lent.{IsOtherOn};

use crate::ground::Ground;
use crate::located::Located;
use crate::on_floor::OnFloor;
use floor_laws::table::Named;
use floor_laws::table::nodes::Planted;
use std::marker::{Model, PhantomData};
use std::sync::Wait;
use steal_pool::gates::Gate;
use tree_admit::serving::TreeWorker;
use twe_rounds::{Site, Worker};

/// A worker of a round with its deck, and with its stand on the floor, unless it found no memory.
#[derive(Drop)]
pub(crate) struct RoundWorker<F: Located> {
    worker: Worker,
    stand: Option<TreeWorker>,
    of: PhantomData<F>,
}

impl<F: Located> Model for RoundWorker<F> {
    ghost use Rattle.std.specs.Prelude.{Option, IfSome};
    ghost use Rattle.task_floor.specs.Stands.{TreeStand};
    ghost use Rattle.floor_crew.specs.inner.Lent.{IsOtherOn};

    ghost Value = { Option TreeStand };

    ghost view = { λ worker. worker.stand };

    ghost invariant = { λ worker. IfSome worker.stand (IsOtherOn F.table) };
}

impl<F: Located> RoundWorker<F> {
    /// A worker with this deck and this stand.
    pub(crate) fn new(worker: Worker, stand: TreeWorker) -> Self
        requires { IsOtherOn F.table stand }
    {
        RoundWorker {
            worker,
            stand: Some(stand),
            of: PhantomData,
        }
    }

    /// The stand, unless the worker found no memory.
    pub(crate) fn into_tree_worker(self) -> Option<TreeWorker>
        ensures { IfSome result (IsOtherOn F.table) }
    {
        let RoundWorker { stand, .. } = self;
        stand
    }

    /// Works on the floor until no number is left to be dealt with.
    pub(crate) fn work<N: Named + Planted, R: Wait, G: Gate>(
        &mut self,
        rt: &R,
        ground: &Ground<'_, N, F>,
        site: &Site<'_, G>,
    ) {
        let stand = self.stand.take();
        let mut access = OnFloor::new(rt, ground, site.gate, stand);
        self.worker.work(rt, &mut access, site);
        self.stand = access.into_worker();
    }
}
