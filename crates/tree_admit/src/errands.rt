//! Whole errands of a worker in the tree: down to the place of an effect, and back.
//!
//! For example task 7 is to be admitted, one of whose effects is `writes A:B:*`, with its place at the node of `A:B`. The worker goes
//! (`place_one`)
//!
//! - down (`descend`): it locks the root, looks at the records there, locks the node of `A`, leaves the root, and so on. It always
//!   has one lock at least, so nobody overtakes it. A record that is in its way is a bar, and it comes back at once.
//! - round (`look_around`): at the node of `A:B`, and at all nodes below that the wildcard may reach, it looks at the records.
//! - and back (`put`): it puts its own record there, if no record was a bar, and gives the lock of the node back.
//!
//! When the task has ended, it goes down in the same way, takes the record out and comes back (`take_out_one`). Nothing bars that.
ghost use Rattle.std.specs.Prelude.{◌≡◌, ◌≢◌, ◌<◌, IfErr, IfOk, IsTrue, None, length};
ghost use Rattle.floor_laws.specs.declared.table.view.SeatKind.TheVariants.{Spent};
ghost use Rattle.floor_laws.specs.admission.admission_core.States.{IsAmong};
ghost use Rattle.floor_laws.specs.declared.table.nodes.slot.ErrandKind.TheVariants.{Removal};
ghost use Rattle.tree_admit.specs.Descents.{HasTakenOut, HasTried, IsOfChild, MayTakeOutOf};
ghost use Rattle.tree_admit.specs.Errands.{KnowsErrand, record_of};
ghost use Rattle.tree_admit.specs.Going.{HasLeft, IsOutside};

use crate::at_place::{look_around, put, take_out};
use crate::bars::Attempt;
use crate::descents::descend;
use crate::footing::Footing;
use effect_sets::Effect;
use effect_tree::Shape;
use floor_laws::table::Named;
use floor_laws::table::nodes::{Errand, NodeRecord, Planted};
use std::alloc::Global;
use std::sync::Wait;
use task_floor::{Floor, Stand};
use twe_base::Memory;

/// Places the record of an effect of a task in the tree: goes down to its place, places it and comes back. The record is made
/// before the first lock is taken. Whoever admits a task comes back without placing it if another task's record is in the way.
/// `unplaced` says that the stand has not placed the record.
pub fn place_one<N: Named + Planted, R: Wait>(
    rt: &R,
    alloc: Global,
    floor: &Floor<N>,
    shape: &Shape,
    stand: &mut Stand,
    footing: Footing,
    errand: Errand,
    effect: &Effect,
    unplaced: bool,
) -> Result<Attempt, Memory>
    requires here { stand.old.table_id ≡ floor.now }
    requires live { stand.old.me.0.floor.kind ≢ Spent }
    requires shape { shape.now ≡ N.nodes }
    requires worker { footing.worker ≡ stand.old.me.0.floor.worker }
    requires tasks { footing.tasks ≡ N.lim.tasks }
    requires slots { footing.slots ≡ length stand.old.me.1 }
    requires outside { IsOutside stand.old.me.0 }
    requires knows { (knows : KnowsErrand N.nodes stand.old.me.0 errand effect.now) × IsOfChild errand.kind knows.turn }
    requires unplaced { IsTrue unplaced → ¬ IsAmong (record_of errand effect.now) stand.old.me.0.fresh }
    ensures tried { IfOk result (λ attempt.
        HasTried N.prog N.lim stand.old.me.0 stand.old.me.1 errand effect.now attempt stand.new.me) }
    ensures failed { IfErr result (λ _. HasLeft stand.old.me.0 stand.old.me.1 None stand.new.me) }
    ensures same { (stand.new.table_id ≡ stand.old.table_id) × (stand.new.id ≡ stand.old.id) }
{
    let copied = effect.copy(alloc)?;
    let mine = NodeRecord::new(errand.task, copied, errand.place);
    let content = match descend(rt, floor, shape, stand, footing, errand, effect) {
        Ok(content) => content,
        Err(bar) => return Ok(Attempt::Barred(bar)),
    };
    match look_around(rt, floor, shape, stand, footing, errand, effect, content) {
        Ok((content, decides)) => put(
            floor,
            stand,
            footing.worker,
            errand,
            effect,
            content,
            mine,
            decides,
            unplaced,
        ),
        Err(bar) => Ok(Attempt::Barred(bar)),
    }
}

/// Takes the record of an effect of a task out of the tree: goes down to its place, takes it out and comes back. Returns whether
/// the record was there. In both cases the stand knows that it does not stand. It takes no memory.
pub fn take_out_one<N: Named + Planted, R: Wait>(
    rt: &R,
    floor: &Floor<N>,
    shape: &Shape,
    stand: &mut Stand,
    footing: Footing,
    errand: Errand,
    effect: &Effect,
) -> bool
    requires here { stand.old.table_id ≡ floor.now }
    requires live { stand.old.me.0.floor.kind ≢ Spent }
    requires shape { shape.now ≡ N.nodes }
    requires worker { footing.worker ≡ stand.old.me.0.floor.worker }
    requires tasks { footing.tasks ≡ N.lim.tasks }
    requires slots { footing.slots ≡ length stand.old.me.1 }
    requires outside { IsOutside stand.old.me.0 }
    requires kind { errand.kind ≡ Removal }
    requires knows { (knows : KnowsErrand N.nodes stand.old.me.0 errand effect.now) × MayTakeOutOf knows.turn }
    ensures taken { HasTakenOut stand.old.me.0 stand.old.me.1 errand effect.now result stand.new.me }
    ensures same { (stand.new.table_id ≡ stand.old.table_id) × (stand.new.id ≡ stand.old.id) }
{
    match descend(rt, floor, shape, stand, footing, errand, effect) {
        Ok(content) => take_out(floor, stand, footing.worker, errand, effect, content),
        Err(_) => unreachable!(),
    }
}
