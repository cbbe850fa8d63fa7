//! The turns of tasks.
ghost use Rattle.std.specs.Prelude.{◌≡◌, ◌≢◌, ◌<◌, ℕ, List, Option, IfOk, IfErr, OnErr};
ghost use Rattle.floor_laws.specs.declared.rule.view.HeldTurn.{HeldTurn};
ghost use Rattle.floor_laws.specs.declared.rule.view.TaskSlot.{TaskSlot};
ghost use Rattle.floor_laws.specs.declared.table.view.SeatKind.TheVariants.{Spent};
ghost use Rattle.task_floor.specs.steps.Stands.{holder_in};
ghost use Rattle.floor_laws.specs.declared.table.nodes.slot.TreeSlot as slots;
ghost use Rattle.floor_laws.specs.declared.table.nodes.slot.TreeSlot.TheVariants.{Task};
ghost use Rattle.floor_laws.specs.table.nodes.FloorSeats.{HasTaskSlots};
ghost use Rattle.floor_laws.specs.table.nodes.TurnSeats.{GaveTreeTurn};
ghost use Rattle.task_floor.specs.Alone.{IsNewIfAlone};
ghost use Rattle.task_floor.specs.Turns.{FoundBusy, HasTakenTask, MayGiveTask};

use crate::floor::{Floor, Stand};
use crate::steps::Busy;
use floor_laws::table::nodes::{GiveTreeTurn, Planted, TreeSlot, TryTreeTurn};
use floor_laws::table::{KeptSlot, Named};

/// Whom a turn word names that is not free.
fn found_busy(word: u64) -> Busy
    ensures { result.holder ≡ holder_in word }
{
    Busy {
        holder: if word < 2 { None } else { Some(word - 2) },
    }
}

/// What lies in the slot of a task.
pub(crate) fn task_in(slot: TreeSlot) -> Option<KeptSlot>
    requires { (held : Option TaskSlot) × (slot ≡ Task held) }
    ensures { slot ≡ Task result }
{
    match slot {
        TreeSlot::Task(held) => held,
        TreeSlot::Node(_) => unreachable!(),
        TreeSlot::Errand(_) => unreachable!(),
    }
}

impl<N: Named + Planted> Floor<N> {
    /// Takes the turn of a task for this worker, whose stand it is, and what lies in the task's slot. Unless the task is enabled,
    /// the stand knows then that no record of it stands. `Busy` if the turn word was not free; then the stand knows what it found
    /// there, and is as it was otherwise. If the stand is the only one, it finds no turn of a made task busy but those that
    /// it has. The stand holds no node.
    pub fn take_turn(&self, stand: &mut Stand, worker: u32, task: u32) -> Result<KeptSlot, Busy>
        requires here { stand.old.table_id ≡ self.now }
        requires live { stand.old.me.0.floor.kind ≢ Spent }
        requires slots { HasTaskSlots N.lim.tasks stand.old.me.1 }
        requires task { task < N.lim.tasks }
        requires worker { worker ≡ stand.old.me.0.floor.worker }
        ensures taken { IfOk result (λ slot. HasTakenTask N.nodes stand.old.me stand.new.me task slot) }
        ensures busy { IfErr result (λ busy. FoundBusy stand.old.me stand.new.me task busy.holder) }
        ensures alone { OnErr result (IsNewIfAlone N.prog N.lim stand.old.me.0.floor task) }
        ensures same { (stand.new.table_id ≡ stand.old.table_id) × (stand.new.id ≡ stand.old.id) }
    {
        let place = self.turn_place(task);
        let taken = worker as u64 + 2;
        let found = self
            .table
            .shared
            .compare_exchange::<TryTreeTurn<N>>(stand, place, 0, taken);
        if found != 0 {
            return Err(found_busy(found));
        }
        let home = self
            .table
            .shared
            .exchange(stand, task as usize, TreeSlot::Task(None));
        match task_in(home) {
            Some(slot) => Ok(slot),
            None => unreachable!(),
        }
    }

    /// Gives the turn of a task whose slot is the latest that the stand has out. What its last entry left goes into the slot. A
    /// stand that gives the turn of a done task knows the task's value from then on. Of records of the task it knows nothing any
    /// more. The stand holds no node.
    pub fn give_turn(&self, stand: &mut Stand, task: u32, slot: KeptSlot)
        requires here { stand.old.table_id ≡ self.now }
        requires live { stand.old.me.0.floor.kind ≢ Spent }
        requires slots { HasTaskSlots N.lim.tasks stand.old.me.1 }
        requires task { task < N.lim.tasks }
        requires may { (turn : HeldTurn) × (rest : List (ℕ × slots.TreeSlot))
            × MayGiveTask N.nodes stand.old.me task slot turn rest }
        ensures gave { (turn : HeldTurn) (rest : List (ℕ × slots.TreeSlot))
            → MayGiveTask N.nodes stand.old.me task slot turn rest
            → GaveTreeTurn stand.old.me task turn rest stand.new.me }
        ensures same { (stand.new.table_id ≡ stand.old.table_id) × (stand.new.id ≡ stand.old.id) }
    {
        let place = self.turn_place(task);
        let _empty = self
            .table
            .shared
            .exchange(stand, task as usize, TreeSlot::Task(Some(slot)));
        self.table.shared.store::<GiveTreeTurn<N>>(stand, place, 0);
    }
}
