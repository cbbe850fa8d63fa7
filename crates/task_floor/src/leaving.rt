//! How a worker leaves a task: its phase is stored, what its last entry left goes into its slot, and its turn is given.
ghost use Rattle.std.specs.Prelude.{◌≡◌, ◌≢◌, ◌<◌, ℕ, List};
ghost use Rattle.floor_laws.specs.declared.rule.view.HeldTurn.{HeldTurn};
ghost use Rattle.floor_laws.specs.rule.Rows.{phase_of};
ghost use Rattle.floor_laws.specs.declared.table.view.SeatKind.TheVariants.{Spent};
ghost use Rattle.floor_laws.specs.declared.table.nodes.slot.TreeSlot.{TreeSlot};
ghost use Rattle.floor_laws.specs.table.nodes.FloorSeats.{HasTaskSlots};
ghost use Rattle.task_floor.specs.Leaving.{HasLeftTask, MayFinishTask, MayGiveNew, MayGoFrom, MayParkTask};

use crate::floor::{Floor, Stand};
use crate::settling::{new_phase, parked_phase};
use floor_laws::rule::Phase;
use floor_laws::table::nodes::Planted;
use floor_laws::table::{KeptSlot, Named};

impl<N: Named + Planted> Floor<N> {
    /// Leaves an enabled task whose slot is the latest that the stand has out, with what its last entry left: stores its phase,
    /// which says whether it runs or waits, fills its slot, and gives its turn. All children of the task are placed, and the
    /// stand does nothing in the tree.
    pub fn park(&self, stand: &mut Stand, task: u32, slot: KeptSlot)
        requires here { stand.old.table_id ≡ self.now }
        requires live { stand.old.me.0.floor.kind ≢ Spent }
        requires slots { HasTaskSlots N.lim.tasks stand.old.me.1 }
        requires task { task < N.lim.tasks }
        requires may { (turn : HeldTurn) × (rest : List (ℕ × TreeSlot)) × MayParkTask N.nodes stand.old.me task slot turn rest }
        ensures left { (turn : HeldTurn) (rest : List (ℕ × TreeSlot)) → MayParkTask N.nodes stand.old.me task slot turn rest
            → HasLeftTask stand.old.me task turn rest stand.new.me }
        ensures same { (stand.new.table_id ≡ stand.old.table_id) × (stand.new.id ≡ stand.old.id) }
    {
        let phase = parked_phase(&slot);
        self.leave_with_phase(stand, task, slot, phase);
    }

    /// Leaves a task that has ended, with a value or with a fault, in the same way. `phase` says how it has ended. The stand
    /// knows that no record of the task is left at the place of an effect. If the task is done, the stand knows its value from
    /// then on.
    pub fn finish(&self, stand: &mut Stand, task: u32, slot: KeptSlot, phase: Phase)
        requires here { stand.old.table_id ≡ self.now }
        requires live { stand.old.me.0.floor.kind ≢ Spent }
        requires slots { HasTaskSlots N.lim.tasks stand.old.me.1 }
        requires task { task < N.lim.tasks }
        requires may { (turn : HeldTurn) × (rest : List (ℕ × TreeSlot))
            × MayFinishTask N.nodes stand.old.me task slot phase turn rest }
        ensures left { (turn : HeldTurn) (rest : List (ℕ × TreeSlot))
            → MayFinishTask N.nodes stand.old.me task slot phase turn rest
            → HasLeftTask stand.old.me task turn rest stand.new.me }
        ensures same { (stand.new.table_id ≡ stand.old.table_id) × (stand.new.id ≡ stand.old.id) }
    {
        self.leave_with_phase(stand, task, slot, phase);
    }

    /// Gives the first turn of a task that was made, whose slot is the latest that the stand has out: stores its first phase,
    /// fills its slot, and gives the turn. If the task was spawned, the stand has placed a record for each of its effects.
    pub fn give_first(&self, stand: &mut Stand, task: u32, slot: KeptSlot)
        requires here { stand.old.table_id ≡ self.now }
        requires live { stand.old.me.0.floor.kind ≢ Spent }
        requires slots { HasTaskSlots N.lim.tasks stand.old.me.1 }
        requires task { task < N.lim.tasks }
        requires may { (turn : HeldTurn) × (rest : List (ℕ × TreeSlot)) × MayGiveNew N.nodes stand.old.me task slot turn rest }
        ensures left { (turn : HeldTurn) (rest : List (ℕ × TreeSlot)) → MayGiveNew N.nodes stand.old.me task slot turn rest
            → HasLeftTask stand.old.me task turn rest stand.new.me }
        ensures same { (stand.new.table_id ≡ stand.old.table_id) × (stand.new.id ≡ stand.old.id) }
    {
        let phase = new_phase(&slot);
        self.leave_with_phase(stand, task, slot, phase);
    }

    /// Leaves a task with the phase of its row.
    fn leave_with_phase(&self, stand: &mut Stand, task: u32, slot: KeptSlot, phase: Phase)
        requires here { stand.old.table_id ≡ self.now }
        requires live { stand.old.me.0.floor.kind ≢ Spent }
        requires slots { HasTaskSlots N.lim.tasks stand.old.me.1 }
        requires task { task < N.lim.tasks }
        requires may { (turn : HeldTurn) × (rest : List (ℕ × TreeSlot)) × MayGoFrom N.nodes stand.old.me task slot turn rest
            × (phase ≡ phase_of turn.row) }
        ensures left { (turn : HeldTurn) (rest : List (ℕ × TreeSlot)) → MayGoFrom N.nodes stand.old.me task slot turn rest
            → phase ≡ phase_of turn.row → HasLeftTask stand.old.me task turn rest stand.new.me }
        ensures same { (stand.new.table_id ≡ stand.old.table_id) × (stand.new.id ≡ stand.old.id) }
    {
        self.set_phase(stand, task, phase);
        self.give_turn(stand, task, slot);
    }
}
