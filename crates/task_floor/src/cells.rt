//! The cells of the program.
ghost use Rattle.std.specs.Prelude.{◌≡◌, ◌≢◌, ◌<◌, ℕ, ℤ};
ghost use Rattle.twe_program.specs.Program.{cell_count};
ghost use Rattle.seg_meaning.specs.Access.{Reads, Writes};
ghost use Rattle.floor_laws.specs.declared.table.view.SeatKind.TheVariants.{Spent};
ghost use Rattle.floor_laws.specs.table.Tells.{IsLastTouch, IsLatest, WroteCell};
ghost use Rattle.task_floor.specs.steps.Stands.{HasLoaded, MayAccess};
ghost use Rattle.floor_laws.specs.table.nodes.FloorSeats.{HasTaskSlots, floor_seat};
ghost use Rattle.task_floor.specs.Stands.{StaysInTree};

use crate::floor::{Floor, Stand};
use crate::words::{value_of, word_of_value};
use floor_laws::table::Named;
use floor_laws::table::nodes::{LoadTreeCell, Planted, StoreTreeCell};

impl<N: Named + Planted> Floor<N> {
    /// Loads a cell for the task whose slot is the latest that the stand has out, if the segment of that task may read the cell.
    /// If the open segment has loaded or stored the cell before, it finds the value of the last load or store there. The stand
    /// holds no node.
    pub fn load(&self, stand: &mut Stand, cell: u32) -> i32
        requires here { stand.old.table_id ≡ self.now }
        requires live { stand.old.me.0.floor.kind ≢ Spent }
        requires slots { HasTaskSlots N.lim.tasks stand.old.me.1 }
        requires cell { cell < cell_count N.prog }
        requires may { (any : ℤ) × MayAccess N.prog (floor_seat stand.old.me) (Reads cell any) }
        ensures loaded { (t : ℕ) → IsLatest (floor_seat stand.old.me) t
            → HasLoaded (floor_seat stand.old.me) t cell result (floor_seat stand.new.me) }
        ensures last { IsLastTouch (floor_seat stand.old.me) cell result }
        ensures stays { StaysInTree N.lim stand.old.me stand.new.me }
        ensures same { (stand.new.table_id ≡ stand.old.table_id) × (stand.new.id ≡ stand.old.id) }
    {
        let place = self.cell_place(cell);
        let word = self.table.shared.load::<LoadTreeCell<N>>(stand, place);
        value_of(word)
    }

    /// Stores a value to a cell for the task whose slot is the latest that the stand has out, if the segment of that task may
    /// write the cell. The stand holds no node.
    pub fn store(&self, stand: &mut Stand, cell: u32, value: i32)
        requires here { stand.old.table_id ≡ self.now }
        requires live { stand.old.me.0.floor.kind ≢ Spent }
        requires slots { HasTaskSlots N.lim.tasks stand.old.me.1 }
        requires cell { cell < cell_count N.prog }
        requires may { MayAccess N.prog (floor_seat stand.old.me) (Writes cell value) }
        ensures stored { (t : ℕ) → IsLatest (floor_seat stand.old.me) t
            → WroteCell (floor_seat stand.old.me) t cell value (floor_seat stand.new.me) }
        ensures stays { StaysInTree N.lim stand.old.me stand.new.me }
        ensures same { (stand.new.table_id ≡ stand.old.table_id) × (stand.new.id ≡ stand.old.id) }
    {
        let place = self.cell_place(cell);
        self.table
            .shared
            .store::<StoreTreeCell<N>>(stand, place, word_of_value(value));
    }
}
