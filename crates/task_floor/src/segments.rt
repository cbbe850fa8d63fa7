//! Segments over the cells of the floor.
ghost use Rattle.std.specs.Prelude.{◌≡◌, ◌≢◌, ℕ, IfOk, None};
ghost use Rattle.seg_meaning.specs.Access.{HasRead};
ghost use Rattle.seg_meaning.specs.Segment.{HasRoomToSpawn};
ghost use Rattle.floor_laws.specs.declared.rule.view.HeldTurn.{HeldTurn};
ghost use Rattle.floor_laws.specs.declared.table.view.SeatKind.TheVariants.{Spent};
ghost use Rattle.task_floor.specs.steps.Segments.{HasRunSegment, MayRunSegment};
ghost use Rattle.floor_laws.specs.table.nodes.FloorSeats.{HasTaskSlots, floor_seat};
ghost use Rattle.task_floor.specs.Segments.{MayReadCell};
ghost use Rattle.task_floor.specs.Stands.{StaysInTree};
ghost use Rattle.task_floor.specs.declared.in_hand.CellInHand.TheVariants.{Nothing};
ghost use Rattle.task_floor.specs.inner.InHand.{
  GoesOver,
  IsFreeFor,
  MayReadHere,
  MayWriteHere,
  SegFollows,
  seg_knows,
  seg_ways,
  value_in_hand,
};

use crate::floor::{Floor, Stand};
use crate::in_hand::CellInHand;
use floor_laws::table::Named;
use floor_laws::table::nodes::Planted;
use seg_exec::run_segment;
use seg_meaning::{Cells, Frame, Stop};
use std::alloc::Global;
use std::marker::Model;
use steal_pool::gates::Gate;
use twe_base::Memory;
use twe_program::Prog;

/// The cells of the floor, as the segment of one task sees them: the task whose slot is the latest that the stand has out. It
/// has the stand while the segment is carried out, and tells the gate of each access before it is made. The cell that it touched
/// last is in hand: it's read again and written without a step of the floor, and its value is stored when another cell is
/// touched, or at the end of the segment. No other task touches a cell that this one writes meanwhile. The stand holds no node.
/// Clauses see the stand and the cell in hand.
#[derive(Drop)]
pub(crate) struct Seg<'a, N: Named + Planted, G> {
    floor: &'a Floor<N>,
    gate: &'a G,
    // The number that the gate is told.
    task: u32,
    stand: Stand,
    hand: CellInHand,
}

impl<'a, N: Named + Planted, G> Model for Seg<'a, N, G> {
    ghost use Rattle.std.specs.Prelude.{◌≡◌, ◌≢◌};
    ghost use Rattle.floor_laws.specs.declared.table.view.SeatKind.TheVariants.{Spent};
    ghost use Rattle.floor_laws.specs.table.nodes.FloorSeats.{HasTaskSlots};
    ghost use Rattle.task_floor.specs.inner.InHand.{HandFits, SegView};

    ghost Value = { SegView };

    ghost view = { λ seg. record { stand = seg.stand; hand = seg.hand } };

    ghost invariant = { λ seg. (seg.stand.table_id ≡ seg.floor.now) × (seg.stand.me.0.floor.kind ≢ Spent)
        × HasTaskSlots N.lim.tasks seg.stand.me.1 × HandFits N.prog seg.stand seg.hand };
}

/// A segment knows the cells that it has touched: each has the value of its last touch. It may read and write what its task may,
/// over whatever cells. What the stand has touched and the cell in hand stand for all of its accesses.
impl<'a, N: Named + Planted, G: Gate> Cells for Seg<'a, N, G> {
    ghost known = { seg_knows };

    ghost may_read = { MayReadHere N.prog };

    ghost may_write = { MayWriteHere N.prog };

    ghost rule = { SegFollows N.prog };

    #[inline(always)]
    fn get(&mut self, cell: u32) -> i32 {
        self.gate.touch(self.task);
        match self.hand.value_of(cell) {
            Some(value) => value,
            None => self.fetch(cell),
        }
    }

    #[inline(always)]
    fn set(&mut self, cell: u32, value: i32) {
        self.gate.touch(self.task);
        self.make_free(cell);
        self.hand = CellInHand::Written { cell, value };
    }
}

impl<'a, N: Named + Planted, G> Seg<'a, N, G> {
    /// Puts the cell in hand down: if the floor doesn't have its value yet, stores it there.
    fn put_down(&mut self)
        ensures goes { GoesOver N.prog self.old self.new }
        ensures empty { self.new.hand ≡ Nothing }
    {
        match self.hand {
            CellInHand::Nothing => {}
            CellInHand::Known { .. } => {
                self.hand = CellInHand::Nothing;
            }
            CellInHand::Written { cell, value } => {
                self.floor.store(&mut self.stand, cell, value);
                self.hand = CellInHand::Nothing;
            }
        }
    }

    /// Puts the cell in hand down if it is another one.
    #[inline(always)]
    fn make_free(&mut self, cell: u32)
        ensures goes { GoesOver N.prog self.old self.new }
        ensures free { IsFreeFor self.new.hand cell }
    {
        if self.hand.value_of(cell).is_none() {
            self.put_down();
        }
    }

    /// Reads a cell that is not in hand, and takes it in hand.
    fn fetch(&mut self, cell: u32) -> i32
        requires may { MayReadCell N.prog self.old.stand cell }
        requires other { value_in_hand self.old.hand cell ≡ None }
        ensures { HasRead (seg_ways N.prog) self.old cell result self.new }
    {
        self.put_down();
        let value = self.floor.load(&mut self.stand, cell);
        self.hand = CellInHand::Known { cell, value };
        value
    }

    /// The stand, with what the segment has touched so far. The floor has the value of each cell that was written.
    fn into_stand(self) -> Stand
        ensures goes { GoesOver N.prog self.entry (record { stand = result; hand = Nothing }) }
        ensures slots { HasTaskSlots N.lim.tasks result.me.1 }
    {
        let mut segment = self;
        segment.put_down();
        let Seg { stand, .. } = segment;
        stand
    }
}

impl<N: Named + Planted> Floor<N> {
    /// The cells of the floor for the segment of the task whose slot is the latest that the stand has out. The gate is told of
    /// each access with this number.
    fn segment<'a, G: Gate>(&'a self, stand: Stand, task: u32, gate: &'a G) -> Seg<'a, N, G>
        requires here { stand.table_id ≡ self.now }
        requires live { stand.me.0.floor.kind ≢ Spent }
        requires slots { HasTaskSlots N.lim.tasks stand.me.1 }
        ensures { result ≡ record { stand = stand; hand = Nothing } }
    {
        Seg {
            floor: self,
            gate,
            task,
            stand,
            hand: CellInHand::Nothing,
        }
    }

    /// Carries out the next segment of the task whose slot is the latest that the stand has out, from its frame. Returns how it
    /// stopped. The segments of other tasks go on meanwhile. After that an entry of the segment may be drawn. If the segment
    /// stops at a make that spawns, the frame has room for the child. The gate is told of each access to a cell before it is
    /// made. The stand holds no node. After `Memory` the stand is gone.
    pub fn run<G: Gate>(
        &self,
        alloc: Global,
        p: &Prog,
        stand: Stand,
        frame: &mut Frame,
        gate: &G,
    ) -> Result<(Stand, Stop), Memory>
        requires named { p.now ≡ N.prog }
        requires here { stand.table_id ≡ self.now }
        requires live { stand.me.0.floor.kind ≢ Spent }
        requires slots { HasTaskSlots N.lim.tasks stand.me.1 }
        requires may { (t : ℕ) × (turn : HeldTurn) × MayRunSegment (floor_seat stand.me) t turn frame.old }
        ensures ran { IfOk result (λ ran. (t : ℕ) (turn : HeldTurn) → MayRunSegment (floor_seat stand.me) t turn frame.old
            → HasRunSegment N.prog (floor_seat stand.me) (floor_seat ran.0.me) t turn frame.new ran.1) }
        ensures stays { IfOk result (λ ran. StaysInTree N.lim stand.me ran.0.me) }
        ensures room { IfOk result (λ ran. HasRoomToSpawn ran.1 frame.new) }
        ensures same { IfOk result (λ ran. (ran.0.table_id ≡ stand.table_id) × (ran.0.id ≡ stand.id)) }
    {
        let _main = p.main;
        let mut segment = self.segment(stand, frame.task, gate);
        let stop = run_segment(alloc, p, frame, &mut segment)?;
        Ok((segment.into_stand(), stop))
    }
}
