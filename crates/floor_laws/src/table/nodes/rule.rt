//! The rule of the floor with nodes, as a rule of its table.
ghost use Rattle.floor_laws.specs.table.nodes.Deciders.{LooksUpDecider};
ghost use Rattle.floor_laws.specs.table.nodes.EntrySeats.{DrewAdmission, DrewTreeEntry};
ghost use Rattle.floor_laws.specs.table.nodes.FloorSeats.{LoadsTreeCell, StoresTreeCell, StoresTreePhase};
ghost use Rattle.floor_laws.specs.table.nodes.Follows.{FollowsWait};
ghost use Rattle.floor_laws.specs.table.nodes.Holds.{TreeKeeps, first_tree_view, joined_tree_view, left_tree_view, right_tree_view, spent_tree_view};
ghost use Rattle.floor_laws.specs.table.nodes.Plays.{PassesNode, SeatGoesOn, SeatStopsAt, TriesNode};
ghost use Rattle.floor_laws.specs.table.nodes.RecordSeats.{MarksClear, MarksPlaced, MarksRemoved};
ghost use Rattle.floor_laws.specs.table.nodes.TurnSeats.{GivesTreeTurn, TriesTreeTurn};

use crate::table::Named;
use crate::table::nodes::record::NodeRecord;
use crate::table::nodes::slot::TreeSlot;
use crate::table::nodes::view::TreeView;
use atomic_table::{Join, Play, Split, TableRule};
use seg_journal::JournalPart;
use std::marker::PhantomData;
use twe_base::List;

/// The nodes of the tree of a run. The type of the table names them.
pub trait Planted {
    ghost use Rattle.std.specs.Prelude.{List};
    ghost use Rattle.region_paths.specs.declared.elements.Elem.{Elem};

    /// The paths of the nodes.
    ghost nodes: { List (List Elem) };
}

/// What the table is told when it is made.
#[derive(Debug, Drop)]
pub struct TreeStart {
    /// The entries of the run so far.
    pub part: JournalPart,
    /// The records that stand.
    pub records: List<NodeRecord>,
}

/// The rule of the floor with nodes, for this program, these limits and these nodes.
pub struct TreeLaw<N: Named + Planted> {
    of: PhantomData<N>,
}

impl<N: Named + Planted> TableRule<TreeSlot, TreeView, TreeStart> for TreeLaw<N> {
    ghost holds = { λ start. TreeKeeps N.nodes N.prog N.lim };

    ghost first = { λ start. first_tree_view start.part start.records };
}

/// A seat for the next worker.
pub struct NextTreeSeat;

impl Split<TreeView> for NextTreeSeat {
    ghost left = { left_tree_view };

    ghost right = { right_tree_view };
}

/// Two seats become one.
pub struct BothTreeSeats;

impl Join<TreeView> for BothTreeSeats {
    ghost both = { joined_tree_view };

    ghost spent = { spent_tree_view };
}

/// A try to lock a node.
pub struct TryNode<N: Named + Planted> {
    of: PhantomData<N>,
}

impl<N: Named + Planted> Play<TreeSlot, TreeView> for TryNode<N> {
    ghost then = { TriesNode N.nodes N.prog N.lim };
}

/// A node is passed by, if no record lies there.
pub struct PassNode<N: Named + Planted> {
    of: PhantomData<N>,
}

impl<N: Named + Planted> Play<TreeSlot, TreeView> for PassNode<N> {
    ghost then = { PassesNode N.nodes N.prog N.lim };
}

/// A node is unlocked by a seat that goes on.
pub struct GoOn<N: Named + Planted> {
    of: PhantomData<N>,
}

impl<N: Named + Planted> Play<TreeSlot, TreeView> for GoOn<N> {
    ghost then = { SeatGoesOn N.nodes N.prog N.lim };
}

/// A node is unlocked by a seat that stops.
pub struct StopAt<N: Named + Planted> {
    of: PhantomData<N>,
}

impl<N: Named + Planted> Play<TreeSlot, TreeView> for StopAt<N> {
    ghost then = { SeatStopsAt N.prog N.lim };
}

/// A record is marked as placed.
pub struct MarkPlaced<N: Named + Planted> {
    of: PhantomData<N>,
}

impl<N: Named + Planted> Play<TreeSlot, TreeView> for MarkPlaced<N> {
    ghost then = { MarksPlaced N.nodes N.prog N.lim };
}

/// A record is marked as removed.
pub struct MarkRemoved<N: Named + Planted> {
    of: PhantomData<N>,
}

impl<N: Named + Planted> Play<TreeSlot, TreeView> for MarkRemoved<N> {
    ghost then = { MarksRemoved N.prog N.lim };
}

/// A node is marked as clear of a record.
pub struct MarkClear<N: Named + Planted> {
    of: PhantomData<N>,
}

impl<N: Named + Planted> Play<TreeSlot, TreeView> for MarkClear<N> {
    ghost then = { MarksClear N.prog N.lim };
}

/// A decider word is loaded.
pub struct LookUpDecider<N: Named + Planted> {
    of: PhantomData<N>,
}

impl<N: Named + Planted> Play<TreeSlot, TreeView> for LookUpDecider<N> {
    ghost then = { LooksUpDecider N.prog N.lim };
}

/// A phase is loaded to follow a wait.
pub struct FollowWait<N: Named + Planted> {
    of: PhantomData<N>,
}

impl<N: Named + Planted> Play<TreeSlot, TreeView> for FollowWait<N> {
    ghost then = { FollowsWait N.prog N.lim };
}

/// A cell is loaded.
pub struct LoadTreeCell<N: Named> {
    of: PhantomData<N>,
}

impl<N: Named> Play<TreeSlot, TreeView> for LoadTreeCell<N> {
    ghost then = { LoadsTreeCell N.lim };
}

/// A value is stored to a cell.
pub struct StoreTreeCell<N: Named> {
    of: PhantomData<N>,
}

impl<N: Named> Play<TreeSlot, TreeView> for StoreTreeCell<N> {
    ghost then = { StoresTreeCell N.lim };
}

/// A phase is stored.
pub struct StoreTreePhase<N: Named> {
    of: PhantomData<N>,
}

impl<N: Named> Play<TreeSlot, TreeView> for StoreTreePhase<N> {
    ghost then = { StoresTreePhase N.prog N.lim };
}

/// A try to take a turn.
pub struct TryTreeTurn<N: Named + Planted> {
    of: PhantomData<N>,
}

impl<N: Named + Planted> Play<TreeSlot, TreeView> for TryTreeTurn<N> {
    ghost then = { TriesTreeTurn N.nodes N.prog N.lim };
}

/// A turn is given.
pub struct GiveTreeTurn<N: Named + Planted> {
    of: PhantomData<N>,
}

impl<N: Named + Planted> Play<TreeSlot, TreeView> for GiveTreeTurn<N> {
    ghost then = { GivesTreeTurn N.nodes N.prog };
}

/// An entry of a segment is drawn.
pub struct DrawTreeEntry<N: Named> {
    of: PhantomData<N>,
}

impl<N: Named> Play<TreeSlot, TreeView> for DrawTreeEntry<N> {
    ghost then = { λ s. DrewTreeEntry N.prog N.lim };
}

/// The entry of an admission is drawn.
pub struct DrawAdmission<N: Named + Planted> {
    of: PhantomData<N>,
}

impl<N: Named + Planted> Play<TreeSlot, TreeView> for DrawAdmission<N> {
    ghost then = { λ s. DrewAdmission N.nodes };
}
