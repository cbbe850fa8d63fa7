//! How the workers of a round get their stands, and how these are joined again.
ghost use Rattle.std.specs.Prelude.{◌≡◌, length, IfOk, OnOk};
ghost use mathlib.Core.List.{IsPrefix};
ghost use Rattle.floor_crew.specs.inner.Lent.{HasParts, IsMainOn, IsNewOn};

use crate::located::Located;
use crate::round_worker::RoundWorker;
use floor_laws::table::Named;
use floor_laws::table::nodes::Planted;
use seg_journal::JournalPart;
use std::alloc::Global;
use task_floor::{EntryLog, Floor, Stand};
use tree_admit::serving::TreeWorker;
use twe_base::{List, Memory};
use twe_rounds::{Worker, lost};

/// A stand for each of the workers, of whom there are so many, split off from the main one.
pub(crate) fn split_all<N: Named + Planted, F: Located>(
    alloc: Global,
    floor: &Floor<N>,
    stand: &mut Stand,
    workers: Vec<Worker>,
    count: u32,
) -> Result<Vec<RoundWorker<F>>, Memory>
    requires located { floor.now ≡ F.table }
    requires new { IsNewOn F.table stand.old 0 }
    ensures split { IfOk result (λ hands. IsNewOn F.table stand.new (length hands.items)) }
    ensures part { IfOk result (λ hands. stand.new.me.0.floor.part ≡ stand.old.me.0.floor.part) }
{
    let mut workers = workers;
    let mut hands = Vec::new(alloc);
    for before in 0..count {
        let Some(worker) = workers.pop() else {
            break;
        };
        let other = floor.split(stand);
        let own = TreeWorker::new(before + 1, other, EntryLog::new(alloc));
        hands.push(RoundWorker::new(worker, own))?;
    }
    Ok(hands)
}

/// Joins the stands of all workers to the main one, and keeps the entries of each.
pub(crate) fn join_all<N: Named + Planted, F: Located>(
    floor: &Floor<N>,
    stand: &mut Stand,
    hands: Vec<RoundWorker<F>>,
    parts: &mut List<JournalPart>,
) -> Result<(), Memory>
    requires located { floor.now ≡ F.table }
    requires main { IsMainOn F.table stand.old (length hands.items) }
    requires parts { HasParts stand.old parts.old }
    ensures main { OnOk result (IsMainOn F.table stand.new 0) }
    ensures parts { OnOk result (HasParts stand.new parts.new) }
    ensures kept { OnOk result (IsPrefix parts.old parts.new) }
{
    let mut hands = hands;
    while let Some(hand) = hands.pop() {
        let Some(own) = hand.into_tree_worker() else {
            return Err(lost());
        };
        let (other, log) = own.into_stand();
        floor.join(stand, other);
        parts.push(log.into_part())?;
    }
    Ok(())
}
