//! The words of nodes, behind those of a floor that starts, and the slots of such a floor.
ghost use Rattle.std.specs.Prelude.{◌≡◌, ◌≤◌, ◌-◌, ◌++◌, None, length, map, replicate, IfOk, OnOk};
ghost use Rattle.floor_laws.specs.declared.table.nodes.slot.TreeSlot.TheVariants as kinds;
ghost use Rattle.task_floor.specs.steps.inner.Laying.{held_slot};

use crate::laying::slot_of;
use floor_laws::table::KeptSlot;
use floor_laws::table::nodes::{NodeContent, TreeSlot};
use machine_state::TaskRow;
use std::alloc::Global;
use twe_base::{List, Memory};

/// Adds so many words that are 0: the decider words of tasks that decide at no node, and the lock words of nodes that nobody has
/// locked.
pub(crate) fn add_zeros(words: &mut List<u64>, count: usize) -> Result<(), Memory>
    ensures { OnOk result (words.new ≡ words.old ++ replicate count 0) }
{
    for i in 0..count {
        words.push(0)?;
    }
    Ok(())
}

/// The slots of tasks, if so many may be made, and behind them those of nodes.
pub(crate) fn tree_slots(
    alloc: Global,
    tasks: List<TaskRow>,
    count: u32,
    contents: List<NodeContent>,
) -> Result<List<TreeSlot>, Memory>
    requires { length tasks ≤ count }
    ensures { IfOk result (λ slots. slots ≡ (map kinds.Task (map held_slot tasks)
        ++ map kinds.Task (replicate (count - length tasks) None)) ++ map kinds.Node contents) }
{
    let unmade = count - tasks.len() as u32;
    let mut slots = Vec::with_capacity(alloc, count as usize + contents.len())?;
    add_made(alloc, &mut slots, tasks)?;
    add_empty(&mut slots, unmade)?;
    add_nodes(&mut slots, contents)?;
    Ok(List::from(slots))
}

/// Adds the slots of tasks that were made.
fn add_made(alloc: Global, slots: &mut Vec<TreeSlot>, tasks: List<TaskRow>) -> Result<(), Memory>
    ensures { OnOk result (slots.new.items ≡ slots.old.items ++ map kinds.Task (map held_slot tasks)) }
{
    for row in tasks.into_vec() {
        let slot = KeptSlot::new(alloc, slot_of(row))?;
        slots.reserve(1)?;
        slots.push_reserved(TreeSlot::Task(Some(slot)));
    }
    Ok(())
}

/// Adds the slots of so many tasks that are not made.
fn add_empty(slots: &mut Vec<TreeSlot>, count: u32) -> Result<(), Memory>
    ensures { OnOk result (slots.new.items ≡ slots.old.items ++ map kinds.Task (replicate count None)) }
{
    for i in 0..count {
        slots.reserve(1)?;
        slots.push_reserved(TreeSlot::Task(None));
    }
    Ok(())
}

/// Adds the slots of nodes.
fn add_nodes(slots: &mut Vec<TreeSlot>, contents: List<NodeContent>) -> Result<(), Memory>
    ensures { OnOk result (slots.new.items ≡ slots.old.items ++ map kinds.Node contents) }
{
    for content in contents.into_vec() {
        slots.reserve(1)?;
        slots.push_reserved(TreeSlot::Node(content));
    }
    Ok(())
}
