//! The records of the enabled tasks, with which the nodes of a floor start.
ghost use Rattle.std.specs.Prelude.{◌≡◌, ◌≤◌, ◌<◌, ◌^◌, ◌++◌, ℕ, List, length, IfOk, OnOk};
ghost use Rattle.std.specs.List.{list_any};
ghost use Rattle.floor_laws.specs.admission.admission_core.States.{IsPlaceOf, Record};
ghost use Rattle.floor_laws.specs.rule.nodes.Starts.{AreOfEnabled};
ghost use Rattle.floor_laws.specs.table.nodes.Without.{same_record};
ghost use Rattle.task_floor.specs.inner.Recording.{AreRecordsOf, live_effects, with_record};

use effect_sets::Effect;
use effect_tree::Shape;
use floor_laws::table::nodes::NodeRecord;
use machine_state::{State, TaskRow, TaskStatus};
use std::alloc::Global;
use twe_base::{List, Memory};

/// A record for each effect of each enabled task, at the effect's place.
pub(crate) fn records_of(
    alloc: Global,
    shape: &Shape,
    st: &State,
) -> Result<List<NodeRecord>, Memory>
    requires { length st.now.tasks < 2 ^ 32 }
    ensures { IfOk result (AreOfEnabled shape.now st.now) }
{
    let mut records = List::new(alloc);
    for (t, row) in st.tasks.as_slice().iter().enumerate() {
        add_row(alloc, &mut records, shape, t as u32, row)?;
    }
    Ok(records)
}

/// Adds the records of task `t`, which has this row, if it is enabled.
fn add_row(
    alloc: Global,
    records: &mut List<NodeRecord>,
    shape: &Shape,
    t: u32,
    row: &TaskRow,
) -> Result<(), Memory>
    ensures { OnOk result ((more : List Record) × (records.new ≡ records.old ++ more)
        × AreRecordsOf shape.now t (live_effects row.now) more) }
{
    match row.status {
        TaskStatus::Enabled => add_effects(
            alloc,
            records,
            shape,
            t,
            row.effects.effects.as_slice(),
        ),
        TaskStatus::Made => Ok(()),
        TaskStatus::Done => Ok(()),
        TaskStatus::Faulted => Ok(()),
    }
}

/// Adds the records of task `t`, which has these effects.
fn add_effects(
    alloc: Global,
    records: &mut List<NodeRecord>,
    shape: &Shape,
    t: u32,
    effects: &[Effect],
) -> Result<(), Memory>
    ensures { OnOk result ((more : List Record) × (records.new ≡ records.old ++ more)
        × AreRecordsOf shape.now t effects.now more) }
{
    let start = records.len();
    for effect in effects {
        add_record(alloc, records, start, shape, t, effect)?;
    }
    Ok(())
}

/// Adds the record of this effect of task `t`, unless it is among those from `start` on: a task may have an effect twice.
fn add_record(
    alloc: Global,
    records: &mut List<NodeRecord>,
    start: usize,
    shape: &Shape,
    t: u32,
    effect: &Effect,
) -> Result<(), Memory>
    requires { start ≤ length records.old }
    ensures { OnOk result ((n : ℕ) × IsPlaceOf shape.now effect.now n
        × (records.new ≡ with_record start (record { task = t; effect = effect.now; node = n }) records.old)) }
{
    let node = shape.place(&effect.path);
    if has_record(&records.as_slice()[start..], t, effect, node) {
        return Ok(());
    }
    records.push(NodeRecord::new(t, effect.copy(alloc)?, node))
}

/// Whether the record of this effect of task `t` is among these.
fn has_record(records: &[NodeRecord], t: u32, effect: &Effect, node: u32) -> bool
    ensures { result
        ≡ list_any (λ (r : Record). same_record r (record { task = t; effect = effect.now; node = node })) records.now }
{
    records.iter().any(|r| r.is_of(t, effect, node))
}
