//! What lies in the slot of a node: the records that stand there.
ghost use Rattle.std.specs.Prelude.{◌≡◌, ◌↔◌, ◌<◌, [], ◌∷◌, IfSome, IsNone, IsTrue, OnOk, OnErr, Some, length, option_copied, reverse, slice_get};
ghost use Rattle.std.specs.List.{list_any};
ghost use Rattle.floor_laws.specs.admission.admission_core.States.{IsAmong};
ghost use Rattle.floor_laws.specs.rule.nodes.Fitting.{IsDistinct};
ghost use Rattle.floor_laws.specs.table.nodes.Without.{same_record, without_record};

use crate::table::nodes::record::NodeRecord;
use effect_sets::Effect;
use std::alloc::Global;
use std::marker::Model;
use twe_base::Memory;

/// The records that stand at a node, the latest first. No record is there twice.
#[derive(Debug, Drop)]
pub struct NodeContent {
    // The latest is the last.
    records: Vec<NodeRecord>,
}

impl Model for NodeContent {
    ghost use Rattle.std.specs.Prelude.{List, reverse};
    ghost use Rattle.floor_laws.specs.admission.admission_core.States.{Record};
    ghost use Rattle.floor_laws.specs.rule.nodes.Fitting.{IsDistinct};

    ghost Value = { List Record };

    ghost view = { λ content. reverse content.records.items };

    ghost invariant = { λ content. IsDistinct content.records.items };
}

/// Where the record of this effect of that task, at that node, is, if it is there. The last is looked at first.
fn place_of(records: &[NodeRecord], task: u32, effect: &Effect, node: u32) -> Option<usize>
    ensures there { IfSome result (λ at. (at < length records.now)
        × (slice_get records.now at ≡ Some (record { task = task; effect = effect.now; node = node }))) }
    ensures none { IsNone result → ¬ IsAmong (record { task = task; effect = effect.now; node = node }) records.now }
{
    let mut at = records.len();
    while at > 0 {
        at -= 1;
        let r = &records[at];
        if r.is_of(task, effect, node) {
            return Some(at);
        }
    }
    None
}

/// Removes the record of this effect of that task, at that node, and returns whether it was there. The others stay in order.
fn remove_record(records: &mut Vec<NodeRecord>, task: u32, effect: &Effect, node: u32) -> bool
    requires { IsDistinct records.old.items }
    ensures found { IsTrue result ↔ IsAmong (record { task = task; effect = effect.now; node = node }) records.old.items }
    ensures rest { records.new.items
        ≡ without_record (record { task = task; effect = effect.now; node = node }) records.old.items }
{
    let Some(at) = place_of(records.as_slice(), task, effect, node) else {
        return false;
    };
    let _ = records.remove(at);
    true
}

/// Whether the record of this effect of that task, at that node, is there. The last is looked at first.
fn has_record(records: &[NodeRecord], task: u32, effect: &Effect, node: u32) -> bool
    ensures { result
        ≡ list_any (λ r. same_record r (record { task = task; effect = effect.now; node = node })) (reverse records.now) }
{
    records.iter().rev().any(|r| r.is_of(task, effect, node))
}

/// The record at this index.
fn record_from_start(records: &[NodeRecord], at: usize) -> Option<&NodeRecord>
    ensures { option_copied result ≡ slice_get records.now at }
{
    records.get(at)
}

/// The record at this index, counted from the last one.
fn record_at(records: &[NodeRecord], at: usize) -> Option<&NodeRecord>
    ensures { option_copied result ≡ slice_get (reverse records.now) at }
{
    if at < records.len() {
        record_from_start(records, records.len() - 1 - at)
    } else {
        None
    }
}

impl NodeContent {
    /// No records. It takes no memory.
    pub fn new(alloc: Global) -> Self
        ensures { result ≡ [] }
    {
        NodeContent {
            records: Vec::new(alloc),
        }
    }

    /// Adds a record, which is not there, in front of the others. If memory runs out, nothing changes, and the record is dropped.
    pub fn add(&mut self, added: NodeRecord) -> Result<(), Memory>
        requires { ¬ IsAmong added self.old }
        ensures ok { OnOk result (self.new ≡ added ∷ self.old) }
        ensures err { OnErr result (self.new ≡ self.old) }
    {
        self.records.push(added)?;
        Ok(())
    }

    /// Removes the record of this effect of that task, at that node, and returns whether it was there. The others stay in order.
    /// The latest are looked at first, and only those are moved that are later than the record. It takes no memory.
    pub fn remove(&mut self, task: u32, effect: &Effect, node: u32) -> bool
        ensures found { IsTrue result ↔ IsAmong (record { task = task; effect = effect.now; node = node }) self.old }
        ensures rest { self.new ≡ without_record (record { task = task; effect = effect.now; node = node }) self.old }
    {
        remove_record(&mut self.records, task, effect, node)
    }

    /// How many records there are.
    pub fn len(&self) -> usize
        ensures { result ≡ length self.now }
    {
        self.records.len()
    }

    /// The record at index `at`, counted from 0 at the latest, or `None` if there is no such record.
    pub fn get(&self, at: usize) -> Option<&NodeRecord>
        ensures { option_copied result ≡ slice_get self.now at }
    {
        record_at(self.records.as_slice(), at)
    }

    /// Whether the record of this effect of that task, at that node, is there.
    pub fn has(&self, task: u32, effect: &Effect, node: u32) -> bool
        ensures { result ≡ list_any (λ r. same_record r (record { task = task; effect = effect.now; node = node })) self.now }
    {
        has_record(self.records.as_slice(), task, effect, node)
    }
}
