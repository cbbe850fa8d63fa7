//! What lies at the nodes of a floor that starts.
ghost use Rattle.std.specs.Prelude.{◌≡◌, ◌<◌, List, [], Some, length, replicate, slice_get, IfOk, OnOk};
ghost use Rattle.floor_laws.specs.admission.admission_core.States.{IsAmong, Record};
ghost use Rattle.floor_laws.specs.rule.nodes.Fitting.{IsDistinct};
ghost use Rattle.task_floor.specs.inner.Recording.{HoldRecords, with_added};

use floor_laws::table::nodes::{NodeContent, NodeRecord};
use std::alloc::Global;
use twe_base::{List, Memory};

/// For each of so many nodes the records that stand there, each of them once.
pub(crate) fn contents_of(
    alloc: Global,
    nodes: u32,
    records: &[NodeRecord],
) -> Result<List<NodeContent>, Memory>
    requires within { (r : Record) → IsAmong r records.now → r.node < nodes }
    requires once { IsDistinct records.now }
    ensures { IfOk result (HoldRecords nodes records.now) }
{
    let mut contents = empty_contents(alloc, nodes)?;
    for standing in records {
        add_copy(alloc, &mut contents, standing)?;
    }
    Ok(contents)
}

/// So many contents without records.
fn empty_contents(alloc: Global, nodes: u32) -> Result<List<NodeContent>, Memory>
    ensures { IfOk result (λ contents. contents ≡ replicate nodes []) }
{
    let mut contents = List::with_capacity(alloc, nodes as usize)?;
    for i in 0..nodes {
        contents.push(NodeContent::new(alloc))?;
    }
    Ok(contents)
}

/// Adds a copy of a record to what lies at its node, where it does not lie yet.
fn add_copy(
    alloc: Global,
    contents: &mut List<NodeContent>,
    standing: &NodeRecord,
) -> Result<(), Memory>
    requires node { standing.now.node < length contents.old }
    requires added { (content : List Record) → slice_get contents.old standing.now.node ≡ Some content
        → ¬ IsAmong standing.now content }
    ensures { OnOk result (contents.new ≡ with_added standing.now contents.old) }
{
    let effect = standing.effect().copy(alloc)?;
    let copy = NodeRecord::new(standing.task(), effect, standing.node());
    contents.item_mut(standing.node() as usize).add(copy)
}
