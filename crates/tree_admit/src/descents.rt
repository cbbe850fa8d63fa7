//! Going down from the root to the place of an effect, hand over hand.
ghost use Rattle.std.specs.Prelude.{◌≡◌, ◌≢◌, ◌<◌, ℕ, List, None, IfErr, IfOk, length};
ghost use Rattle.floor_laws.specs.declared.table.view.SeatKind.TheVariants.{Spent};
ghost use Rattle.floor_laws.specs.admission.admission_core.States.{Activity};
ghost use Rattle.floor_laws.specs.declared.table.nodes.slot.ErrandKind.TheVariants.{Admission};
ghost use Rattle.floor_laws.specs.declared.table.nodes.slot.TreeSlot as slots;
ghost use Rattle.floor_laws.specs.declared.table.nodes.view.TreeView.{TreeView};
ghost use Rattle.floor_laws.specs.table.nodes.Seats.{HasOwn};
ghost use Rattle.tree_admit.specs.Bars.{WasBarred};
ghost use Rattle.tree_admit.specs.Descents.{MayStepDown};
ghost use Rattle.tree_admit.specs.Errands.{KnowsErrand, errand_at};
ghost use Rattle.floor_laws.specs.table.nodes.Seats.{stage_at};
ghost use Rattle.tree_admit.specs.Going.{HasLeft, HasNode, IsOutside};

use crate::bars::Bar;
use crate::footing::Footing;
use crate::locking::{lock_child, lock_root};
use crate::testing::look_at;
use crate::ways::next_toward;
use effect_sets::Effect;
use effect_tree::Shape;
use floor_laws::table::Named;
use floor_laws::table::nodes::{Errand, NodeContent, Planted};
use std::sync::Wait;
use task_floor::{Floor, Stand};

/// Goes from a node, whose content is this, to a child on the way to its place: locks the child and then leaves the node. Returns
/// the content of the child.
pub(crate) fn step_down<N: Named + Planted, R: Wait>(
    rt: &R,
    floor: &Floor<N>,
    stand: &mut Stand,
    footing: Footing,
    node: u32,
    content: NodeContent,
    child: u32,
) -> NodeContent
    requires here { stand.old.table_id ≡ floor.now }
    requires nodes { (node < length N.nodes) × (child < length N.nodes) }
    requires worker { footing.worker ≡ stand.old.me.0.floor.worker }
    requires may { (earlier : TreeView) × (rest : List (ℕ × slots.TreeSlot)) × (a : Activity) × (footing.slots ≡ length rest)
        × MayStepDown N.nodes N.lim earlier rest a node content child stand.old.me }
    ensures came { (earlier : TreeView) (rest : List (ℕ × slots.TreeSlot)) (a : Activity) → footing.slots ≡ length rest
        → MayStepDown N.nodes N.lim earlier rest a node content child stand.old.me
        → HasNode N.lim earlier rest (record a { stage = stage_at a.place child }) child result stand.new.me }
    ensures own { HasOwn stand.old.me.0 child result }
    ensures same { (stand.new.table_id ≡ stand.old.table_id) × (stand.new.id ≡ stand.old.id) }
{
    let below = lock_child(rt, floor, stand, footing.worker, child);
    floor.leave_parent(stand, node, content, footing.slots);
    below
}

/// Goes down from the root to the place of an errand for this effect, and returns the content of the place. Whoever admits a task
/// looks at the records at each node above the place, and comes back if one is a bar.
pub(crate) fn descend<N: Named + Planted, R: Wait>(
    rt: &R,
    floor: &Floor<N>,
    shape: &Shape,
    stand: &mut Stand,
    footing: Footing,
    errand: Errand,
    effect: &Effect,
) -> Result<NodeContent, Bar>
    requires here { stand.old.table_id ≡ floor.now }
    requires live { stand.old.me.0.floor.kind ≢ Spent }
    requires shape { shape.now ≡ N.nodes }
    requires worker { footing.worker ≡ stand.old.me.0.floor.worker }
    requires tasks { footing.tasks ≡ N.lim.tasks }
    requires slots { footing.slots ≡ length stand.old.me.1 }
    requires outside { IsOutside stand.old.me.0 }
    requires knows { KnowsErrand N.nodes stand.old.me.0 errand effect.now }
    ensures there { IfOk result (λ content. HasNode N.lim stand.old.me.0 stand.old.me.1 (errand_at errand effect.now errand.place)
        errand.place content stand.new.me) }
    ensures own { IfOk result (λ content. HasOwn stand.old.me.0 errand.place content) }
    ensures barred { IfErr result (λ bar. HasLeft stand.old.me.0 stand.old.me.1 None stand.new.me × (errand.kind ≡ Admission)
        × WasBarred N.prog N.lim stand.old.me.0 stand.new.me.0 errand.task effect.now bar) }
    ensures same { (stand.new.table_id ≡ stand.old.table_id) × (stand.new.id ≡ stand.old.id) }
{
    let _count = shape.nodes();
    let mut node = 0;
    let mut content = lock_root(rt, floor, stand, footing.worker, errand);
    while node != errand.place {
        match look_at(floor, stand, footing.tasks, errand, effect, node, &content) {
            Ok(_) => {}
            Err(bar) => {
                floor.back_out(stand, node, content);
                return Err(bar);
            }
        }
        let child = next_toward(shape, node, errand.place);
        content = step_down(rt, floor, stand, footing, node, content, child);
        node = child;
    }
    Ok(content)
}
