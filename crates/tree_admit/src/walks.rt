//! Walking through the nodes below a place. Whoever admits a task with a wildcard in an effect looks at the records there too,
//! since the effect may meet what stands below its place. Where it cannot, the walk does not go.
ghost use Rattle.std.specs.Prelude.{◌≡◌, ◌≢◌, ◌<◌, ℕ, List, IfErr, IfOk, ◌∷◌, length};
ghost use Rattle.effect_tree.specs.Place.{IsSolid};
ghost use Rattle.floor_laws.specs.declared.table.view.SeatKind.TheVariants.{Spent};
ghost use Rattle.floor_laws.specs.declared.table.nodes.slot.ErrandKind.TheVariants.{Admission};
ghost use Rattle.floor_laws.specs.declared.table.nodes.slot.TreeSlot as slots;
ghost use Rattle.floor_laws.specs.declared.table.nodes.view.TreeView.{TreeView};
ghost use Rattle.floor_laws.specs.table.nodes.Seats.{left_to_give};
ghost use Rattle.tree_admit.specs.Bars.{WasBarred};
ghost use Rattle.tree_admit.specs.Descents.{HasWalkedBelow, MayWalkBelow, walking};
ghost use Rattle.tree_admit.specs.Going.{HasLeft};

use crate::bars::Bar;
use crate::footing::Footing;
use crate::locking::take_child;
use crate::testing::look_at;
use crate::ways::reached_below;
use effect_sets::Effect;
use effect_tree::Shape;
use floor_laws::table::Named;
use floor_laws::table::nodes::{Errand, NodeContent, Planted};
use std::sync::Wait;
use task_floor::{Floor, Stand};

/// Looks at the records at a node, whose content this is, and walks through the nodes below it: it locks each child that the
/// effect may reach, walks below it and leaves it, and passes by those at which nothing stands. Returns the content of the
/// node, which the stand holds still. If a record is a bar, it gives the node back.
pub(crate) fn walk_below<N: Named + Planted, R: Wait>(
    rt: &R,
    floor: &Floor<N>,
    shape: &Shape,
    stand: &mut Stand,
    footing: Footing,
    errand: Errand,
    effect: &Effect,
    node: u32,
    content: NodeContent,
) -> Result<NodeContent, Bar>
    requires here { stand.old.table_id ≡ floor.now }
    requires live { stand.old.me.0.floor.kind ≢ Spent }
    requires shape { shape.now ≡ N.nodes }
    requires worker { footing.worker ≡ stand.old.me.0.floor.worker }
    requires tasks { footing.tasks ≡ N.lim.tasks }
    requires node { node < length N.nodes }
    requires kind { errand.kind ≡ Admission }
    requires wild { ¬ IsSolid effect.now.path }
    requires may { (earlier : TreeView) × (rest : List (ℕ × slots.TreeSlot)) × (stack : List ℕ) × (done : List ℕ)
        × MayWalkBelow N.nodes N.lim earlier rest errand effect.now node stack done content stand.old.me }
    ensures walked { (earlier : TreeView) (rest : List (ℕ × slots.TreeSlot)) (stack done : List ℕ)
        → MayWalkBelow N.nodes N.lim earlier rest errand effect.now node stack done content stand.old.me
        → IfOk result (λ after. HasWalkedBelow N.nodes N.lim earlier rest errand effect.now node stack done after stand.new.me) }
    ensures barred { (earlier : TreeView) (rest : List (ℕ × slots.TreeSlot)) (stack done : List ℕ)
        → MayWalkBelow N.nodes N.lim earlier rest errand effect.now node stack done content stand.old.me
        → IfErr result (λ bar.
        HasLeft earlier rest (left_to_give (walking errand effect.now (node ∷ stack) done) stack) stand.new.me
        × WasBarred N.prog N.lim earlier stand.new.me.0 errand.task effect.now bar) }
    ensures unchanged { IfOk result (λ after. after ≡ content) }
    ensures same { (stand.new.table_id ≡ stand.old.table_id) × (stand.new.id ≡ stand.old.id) }
{
    let _count = shape.nodes();
    match look_at(floor, stand, footing.tasks, errand, effect, node, &content) {
        Ok(_) => {}
        Err(bar) => {
            floor.back_out(stand, node, content);
            return Err(bar);
        }
    }
    let children = reached_below(shape, node, effect);
    for at in 0..children.len() {
        let child = children[at];
        let Some(below) = take_child(rt, floor, shape, stand, footing.worker, child) else {
            continue;
        };
        match walk_below(
            rt, floor, shape, stand, footing, errand, effect, child, below,
        ) {
            Ok(below) => floor.leave(stand, child, below),
            Err(bar) => {
                floor.back_out(stand, node, content);
                return Err(bar);
            }
        }
    }
    Ok(content)
}
