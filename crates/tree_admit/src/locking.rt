//! Locking a node, however often one has to try. Who has a lock in the tree waits for none above it, so no locks wait for one
//! another in a circle. But a lock may be kept for long: a walk below a wildcard keeps its place locked while it goes through all
//! nodes below. No clause says any of this.
ghost use Rattle.std.specs.Prelude.{◌≡◌, ◌<◌, ℕ, IfSome, IsFalse, IsNone, IsTrue, length};
ghost use Rattle.prefix_tree.specs.Nodes.{IsParent};
ghost use mathlib.Core.Option.{none, some};
ghost use Rattle.floor_laws.specs.admission.admission_core.States.{Activity};
ghost use Rattle.floor_laws.specs.declared.table.nodes.slot.TreeSlot.TheVariants as kinds;
ghost use Rattle.floor_laws.specs.table.nodes.Seats.{HasOwn, MayLock, MayPass, passed_view};
ghost use Rattle.tree_admit.specs.Going.{HasLocked};

use crate::ways::has_children;
use effect_tree::Shape;
use floor_laws::table::Named;
use floor_laws::table::nodes::{Errand, NodeContent, Planted};
use std::sync::Wait;
use std::thread;
use task_floor::{Floor, Stand};

/// Locks the root for an errand, and returns its content.
pub(crate) fn lock_root<N: Named + Planted, R: Wait>(
    rt: &R,
    floor: &Floor<N>,
    stand: &mut Stand,
    worker: u32,
    errand: Errand,
) -> NodeContent
    requires here { stand.old.table_id ≡ floor.now }
    requires root { 0 < length N.nodes }
    requires worker { worker ≡ stand.old.me.0.floor.worker }
    requires may { (next : Activity) × MayLock N.nodes stand.old.me.0 (some (kinds.Errand errand)) 0 next }
    ensures locked { (next : Activity) → MayLock N.nodes stand.old.me.0 (some (kinds.Errand errand)) 0 next
        → HasLocked N.lim stand.old.me 0 next result stand.new.me }
    ensures own { HasOwn stand.old.me.0 0 result }
    ensures same { (stand.new.table_id ≡ stand.old.table_id) × (stand.new.id ≡ stand.old.id) }
{
    for _ in rt.forever() {
        if floor.enter(stand, worker, errand) {
            return floor.take_content(stand, 0);
        }
        thread::yield_now();
    }
    unreachable!()
}

/// Locks a node whose parent the stand holds, and returns its content.
pub(crate) fn lock_child<N: Named + Planted, R: Wait>(
    rt: &R,
    floor: &Floor<N>,
    stand: &mut Stand,
    worker: u32,
    node: u32,
) -> NodeContent
    requires here { stand.old.table_id ≡ floor.now }
    requires node { node < length N.nodes }
    requires worker { worker ≡ stand.old.me.0.floor.worker }
    requires may { (next : Activity) × MayLock N.nodes stand.old.me.0 none node next }
    ensures locked { (next : Activity) → MayLock N.nodes stand.old.me.0 none node next
        → HasLocked N.lim stand.old.me node next result stand.new.me }
    ensures own { HasOwn stand.old.me.0 node result }
    ensures same { (stand.new.table_id ≡ stand.old.table_id) × (stand.new.id ≡ stand.old.id) }
{
    for _ in rt.forever() {
        if floor.go_down(stand, worker, node) {
            return floor.take_content(stand, node);
        }
        thread::yield_now();
    }
    unreachable!()
}

/// Passes by a node below the last one of the stand's walk, if it has no children and no record lies there. Returns whether
/// it has.
fn passes_bare<N: Named + Planted>(
    floor: &Floor<N>,
    shape: &Shape,
    stand: &mut Stand,
    node: u32,
) -> bool
    requires here { stand.old.table_id ≡ floor.now }
    requires shape { shape.now ≡ N.nodes }
    requires node { node < length N.nodes }
    requires may { ((m : ℕ) → ¬ IsParent N.nodes node m) → (next : Activity) × MayPass N.nodes stand.old.me.0 node next }
    ensures lowest { IsTrue result → (m : ℕ) → ¬ IsParent N.nodes node m }
    ensures passed { IsTrue result → (next : Activity) → MayPass N.nodes stand.old.me.0 node next
        → stand.new.me ≡ (passed_view stand.old.me.0 next, stand.old.me.1) }
    ensures missed { IsFalse result → stand.new.me ≡ stand.old.me }
    ensures same { (stand.new.table_id ≡ stand.old.table_id) × (stand.new.id ≡ stand.old.id) }
{
    if has_children(shape, node) {
        return false;
    }
    floor.pass_by(stand, node)
}

/// Takes a node right below the last one of the stand's walk: passes by it if it has no children and no record lies there, and
/// otherwise locks it and returns its content.
pub(crate) fn take_child<N: Named + Planted, R: Wait>(
    rt: &R,
    floor: &Floor<N>,
    shape: &Shape,
    stand: &mut Stand,
    worker: u32,
    node: u32,
) -> Option<NodeContent>
    requires here { stand.old.table_id ≡ floor.now }
    requires shape { shape.now ≡ N.nodes }
    requires node { node < length N.nodes }
    requires worker { worker ≡ stand.old.me.0.floor.worker }
    requires may { (next : Activity) × MayLock N.nodes stand.old.me.0 none node next }
    requires may_pass { ((m : ℕ) → ¬ IsParent N.nodes node m) → (next : Activity) × MayPass N.nodes stand.old.me.0 node next }
    ensures locked { (next : Activity) → MayLock N.nodes stand.old.me.0 none node next
        → IfSome result (λ content. HasLocked N.lim stand.old.me node next content stand.new.me) }
    ensures lowest { IsNone result → (m : ℕ) → ¬ IsParent N.nodes node m }
    ensures passed { IsNone result → (next : Activity) → MayPass N.nodes stand.old.me.0 node next
        → stand.new.me ≡ (passed_view stand.old.me.0 next, stand.old.me.1) }
    ensures same { (stand.new.table_id ≡ stand.old.table_id) × (stand.new.id ≡ stand.old.id) }
{
    if passes_bare(floor, shape, stand, node) {
        return None;
    }
    Some(lock_child(rt, floor, stand, worker, node))
}
