//! What a worker does at the place of an errand, whose content it has in hand.
//!
//! On an errand for an admission it looks at the records there (`look_around`), and if the effect has a wildcard, at those below
//! too (`walk_around`). On an errand that places a record it puts it there (`put`), and on one that removes it, it takes it out
//! (`take_out`). Each of them gives the place back, but for a look that finds no bar.
ghost use Rattle.std.specs.Prelude.{◌≡◌, ◌≢◌, ◌<◌, ℕ, List, [], ◌∷◌, IfErr, IfOk, IsFalse, IsTrue, None, length};
ghost use Rattle.effect_tree.specs.Place.{IsSolid};
ghost use Rattle.floor_laws.specs.declared.table.view.SeatKind.TheVariants.{Spent};
ghost use Rattle.floor_laws.specs.admission.admission_core.States.{IsAmong};
ghost use Rattle.floor_laws.specs.declared.table.nodes.slot.ErrandKind.TheVariants.{Admission, Removal};
ghost use Rattle.floor_laws.specs.declared.table.nodes.slot.TreeSlot as slots;
ghost use Rattle.floor_laws.specs.declared.table.nodes.view.TreeView.{TreeView};
ghost use Rattle.floor_laws.specs.table.nodes.Deciders.{AllWaitFor};
ghost use Rattle.floor_laws.specs.table.nodes.Seats.{HasOwn};
ghost use Rattle.floor_laws.specs.table.nodes.TreeOf.{content_in};
ghost use Rattle.tree_admit.specs.Bars.{WasBarred};
ghost use Rattle.tree_admit.specs.Descents.{HasTakenOut, HasTried, MayLookAround, MayPut, MayTakeOutOf, walking};
ghost use Rattle.tree_admit.specs.Errands.{KnowsErrand, record_of};
ghost use Rattle.tree_admit.specs.Going.{HasLeft, HasNode};

use crate::bars::{Attempt, Bar};
use crate::footing::Footing;
use crate::testing::look_at;
use crate::walks::walk_below;
use crate::ways::is_solid;
use effect_sets::Effect;
use effect_tree::Shape;
use floor_laws::table::Named;
use floor_laws::table::nodes::{Errand, ErrandKind, NodeContent, NodeRecord, Planted};
use std::sync::Wait;
use task_floor::{Floor, Stand};
use twe_base::Memory;

/// Whether the record of an errand stands at its place, whose content this is. `unplaced` says that it is known not to stand:
/// then it is not looked for.
fn stands(content: &NodeContent, errand: Errand, effect: &Effect, unplaced: bool) -> bool
    requires { IsTrue unplaced → ¬ IsAmong (record_of errand effect.now) content.now }
    ensures there { IsTrue result → IsAmong (record_of errand effect.now) content.now }
    ensures missing { IsFalse result → ¬ IsAmong (record_of errand effect.now) content.now }
{
    if unplaced {
        return false;
    }
    content.has(errand.task, effect, errand.place)
}

/// Places the record of an errand at its place, whose content this is, and comes back. `decides` says whether the tasks of all
/// records there are known to wait for the task: then it decides there for those before it. If the record stands there already,
/// or if memory runs out, it comes back and leaves the content as it was. `unplaced` says that it is known not to stand.
pub(crate) fn put<N: Named + Planted>(
    floor: &Floor<N>,
    stand: &mut Stand,
    worker: u32,
    errand: Errand,
    effect: &Effect,
    mut content: NodeContent,
    mine: NodeRecord,
    decides: bool,
    unplaced: bool,
) -> Result<Attempt, Memory>
    requires here { stand.old.table_id ≡ floor.now }
    requires node { errand.place < length N.nodes }
    requires worker { worker ≡ stand.old.me.0.floor.worker }
    requires mine { mine ≡ record_of errand effect.now }
    requires decides { IsTrue decides → AllWaitFor stand.old.me.0.waits errand.task content }
    requires unplaced { IsTrue unplaced → ¬ IsAmong (record_of errand effect.now) content }
    requires may { (earlier : TreeView) × (rest : List (ℕ × slots.TreeSlot)) × (done : List ℕ)
        × MayPut N.nodes N.lim earlier rest errand effect.now done content stand.old.me }
    ensures tried { (earlier : TreeView) (rest : List (ℕ × slots.TreeSlot)) (done : List ℕ)
        → MayPut N.nodes N.lim earlier rest errand effect.now done content stand.old.me
        → IfOk result (λ attempt. HasTried N.prog N.lim earlier rest errand effect.now attempt stand.new.me) }
    ensures failed { (earlier : TreeView) (rest : List (ℕ × slots.TreeSlot)) (done : List ℕ)
        → MayPut N.nodes N.lim earlier rest errand effect.now done content stand.old.me
        → IfErr result (λ _. HasLeft earlier rest None stand.new.me) }
    ensures same { (stand.new.table_id ≡ stand.old.table_id) × (stand.new.id ≡ stand.old.id) }
{
    if stands(&content, errand, effect, unplaced) {
        floor.back_out(stand, errand.place, content);
        return Ok(Attempt::Stood);
    }
    match content.add(mine) {
        Ok(()) => {
            floor.mark_placed(stand, worker, errand.task, errand.place, decides);
            floor.back_out(stand, errand.place, content);
            Ok(Attempt::Placed)
        }
        Err(memory) => {
            floor.back_out(stand, errand.place, content);
            Err(memory)
        }
    }
}

/// Takes the record of an errand out at its place, whose content this is, and comes back. Returns whether the record was there.
/// In both cases the stand knows that it does not stand.
pub(crate) fn take_out<N: Named + Planted>(
    floor: &Floor<N>,
    stand: &mut Stand,
    worker: u32,
    errand: Errand,
    effect: &Effect,
    mut content: NodeContent,
) -> bool
    requires here { stand.old.table_id ≡ floor.now }
    requires node { errand.place < length N.nodes }
    requires worker { worker ≡ stand.old.me.0.floor.worker }
    requires kind { errand.kind ≡ Removal }
    requires may { (earlier : TreeView) × (rest : List (ℕ × slots.TreeSlot)) × (done : List ℕ)
        × (knows : KnowsErrand N.nodes earlier errand effect.now) × MayTakeOutOf knows.turn
        × HasNode N.lim earlier rest (walking errand effect.now (errand.place ∷ []) done) errand.place content stand.old.me
        × (content_in earlier.kept errand.place ≡ None) × HasOwn earlier errand.place content }
    ensures taken { (earlier : TreeView) (rest : List (ℕ × slots.TreeSlot)) (done : List ℕ)
        → (knows : KnowsErrand N.nodes earlier errand effect.now) → MayTakeOutOf knows.turn
        → HasNode N.lim earlier rest (walking errand effect.now (errand.place ∷ []) done) errand.place content stand.old.me
        → content_in earlier.kept errand.place ≡ None → HasOwn earlier errand.place content
        → HasTakenOut earlier rest errand effect.now result stand.new.me }
    ensures same { (stand.new.table_id ≡ stand.old.table_id) × (stand.new.id ≡ stand.old.id) }
{
    if content.remove(errand.task, effect, errand.place) {
        floor.mark_removed(stand, worker, errand.place);
        floor.back_out(stand, errand.place, content);
        true
    } else {
        floor.mark_clear(stand, worker, errand.place);
        floor.back_out(stand, errand.place, content);
        false
    }
}

/// Whether an errand for this effect has to look at what stands below the place: it is for an admission, and the effect has a
/// wildcard.
fn goes_below(errand: Errand, effect: &Effect) -> bool
    ensures walks { IsTrue result → (errand.kind ≡ Admission) × (¬ IsSolid effect.now.path) }
    ensures stays { IsFalse result → errand.kind ≡ Admission → IsSolid effect.now.path }
{
    match errand.kind {
        ErrandKind::Admission => !is_solid(&effect.path),
        ErrandKind::Placing => false,
        ErrandKind::Removal => false,
    }
}

/// Looks at what stands at the place of an admission whose effect has a wildcard, and below it. The content of the place is this,
/// and the stand may place the record then. If a record is a bar, it comes back.
fn walk_around<N: Named + Planted, R: Wait>(
    rt: &R,
    floor: &Floor<N>,
    shape: &Shape,
    stand: &mut Stand,
    footing: Footing,
    errand: Errand,
    effect: &Effect,
    content: NodeContent,
) -> Result<(NodeContent, bool), Bar>
    requires kind { errand.kind ≡ Admission }
    requires wild { ¬ IsSolid effect.now.path }
    requires here { stand.old.table_id ≡ floor.now }
    requires live { stand.old.me.0.floor.kind ≢ Spent }
    requires shape { shape.now ≡ N.nodes }
    requires worker { footing.worker ≡ stand.old.me.0.floor.worker }
    requires tasks { footing.tasks ≡ N.lim.tasks }
    requires node { errand.place < length N.nodes }
    requires may { (earlier : TreeView) × (rest : List (ℕ × slots.TreeSlot))
        × MayLookAround N.nodes N.lim earlier rest errand effect.now content stand.old.me }
    ensures ready { (earlier : TreeView) (rest : List (ℕ × slots.TreeSlot))
        → MayLookAround N.nodes N.lim earlier rest errand effect.now content stand.old.me
        → IfOk result (λ seen. (done : List ℕ)
        × MayPut N.nodes N.lim earlier rest errand effect.now done seen.0 stand.new.me) }
    ensures wait { IfOk result (λ seen. IsFalse seen.1) }
    ensures barred { (earlier : TreeView) (rest : List (ℕ × slots.TreeSlot))
        → MayLookAround N.nodes N.lim earlier rest errand effect.now content stand.old.me
        → IfErr result (λ bar. HasLeft earlier rest None stand.new.me × (errand.kind ≡ Admission)
        × WasBarred N.prog N.lim earlier stand.new.me.0 errand.task effect.now bar) }
    ensures same { (stand.new.table_id ≡ stand.old.table_id) × (stand.new.id ≡ stand.old.id) }
{
    match walk_below(
        rt,
        floor,
        shape,
        stand,
        footing,
        errand,
        effect,
        errand.place,
        content,
    ) {
        Ok(content) => Ok((content, false)),
        Err(bar) => Err(bar),
    }
}

/// Looks at what stands at the place of an errand, whose content this is, and below it if that matters. Returns the content of
/// the place, at which the stand may place the record then, and whether the tasks of all records there are known to wait for the
/// task. If a record is a bar, it comes back.
pub(crate) fn look_around<N: Named + Planted, R: Wait>(
    rt: &R,
    floor: &Floor<N>,
    shape: &Shape,
    stand: &mut Stand,
    footing: Footing,
    errand: Errand,
    effect: &Effect,
    content: NodeContent,
) -> Result<(NodeContent, bool), Bar>
    requires here { stand.old.table_id ≡ floor.now }
    requires live { stand.old.me.0.floor.kind ≢ Spent }
    requires shape { shape.now ≡ N.nodes }
    requires worker { footing.worker ≡ stand.old.me.0.floor.worker }
    requires tasks { footing.tasks ≡ N.lim.tasks }
    requires node { errand.place < length N.nodes }
    requires may { (earlier : TreeView) × (rest : List (ℕ × slots.TreeSlot))
        × MayLookAround N.nodes N.lim earlier rest errand effect.now content stand.old.me }
    ensures ready { (earlier : TreeView) (rest : List (ℕ × slots.TreeSlot))
        → MayLookAround N.nodes N.lim earlier rest errand effect.now content stand.old.me
        → IfOk result (λ seen. (done : List ℕ)
        × MayPut N.nodes N.lim earlier rest errand effect.now done seen.0 stand.new.me) }
    ensures wait { IfOk result (λ seen. IsTrue seen.1 → AllWaitFor stand.new.me.0.waits errand.task seen.0) }
    ensures barred { (earlier : TreeView) (rest : List (ℕ × slots.TreeSlot))
        → MayLookAround N.nodes N.lim earlier rest errand effect.now content stand.old.me
        → IfErr result (λ bar. HasLeft earlier rest None stand.new.me × (errand.kind ≡ Admission)
        × WasBarred N.prog N.lim earlier stand.new.me.0 errand.task effect.now bar) }
    ensures same { (stand.new.table_id ≡ stand.old.table_id) × (stand.new.id ≡ stand.old.id) }
{
    if goes_below(errand, effect) {
        return walk_around(rt, floor, shape, stand, footing, errand, effect, content);
    }
    match look_at(
        floor,
        stand,
        footing.tasks,
        errand,
        effect,
        errand.place,
        &content,
    ) {
        Ok(decides) => Ok((content, decides)),
        Err(bar) => {
            floor.back_out(stand, errand.place, content);
            Err(bar)
        }
    }
}
