//! Looking at the records that a worker meets at a node on its way to an admission.
//!
//! A record passes for an effect of a task if it is of that task, if the two effects are apart, or if its task is known to wait for
//! the task, perhaps through others. If not, it is a bar. The records of a content stand in an order, the latest first.
//!
//! For example task 7 is to write `A`. At the node of `A` stand records of tasks 5, 3 and 2, in this order, which write `A` too. Task 2
//! waits for 3, 3 waits for 5, and 5 waits for 7. All three records pass (`records_pass`), and it is found in one of two ways:
//!
//! - Task 5 decides at the node for the records before its own, since all their tasks were known to wait for it when its record was
//!   placed. Then only the waits from 5 are followed. They lead to 7, and no other record is looked at (`undecided`).
//! - If it does not decide, the earliest record is looked at first (`first_pass`). The waits from 2 lead past 3 and 5 to 7, so the
//!   records of 3 and 5 pass with that of 2 (`record_leads`), and none is left.
//!
//! If 5 waited for nobody, the record of 2 would be a bar, and the waits from there would end at 5.
ghost use Rattle.std.specs.Prelude.{◌≡◌, ◌≢◌, ◌≤◌, ℕ, false, IfErr, IfOk, IsTrue, OnOk, Some, length};
ghost use Rattle.floor_laws.specs.declared.table.view.SeatKind.TheVariants.{Spent};
ghost use Rattle.floor_laws.specs.admission.admission_core.States.{Admit, IsAmong};
ghost use Rattle.floor_laws.specs.table.nodes.Deciders.{AllWaitFor};
ghost use Rattle.floor_laws.specs.table.nodes.Seats.{purpose_for};
ghost use Rattle.floor_laws.specs.table.nodes.TreeOf.{content_in};
ghost use Rattle.tree_admit.specs.Bars.{IsBarIn, IsBarOf};
ghost use Rattle.tree_admit.specs.Errands.{AllPass};
ghost use Rattle.tree_admit.specs.Going.{HasOnlyFollowed};
ghost use Rattle.tree_admit.specs.Passing.{EachBetween, EaseOrWaits, OwnOrWaits, is_at_ease};

use crate::bars::Bar;
use crate::chains::follow_past;
use crate::passing::{none_is_apart, passes_at_once};
use effect_sets::Effect;
use floor_laws::table::Named;
use floor_laws::table::nodes::{Errand, ErrandKind, NodeContent, NodeRecord, Planted};
use task_floor::{Floor, Stand};

/// Follows the waits from the task of the record at index `at` of a content, which is that of this node. The record does not pass
/// for an effect of a task whatever is known of waits. If they lead to that task, the stand knows it from then on, also of those
/// of which it knew that they wait for the record's task; the records before it that were passed over on the way pass too, and it
/// returns how many are left. Otherwise the record is a bar.
fn record_leads<N: Named + Planted>(
    floor: &Floor<N>,
    stand: &mut Stand,
    tasks: u32,
    task: u32,
    effect: &Effect,
    node: u32,
    content: &NodeContent,
    at: usize,
    r: &NodeRecord,
) -> Result<usize, Bar>
    requires uneasy { is_at_ease task effect.now r.now ≡ false }
    requires here { stand.old.table_id ≡ floor.now }
    requires live { stand.old.me.0.floor.kind ≢ Spent }
    requires tasks { tasks ≡ N.lim.tasks }
    requires kept { content_in stand.old.me.0.kept node ≡ Some content.now }
    requires among { IsAmong r.now content.now }
    ensures known { OnOk result (IsAmong (record { waiter = r.now.task; awaited = task }) stand.new.me.0.waits) }
    ensures others { IfOk result (λ left. (left ≤ at)
        × EachBetween (EaseOrWaits stand.new.me.0.waits task effect.now) content.now left at) }
    ensures led { OnOk result ((s : ℕ) → IsAmong (record { waiter = s; awaited = r.now.task }) stand.old.me.0.waits
        → IsAmong (record { waiter = s; awaited = task }) stand.new.me.0.waits) }
    ensures barred { IfErr result (λ bar. (bar.node ≡ node)
        × IsBarOf N.prog N.lim stand.old.me.0 stand.new.me.0 task effect.now r.now bar) }
    ensures only { HasOnlyFollowed stand.old.me stand.new.me }
    ensures same { (stand.new.table_id ≡ stand.old.table_id) × (stand.new.id ≡ stand.old.id) }
{
    let by = r.task();
    match follow_past(floor, stand, tasks, by, task, effect, content, at) {
        Ok(left) => Ok(left),
        Err(end) => Err(Bar { node, by, end }),
    }
}

/// Whether the record at index `at` of a content, which is that of this node, passes for an effect of a task. Otherwise it is a
/// bar. If it passes, so do those before it that were passed over on the way, and it returns how many are left.
fn record_passes<N: Named + Planted>(
    floor: &Floor<N>,
    stand: &mut Stand,
    tasks: u32,
    task: u32,
    effect: &Effect,
    node: u32,
    content: &NodeContent,
    at: usize,
    r: &NodeRecord,
) -> Result<usize, Bar>
    requires here { stand.old.table_id ≡ floor.now }
    requires live { stand.old.me.0.floor.kind ≢ Spent }
    requires tasks { tasks ≡ N.lim.tasks }
    requires kept { content_in stand.old.me.0.kept node ≡ Some content.now }
    requires among { IsAmong r.now content.now }
    ensures passes { OnOk result (EaseOrWaits stand.new.me.0.waits task effect.now r.now) }
    ensures others { IfOk result (λ left. (left ≤ at)
        × EachBetween (EaseOrWaits stand.new.me.0.waits task effect.now) content.now left at) }
    ensures barred { IfErr result (λ bar. (bar.node ≡ node)
        × IsBarOf N.prog N.lim stand.old.me.0 stand.new.me.0 task effect.now r.now bar) }
    ensures only { HasOnlyFollowed stand.old.me stand.new.me }
    ensures same { (stand.new.table_id ≡ stand.old.table_id) × (stand.new.id ≡ stand.old.id) }
{
    if passes_at_once(task, effect, r) {
        return Ok(at);
    }
    record_leads(floor, stand, tasks, task, effect, node, content, at, r)
}

/// How many of the latest records of a content, which is that of this node, have to be looked at for an effect of a task. Those
/// before them are of the task, or their tasks are known to wait for it: the latest record tells, if its task decides here for
/// those before it and leads to the task. If it decides and does not lead there, it is a bar.
fn undecided<N: Named + Planted>(
    floor: &Floor<N>,
    stand: &mut Stand,
    tasks: u32,
    task: u32,
    effect: &Effect,
    node: u32,
    content: &NodeContent,
) -> Result<usize, Bar>
    requires here { stand.old.table_id ≡ floor.now }
    requires live { stand.old.me.0.floor.kind ≢ Spent }
    requires tasks { tasks ≡ N.lim.tasks }
    requires kept { content_in stand.old.me.0.kept node ≡ Some content.now }
    ensures decided { IfOk result (λ first.
        EachBetween (OwnOrWaits stand.new.me.0.waits task) content.now first (length content.now)) }
    ensures barred { IfErr result (λ bar. (bar.node ≡ node)
        × IsBarIn N.prog N.lim stand.old.me.0 stand.new.me.0 task effect.now content.now bar) }
    ensures only { HasOnlyFollowed stand.old.me stand.new.me }
    ensures same { (stand.new.table_id ≡ stand.old.table_id) × (stand.new.id ≡ stand.old.id) }
{
    let count = content.len();
    let Some(r) = content.get(0) else {
        return Ok(count);
    };
    let by = r.task();
    if by >= tasks {
        return Ok(count);
    }
    if passes_at_once(task, effect, r) {
        return Ok(count);
    }
    if !floor.decides(stand, by, node) {
        return Ok(count);
    }
    match record_leads(floor, stand, tasks, task, effect, node, content, 0, r) {
        Ok(_) => Ok(0),
        Err(bar) => Err(bar),
    }
}

/// Whether the first records of a content, `first` of them, pass for an effect of a task; the content is that of this node.
/// Otherwise one of them is a bar. The earliest is looked at first: the waits from its task lead past the tasks that were
/// admitted after it, so a chain of tasks that wait for one another is followed once, however many of their records stand here.
fn first_pass<N: Named + Planted>(
    floor: &Floor<N>,
    stand: &mut Stand,
    tasks: u32,
    task: u32,
    effect: &Effect,
    node: u32,
    content: &NodeContent,
    first: usize,
) -> Result<(), Bar>
    requires here { stand.old.table_id ≡ floor.now }
    requires live { stand.old.me.0.floor.kind ≢ Spent }
    requires tasks { tasks ≡ N.lim.tasks }
    requires kept { content_in stand.old.me.0.kept node ≡ Some content.now }
    ensures passes { OnOk result (EachBetween (EaseOrWaits stand.new.me.0.waits task effect.now) content.now 0 first) }
    ensures barred { IfErr result (λ bar. (bar.node ≡ node)
        × IsBarIn N.prog N.lim stand.old.me.0 stand.new.me.0 task effect.now content.now bar) }
    ensures only { HasOnlyFollowed stand.old.me stand.new.me }
    ensures same { (stand.new.table_id ≡ stand.old.table_id) × (stand.new.id ≡ stand.old.id) }
{
    let mut left = first;
    while left > 0 {
        left -= 1;
        let Some(r) = content.get(left) else {
            continue;
        };
        match record_passes(floor, stand, tasks, task, effect, node, content, left, r) {
            Ok(rest) => left = rest,
            Err(bar) => return Err(bar),
        }
    }
    Ok(())
}

/// Whether all records of a content, which is that of this node, pass for an effect of a task. Otherwise one of them is a bar.
/// Those for which the latest one decides are not looked at. Returns whether the tasks of all records wait for the task, but for
/// its own.
fn records_pass<N: Named + Planted>(
    floor: &Floor<N>,
    stand: &mut Stand,
    tasks: u32,
    task: u32,
    effect: &Effect,
    node: u32,
    content: &NodeContent,
) -> Result<bool, Bar>
    requires here { stand.old.table_id ≡ floor.now }
    requires live { stand.old.me.0.floor.kind ≢ Spent }
    requires tasks { tasks ≡ N.lim.tasks }
    requires kept { content_in stand.old.me.0.kept node ≡ Some content.now }
    ensures passes { OnOk result (AllPass stand.new.me.0.waits (Admit task effect.now) content.now) }
    ensures wait { IfOk result (λ all. IsTrue all → AllWaitFor stand.new.me.0.waits task content.now) }
    ensures barred { IfErr result (λ bar. (bar.node ≡ node)
        × IsBarIn N.prog N.lim stand.old.me.0 stand.new.me.0 task effect.now content.now bar) }
    ensures only { HasOnlyFollowed stand.old.me stand.new.me }
    ensures same { (stand.new.table_id ≡ stand.old.table_id) × (stand.new.id ≡ stand.old.id) }
{
    let first = match undecided(floor, stand, tasks, task, effect, node, content) {
        Ok(first) => first,
        Err(bar) => return Err(bar),
    };
    match first_pass(floor, stand, tasks, task, effect, node, content, first) {
        Ok(()) => Ok(none_is_apart(task, effect, content, first)),
        Err(bar) => Err(bar),
    }
}

/// Looks at the records of a content, which is that of this node, on an errand for this effect. Only whoever admits a task tests
/// them; then one of them may be a bar. Returns whether their tasks are known to wait for the task.
pub(crate) fn look_at<N: Named + Planted>(
    floor: &Floor<N>,
    stand: &mut Stand,
    tasks: u32,
    errand: Errand,
    effect: &Effect,
    node: u32,
    content: &NodeContent,
) -> Result<bool, Bar>
    requires here { stand.old.table_id ≡ floor.now }
    requires live { stand.old.me.0.floor.kind ≢ Spent }
    requires tasks { tasks ≡ N.lim.tasks }
    requires kept { content_in stand.old.me.0.kept node ≡ Some content.now }
    ensures passes { OnOk result (AllPass stand.new.me.0.waits (purpose_for errand.kind errand.task effect.now) content.now) }
    ensures wait { IfOk result (λ all. IsTrue all → AllWaitFor stand.new.me.0.waits errand.task content.now) }
    ensures barred { IfErr result (λ bar. (errand.kind ≡ ErrandKind.Admission) × (bar.node ≡ node)
        × IsBarIn N.prog N.lim stand.old.me.0 stand.new.me.0 errand.task effect.now content.now bar) }
    ensures only { HasOnlyFollowed stand.old.me stand.new.me }
    ensures same { (stand.new.table_id ≡ stand.old.table_id) × (stand.new.id ≡ stand.old.id) }
{
    match errand.kind {
        ErrandKind::Admission => {
            records_pass(floor, stand, tasks, errand.task, effect, node, content)
        }
        ErrandKind::Placing => Ok(false),
        ErrandKind::Removal => Ok(false),
    }
}
