//! Following the waits from a task, past the records of other tasks on the way.
ghost use Rattle.std.specs.Prelude.{◌≡◌, ◌≢◌, ◌≤◌, ◌<◌, ℕ, IfErr, IfOk, OnOk};
ghost use Rattle.floor_laws.specs.declared.table.view.SeatKind.TheVariants.{Spent};
ghost use Rattle.floor_laws.specs.admission.admission_core.States.{IsAmong};
ghost use Rattle.floor_laws.specs.table.nodes.Chains.{HasFollowedTo};
ghost use Rattle.tree_admit.specs.Alone.{FollowedAlone};
ghost use Rattle.floor_laws.specs.rule.nodes.FactSteps.{IsKnownToWait};
ghost use Rattle.tree_admit.specs.Going.{HasOnlyFollowed};
ghost use Rattle.tree_admit.specs.Passing.{EachBetween, EaseOrWaits};

use crate::passing::pass_over;
use effect_sets::Effect;
use floor_laws::rule::Phase;
use floor_laws::table::Named;
use floor_laws::table::nodes::{NodeContent, Planted};
use task_floor::{Floor, Stand};

/// Follows the waits from a task. `Ok` if they lead to the task `to`: the stand knows that from then on, also of those of which
/// it knew that they wait for the first task. Otherwise the task at which they ended: the stand has found that its phase was no
/// wait.
///
/// If they lead there, so do those from each task on the way. So of the first records of a content, `left` of them, the last ones
/// are passed over meanwhile, as far as they stand in the order of the waits. `Ok` says how many are left.
pub(crate) fn follow_past<N: Named + Planted>(
    floor: &Floor<N>,
    stand: &mut Stand,
    tasks: u32,
    from: u32,
    to: u32,
    effect: &Effect,
    content: &NodeContent,
    left: usize,
) -> Result<usize, u32>
    requires here { stand.old.table_id ≡ floor.now }
    requires live { stand.old.me.0.floor.kind ≢ Spent }
    requires tasks { tasks ≡ N.lim.tasks }
    requires other { from ≢ to }
    ensures known { OnOk result (IsAmong (record { waiter = from; awaited = to }) stand.new.me.0.waits) }
    ensures passed { IfOk result (λ rest. (rest ≤ left)
        × EachBetween (EaseOrWaits stand.new.me.0.waits to effect.now) content.now rest left) }
    ensures led { OnOk result ((s : ℕ) → IsAmong (record { waiter = s; awaited = from }) stand.old.me.0.waits
        → IsAmong (record { waiter = s; awaited = to }) stand.new.me.0.waits) }
    ensures end { IfErr result (λ end. IsKnownToWait stand.new.me.0.waits from end × (end ≢ to)) }
    ensures followed { IfErr result (λ end. from < N.lim.tasks
        → HasFollowedTo stand.old.me.0.looks stand.new.me.0.looks from end) }
    ensures alone { IfErr result (λ _. from < N.lim.tasks → FollowedAlone N.prog N.lim stand.old.me.0 from to) }
    ensures only { HasOnlyFollowed stand.old.me stand.new.me }
    ensures same { (stand.new.table_id ≡ stand.old.table_id) × (stand.new.id ≡ stand.old.id) }
{
    let mut at = from;
    let mut rest = left;
    while at < tasks {
        rest = pass_over(to, effect, content, rest, at);
        let Phase::Waits { on } = floor.status(stand, at) else {
            return Err(at);
        };
        if on == to {
            return Ok(rest);
        }
        at = on;
    }
    Err(at)
}
