//! Taking the records of the effects of a task out, one after the other.
ghost use Rattle.std.specs.Prelude.{◌≡◌, ◌<◌, ◌≤◌, length};
ghost use Rattle.prefix_tree.specs.Nodes.{IsTreeOfPaths};
ghost use Rattle.floor_laws.specs.admission.admission_core.States.{Record};
ghost use Rattle.floor_laws.specs.rule.nodes.TurnSteps.{IsClearOf};
ghost use Rattle.floor_laws.specs.table.nodes.Seats.{tree_seen};
ghost use Rattle.tree_admit.specs.Attempts.{HasTakenOutFirst, IsRecordOf, KeepsAllElse, MayRelease};
ghost use Rattle.tree_admit.specs.Outcomes.{IsTakenOut, StandsOn};

use crate::errands::take_out_one;
use crate::footing::Footing;
use effect_sets::Effect;
use effect_tree::Shape;
use floor_laws::table::Named;
use floor_laws::table::nodes::{Errand, ErrandKind, Planted};
use std::sync::Wait;
use task_floor::{Floor, Stand};

/// Takes the record of one effect of a task out, whose effects are these.
fn take_out_effect<R: Wait, N: Named + Planted>(
    rt: &R,
    floor: &Floor<N>,
    shape: &Shape,
    stand: &mut Stand,
    footing: Footing,
    task: u32,
    effects: &[Effect],
    number: usize,
)
    requires here { stand.old.table_id ≡ floor.now }
    requires shape { shape.now ≡ N.nodes }
    requires ready { StandsOn N.lim footing stand.old.me }
    requires number { number < length effects.now }
    requires may { MayRelease stand.old.me.0 task effects.now }
    ensures out { (r : Record) × IsRecordOf N.nodes task effects.now number r × IsTakenOut stand.old.me r stand.new.me }
    ensures same { (stand.new.table_id ≡ stand.old.table_id) × (stand.new.id ≡ stand.old.id) }
{
    let effect = &effects[number];
    let errand = Errand {
        kind: ErrandKind::Removal,
        task,
        effect: number,
        place: shape.place(&effect.path),
    };
    take_out_one(rt, floor, shape, stand, footing, errand, effect);
}

/// Takes the records of the first effects of a task out, so many of them.
pub(crate) fn take_out_first<R: Wait, N: Named + Planted>(
    rt: &R,
    floor: &Floor<N>,
    shape: &Shape,
    stand: &mut Stand,
    footing: Footing,
    task: u32,
    effects: &[Effect],
    count: usize,
)
    requires here { stand.old.table_id ≡ floor.now }
    requires shape { shape.now ≡ N.nodes }
    requires tree { IsTreeOfPaths N.nodes }
    requires ready { StandsOn N.lim footing stand.old.me }
    requires count { count ≤ length effects.now }
    requires may { MayRelease stand.old.me.0 task effects.now }
    ensures out { HasTakenOutFirst N.nodes task effects.now count stand.old.me stand.new.me }
    ensures same { (stand.new.table_id ≡ stand.old.table_id) × (stand.new.id ≡ stand.old.id) }
{
    for number in 0..count {
        take_out_effect(rt, floor, shape, stand, footing, task, effects, number);
    }
}

/// Takes the records of all effects of a task out, whose turn the stand took and which is not enabled. These are the task's
/// effects. The stand knows after this that none of their records stands. It takes no memory.
pub fn release<R: Wait, N: Named + Planted>(
    rt: &R,
    floor: &Floor<N>,
    shape: &Shape,
    stand: &mut Stand,
    footing: Footing,
    task: u32,
    effects: &[Effect],
)
    requires here { stand.old.table_id ≡ floor.now }
    requires shape { shape.now ≡ N.nodes }
    requires ready { StandsOn N.lim footing stand.old.me }
    requires may { MayRelease stand.old.me.0 task effects.now }
    ensures clear { IsClearOf N.nodes (tree_seen stand.new.me.0) 0 task effects.now }
    ensures keeps { KeepsAllElse task stand.old.me stand.new.me }
    ensures same { (stand.new.table_id ≡ stand.old.table_id) × (stand.new.id ≡ stand.old.id) }
{
    let _count = shape.nodes();
    take_out_first(
        rt,
        floor,
        shape,
        stand,
        footing,
        task,
        effects,
        effects.len(),
    );
}
