//! Trying to admit a task.
ghost use Rattle.std.specs.Prelude.{◌≡◌, ◌<◌, Ok, OnErr};
ghost use Rattle.floor_laws.specs.rule.nodes.FactSteps.{HasPlacedAll};
ghost use Rattle.floor_laws.specs.table.nodes.Seats.{tree_seen, turns_seen};
ghost use Rattle.tree_admit.specs.declared.admitting.Admittance.TheVariants as admittances;
ghost use Rattle.tree_admit.specs.declared.bars.Bar as bars;
ghost use Rattle.tree_admit.specs.Alone.{MayNotAdmitIfAlone};
ghost use Rattle.tree_admit.specs.Attempts.{HasPlacedNone, KeepsAllElse, MayTryToAdmit, WasBarredFor};
ghost use Rattle.tree_admit.specs.Outcomes.{StandsOn};

use crate::bars::Bar;
use crate::footing::Footing;
use crate::placing::{Obstacle, place_all};
use crate::releasing::take_out_first;
use effect_sets::Effect;
use effect_tree::Shape;
use floor_laws::table::Named;
use floor_laws::table::nodes::{ErrandKind, Planted};
use std::alloc::Global;
use std::sync::Wait;
use task_floor::{Floor, Stand};
use twe_base::Memory;

/// What an attempt to admit a task came to.
#[derive(Clone, Copy, Debug, PartialEq, Eq)]
pub enum Admittance {
    /// A record of each of its effects stands.
    Admitted,
    /// No record of it stands: one of another task was in the way.
    Held {
        /// That one.
        bar: Bar,
    },
}

/// Tries to place a record for each effect of a task whose turn the stand took, which is still to be admitted and of which no
/// record stands. These are the task's effects. If all were placed, the task's admission may be drawn. If a record was in the
/// way, or memory ran out, no record of the task stands. A stand that is the only one, and has no other turn, is held only if
/// it is not legal to admit the task.
pub fn try_admit<R: Wait, N: Named + Planted>(
    rt: &R,
    alloc: Global,
    floor: &Floor<N>,
    shape: &Shape,
    stand: &mut Stand,
    footing: Footing,
    task: u32,
    effects: &[Effect],
) -> Result<Admittance, Memory>
    requires here { stand.old.table_id ≡ floor.now }
    requires shape { shape.now ≡ N.nodes }
    requires ready { StandsOn N.lim footing stand.old.me }
    requires may { MayTryToAdmit stand.old.me.0 task effects.now }
    ensures admitted { result ≡ Ok admittances.Admitted
        → HasPlacedAll N.nodes (turns_seen stand.new.me.0) (tree_seen stand.new.me.0) 0 task }
    ensures held { (bar : bars.Bar) → result ≡ Ok (admittances.Held bar)
        → HasPlacedNone stand.new.me.0 task
        × WasBarredFor N.prog N.lim stand.old.me.0 stand.new.me.0 task effects.now bar }
    ensures alone { (bar : bars.Bar) → result ≡ Ok (admittances.Held bar) → bar.by < N.lim.tasks
        → MayNotAdmitIfAlone N.prog N.lim stand.old.me.0.floor task }
    ensures memory { OnErr result (HasPlacedNone stand.new.me.0 task) }
    ensures keeps { KeepsAllElse task stand.old.me stand.new.me }
    ensures same { (stand.new.table_id ≡ stand.old.table_id) × (stand.new.id ≡ stand.old.id) }
{
    let _count = shape.nodes();
    let stopped = match place_all(
        rt,
        alloc,
        floor,
        shape,
        stand,
        footing,
        ErrandKind::Admission,
        task,
        effects,
        true,
    ) {
        Ok(()) => return Ok(Admittance::Admitted),
        Err(stopped) => stopped,
    };
    take_out_first(
        rt,
        floor,
        shape,
        stand,
        footing,
        task,
        effects,
        stopped.placed,
    );
    match stopped.by {
        Obstacle::InTheWay(bar) => Ok(Admittance::Held { bar }),
        Obstacle::NoMemory(memory) => Err(memory),
    }
}
