//! Placing the records of all effects of a task, one after the other.
ghost use Rattle.std.specs.Prelude.{◌≡◌, ◌<◌, IfErr, IsTrue, OnOk, length};
ghost use Rattle.prefix_tree.specs.Nodes.{IsTreeOfPaths};
ghost use Rattle.tree_admit.specs.Attempts.{HasMet, HasPlacedEach, HasPlacedFirst, HasPlacedNone, HasStopped, KeepsAllElse, MayPlaceAll, MayPlaceSpawned, RecordStands};
ghost use Rattle.tree_admit.specs.Outcomes.{StandsOn};

use crate::bars::{Attempt, Bar};
use crate::errands::place_one;
use crate::footing::Footing;
use effect_sets::Effect;
use effect_tree::Shape;
use floor_laws::table::Named;
use floor_laws::table::nodes::{Errand, ErrandKind, Planted};
use std::alloc::Global;
use std::sync::Wait;
use task_floor::{Floor, Stand};
use twe_base::Memory;

/// Why a worker stopped placing records.
#[derive(Debug, Drop)]
pub(crate) enum Obstacle {
    /// A record was in the way.
    InTheWay(Bar),
    /// Memory ran out.
    NoMemory(Memory),
}

/// How far a worker came that stopped placing records.
#[derive(Debug, Drop)]
pub(crate) struct Stopped {
    /// How many of the effects have a record, the first ones.
    pub placed: usize,
    /// Why it stopped.
    pub by: Obstacle,
}

/// Places the record of one effect of a task, whose effects are these. `unplaced` says that the stand has placed none of them.
fn place_effect<R: Wait, N: Named + Planted>(
    rt: &R,
    alloc: Global,
    floor: &Floor<N>,
    shape: &Shape,
    stand: &mut Stand,
    footing: Footing,
    kind: ErrandKind,
    task: u32,
    effects: &[Effect],
    number: usize,
    unplaced: bool,
) -> Result<(), Obstacle>
    requires here { stand.old.table_id ≡ floor.now }
    requires shape { shape.now ≡ N.nodes }
    requires ready { StandsOn N.lim footing stand.old.me }
    requires number { number < length effects.now }
    requires may { MayPlaceAll stand.old.me.0 kind task effects.now }
    requires unplaced { IsTrue unplaced → HasPlacedNone stand.old.me.0 task }
    ensures stands { OnOk result (RecordStands N.nodes task effects.now number stand.old.me stand.new.me) }
    ensures met { IfErr result (λ by. HasMet N.prog N.lim kind task effects.now by stand.old.me stand.new.me) }
    ensures same { (stand.new.table_id ≡ stand.old.table_id) × (stand.new.id ≡ stand.old.id) }
{
    let effect = &effects[number];
    let errand = Errand {
        kind,
        task,
        effect: number,
        place: shape.place(&effect.path),
    };
    match place_one(
        rt, alloc, floor, shape, stand, footing, errand, effect, unplaced,
    ) {
        Ok(attempt) => match attempt {
            Attempt::Placed => Ok(()),
            Attempt::Stood => Ok(()),
            Attempt::Barred(bar) => Err(Obstacle::InTheWay(bar)),
        },
        Err(memory) => Err(Obstacle::NoMemory(memory)),
    }
}

/// Whether none of the records of a task was placed before that of this effect: `unplaced` says that none was before the first.
fn is_unplaced(unplaced: bool, number: usize) -> bool
    ensures { IsTrue result → IsTrue unplaced × (number ≡ 0) }
{
    unplaced && number == 0
}

/// Places the records of all effects of a task in order, up to an obstacle. `unplaced` says that the stand has placed none of
/// them before: then the first one is placed without a look whether it stands.
pub(crate) fn place_all<R: Wait, N: Named + Planted>(
    rt: &R,
    alloc: Global,
    floor: &Floor<N>,
    shape: &Shape,
    stand: &mut Stand,
    footing: Footing,
    kind: ErrandKind,
    task: u32,
    effects: &[Effect],
    unplaced: bool,
) -> Result<(), Stopped>
    requires here { stand.old.table_id ≡ floor.now }
    requires shape { shape.now ≡ N.nodes }
    requires tree { IsTreeOfPaths N.nodes }
    requires ready { StandsOn N.lim footing stand.old.me }
    requires may { MayPlaceAll stand.old.me.0 kind task effects.now }
    requires unplaced { IsTrue unplaced → HasPlacedNone stand.old.me.0 task }
    ensures all { OnOk result (HasPlacedFirst N.nodes task effects.now (length effects.now) stand.old.me stand.new.me) }
    ensures stopped { IfErr result (λ stopped.
        HasStopped N.nodes N.prog N.lim kind task effects.now stopped stand.old.me stand.new.me) }
    ensures same { (stand.new.table_id ≡ stand.old.table_id) × (stand.new.id ≡ stand.old.id) }
{
    for number in 0..effects.len() {
        let first = is_unplaced(unplaced, number);
        match place_effect(
            rt, alloc, floor, shape, stand, footing, kind, task, effects, number, first,
        ) {
            Ok(()) => {}
            Err(by) => return Err(Stopped { placed: number, by }),
        }
    }
    Ok(())
}

/// Places a record for each effect of a spawned child whose first turn the stand has. These are the child's effects. Nothing is
/// in the way of a child. After `Memory` some of the records may stand.
pub fn place_spawned<R: Wait, N: Named + Planted>(
    rt: &R,
    alloc: Global,
    floor: &Floor<N>,
    shape: &Shape,
    stand: &mut Stand,
    footing: Footing,
    child: u32,
    effects: &[Effect],
) -> Result<(), Memory>
    requires here { stand.old.table_id ≡ floor.now }
    requires shape { shape.now ≡ N.nodes }
    requires ready { StandsOn N.lim footing stand.old.me }
    requires may { MayPlaceSpawned stand.old.me.0 child effects.now }
    ensures placed { OnOk result (HasPlacedEach N.nodes stand.new.me.0 child effects.now) }
    ensures keeps { KeepsAllElse child stand.old.me stand.new.me }
    ensures same { (stand.new.table_id ≡ stand.old.table_id) × (stand.new.id ≡ stand.old.id) }
{
    let _count = shape.nodes();
    match place_all(
        rt,
        alloc,
        floor,
        shape,
        stand,
        footing,
        ErrandKind::Placing,
        child,
        effects,
        false,
    ) {
        Ok(()) => Ok(()),
        Err(stopped) => match stopped.by {
            Obstacle::InTheWay(_) => unreachable!(),
            Obstacle::NoMemory(memory) => Err(memory),
        },
    }
}
