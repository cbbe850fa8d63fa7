//! The futures of a body: the points at which each may be out, and the effects of the spawned tasks.
ghost use Rattle.std.specs.Prelude.{◌≡◌, ◌++◌, IfOk, OnOk};
ghost use Rattle.effect_check.specs.inner.Failures.{followed, spawn_of, spawns_among};

use crate::act::{Act, ActKind};
use crate::marks::{Marks, marks_of_effects};
use cover_flow::Points;
use effect_sets::Summary;
use std::alloc::Global;
use twe_base::{List, Memory};

/// A spawn: its future, and the effects of the spawned task.
#[derive(Debug, Drop)]
pub struct Spawn {
    /// The number of the future.
    pub future: u32,
    /// The effects, filled with the arguments.
    pub effects: Summary,
    /// Their marks.
    pub marks: Marks,
}

impl Spawn {
    /// An equal spawn in its own memory.
    fn copy(&self, alloc: Global) -> Result<Spawn, Memory>
        ensures { IfOk result (λ spawn. spawn ≡ self.now) }
    {
        let effects = self.effects.copy(alloc)?;
        Ok(Spawn {
            future: self.future,
            effects,
            marks: self.marks,
        })
    }
}

/// What the rules need to know of 128 futures of a body.
#[derive(Debug, Drop)]
pub struct Futures {
    /// The points at which each may be out, and at which each surely is.
    pub points: Points,
    /// The spawns into them.
    pub spawns: List<Spawn>,
    /// The marks of the effects of the spawned tasks.
    pub all: Marks,
    /// The marks of those that write.
    pub writes: Marks,
}

/// Adds the act if it is a spawn.
fn add_spawn(alloc: Global, spawns: &mut List<Spawn>, kind: &ActKind) -> Result<(), Memory>
    ensures { OnOk result (spawns.new ≡ spawns.old ++ spawn_of kind.now) }
{
    match kind {
        ActKind::Make {
            future,
            spawned: true,
            effects,
            ..
        } => {
            let marks = marks_of_effects(effects);
            let effects = effects.copy(alloc)?;
            spawns.push(Spawn {
                future: *future,
                effects,
                marks,
            })
        }
        _ => Ok(()),
    }
}

/// The spawns among the acts.
pub fn spawns_among(alloc: Global, acts: &[Act]) -> Result<List<Spawn>, Memory>
    ensures { IfOk result (λ spawns. spawns ≡ spawns_among acts.now) }
{
    let mut spawns = List::new(alloc);
    for act in acts {
        add_spawn(alloc, &mut spawns, &act.kind)?;
    }
    Ok(spawns)
}

/// The spawns into the futures that are followed.
pub fn followed(alloc: Global, points: &Points, spawns: &[Spawn]) -> Result<List<Spawn>, Memory>
    ensures { IfOk result (λ some. some ≡ followed points.now spawns.now) }
{
    let mut some = List::new(alloc);
    for spawn in spawns {
        if points.follows(spawn.future) {
            some.push(spawn.copy(alloc)?)?;
        }
    }
    Ok(some)
}
