//! The spawns of what the children of a declaration declare.
ghost use Rattle.std.specs.Prelude.{◌≡◌, Contains, IfOk};
ghost use Rattle.effect_check.specs.Acts.{acts_in_all};
ghost use Rattle.effect_sets.specs.declared.effects.Effect.{Effect as WideEffect};
ghost use Rattle.summary_comparing.specs.Needed.{child_needs};
ghost use Rattle.summary_comparing.specs.Chained.{AreEach, IsSpawnPlace, act_place};

use crate::bodies::Places;
use crate::sources::acts_before;
use effect_check::{Act, ActKind, acts_of_body};
use effect_sets::Effect;
use std::alloc::Global;
use twe_base::{Memory, Place};
use twe_program::{Decl, Prog};

/// Where an act stands.
fn act_place(act: &Act) -> Place
    ensures { result ≡ act_place act.now.kind }
{
    match &act.kind {
        ActKind::Touch { place, .. } => *place,
        ActKind::Call { place, .. } => *place,
        ActKind::Make { place, .. } => *place,
        ActKind::Wait { place, .. } => *place,
    }
}

/// The place of the first spawn that needs the effect, among the acts of the declaration's body.
fn spawn_place(
    alloc: Global,
    p: &Prog,
    decl: &Decl,
    acts: &[Act],
    effect: &Effect,
) -> Result<Place, Memory>
    requires all { acts.now ≡ acts_in_all p.now decl.now.body.block }
    requires needed { Contains (child_needs p.now decl.now) effect.now }
    ensures { IfOk result (IsSpawnPlace p.now decl.now effect.now) }
{
    let _ = p;
    let at = acts_before(alloc, decl.params, acts, effect)?;
    match acts.get(at) {
        None => Ok(decl.place),
        Some(act) => Ok(act_place(act)),
    }
}

/// The place of a spawn in the body of the declaration for each of these effects, all of which its spawned children declare.
pub(crate) fn spawn_places(
    alloc: Global,
    p: &Prog,
    decl: &Decl,
    effects: &[Effect],
) -> Result<Places, Memory>
    requires { (effect : WideEffect) → Contains effects.now effect → Contains (child_needs p.now decl.now) effect }
    ensures { IfOk result (AreEach (IsSpawnPlace p.now decl.now) effects.now) }
{
    let acts = acts_of_body(alloc, p, &decl.body.block)?;
    let mut places = Places::new(alloc);
    for effect in effects {
        let place = spawn_place(alloc, p, decl, acts.as_slice(), effect)?;
        places.push(place)?;
    }
    Ok(places)
}
