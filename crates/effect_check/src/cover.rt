//! Whether effects are inside declared ones, and whether they are free of the tasks that may be out.
ghost use Rattle.std.specs.Prelude.{◌≡◌, not};
ghost use Rattle.std.specs.List.{list_all, list_any};
ghost use Rattle.effect_sets.specs.Covers.{covers};
ghost use Rattle.effect_sets.specs.Interference.{statically_interferes};
ghost use Rattle.effect_check.specs.inner.Failures.{HasMarks, all_free, all_inside, bars, free, free_by, others_of};

use crate::futures::{Futures, Spawn};
use crate::marks::{Marks, marks_of, meet};
use cover_flow::Points;
use effect_sets::{Effect, Summary, covers, interferes};

/// Whether the effects interfere, as they are written.
fn may_interfere(effect: &Effect, other: &Effect) -> bool
    ensures { result ≡ statically_interferes effect.now other.now }
{
    interferes(effect, other)
}

/// Whether the effect interferes with one of the others.
fn interferes_with_some(effect: &Effect, others: &Summary) -> bool
    ensures { result ≡ list_any (λ other. statically_interferes effect.now other) others.now.effects }
{
    others
        .effects
        .as_slice()
        .iter()
        .any(|other| may_interfere(effect, other))
}

/// Whether the spawned task may be out at the point, and interferes with the effect, which has these marks.
fn bars(points: &Points, point: u32, effect: &Effect, marks: Marks, spawn: &Spawn) -> bool
    ensures { result ≡ bars points.now point effect.now marks spawn.now }
{
    meet(spawn.marks, marks)
        && points.may(point, spawn.future)
        && interferes_with_some(effect, &spawn.effects)
}

/// Whether none of the spawned tasks bars the effect, which has these marks.
fn none_bars(futures: &Futures, point: u32, effect: &Effect, marks: Marks) -> bool
    ensures { result ≡ free_by futures.now point effect.now marks }
{
    futures.spawns.as_slice().iter().all(|spawn| !bars(
        &futures.points,
        point,
        effect,
        marks,
        spawn,
    ))
}

/// The marks of the effects that may interfere with the effect: a read interferes with no read.
fn others_of(futures: &Futures, effect: &Effect) -> Marks
    ensures { result ≡ others_of futures.now effect.now }
{
    if effect.write {
        futures.all
    } else {
        futures.writes
    }
}

/// Whether none of the spawned tasks bars the effect, by the marks if these tell.
fn is_free_there(futures: &Futures, point: u32, effect: &Effect) -> bool
    requires { HasMarks futures.now }
    ensures { result ≡ free futures.now point effect.now }
{
    let others = others_of(futures, effect);
    let marks = marks_of(effect);
    if meet(others, marks) {
        none_bars(futures, point, effect, marks)
    } else {
        true
    }
}

/// Whether no spawned task that may be out at the point interferes with the effect.
pub fn is_free(futures: &Futures, point: u32, effect: &Effect) -> bool
    requires { HasMarks futures.now }
    ensures { result ≡ free futures.now point effect.now }
{
    if futures.points.some_may(point) {
        is_free_there(futures, point, effect)
    } else {
        true
    }
}

/// Whether each of the effects is free in this sense.
pub fn are_free(futures: &Futures, point: u32, effects: &Summary) -> bool
    requires { HasMarks futures.now }
    ensures { result ≡ all_free futures.now point effects.now }
{
    for effect in effects.effects.as_slice() {
        if !is_free(futures, point, effect) {
            return false;
        }
    }
    true
}

/// Whether the effect is inside a declared one.
pub fn is_inside(summary: &Summary, effect: &Effect) -> bool
    ensures { result ≡ covers summary.now effect.now }
{
    covers(summary, effect)
}

/// Whether each of the effects is inside a declared one.
pub fn are_inside(summary: &Summary, effects: &Summary) -> bool
    ensures { result ≡ all_inside summary.now effects.now }
{
    effects
        .effects
        .as_slice()
        .iter()
        .all(|effect| is_inside(summary, effect))
}
