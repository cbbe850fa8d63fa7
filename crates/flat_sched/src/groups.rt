//! Groups of held tasks. All tasks of a group write one region, so the first of them that is admitted holds the others.
ghost use Rattle.std.specs.Prelude.{◌≡◌, ◌<◌, ℕ, length, IfOk, IfNone, IfSome, IsTrue, OnOk};
ghost use Rattle.std.specs.List.{list_any};
ghost use Rattle.region_paths.specs.Concrete.{ConcretePath};
ghost use Rattle.region_paths.specs.Filled.{filled};
ghost use Rattle.effect_sets.specs.Filled.{all_filled};
ghost use Rattle.effect_sets.specs.Interference.{statically_interferes};
ghost use Rattle.machine_state.specs.Rows.{EffectsAreFilled};
ghost use Rattle.flat_sched.specs.inner.Groups.{AreAlike, AreGroups, AreKept, HasGroup, HasNone, HasOnly, IsKey, IsMember, IsNew, OthersAreKept};
ghost use Rattle.flat_sched.specs.inner.Lists.{IsReady};

use crate::ready::Ready;
use effect_sets::{Effect, Summary, covers, interferes};
use machine_state::State;
use std::alloc::Global;
use std::mem;
use twe_base::{List, Memory};

/// Held tasks that all write one region.
#[derive(Drop)]
pub(crate) struct Group {
    /// A write that the effects of each of them cover.
    pub key: Effect,
    /// The tasks.
    pub members: Ready,
}

/// For each task the group of those that it holds or is to be looked at before, if there is one.
pub(crate) type Groups = List<Option<Group>>;

/// Makes room for the group of task `at`.
fn reach(groups: &mut Groups, at: u32) -> Result<(), Memory>
    ensures there { OnOk result (at < length groups.new) }
    ensures kept { OnOk result (AreKept groups.old groups.new) }
    ensures back { OnOk result (AreKept groups.new groups.old) }
{
    'reaching: while groups.len() <= at as usize {
        groups.push(None)?;
    }
    Ok(())
}

/// Takes the group of task `at` out, if there is one. It takes no memory.
pub(crate) fn take(groups: &mut Groups, at: u32) -> Option<Group>
    ensures some { IfSome result (HasGroup groups.old at) }
    ensures none { IfNone result (HasNone groups.old at) }
    ensures gone { HasNone groups.new at }
    ensures kept { OthersAreKept at groups.old groups.new }
    ensures back { AreKept groups.new groups.old }
{
    if groups.len() <= at as usize {
        return None;
    }
    mem::replace(groups.item_mut(at as usize), None)
}

/// Makes the group that of task `at`.
pub(crate) fn put(groups: &mut Groups, at: u32, group: Group) -> Result<(), Memory>
    ensures there { OnOk result (HasGroup groups.new at group) }
    ensures kept { OnOk result (OthersAreKept at groups.old groups.new) }
    ensures back { OnOk result (OthersAreKept at groups.new groups.old) }
{
    reach(groups, at)?;
    groups.set(at as usize, Some(group));
    Ok(())
}

/// Whether the effect interferes with one of the others.
fn interferes_with_some(effect: &Effect, others: &Summary) -> bool
    ensures { result ≡ list_any (λ other. statically_interferes effect.now other) others.now.effects }
{
    others
        .effects
        .as_slice()
        .iter()
        .any(|other| interferes(effect, other))
}

/// Whether the effect is a write that interferes with one of the others.
fn is_common(effect: &Effect, others: &Summary) -> bool
    requires { IsTrue (filled effect.now.path) }
    ensures { IsTrue result → (c : ConcretePath) × IsKey c effect.now }
{
    effect.write && interferes(effect, effect) && interferes_with_some(effect, others)
}

/// The first of the effects that is a write and interferes with one of the others, if there is one.
fn common_write(
    alloc: Global,
    effects: &Summary,
    others: &Summary,
) -> Result<Option<Effect>, Memory>
    requires { IsTrue (all_filled effects.now.effects) }
    ensures { IfOk result (λ key. IfSome key (λ e. (c : ConcretePath) × IsKey c e)) }
{
    for effect in effects.effects.as_slice() {
        if is_common(effect, others) {
            return Ok(Some(effect.copy(alloc)?));
        }
    }
    Ok(None)
}

/// An empty group for tasks that are held as one with the effects is held by one with the others, if it is by a write.
fn empty_group(alloc: Global, effects: &Summary, others: &Summary) -> Result<Option<Group>, Memory>
    requires { IsTrue (all_filled effects.now.effects) }
    ensures { IfOk result (λ group. IfSome group IsNew) }
{
    match common_write(alloc, effects, others)? {
        None => Ok(None),
        Some(key) => Ok(Some(Group {
            key,
            members: Ready::new(alloc),
        })),
    }
}

/// An empty group for tasks that are held as `t` is held by `s`, if it is by a write.
fn new_group(alloc: Global, st: &State, s: u32, t: u32) -> Result<Option<Group>, Memory>
    requires { EffectsAreFilled st.now }
    ensures { IfOk result (λ group. IfSome group (AreAlike st.now)) }
{
    match (st.tasks.get(t as usize), st.tasks.get(s as usize)) {
        (Some(row), Some(holder)) => empty_group(alloc, &row.effects, &holder.effects),
        _ => Ok(None),
    }
}

/// The group of `s`, which is taken out, or else a new one for tasks that are held as `t` is.
fn group_for(
    alloc: Global,
    st: &State,
    groups: &mut Groups,
    s: u32,
    t: u32,
) -> Result<Option<Group>, Memory>
    requires filled { EffectsAreFilled st.now }
    requires groups { AreGroups st.now groups.old }
    ensures alike { IfOk result (λ group. IfSome group (AreAlike st.now)) }
    ensures some { IfOk result (λ group. IfSome group (HasOnly groups.old s)) }
    ensures none { IfOk result (λ group. IfNone group (HasNone groups.old s)) }
    ensures kept { OnOk result (OthersAreKept s groups.old groups.new) }
    ensures back { OnOk result (AreKept groups.new groups.old) }
{
    match take(groups, s) {
        Some(group) => Ok(Some(group)),
        None => new_group(alloc, st, s, t),
    }
}

/// Adds a task to the group if its effects cover the key. Returns whether they do.
fn enter(st: &State, group: &mut Group, t: u32) -> Result<bool, Memory>
    requires filled { EffectsAreFilled st.now }
    requires alike { AreAlike st.now group.old }
    ensures entered { IfOk result (λ entered. IsTrue entered → IsReady group.new.members t) }
    ensures kept { OnOk result ((x : ℕ) → IsReady group.old.members x → IsReady group.new.members x) }
    ensures alike { OnOk result (AreAlike st.now group.new) }
{
    let Some(row) = st.tasks.get(t as usize) else {
        return Ok(false);
    };
    if !covers(&row.effects, &group.key) {
        return Ok(false);
    }
    group.members.add(t)?;
    Ok(true)
}

/// Adds `t`, which `s` holds, to the group of `s` if it is like the others there. Returns whether it is.
pub(crate) fn join(
    alloc: Global,
    st: &State,
    groups: &mut Groups,
    s: u32,
    t: u32,
) -> Result<bool, Memory>
    requires filled { EffectsAreFilled st.now }
    requires groups { AreGroups st.now groups.old }
    ensures joined { IfOk result (λ joined. IsTrue joined → IsMember groups.new s t) }
    ensures kept { OnOk result ((u x : ℕ) → IsMember groups.old u x → IsMember groups.new u x) }
    ensures groups { OnOk result (AreGroups st.now groups.new) }
{
    let Some(mut group) = group_for(alloc, st, groups, s, t)? else {
        return Ok(false);
    };
    let joined = enter(st, &mut group, t)?;
    put(groups, s, group)?;
    Ok(joined)
}
