//! The keys of marks. Tasks and effects are numbered together, the effects after the tasks.
ghost use Rattle.std.specs.Prelude.{◌≡◌, ◌<◌, ◌+◌, ◌^◌, ◌++◌, length, map, All, OnOk};
ghost use Rattle.held_span.specs.inner.Keys.{effect_of, mark_key};

use crate::EffectMark;
use span_profile::heaviest_chain::Key;
use std::alloc::Global;
use twe_base::{List, Memory};

/// The key of a mark, if there are so many tasks.
fn key_of(tasks: u32, mark: EffectMark) -> Key
    requires { tasks + effect_of mark < 2 ^ 32 }
    ensures { result ≡ mark_key tasks mark }
{
    match mark {
        EffectMark::Own(effect) => Key::Value(tasks + effect),
        EffectMark::Rival(effect) => Key::Task(tasks + effect),
    }
}

/// Adds the keys of these marks, if there are so many tasks.
pub(crate) fn push_marks(
    keys: &mut List<Key>,
    tasks: u32,
    marks: &[EffectMark],
) -> Result<(), Memory>
    requires { All (λ mark. tasks + effect_of mark < 2 ^ 32) marks.now }
    ensures { OnOk result (keys.new ≡ keys.old ++ map (mark_key tasks) marks.now) }
{
    for mark in marks {
        keys.push(key_of(tasks, *mark))?;
    }
    Ok(())
}

/// Adds the next number. It fails only if 32 bits cannot count the numbers, or if memory runs out.
fn push_number(numbers: &mut List<u32>) -> Result<(), Memory>
    requires { length numbers.old < 2 ^ 32 }
    ensures count { OnOk result (length numbers.new ≡ length numbers.old + 1) }
    ensures few { OnOk result (length numbers.new < 2 ^ 32) }
{
    if numbers.len() >= u32::MAX as usize {
        return Err(Memory::of_uncountable(numbers.as_slice()));
    }
    let number = numbers.len() as u32;
    numbers.push(number)?;
    Ok(())
}

/// Numbers so many tasks and effects. It fails only if 32 bits cannot number them together, or if memory runs out.
pub(crate) fn number_keys(alloc: Global, tasks: usize, effects: usize) -> Result<(), Memory>
    ensures { OnOk result (tasks + effects < 2 ^ 32) }
{
    let mut numbers = List::new(alloc);
    for task in 0..tasks {
        let _ = task;
        push_number(&mut numbers)?;
    }
    for effect in 0..effects {
        let _ = effect;
        push_number(&mut numbers)?;
    }
    Ok(())
}
