//! A few bits for each effect, by which effects of many tasks are told apart from another at once: if two effects have no
//! bit in common in one of the words, they do not interfere.
ghost use Rattle.std.specs.Prelude.{◌≡◌, ◌<◌, ◌^◌, ◌%◌, false};
ghost use Rattle.effect_check.specs.inner.Marks.{joined_marks, marks_of, marks_of_all, marks_over, meet, no_marks};

use crate::futures::Spawn;
use effect_sets::{Effect, Summary};
use region_paths::Elem;

/// Bits for the elements that paths begin with. A path whose element is of another kind has all bits in the word.
#[derive(Clone, Copy, Debug)]
pub struct Marks {
    /// A bit for the number of the region that a path begins with, modulo 128.
    pub near: u128,
    /// The same, for its quotient by 128, modulo 128.
    pub far: u128,
    /// A bit for the literal index that is the second element, modulo 128.
    pub index: u128,
    /// The same, for its quotient by 128, modulo 128.
    pub far_index: u128,
}

/// The word with this bit alone.
fn one_bit(bit: u32) -> u128
    requires { bit < 128 }
    ensures { result ≡ 2 ^ bit }
{
    1 << bit
}

/// The word with the bit of the number, modulo 128.
fn bit_of(number: u32) -> u128
    ensures { result ≡ 2 ^ (number % 128) }
{
    one_bit(number % 128)
}

/// The marks of an effect.
pub fn marks_of(effect: &Effect) -> Marks
    ensures { result ≡ marks_of effect.now }
{
    let elems = effect.path.elems();
    let (near, far) = match elems.get(0) {
        Some(Elem::Name(name)) => (bit_of(*name), bit_of(*name / 128)),
        _ => (u128::MAX, u128::MAX),
    };
    let (index, far_index) = match elems.get(1) {
        Some(Elem::Index(index)) => {
            let number = index.unsigned_abs();
            (bit_of(number), bit_of(number / 128))
        }
        _ => (u128::MAX, u128::MAX),
    };
    Marks {
        near,
        far,
        index,
        far_index,
    }
}

/// Whether the marks have a bit in common in each word.
pub fn meet(first: Marks, second: Marks) -> bool
    ensures { result ≡ meet first second }
{
    first.index & second.index != 0
        && first.far_index & second.far_index != 0
        && first.near & second.near != 0
        && first.far & second.far != 0
}

/// The marks of either.
fn joined(first: Marks, second: Marks) -> Marks
    ensures { result ≡ joined_marks first second }
{
    Marks {
        near: first.near | second.near,
        far: first.far | second.far,
        index: first.index | second.index,
        far_index: first.far_index | second.far_index,
    }
}

/// These marks and those of the effects, or of those among them that write.
fn marks_over(only_writes: bool, marks: Marks, effects: &Summary) -> Marks
    ensures { result ≡ marks_over only_writes marks effects.now.effects }
{
    let mut marks = marks;
    for effect in effects.effects.as_slice() {
        if effect.write || !only_writes {
            marks = joined(marks, marks_of(effect));
        }
    }
    marks
}

/// The marks of the effects.
pub fn marks_of_effects(effects: &Summary) -> Marks
    ensures { result ≡ marks_over false no_marks effects.now.effects }
{
    let none = Marks {
        near: 0,
        far: 0,
        index: 0,
        far_index: 0,
    };
    marks_over(false, none, effects)
}

/// The marks of all effects of the spawns, or of those among them that write.
pub fn marks_of_all(only_writes: bool, spawns: &[Spawn]) -> Marks
    ensures { result ≡ marks_of_all only_writes no_marks spawns.now }
{
    let mut marks = Marks {
        near: 0,
        far: 0,
        index: 0,
        far_index: 0,
    };
    for spawn in spawns {
        marks = marks_over(only_writes, marks, &spawn.effects);
    }
    marks
}
