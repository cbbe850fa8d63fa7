//! Tables with a number for some of the tasks.
ghost use Rattle.std.specs.Prelude.{◌≡◌, ◌<◌, ◌==◌, ℕ, Some, OnOk, length, if◌then◌else◌};
ghost use Rattle.twe_draw.specs.picture.inner.Known.{number_at};

use twe_base::{List, Memory};

/// For each task a number, if it has one.
pub(crate) type TaskNumbers = List<Option<u64>>;

/// The number of a task, if it has one.
pub(crate) fn number_at(numbers: &TaskNumbers, task: u32) -> Option<u64>
    ensures { result ≡ number_at numbers.now task }
{
    match numbers.get(task as usize) {
        Some(number) => *number,
        None => None,
    }
}

/// Makes room for a task.
fn make_room(numbers: &mut TaskNumbers, task: u32) -> Result<(), Memory>
    ensures room { OnOk result (task < length numbers.new) }
    ensures same { OnOk result ((t : ℕ) → number_at numbers.new t ≡ number_at numbers.old t) }
{
    'growing: while numbers.len() <= task as usize {
        numbers.push(None)?;
    }
    Ok(())
}

/// Gives a task a number in place of the one that it had.
pub(crate) fn put_number(numbers: &mut TaskNumbers, task: u32, number: u64) -> Result<(), Memory>
    ensures { OnOk result ((t : ℕ) → number_at numbers.new t ≡ (if t == task then Some number else number_at numbers.old t)) }
{
    make_room(numbers, task)?;
    numbers.set(task as usize, Some(number));
    Ok(())
}
