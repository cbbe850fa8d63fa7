//! What a sequential execution has done so far.
ghost use Rattle.std.specs.Prelude.{◌≡◌, IfOk, OnOk, option_copied};
ghost use Rattle.seg_meaning.specs.Access.{value_in};
ghost use Rattle.machine_state.specs.Moves.{frame_without_prints};
ghost use Rattle.determinism_laws.specs.elision.Elision.{kept_value, progress_at_start, with_task, with_value};
ghost use Rattle.determinism_laws.specs.elision.Printing.{with_prints};

use seg_meaning::Frame;
use std::alloc::Global;
use twe_base::{Ints, Memory};

/// What a sequential execution has done so far.
#[derive(Debug, Drop)]
pub struct Progress {
    /// The values of the cells.
    pub cells: Ints,
    /// The printed numbers, the first one first.
    pub prints: Ints,
    /// The values of its tasks, by their numbers; 0 for a task that has not ended.
    pub values: Ints,
}

impl Progress {
    /// Nothing is done yet: the cells are these, and the first task has not ended.
    pub fn new(alloc: Global, cells: &Ints) -> Result<Self, Memory>
        ensures { IfOk result (λ s. s ≡ progress_at_start cells.now) }
    {
        let cells = cells.copy(alloc)?;
        let mut values = Ints::new(alloc);
        values.push(0)?;
        Ok(Progress {
            cells,
            prints: Ints::new(alloc),
            values,
        })
    }

    /// Moves the printed numbers of a frame to the end of those of the execution.
    pub fn take_prints(&mut self, alloc: Global, frame: &mut Frame) -> Result<(), Memory>
        ensures prints { OnOk result (self.new ≡ with_prints self.old frame.old.prints) }
        ensures frame { OnOk result (frame.new ≡ frame_without_prints frame.old) }
    {
        self.prints.push_all(frame.prints.as_slice())?;
        frame.prints = Ints::new(alloc);
        Ok(())
    }

    /// Adds a task after the others.
    pub fn add_task(&mut self) -> Result<(), Memory>
        ensures { OnOk result (self.new ≡ with_task self.old) }
    {
        self.values.push(0)?;
        Ok(())
    }

    /// The value that was kept for a task.
    pub fn kept_value(&self, task: u32) -> i32
        ensures { result ≡ kept_value self.now task }
    {
        value_or_zero(self.values.get(task as usize))
    }

    /// Keeps the value of the task with this frame.
    pub fn keep_value(&mut self, frame: &Frame, value: i32)
        ensures { self.new ≡ with_value frame.now value self.old }
    {
        let task = frame.task as usize;
        if task < self.values.len() {
            self.values.set(task, value);
        }
    }
}

/// The value, and 0 if there is none.
fn value_or_zero(value: Option<&i32>) -> i32
    ensures { result ≡ value_in (option_copied value.entry) }
{
    match value {
        None => 0,
        Some(value) => *value,
    }
}
