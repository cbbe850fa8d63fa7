//! Drafts of segments, and running them.
ghost use Rattle.std.specs.Prelude.{◌≡◌, IfOk};
ghost use Rattle.opt_engine.specs.Drafts.{IsDraftOf, drafted};

use crate::touch::Touched;
use crate::touching::Touching;
use seg_exec::run_segment;
use seg_meaning::{Frame, Stop};
use state_copies::copy_frame;
use std::alloc::Global;
use twe_base::{Ints, Memory};
use twe_program::Prog;

/// A segment that may be run ahead: a task, with copies of the frame that its next segment begins with and of the cells.
#[derive(Debug, Drop)]
pub struct Draft {
    /// The number of the task.
    pub task: u32,
    /// The frame. If the task has waited, it has taken the awaited value.
    pub frame: Frame,
    /// The values of the cells.
    pub cells: Ints,
}

/// A segment that was run ahead.
#[derive(Debug, Drop)]
pub struct Drafted {
    /// The number of the task.
    pub task: u32,
    /// The frame that the segment began with.
    pub before: Frame,
    /// The frame that it left.
    pub after: Frame,
    /// The cells that it read before it wrote them, with the values read, in the order of first reading.
    pub reads: Touched,
    /// The cells that it wrote, each with its last value, in the order of first writing.
    pub writes: Touched,
    /// How it stopped.
    pub stop: Stop,
}

/// Runs a draft. It needs nothing but the draft and the program.
pub fn run_draft(alloc: Global, p: &Prog, draft: Draft) -> Result<Drafted, Memory>
    requires { IsDraftOf p.now draft }
    ensures { IfOk result (λ d. d ≡ drafted p.now draft) }
{
    let _main = p.main;
    let Draft { task, frame, cells } = draft;
    let mut after = copy_frame(alloc, &frame)?;
    let mut touching = Touching::new(alloc, cells)?;
    let stop = run_segment(alloc, p, &mut after, &mut touching)?;
    let noted = touching.into_noted(alloc)?;
    Ok(Drafted {
        task,
        before: frame,
        after,
        reads: noted.reads,
        writes: noted.writes,
        stop,
    })
}
