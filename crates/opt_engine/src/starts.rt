//! Segments that may be run ahead, and running them over hints.
ghost use Rattle.std.specs.Prelude.{◌≡◌, IfOk};
ghost use Rattle.twe_program.specs.Program.{cell_count};
ghost use Rattle.opt_engine.specs.Drafts.{IsDraftedOf};
ghost use Rattle.state_copies.specs.Frames.{unreserved};

use crate::drafts::Drafted;
use crate::hinted::Hinted;
use crate::hints::Hints;
use crate::scratch::Scratch;
use crate::touching::Noted;
use seg_exec::run_segment;
use seg_meaning::Frame;
use state_copies::copy_frame;
use std::alloc::Global;
use steal_pool::gates::Gate;
use twe_base::Memory;
use twe_program::Prog;

/// A segment that may be run ahead: a task, with a copy of the frame that its next segment begins with. It is a draft without
/// the cells.
#[derive(Debug, Drop)]
pub struct Start {
    /// The number of the task.
    pub task: u32,
    /// The frame. If the task has waited, it has taken the awaited value.
    pub frame: Frame,
}

/// Runs a segment that may be run ahead, over the values that the hints have when it reads them for the first time: it is the
/// draft of some cells. Whatever the hints have, the answer is one that may be committed. The gate is told of each access to a
/// cell before it is made. Returns the scratch for the next one.
pub fn run_start<G: Gate>(
    alloc: Global,
    p: &Prog,
    hints: &Hints,
    gate: &G,
    start: Start,
    scratch: Scratch,
) -> Result<(Drafted, Scratch), Memory>
    requires plain { start.frame ≡ unreserved start.frame }
    requires cells { scratch ≡ cell_count p.now }
    ensures drafted { IfOk result (λ ran. IsDraftedOf p.now ran.0) }
    ensures begins { IfOk result (λ ran. (ran.0.task ≡ start.task) × (ran.0.before ≡ start.frame)) }
    ensures cells { IfOk result (λ ran. ran.1 ≡ scratch) }
{
    let _main = p.main;
    let Start { task, frame } = start;
    let mut after = copy_frame(alloc, &frame)?;
    let mut hinted = Hinted::new(hints, gate, task, scratch.into_touching(alloc));
    let stop = run_segment(alloc, p, &mut after, &mut hinted)?;
    let noted = hinted.into_touching().into_noted(alloc)?;
    let Noted {
        cells,
        marks,
        reads,
        writes,
    } = noted;
    let scratch = Scratch::again(cells, marks, reads.as_slice(), writes.as_slice());
    let drafted = Drafted {
        task,
        before: frame,
        after,
        reads,
        writes,
        stop,
    };
    Ok((drafted, scratch))
}
