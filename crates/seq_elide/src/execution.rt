//! The sequential execution of one declaration.
ghost use Rattle.std.specs.Prelude.{◌≡◌, IfOk, IfErr, length};
ghost use Rattle.twe_program.specs.Program.{cell_count};
ghost use Rattle.seq_elide.specs.Answers.{EndsWith, FailsWith, elided_with};
ghost use Rattle.determinism_laws.specs.elision.Elision.{elided, frame_at_start};

use crate::fail::ElideFail;
use crate::turn::{Turn, first_frame, take_turn};
use determinism_laws::elision::Progress;
use seg_exec::entry_frame;
use seg_meaning::Frame;
use std::alloc::Global;
use twe_base::{Ints, Limits, Memory, Stack};
use twe_program::Prog;

/// What a sequential execution gives.
#[derive(Debug, Drop)]
pub struct Elided {
    /// The value of the task; 0 if it returns none.
    pub value: i32,
    /// The values of the cells at its end.
    pub cells: Ints,
    /// The numbers that it and the tasks below it have printed, the first one first.
    pub prints: Ints,
    /// How many tasks were made below it.
    pub makes: usize,
}

/// Executes the declaration `task` with these arguments on these cells as sequential code: each spawn runs the child in
/// full where it stands, with fuel of its own, and the join of the child takes its value. The tasks are numbered in this
/// execution alone, the first one being 0; a spawn whose number is not below the limit on tasks is a fault.
///
/// It returns `Fault` exactly if the execution meets that fault, and `NotForkJoin` exactly if it comes to an
/// `executeLater`, a `getValue` or a join of a task that is no unjoined child of the joining one.
pub fn elide(
    alloc: Global,
    p: &Prog,
    lim: Limits,
    task: u32,
    args: &[i32],
    cells: &Ints,
) -> Result<Elided, ElideFail>
    requires { length cells.now ≡ cell_count p.now }
    ensures ended { IfOk result (λ result. EndsWith (elided p.now lim task args.now cells.now) result) }
    ensures failed { IfErr result (λ fail. FailsWith (elided p.now lim task args.now cells.now) fail) }
{
    let mut progress = Progress::new(alloc, cells)?;
    let mut callers = Stack::new(alloc);
    let mut frame = frame_at_start(alloc, p, lim, task, args)?;
    'turns: loop {
        match take_turn(alloc, p, lim, &mut callers, frame, &mut progress)? {
            Turn::Goes(next) => frame = next,
            Turn::Ended(value) => return Ok(result_of(value, progress)),
        }
    }
}

/// The frame of the declaration before its first segment.
fn frame_at_start(
    alloc: Global,
    p: &Prog,
    lim: Limits,
    task: u32,
    args: &[i32],
) -> Result<Frame, Memory>
    ensures { IfOk result (λ frame. frame ≡ frame_at_start p.now lim task args.now) }
{
    let args = Ints::from_slice(alloc, args)?;
    let frame = entry_frame(alloc, p, task, args)?;
    Ok(first_frame(lim, 0, frame))
}

/// The result of an execution that has ended with this value.
fn result_of(value: i32, progress: Progress) -> Elided
    ensures { result ≡ elided_with value progress }
{
    let Progress {
        cells,
        prints,
        values,
    } = progress;
    Elided {
        value,
        cells,
        prints,
        makes: values.len().saturating_sub(1),
    }
}
