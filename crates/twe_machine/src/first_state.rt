//! The state that a run starts in.
ghost use Rattle.std.specs.Prelude.{◌≡◌, [], IfOk};
ghost use Rattle.seg_meaning.specs.Entry.{effects_at, entry_frame};
ghost use Rattle.machine_state.specs.Moves.{start_of, initial_values};

use crate::new_task::{NewTask, new_row};
use machine_state::State;
use seg_exec::{effects_at, entry_frame};
use seg_journal::Limits;
use std::alloc::Global;
use twe_base::{Ints, List, Memory};
use twe_program::{CellDecl, Prog};
use wait_graph::Links;

/// The state that a run of the program starts in: task 0 is a `main` that waits for its admission, and the cells have
/// their initial values.
pub fn start(alloc: Global, p: &Prog, lim: Limits) -> Result<State, Memory>
    ensures { IfOk result (λ st. st ≡ start_of p.now lim) }
{
    let cells = initial_values(alloc, p.cells.as_slice())?;
    let mut links = Links::new(alloc);
    links.add(None)?;
    let mut tasks = List::new(alloc);
    tasks.push(new_row(alloc, lim, 0, None, main_task(alloc, p)?))?;
    Ok(State {
        cells,
        tasks,
        links,
        prints: Ints::new(alloc),
        asked: 0,
        first_fault: None,
    })
}

/// The initial values of the cells.
fn initial_values(alloc: Global, cells: &[CellDecl]) -> Result<Ints, Memory>
    ensures { IfOk result (λ values. values ≡ initial_values cells.now) }
{
    let mut values = Ints::new(alloc);
    for cell in cells {
        let copies = vec![in alloc; cell.init; cell.dims.size() as usize]?;
        values.push_all(copies.as_slice())?;
    }
    Ok(values)
}

/// The parts of task 0: a `main`, which has no argument.
fn main_task(alloc: Global, p: &Prog) -> Result<NewTask, Memory>
    ensures frame { IfOk result (λ task. task.frame ≡ entry_frame p.now p.now.main []) }
    ensures args { IfOk result (λ task. task.args ≡ []) }
    ensures effects { IfOk result (λ task. task.effects ≡ effects_at p.now p.now.main []) }
{
    let args = Ints::new(alloc);
    let effects = effects_at(alloc, p, p.main, &args)?;
    let frame = entry_frame(alloc, p, p.main, Ints::new(alloc))?;
    Ok(NewTask {
        frame,
        args,
        effects,
    })
}
