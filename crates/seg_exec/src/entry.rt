//! The frame and the effects of a task before its first segment.
ghost use Rattle.std.specs.Prelude.{◌≡◌, IfOk, map, option_copied};
ghost use Rattle.region_paths.specs.declared.elements.Elem.TheVariants.{Index};
ghost use Rattle.seg_meaning.specs.Entry.{effects_at, entry_body, entry_frame, frame_of, future_count_of};

use crate::body::vars_at_start;
use effect_sets::{Effects, Summary};
use region_paths::Elem;
use seg_meaning::{Children, Frame, Next, OpenBody, Position, ShortList};
use std::alloc::{AllocError, Global};
use twe_base::{Ints, List, Memory};
use twe_program::{Decl, Prog};

/// How many futures a body has; 0 if there is no such declaration.
fn future_count(decl: Option<&Decl>) -> usize
    ensures { result ≡ future_count_of (option_copied decl.entry) }
{
    match decl {
        None => 0,
        Some(decl) => decl.body.futures as usize,
    }
}

/// A body before its first statement. It takes memory only for more than four variables.
fn entry_body(alloc: Global, decl: Option<&Decl>, args: &[i32]) -> Result<OpenBody, Memory>
    ensures { IfOk result (λ body. body ≡ entry_body (option_copied decl.entry) args.now) }
{
    let body = [Position { block: 0, after: 0 }];
    Ok(OpenBody {
        vars: vars_at_start(alloc, decl, args)?,
        open_blocks: ShortList::from_slice(alloc, &body)?,
    })
}

/// The frame of a task of a declaration before its first segment.
fn frame_of(alloc: Global, decl: Option<&Decl>, task: u32, args: &[i32]) -> Result<Frame, Memory>
    ensures { IfOk result (λ frame. frame ≡ frame_of (option_copied decl.entry) task args.now) }
{
    let body = entry_body(alloc, decl, args)?;
    let futures = vec![in alloc; None; future_count(decl)]?;
    Ok(Frame {
        task: 0,
        decl: task,
        body: Some(body),
        fuel: 0,
        futures: List::from(futures),
        out: Children::new(alloc),
        next: Next::Go,
        value: 0,
        prints: Ints::new(alloc),
    })
}

/// The frame of a task of this declaration with these arguments, which it copies, before its first segment. Its number and
/// its fuel are 0; whoever makes the task sets them.
pub(crate) fn frame_with(alloc: Global, p: &Prog, task: u32, args: &[i32]) -> Result<Frame, Memory>
    ensures { IfOk result (λ frame. frame ≡ entry_frame p.now task args.now) }
{
    frame_of(alloc, p.tasks.get(task as usize), task, args)
}

/// The frame of a task of this declaration with these arguments, before its first segment. Its number and its fuel are 0;
/// whoever makes the task sets them.
pub fn entry_frame(alloc: Global, p: &Prog, task: u32, args: Ints) -> Result<Frame, Memory>
    ensures { IfOk result (λ frame. frame ≡ entry_frame p.now task args) }
{
    frame_with(alloc, p, task, args.as_slice())
}

/// Each number as a literal index.
fn indexes(alloc: Global, values: &[i32]) -> Result<Vec<Elem>, AllocError>
    ensures { IfOk result (λ elems. elems.items ≡ map (λ value. Index value) values.now) }
{
    values.iter().map(|v| Elem::Index(*v)).collect(alloc)
}

/// The effects of a task of this declaration with these arguments: the summary of the declaration, filled with them.
pub fn effects_at(alloc: Global, p: &Prog, task: u32, args: &Ints) -> Result<Summary, Memory>
    ensures { IfOk result (λ effects. effects ≡ effects_at p.now task args.now) }
{
    match p.tasks.get(task as usize) {
        None => Ok(Summary {
            effects: Effects::new(alloc),
        }),
        Some(decl) => {
            let elems = indexes(alloc, args.as_slice())?;
            decl.summary.fill(alloc, elems.as_slice())
        }
    }
}
