//! Copies of frames, and whether two frames are the same but for reserved memory.
ghost use Rattle.std.specs.Prelude.{◌≡◌, ◌↔◌, IfOk, IsTrue};
ghost use Rattle.state_copies.specs.Frames.{unreserved};
ghost use Rattle.state_copies.specs.inner.Frames.{SameContents, SameProgress};

use seg_meaning::{Children, Frame, OpenBody, Position};
use std::alloc::Global;
use twe_base::Memory;

/// A copy of a frame in its own memory, with no memory reserved for a further child.
pub fn copy_frame(alloc: Global, frame: &Frame) -> Result<Frame, Memory>
    ensures { IfOk result (λ copy. copy ≡ unreserved frame.now) }
{
    Ok(Frame {
        task: frame.task,
        decl: frame.decl,
        body: copy_body(alloc, &frame.body)?,
        fuel: frame.fuel,
        futures: frame.futures.copy(alloc)?,
        out: copy_children(alloc, &frame.out)?,
        next: frame.next,
        value: frame.value,
        prints: frame.prints.copy(alloc)?,
    })
}

/// A copy of what remains of a body.
fn copy_body(alloc: Global, body: &Option<OpenBody>) -> Result<Option<OpenBody>, Memory>
    ensures { IfOk result (λ copy. copy ≡ body.now) }
{
    match body {
        None => Ok(None),
        Some(body) => Ok(Some(OpenBody {
            vars: body.vars.copy(alloc)?,
            open_blocks: body.open_blocks.copy(alloc)?,
        })),
    }
}

/// A copy of the unjoined children of a task, with no memory reserved for a further one.
fn copy_children(alloc: Global, children: &Children) -> Result<Children, Memory>
    ensures { IfOk result (λ copy. copy ≡ record { items = children.now.items; room = 0 }) }
{
    let mut copy = Children::new(alloc);
    for child in children.as_slice() {
        copy.reserve_one()?;
        copy.push_within(*child);
    }
    Ok(copy)
}

/// Whether two frames are the same but for memory that is reserved.
pub fn same_frame(a: &Frame, b: &Frame) -> bool
    ensures { IsTrue result ↔ (unreserved a.now ≡ unreserved b.now) }
{
    same_progress(a, b) && same_contents(a, b)
}

/// Whether two frames are of one task, and have come equally far.
fn same_progress(a: &Frame, b: &Frame) -> bool
    ensures { IsTrue result ↔ SameProgress a.now b.now }
{
    a.task == b.task
        && a.decl == b.decl
        && a.fuel == b.fuel
        && a.value == b.value
        && a.next == b.next
}

/// Whether two frames have the same lists.
fn same_contents(a: &Frame, b: &Frame) -> bool
    ensures { IsTrue result ↔ SameContents a.now b.now }
{
    same_body(&a.body, &b.body)
        && same_futures(a.futures.as_slice(), b.futures.as_slice())
        && same_children(a.out.as_slice(), b.out.as_slice())
        && same_ints(a.prints.as_slice(), b.prints.as_slice())
}

/// Whether the same remains of two bodies.
fn same_body(a: &Option<OpenBody>, b: &Option<OpenBody>) -> bool
    ensures { IsTrue result ↔ (a.now ≡ b.now) }
{
    match (a, b) {
        (None, None) => true,
        (Some(a), Some(b)) => same_open_body(a, b),
        (None, Some(_)) => false,
        (Some(_), None) => false,
    }
}

/// Whether two bodies that have begun are the same.
fn same_open_body(a: &OpenBody, b: &OpenBody) -> bool
    ensures { IsTrue result ↔ (a.now ≡ b.now) }
{
    same_ints(a.vars.as_slice(), b.vars.as_slice())
        && same_positions(a.open_blocks.as_slice(), b.open_blocks.as_slice())
}

/// Whether two slices have the same numbers.
pub fn same_ints(a: &[i32], b: &[i32]) -> bool
    ensures { IsTrue result ↔ (a.now ≡ b.now) }
{
    a == b
}

fn same_children(a: &[u32], b: &[u32]) -> bool
    ensures { IsTrue result ↔ (a.now ≡ b.now) }
{
    a == b
}

fn same_futures(a: &[Option<u32>], b: &[Option<u32>]) -> bool
    ensures { IsTrue result ↔ (a.now ≡ b.now) }
{
    a == b
}

fn same_positions(a: &[Position], b: &[Position]) -> bool
    ensures { IsTrue result ↔ (a.now ≡ b.now) }
{
    a == b
}
