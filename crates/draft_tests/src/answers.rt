//! Drafts of a core, and its answers in plain numbers.
ghost use Rattle.std.specs.Prelude.{◌≡◌, [], IfOk, IfSome};
ghost use Rattle.opt_engine.specs.Drafts.{IsDraftedOf};

use opt_engine::{Core, Drafted, RoundName, Verdict, run_draft};
use std::alloc::Global;
use twe_base::{Limits, Memory};
use twe_program::Prog;

/// What a core answered to a draft.
#[derive(Clone, Copy, Debug, PartialEq, Eq)]
pub(crate) enum Told {
    /// The draft was committed, and its last entry has this number.
    Committed(u64),
    /// The draft was not of the next segment of its task.
    Passed,
    /// This task held the draft.
    Held(u32),
    /// A cell has changed.
    Changed {
        /// The cell.
        cell: u32,
        /// The value that was read.
        read: i32,
        /// The value that the cell has now.
        now: i32,
    },
}

/// A new core. No more is said of it, so that the proofs of its callers stay short.
pub(crate) fn begin<N: RoundName>(alloc: Global, p: &Prog, lim: Limits) -> Result<Core<N>, Memory>
    requires named { (p.now ≡ N.prog) × (lim ≡ N.lim) }
    requires first { N.earlier ≡ [] }
{
    Core::new(alloc, p, lim)
}

/// A draft of the next segment of a task, which was run; none if the task is not ready.
pub(crate) fn run_draft_of<N: RoundName>(
    alloc: Global,
    p: &Prog,
    core: &Core<N>,
    task: u32,
) -> Result<Option<Drafted>, Memory>
    requires { p.now ≡ N.prog }
    ensures { IfOk result (λ found. IfSome found (IsDraftedOf p.now)) }
{
    match core.draft(p, task)? {
        Some(draft) => Ok(Some(run_draft(alloc, p, draft)?)),
        None => Ok(None),
    }
}

/// Whether there is a draft of the next segment of a task.
pub(crate) fn has_draft<N: RoundName>(p: &Prog, core: &Core<N>, task: u32) -> Result<bool, Memory>
    requires { p.now ≡ N.prog }
{
    Ok(core.draft(p, task)?.is_some())
}

/// What the core answers to a draft, and the draft if it is given back.
pub(crate) fn hand_in<N: RoundName>(
    p: &Prog,
    core: &mut Core<N>,
    d: Drafted,
) -> Result<(Told, Option<Drafted>), Memory>
    requires named { p.now ≡ N.prog }
    requires drafted { IsDraftedOf p.now d }
    ensures { IfOk result (λ told. IfSome told.1 (λ back. back ≡ d)) }
{
    match core.commit(p, d)? {
        Verdict::Committed { number } => Ok((Told::Committed(number), None)),
        Verdict::Passed => Ok((Told::Passed, None)),
        Verdict::Held { by, draft } => Ok((Told::Held(by), Some(draft))),
        Verdict::Changed { cell, read, now } => Ok((Told::Changed { cell, read, now }, None)),
    }
}

/// What the core answers to a draft.
pub(crate) fn answer_to<N: RoundName>(
    p: &Prog,
    core: &mut Core<N>,
    d: Drafted,
) -> Result<Told, Memory>
    requires named { p.now ≡ N.prog }
    requires drafted { IsDraftedOf p.now d }
{
    let (told, _back) = hand_in(p, core, d)?;
    Ok(told)
}

/// What the core answers to a draft; none if there is no draft.
pub(crate) fn answer_if<N: RoundName>(
    p: &Prog,
    core: &mut Core<N>,
    found: Option<Drafted>,
) -> Result<Option<Told>, Memory>
    requires named { p.now ≡ N.prog }
    requires drafted { IfSome found (IsDraftedOf p.now) }
{
    match found {
        Some(d) => Ok(Some(answer_to(p, core, d)?)),
        None => Ok(None),
    }
}

/// What the core answers to a new draft of a task; none if the task is not ready.
pub(crate) fn run_next<N: RoundName>(
    alloc: Global,
    p: &Prog,
    core: &mut Core<N>,
    task: u32,
) -> Result<Option<Told>, Memory>
    requires { p.now ≡ N.prog }
{
    let found = run_draft_of(alloc, p, core, task)?;
    answer_if(p, core, found)
}
