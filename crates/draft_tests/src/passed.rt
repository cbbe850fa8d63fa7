//! A core passes over the second of two drafts of one segment, and has no draft of a task that was not made. The answers were
//! worked out by hand.
ghost use Rattle.std.specs.Prelude.{◌≡◌, []};
ghost use Rattle.opt_engine.specs.Drafts.{IsDraftedOf};

use crate::answers::{Told, answer_to, begin, has_draft, run_draft_of, run_next};
use crate::held::HELD;
use opt_engine::{Core, Drafted, RoundName};
use std::alloc::Global;
use std::marker::Brand;
use std::test::Fail;
use twe_base::{Limits, Memory};
use twe_frontend::read_program;
use twe_program::Prog;

/// What was seen of two drafts of the first segment of `main`.
#[derive(Clone, Copy, Debug, PartialEq, Eq)]
struct Seen {
    /// Whether there was a draft of the next task, which was not made yet.
    other: bool,
    /// The answer to the first of the two that is handed in.
    first: Option<Told>,
    /// The answer to the second.
    second: Told,
}

/// What is seen if this draft of `main` is handed in after a new one.
fn watch_late<N: RoundName>(
    alloc: Global,
    p: &Prog,
    core: &mut Core<N>,
    d: Drafted,
) -> Result<Seen, Memory>
    requires named { p.now ≡ N.prog }
    requires drafted { IsDraftedOf p.now d }
{
    let other = has_draft(p, core, 1);
    let first = run_next(alloc, p, core, 0);
    let second = answer_to(p, core, d)?;
    Ok(Seen {
        other: other?,
        first: first?,
        second,
    })
}

/// What is seen of two drafts of a new core.
fn watch<N: RoundName>(alloc: Global, p: &Prog, lim: Limits) -> Result<Option<Seen>, Memory>
    requires named { (p.now ≡ N.prog) × (lim ≡ N.lim) }
    requires first { N.earlier ≡ [] }
{
    let mut core: Core<N> = begin(alloc, p, lim)?;
    match run_draft_of(alloc, p, &core, 0)? {
        Some(early) => Ok(Some(watch_late(alloc, p, &mut core, early)?)),
        None => Ok(None),
    }
}

/// What is seen of them in the text.
fn watch_text(alloc: Global, lim: Limits) -> Result<Option<Seen>, Fail> {
    let p = read_program(alloc, HELD)?;
    let _main = p.main;
    Ok(watch::<Brand>(alloc, &p, lim)?)
}

#[test]
fn a_segment_is_taken_by_one_draft_alone(rt: HostRuntime) -> Result<(), Fail> {
    let seen = watch_text(rt.alloc(), Limits::default())?;
    let wanted = Seen {
        other: false,
        first: Some(Told::Committed(1)),
        second: Told::Passed,
    };
    assert_eq!(rt; seen, Some(wanted));
    Ok(())
}
