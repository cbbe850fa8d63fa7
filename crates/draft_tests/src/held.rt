//! A draft of a task that is held back is given back, and later what it has read has changed. The answers were worked out by
//! hand.
ghost use Rattle.std.specs.Prelude.{◌≡◌, []};
ghost use Rattle.opt_engine.specs.Drafts.{IsDraftedOf};

use crate::answers::{Told, answer_if, begin, hand_in, run_draft_of, run_next};
use opt_engine::{CellValue, Core, Drafted, RoundName};
use std::alloc::Global;
use std::marker::Brand;
use std::test::Fail;
use twe_base::{Limits, Memory};
use twe_frontend::read_program;
use twe_program::Prog;

/// While `main` holds `inc` back, it makes 40 of the 4 in the cell.
pub(crate) const HELD: &[u8] = b"region A;\n\
int x in A = 4;\n\
task void inc() writes A { x = x + 1; }\n\
task void main() writes A {\n\
future f = inc.executeLater();\n\
x = x * 10;\n\
}\n";

/// What was seen of a draft of `inc`, and of what the core answered.
#[derive(Clone, Copy, Debug, PartialEq, Eq)]
struct Seen {
    /// The answer to the first segment of `main`.
    first: Option<Told>,
    /// Whether the draft of `inc` has read the 4 in the cell and nothing else, and has left a 5 there.
    adds_one: bool,
    /// The answer to it before the second segment of `main`.
    held: Told,
    /// The answer to that segment.
    second: Option<Told>,
    /// The answer to the draft that was given back.
    changed: Option<Told>,
    /// The answer to a new draft of `inc`.
    last: Option<Told>,
    /// The value of the cell then.
    left: Option<i32>,
}

/// Whether a draft has read 4 in the only cell and has left 5 there.
fn adds_one(d: &Drafted) -> bool {
    d.reads.as_slice() == [CellValue { cell: 0, value: 4 }].as_slice()
        && d.writes.as_slice() == [CellValue { cell: 0, value: 5 }].as_slice()
}

/// The value of the only cell.
fn cell_of<N: RoundName>(core: &Core<N>) -> Option<i32> {
    core.run()?.state.cells.get(0).copied()
}

/// The answers to a draft before the second segment of `main`, to that segment, and to the draft that was given back.
pub(crate) fn follow<N: RoundName>(
    alloc: Global,
    p: &Prog,
    core: &mut Core<N>,
    d: Drafted,
) -> Result<(Told, Option<Told>, Option<Told>), Memory>
    requires named { p.now ≡ N.prog }
    requires drafted { IsDraftedOf p.now d }
{
    let (held, back) = hand_in(p, core, d)?;
    let second = run_next(alloc, p, core, 0);
    let changed = answer_if(p, core, back)?;
    Ok((held, second?, changed))
}

/// What is seen of this draft of `inc`, while `main` runs its second segment.
fn watch_draft<N: RoundName>(
    alloc: Global,
    p: &Prog,
    core: &mut Core<N>,
    first: Option<Told>,
    inc: Drafted,
) -> Result<Seen, Memory>
    requires named { p.now ≡ N.prog }
    requires drafted { IsDraftedOf p.now inc }
{
    let adds_one = adds_one(&inc);
    let (held, second, changed) = follow(alloc, p, core, inc)?;
    let last = run_next(alloc, p, core, 1)?;
    Ok(Seen {
        first,
        adds_one,
        held,
        second,
        changed,
        last,
        left: cell_of(core),
    })
}

/// What is seen of a draft of `inc` that is made once `main` has run its first segment; none if there is no draft.
fn watch<N: RoundName>(alloc: Global, p: &Prog, lim: Limits) -> Result<Option<Seen>, Memory>
    requires named { (p.now ≡ N.prog) × (lim ≡ N.lim) }
    requires first { N.earlier ≡ [] }
{
    let mut core: Core<N> = begin(alloc, p, lim)?;
    let first = run_next(alloc, p, &mut core, 0)?;
    match run_draft_of(alloc, p, &core, 1)? {
        Some(inc) => Ok(Some(watch_draft(alloc, p, &mut core, first, inc)?)),
        None => Ok(None),
    }
}

/// What is seen of it in the text.
fn watch_text(alloc: Global, lim: Limits) -> Result<Option<Seen>, Fail> {
    let p = read_program(alloc, HELD)?;
    let _main = p.main;
    Ok(watch::<Brand>(alloc, &p, lim)?)
}

#[test]
fn a_held_draft_is_given_back_and_its_read_has_changed(rt: HostRuntime) -> Result<(), Fail> {
    let seen = watch_text(rt.alloc(), Limits::default())?;
    let change = Told::Changed {
        cell: 0,
        read: 4,
        now: 40,
    };
    let wanted = Seen {
        first: Some(Told::Committed(1)),
        adds_one: true,
        held: Told::Held(0),
        second: Some(Told::Committed(2)),
        changed: Some(change),
        last: Some(Told::Committed(4)),
        left: Some(41),
    };
    assert_eq!(rt; seen, Some(wanted));
    Ok(())
}
