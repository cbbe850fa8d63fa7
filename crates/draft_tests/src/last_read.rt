//! A draft has read two cells, and only the last of them has changed. The answer was worked out by hand.
ghost use Rattle.std.specs.Prelude.{◌≡◌, []};

use crate::answers::{Told, begin, run_draft_of, run_next};
use crate::held::follow;
use opt_engine::{Core, RoundName};
use std::alloc::Global;
use std::marker::Brand;
use std::test::Fail;
use twe_base::{Limits, Memory};
use twe_frontend::read_program;
use twe_program::Prog;

/// While `main` holds `sum` back, it makes 40 of the 4 in the second cell, which `sum` reads last.
const TWO_READS: &[u8] = b"region A, B;\n\
int x in A = 3;\n\
int y in B = 4;\n\
task void sum() writes A, B { x = x + y; }\n\
task void main() writes A, B {\n\
future f = sum.executeLater();\n\
y = y * 10;\n\
}\n";

/// The answer to a draft of `sum` that was made before the second segment of `main`; none if there is no draft.
fn watch<N: RoundName>(alloc: Global, p: &Prog, lim: Limits) -> Result<Option<Told>, Memory>
    requires named { (p.now ≡ N.prog) × (lim ≡ N.lim) }
    requires first { N.earlier ≡ [] }
{
    let mut core: Core<N> = begin(alloc, p, lim)?;
    let _first = run_next(alloc, p, &mut core, 0)?;
    match run_draft_of(alloc, p, &core, 1)? {
        Some(sum) => Ok(follow(alloc, p, &mut core, sum)?.2),
        None => Ok(None),
    }
}

/// That answer in the text.
fn watch_text(alloc: Global, lim: Limits) -> Result<Option<Told>, Fail> {
    let p = read_program(alloc, TWO_READS)?;
    let _main = p.main;
    Ok(watch::<Brand>(alloc, &p, lim)?)
}

#[test]
fn a_change_of_the_last_read_is_found(rt: HostRuntime) -> Result<(), Fail> {
    let seen = watch_text(rt.alloc(), Limits::default())?;
    let wanted = Told::Changed {
        cell: 1,
        read: 4,
        now: 40,
    };
    assert_eq!(rt; seen, Some(wanted));
    Ok(())
}
