//! Copies of states, and whether two states are alike.
ghost use Rattle.std.specs.Prelude.{◌≡◌, ◌↔◌, IfOk, IsTrue};
ghost use Rattle.twe_base.specs.Limits.{Bounds};
ghost use Rattle.twe_program.specs.Program.{Program};
ghost use Rattle.state_copies.specs.Lasting.{AreAlike, IsFaultless};
ghost use Rattle.state_copies.specs.inner.Rows.{HaveOneTally};

use crate::frames::same_ints;
use crate::links::copy_links;
use crate::rows::{copy_rows, rows_match};
use machine_state::State;
use std::alloc::Global;
use twe_base::Memory;

/// The same state in its own memory: one that a run of some program without a fault has come to. It takes time linear in the size of
/// the state.
pub fn copy_state(alloc: Global, st: &State) -> Result<State, Memory>
    requires { (p : Program) × (lim : Bounds) × IsFaultless p lim st.now }
    ensures { IfOk result (λ copy. copy ≡ st.now) }
{
    Ok(State {
        cells: st.cells.copy(alloc)?,
        tasks: copy_rows(alloc, st.tasks.as_slice())?,
        links: copy_links(alloc, &st.links)?,
        prints: st.prints.copy(alloc)?,
        asked: st.asked,
        first_fault: st.first_fault,
    })
}

/// Whether two states are alike that runs of a program without a fault have come to. It takes no memory, and time linear in their
/// size.
pub fn are_alike(a: &State, b: &State) -> bool
    requires { (p : Program) × (lim : Bounds) × IsFaultless p lim a.now × IsFaultless p lim b.now }
    ensures { IsTrue result ↔ AreAlike a.now b.now }
{
    have_one_tally(a, b) && rows_match(a.tasks.as_slice(), b.tasks.as_slice())
}

/// Whether two states have the same cells, the same printed numbers and the same count of makes.
fn have_one_tally(a: &State, b: &State) -> bool
    ensures { IsTrue result ↔ HaveOneTally a.now b.now }
{
    a.asked == b.asked
        && same_ints(a.cells.as_slice(), b.cells.as_slice())
        && same_ints(a.prints.as_slice(), b.prints.as_slice())
}
