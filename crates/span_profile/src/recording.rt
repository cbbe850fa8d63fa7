//! What the entries of a run ask for and give, one after another.
ghost use Rattle.std.specs.Prelude.{◌≡◌, ◌<◌, List, IfOk, OnOk};
ghost use Rattle.prefix_tree.specs.declared.part.Part.{Part};
ghost use Rattle.machine_state.specs.Legal.{MayMove};
ghost use Rattle.machine_state.specs.Moves.{move_result};
ghost use Rattle.machine_state.specs.Runs.{IsReached};
ghost use Rattle.twe_program.specs.Program.{cell_count};
ghost use Rattle.span_profile.specs.Recorders.{HasKeysOf, IsRecorder, Records};

use crate::cell_set::CellSet;
use crate::heaviest_chain::Key;
use crate::keys::{asked, given};
use crate::places::{NumberedPaths, number_places};
use crate::profiling::advance;
use crate::watched::WatchedCells;
use machine_state::State;
use seg_journal::{End, Limits, Move};
use std::alloc::Global;
use twe_base::{Ints, List, Memory};
use twe_program::Prog;

/// What an entry asks for and gives. It leads to a later one that asks for a key which it gives.
#[derive(Debug, Drop)]
pub struct EntryKeys {
    /// How it ended.
    pub end: End,
    /// Its weight.
    pub weight: u64,
    /// The keys that it asks for.
    pub asks: List<Key>,
    /// The keys that it gives.
    pub gives: List<Key>,
}

/// Takes the moves of a run, and tells what their entries ask for and give. `Records` says by which numbers it knows paths.
#[derive(Debug, Drop)]
pub struct Recorder {
    /// The numbers of the paths of cells.
    places: NumberedPaths,
    /// The cells that an entry under way has read and written.
    watched: WatchedCells,
}

impl Recorder {
    /// The start of a run of a program with so many cells.
    pub fn new(alloc: Global, p: &Prog, cells: usize) -> Result<Self, Memory>
        requires { cells ≡ cell_count p.now }
        ensures { IfOk result (IsRecorder p.now) }
    {
        let _main = p.main;
        Ok(Recorder {
            places: number_places(alloc, p)?,
            watched: WatchedCells {
                values: Ints::new(alloc),
                reads: CellSet::new(alloc, cells)?,
                writes: CellSet::new(alloc, cells)?,
            },
        })
    }

    /// Takes a legal move, and returns what its entry asks for and gives. After `Memory` nothing is known of the state and of the
    /// recorder, which can only be dropped.
    pub fn take(
        &mut self,
        alloc: Global,
        p: &Prog,
        lim: Limits,
        st: &mut State,
        mv: Move,
    ) -> Result<EntryKeys, Memory>
        requires recorder { IsRecorder p.now self.old }
        requires reached { IsReached p.now lim st.old }
        requires legal { MayMove st.old mv }
        ensures moved { IfOk result (λ keys. (st.new, keys.end) ≡ move_result p.now lim st.old mv) }
        ensures some { IfOk result (λ keys. 0 < keys.weight) }
        ensures keys { (tree : List (List Part)) → Records p.now tree self.old
            → IfOk result (HasKeysOf p.now tree st.old mv) }
        ensures records { (tree : List (List Part)) → Records p.now tree self.old → OnOk result (Records p.now tree self.new) }
    {
        let _main = p.main;
        let _tasks = lim.tasks;
        let deed = advance(alloc, p, lim, st, mv, &mut self.watched)?;
        let reads = self.watched.reads.as_slice();
        let writes = self.watched.writes.as_slice();
        let asks = asked(alloc, &self.places, &deed, reads, writes)?;
        let gives = given(alloc, &self.places, &deed, reads, writes)?;
        self.watched.reads.clear();
        self.watched.writes.clear();
        Ok(EntryKeys {
            end: deed.end,
            weight: deed.weight,
            asks,
            gives,
        })
    }
}
