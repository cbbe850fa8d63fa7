//! The held span of a list of moves, the times of its entries, and the admissions that were held.
ghost use Rattle.std.specs.Prelude.{◌≡◌, ◌<◌, ◌++◌, [], ◌∷◌, ℕ, List as AnyList, Some, IfOk, IsErrOf, IsTrue, OnOk, slice_get};
ghost use Rattle.effect_sets.specs.Filled.{all_filled};
ghost use Rattle.seg_journal.specs.declared.journal.End.{End};
ghost use Rattle.seg_journal.specs.declared.journal.Entry.{Entry};
ghost use Rattle.machine_state.specs.declared.why.Why.{Why as Reason};
ghost use Rattle.machine_state.specs.declared.replay_fail.ReplayFail.TheVariants.{Illegal};
ghost use Rattle.machine_state.specs.declared.state.TaskRow.{TaskRow as AnyRow};
ghost use Rattle.machine_state.specs.Replays.{IsFirstIllegal};
ghost use Rattle.held_span.specs.Gathering.{AreGathered};
ghost use Rattle.held_span.specs.Marks.{AreMarksOf};
ghost use Rattle.held_span.specs.HeldSpans.{IsHeldProfile};
ghost use Rattle.held_span.specs.inner.Freeing.{AreNumbered};
ghost use Rattle.held_span.specs.inner.Spanning.{IsPlan, IsSpanning, effect_lists};

use crate::freeing::Freeing;
use crate::hold::Hold;
use crate::holds::holds_of;
use crate::keys::number_keys;
use crate::notes::EntryNotes;
use crate::{EffectMarks, Gathered};
use machine_state::{ReplayFail, State, TaskRow};
use seg_journal::{Limits, Move};
use span_profile::heaviest_chain::{Chains, Heaviest};
use span_profile::{Recorder, counted_run};
use std::alloc::Global;
use twe_base::{List, Memory};
use twe_machine::start;
use twe_program::Prog;

/// The held span of a run, and the times of its entries, if each begins as soon as all that lead to it or free it have ended.
#[derive(Debug, Drop)]
pub struct HeldProfile {
    /// The weight of the heaviest chain of its entries, which is when the last of them ends.
    pub span: u64,
    /// For each entry the time at which it begins.
    pub starts: List<u64>,
    /// For each entry the time at which it ends.
    pub ends: List<u64>,
    /// The admissions that were held, in their order.
    pub holds: List<Hold>,
}

/// A run under way, with the chains of its entries.
#[derive(Debug, Drop)]
struct Spanning {
    st: State,
    recorder: Recorder,
    freeing: Freeing,
    notes: EntryNotes,
    chains: Chains,
}

/// The lists of effects of the tasks with these rows.
fn gathered_of(alloc: Global, p: &Prog, rows: &[TaskRow]) -> Result<Gathered, Memory>
    requires { (t : ℕ) (row : AnyRow) → slice_get rows.now t ≡ Some row → IsTrue (all_filled row.effects.effects) }
    ensures { IfOk result (AreGathered (effect_lists rows.now)) }
{
    let mut gathered = Gathered::new(alloc, p)?;
    for row in rows {
        gathered.add(alloc, row.effects.effects.as_slice())?;
    }
    Ok(gathered)
}

/// The marks for the effects of the tasks with these rows. 32 bits can number the tasks and the effects together.
fn marks_of(alloc: Global, p: &Prog, rows: &[TaskRow]) -> Result<EffectMarks, Memory>
    requires { (t : ℕ) (row : AnyRow) → slice_get rows.now t ≡ Some row → IsTrue (all_filled row.effects.effects) }
    ensures marks { IfOk result (AreMarksOf (effect_lists rows.now)) }
    ensures numbered { IfOk result AreNumbered }
{
    let gathered = gathered_of(alloc, p, rows)?;
    let marks = gathered.into_marks(alloc)?;
    number_keys(alloc, marks.lists.len(), marks.rivals.len())?;
    Ok(marks)
}

impl Spanning {
    /// The start of a run for whose tasks there are these marks.
    fn start(alloc: Global, p: &Prog, lim: Limits, marks: &EffectMarks) -> Result<Self, Memory>
        ensures { (rows : AnyList AnyRow) (journal : AnyList Entry) → IsPlan p.now lim marks.now rows journal
            → IfOk result (IsSpanning p.now lim marks.now rows [] journal) }
    {
        let _main = p.main;
        let st = start(alloc, p, lim)?;
        let cells = st.cells.len();
        Ok(Spanning {
            st,
            recorder: Recorder::new(alloc, p, cells)?,
            freeing: Freeing::new(alloc, marks)?,
            notes: EntryNotes::new(alloc)?,
            chains: Chains::new(alloc),
        })
    }

    /// Takes the next entry of a run for whose tasks there are these marks.
    fn take(
        &mut self,
        alloc: Global,
        p: &Prog,
        lim: Limits,
        marks: &EffectMarks,
        mv: Move,
    ) -> Result<(), Memory>
        requires { (rows : AnyList AnyRow) × (before : AnyList Entry) × (end : End) × (rest : AnyList Entry)
            × IsSpanning p.now lim marks.now rows before (record { mv = mv; end = end } ∷ rest) self.old }
        ensures { (rows : AnyList AnyRow) (before : AnyList Entry) (end : End) (rest : AnyList Entry)
            → IsSpanning p.now lim marks.now rows before (record { mv = mv; end = end } ∷ rest) self.old
            → OnOk result (IsSpanning p.now lim marks.now rows (before ++ record { mv = mv; end = end } ∷ []) rest self.new) }
    {
        let _main = p.main;
        let _tasks = lim.tasks;
        let mut keys = self.recorder.take(alloc, p, lim, &mut self.st, mv)?;
        let low = self
            .freeing
            .note(alloc, marks, &self.st, mv.task, &mut keys)?;
        self.notes.note_entry(keys.end, low)?;
        self.chains
            .add(keys.weight, keys.asks.as_slice(), keys.gives.as_slice())
    }
}

/// The held span of a run of the program under these limits that makes these moves: the weight of a heaviest chain of its
/// entries, if an admission also follows what freed it; with the earliest times of its entries in that order, and the admissions
/// that were held. Entries after the first fault do not count, but their moves have to be legal too. If the moves are not all
/// legal, it returns the number of the first that is not, counted from 1, and why it is not.
///
/// An admission is compared with those effects alone that are placed where its own are, above or below, and that interfere.
pub fn held_profile(
    alloc: Global,
    p: &Prog,
    lim: Limits,
    moves: &[Move],
) -> Result<HeldProfile, ReplayFail>
    ensures held { IfOk result (λ h. IsHeldProfile p.now lim moves.now h.span h.starts h.ends h.holds) }
    ensures illegal { (n : ℕ) (why : Reason) → IsErrOf result (Illegal n why) → IsFirstIllegal p.now lim moves.now n why }
{
    let _main = p.main;
    let _tasks = lim.tasks;
    let (journal, st) = counted_run(alloc, p, lim, moves)?;
    let marks = marks_of(alloc, p, st.tasks.as_slice())?;
    let mut run = Spanning::start(alloc, p, lim, &marks)?;
    for entry in journal.as_slice() {
        run.take(alloc, p, lim, &marks, entry.mv)?;
    }
    let Spanning { chains, notes, .. } = run;
    let heaviest = chains.heaviest(alloc)?;
    let holds = holds_of(alloc, journal.as_slice(), &notes, &heaviest)?;
    let Heaviest {
        span,
        starts,
        ends,
        ..
    } = heaviest;
    Ok(HeldProfile {
        span,
        starts,
        ends,
        holds,
    })
}
