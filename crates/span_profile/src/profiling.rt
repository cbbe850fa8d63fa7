//! The profile of a list of moves.
ghost use Rattle.std.specs.Prelude.{◌≡◌, ◌<◌, ◌||◌, true, false, ◌+◌, ◌++◌, ◌∷◌, [], ℕ, length, map, IfOk, OnOk, IsErrOf};
ghost use Rattle.seg_journal.specs.Spelling.{move_of};
ghost use Rattle.machine_state.specs.declared.why.Why.{Why as Reason};
ghost use Rattle.machine_state.specs.declared.replay_fail.ReplayFail.TheVariants.{Illegal};
ghost use Rattle.machine_state.specs.Legal.{Forbids, MayMove};
ghost use Rattle.machine_state.specs.Moves.{move_result};
ghost use Rattle.machine_state.specs.Replays.{IsFirstIllegal};
ghost use Rattle.machine_state.specs.Runs.{IsReached, is_fault};
ghost use Rattle.twe_program.specs.Program.{cell_count};
ghost use Rattle.span_profile.specs.Profiles.{HasEarliest, IsProfile};
ghost use Rattle.span_profile.specs.Reasons.{HasSteps};
ghost use Rattle.span_profile.specs.heaviest_chain.Built.{HasRoom, FrontHolds};
ghost use Rattle.span_profile.specs.heaviest_chain.Nodes.{Nodes};
ghost use Rattle.span_profile.specs.inner.Deeds.{DidMove, node_of};
ghost use Rattle.span_profile.specs.inner.Sets.{no_cells};
ghost use Rattle.span_profile.specs.inner.Tracked.{IsTracked};

use crate::cell_set::CellSet;
use crate::counting::is_fault;
use crate::deed::{Deed, admission};
use crate::heaviest_chain::{Chains, Heaviest};
use crate::keys::{asked, given};
use crate::places::{NumberedPaths, number_places};
use crate::reasons::ChainStep;
use crate::running::run;
use crate::trail::ChainTrail;
use crate::watched::WatchedCells;
use machine_state::{ReplayFail, State};
use seg_journal::{Entry, Journal, Kind, Limits, Move};
use std::alloc::Global;
use twe_base::{Ints, List, Memory};
use twe_machine::{EnabledTasks, start, step};
use twe_program::Prog;

/// A run with its journal so far, the chains of the entries of its counted part, and the steps of a chain of them.
#[derive(Debug, Drop)]
struct Tracked {
    st: State,
    /// The enabled tasks of the state.
    enabled: EnabledTasks,
    journal: Journal,
    /// Whether an entry has met a fault: the entries after it do not count.
    over: bool,
    places: NumberedPaths,
    watched: WatchedCells,
    chains: Chains,
    trail: ChainTrail,
}

impl Tracked {
    /// The start of a run, with the chain of entries that is followed.
    fn start(alloc: Global, p: &Prog, lim: Limits, chain: List<u64>) -> Result<Self, Memory>
        ensures tracked { IfOk result (IsTracked p.now lim) }
        ensures chain { IfOk result (λ run. run.trail.chain ≡ chain) }
        ensures empty { IfOk result (λ run. run.journal ≡ []) }
    {
        let _main = p.main;
        let st = start(alloc, p, lim)?;
        let size = st.cells.len();
        Ok(Tracked {
            st,
            enabled: EnabledTasks::new(alloc)?,
            journal: Journal::new(alloc),
            over: false,
            places: number_places(alloc, p)?,
            watched: WatchedCells {
                values: Ints::new(alloc),
                reads: CellSet::new(alloc, size)?,
                writes: CellSet::new(alloc, size)?,
            },
            chains: Chains::new(alloc),
            trail: ChainTrail::new(alloc, chain),
        })
    }

    /// Takes the move with the number `n`, if it is legal.
    fn take_move(
        &mut self,
        alloc: Global,
        p: &Prog,
        lim: Limits,
        mv: Move,
        n: u64,
    ) -> Result<(), ReplayFail>
        requires { IsTracked p.now lim self.old }
        ensures tracked { OnOk result (IsTracked p.now lim self.new) }
        ensures chain { OnOk result (self.new.trail.chain ≡ self.old.trail.chain) }
        ensures moves { OnOk result (map move_of self.new.journal ≡ map move_of self.old.journal ++ mv ∷ []) }
        ensures count { OnOk result (length self.new.journal ≡ length self.old.journal + 1) }
        ensures illegal { (m : ℕ) (why : Reason) → IsErrOf result (Illegal m why)
            → (m ≡ n) × Forbids self.old.st mv.kind mv.task why }
    {
        let _main = p.main;
        let _tasks = lim.tasks;
        if let Err(why) = self.enabled.may(p, &self.st, mv) {
            return Err(ReplayFail::Illegal { n, why });
        }
        let before = self.st.links.task_count();
        let number = self.journal.len() as u64;
        let deed = advance(alloc, p, lim, &mut self.st, mv, &mut self.watched)?;
        self.journal.push(Entry { mv, end: deed.end })?;
        self.enabled.note(&self.st, mv, before)?;
        self.trail.follow(alloc, self.over, number, &self.places, &deed, &self.watched)?;
        let chains = &mut self.chains;
        self.over = count_entry(alloc, self.over, chains, &self.places, &self.watched, &deed)?;
        self.watched.reads.clear();
        self.watched.writes.clear();
        Ok(())
    }
}

/// Adds an entry that has done this to the chains.
fn add_entry(
    alloc: Global,
    chains: &mut Chains,
    places: &NumberedPaths,
    watched: &WatchedCells,
    deed: &Deed,
) -> Result<(), Memory>
    requires some { 0 < deed.now.weight }
    requires room { HasRoom chains.old deed.now.weight }
    ensures { (nodes : Nodes) → FrontHolds nodes chains.old
        → OnOk result (FrontHolds (nodes ++ node_of places.now deed.now watched.now ∷ []) chains.new) }
{
    let reads = watched.reads.as_slice();
    let writes = watched.writes.as_slice();
    let asks = asked(alloc, places, deed, reads, writes)?;
    let gives = given(alloc, places, deed, reads, writes)?;
    chains.add(deed.weight, asks.as_slice(), gives.as_slice())
}

/// Counts an entry that has done this, unless one before it has met a fault, and returns whether one has met a fault by now.
fn count_entry(
    alloc: Global,
    over: bool,
    chains: &mut Chains,
    places: &NumberedPaths,
    watched: &WatchedCells,
    deed: &Deed,
) -> Result<bool, Memory>
    requires some { 0 < deed.now.weight }
    requires room { over ≡ false → HasRoom chains.old deed.now.weight }
    ensures over { IfOk result (λ ended. ended ≡ (over || is_fault deed.now.end)) }
    ensures kept { OnOk result (over ≡ true → chains.new ≡ chains.old) }
    ensures added { (nodes : Nodes) → FrontHolds nodes chains.old
        → OnOk result (over ≡ false → FrontHolds (nodes ++ node_of places.now deed.now watched.now ∷ []) chains.new) }
{
    if over {
        return Ok(true);
    }
    add_entry(alloc, chains, places, watched, deed)?;
    Ok(is_fault(deed.end))
}

/// Takes a legal move, and returns what it did.
pub(crate) fn advance(
    alloc: Global,
    p: &Prog,
    lim: Limits,
    st: &mut State,
    mv: Move,
    watched: &mut WatchedCells,
) -> Result<Deed, Memory>
    requires reached { IsReached p.now lim st.old }
    requires legal { MayMove st.old mv }
    requires reads { watched.old.reads ≡ no_cells (cell_count p.now) }
    requires writes { watched.old.writes ≡ no_cells (cell_count p.now) }
    ensures moved { IfOk result (λ deed. (st.new, deed.end) ≡ move_result p.now lim st.old mv) }
    ensures did { IfOk result (λ deed. DidMove p.now st.old mv deed watched.new) }
{
    let _main = p.main;
    let _tasks = lim.tasks;
    match mv.kind {
        Kind::Admit => {
            step(alloc, p, lim, st, mv)?;
            Ok(admission(mv.task))
        }
        Kind::Run => run(alloc, p, lim, st, mv.task, watched),
    }
}

/// The run of these moves, with the steps of this chain of its entries. If the moves are not all legal, it returns the number of
/// the first that is not, counted from 1, and why it is not.
fn track(
    alloc: Global,
    p: &Prog,
    lim: Limits,
    moves: &[Move],
    chain: List<u64>,
) -> Result<Tracked, ReplayFail>
    ensures tracked { IfOk result (IsTracked p.now lim) }
    ensures chain { IfOk result (λ run. run.trail.chain ≡ chain) }
    ensures moves { IfOk result (λ run. map move_of run.journal ≡ moves.now) }
    ensures illegal { (n : ℕ) (why : Reason) → IsErrOf result (Illegal n why) → IsFirstIllegal p.now lim moves.now n why }
{
    let mut run = Tracked::start(alloc, p, lim, chain)?;
    for (i, mv) in moves.iter().enumerate() {
        run.take_move(alloc, p, lim, *mv, i as u64 + 1)?;
    }
    Ok(run)
}

/// The work and the span of a run of the program under these limits that makes these moves, its heaviest chain, and the earliest
/// times of its entries. Entries are numbered from 0. Those after the first fault do not count, but their moves have to be
/// legal too. If the moves are not all legal, it returns the number of the first that is not, counted from 1, and why it is
/// not.
pub fn profile(alloc: Global, p: &Prog, lim: Limits, moves: &[Move]) -> Result<Heaviest, ReplayFail>
    ensures profiled { IfOk result (λ h. IsProfile p.now lim moves.now h.work h.span h.chain) }
    ensures earliest { IfOk result (λ h. HasEarliest p.now lim moves.now h.span h.starts h.ends) }
    ensures illegal { (n : ℕ) (why : Reason) → IsErrOf result (Illegal n why) → IsFirstIllegal p.now lim moves.now n why }
{
    let run = track(alloc, p, lim, moves, List::new(alloc))?;
    Ok(run.chains.heaviest(alloc)?)
}

/// Why the entries of the heaviest chain of these moves follow one another, which is the chain that `profile` finds. If the moves
/// are not all legal, it returns the number of the first that is not, counted from 1, and why it is not.
pub fn explain_chain(
    alloc: Global,
    p: &Prog,
    lim: Limits,
    moves: &[Move],
    chain: &[u64],
) -> Result<List<ChainStep>, ReplayFail>
    ensures steps { (work span : ℕ) → IsProfile p.now lim moves.now work span chain.now
        → IfOk result (HasSteps p.now lim moves.now chain.now) }
    ensures illegal { (n : ℕ) (why : Reason) → IsErrOf result (Illegal n why) → IsFirstIllegal p.now lim moves.now n why }
{
    let followed = List::from_slice(alloc, chain)?;
    let run = track(alloc, p, lim, moves, followed)?;
    let Tracked { trail, .. } = run;
    let ChainTrail { steps, .. } = trail;
    Ok(steps)
}
