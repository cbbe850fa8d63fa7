//! The reasons for the entries of a chain, found as the entries come.
ghost use Rattle.std.specs.Prelude.{◌≡◌, ◌<◌, ◌==◌, ◌||◌, ◌++◌, ◌∷◌, [], ◌↔◌, ℕ, List, Some, true, false, IfNone, IfSome, IfOk, OnOk, IsTrue, length, slice_get};
ghost use Rattle.std.specs.List.{list_any};
ghost use Rattle.prefix_tree.specs.declared.part.Part.{Part};
ghost use Rattle.span_profile.specs.Reasons.{IsReasonFor, IsReasonAt, IsUntold, ReadsNone};
ghost use Rattle.span_profile.specs.Strands.{Strand, made_task};
ghost use Rattle.span_profile.specs.inner.Deeds.{node_of};
ghost use Rattle.span_profile.specs.inner.Numbering.{ArePlaces, place_of};
ghost use Rattle.span_profile.specs.inner.Shows.{Shows};
ghost use Rattle.span_profile.specs.inner.Trails.{IsEntryOf, IsFirstThat, IsLast, IsMarked, IsTrail, gave, gave_cell, key_for};
ghost use Rattle.machine_state.specs.Runs.{is_done};
ghost use Rattle.twe_program.specs.Program.{Program};

use crate::deed::Deed;
use crate::heaviest_chain::fronts::Fronts;
use crate::heaviest_chain::key::Key;
use crate::heaviest_chain::top::Top;
use crate::keys::given;
use crate::places::NumberedPaths;
use crate::reasons::{ChainStep, LinkReason};
use crate::watched::WatchedCells;
use seg_journal::End;
use std::alloc::Global;
use twe_base::{List, Memory};

/// What the last entry of a chain that has come did, apart from its accesses.
#[derive(Clone, Copy, Debug)]
pub(crate) struct Last {
    /// Its number.
    pub number: u64,
    /// Its task.
    pub task: u32,
    /// The task that it made, if it made one.
    pub made: Option<u32>,
    /// Whether its task is done by it.
    pub done: bool,
}

/// The entries of a chain, and the steps of those that have come.
#[derive(Debug, Drop)]
pub(crate) struct ChainTrail {
    /// The numbers of the entries of the chain.
    pub chain: List<u64>,
    /// The steps of those that have come.
    pub steps: List<ChainStep>,
    /// The last of these.
    pub last: Option<Last>,
    /// For each path the last of them that accessed it, and the last that wrote it.
    pub fronts: Fronts,
}

/// Whether the entry of this number is the last of those with a front that gave the key.
fn gave(fronts: &Fronts, key: Key, number: u64) -> bool
    ensures { result ≡ gave fronts.now key number }
{
    match fronts.front(key) {
        None => false,
        Some(top) => top.node == number,
    }
}

/// The key that a reader of a place asks for, or a writer.
fn key_for(reads: bool, place: u32) -> Key
    ensures { result ≡ key_for reads place }
{
    if reads {
        Key::Write(place)
    } else {
        Key::Access(place)
    }
}

/// The first of the cells for which the entry of this number gave what a reader asks for, or a writer.
fn first_given(
    fronts: &Fronts,
    places: &NumberedPaths,
    reads: bool,
    number: u64,
    cells: &[u32],
) -> Option<u32>
    ensures { IsFirstThat (gave_cell fronts.now places.now reads number) cells.now result }
{
    for cell in cells {
        if gave(fronts, key_for(reads, places.of(*cell)), number) {
            return Some(*cell);
        }
    }
    None
}

/// Whether one of the cells is of this place.
fn some_at(places: &NumberedPaths, place: u32, cells: &[u32]) -> bool
    ensures { result ≡ list_any (λ cell. place_of places.now cell == place) cells.now }
{
    for cell in cells {
        if places.of(*cell) == place {
            return true;
        }
    }
    false
}

/// Whether an entry that did this wrote `Console`.
fn writes_console(places: &NumberedPaths, deed: &Deed, watched: &WatchedCells) -> bool
    ensures { result ≡ (deed.now.printed
        || list_any (λ cell. place_of places.now cell == places.now.console) watched.now.writes.items) }
{
    deed.printed || some_at(places, places.console, watched.writes.as_slice())
}

/// Why an entry that did this follows one of this number, by a write of `Console` or of a cell.
fn reason_by_writes(
    fronts: &Fronts,
    places: &NumberedPaths,
    deed: &Deed,
    watched: &WatchedCells,
    number: u64,
) -> LinkReason
    ensures { (p : Program) (are : ArePlaces p places.now) (a b : Strand) → IsEntryOf p places.now deed.now watched.now b
        → IsMarked are.nodes fronts.now number a → IsUntold a b → ReadsNone a b → IsReasonFor p a b result }
{
    let console = places.console;
    if writes_console(places, deed, watched) && gave(fronts, Key::Access(console), number) {
        return LinkReason::Printed {
            wrote: gave(fronts, Key::Write(console), number),
        };
    }
    match first_given(fronts, places, false, number, watched.writes.as_slice()) {
        None => LinkReason::Unlinked,
        Some(cell) => LinkReason::Wrote {
            cell,
            wrote: gave(fronts, Key::Write(places.of(cell)), number),
        },
    }
}

/// Why an entry that did this follows one of this number, by a path that both accessed.
fn reason_by_paths(
    fronts: &Fronts,
    places: &NumberedPaths,
    deed: &Deed,
    watched: &WatchedCells,
    number: u64,
) -> LinkReason
    ensures { (p : Program) (are : ArePlaces p places.now) (a b : Strand) → IsEntryOf p places.now deed.now watched.now b
        → IsMarked are.nodes fronts.now number a → IsUntold a b → IsReasonFor p a b result }
{
    match first_given(fronts, places, true, number, watched.reads.as_slice()) {
        None => reason_by_writes(fronts, places, deed, watched, number),
        Some(cell) => LinkReason::Read { cell },
    }
}

/// Why an entry that did this follows the last one, by their tasks.
fn reason_by_tasks(last: Last, deed: &Deed) -> Option<LinkReason>
    ensures told { IfSome result (λ reason. (p : Program) (a b : Strand) → IsLast last a
        → b.task ≡ deed.now.task → b.taken ≡ deed.now.taken → IsReasonFor p a b reason) }
    ensures untold { IfNone result ((a b : Strand) → IsLast last a
        → b.task ≡ deed.now.task → b.taken ≡ deed.now.taken → IsUntold a b) }
{
    if last.task == deed.task {
        return Some(LinkReason::GoesOn);
    }
    if last.made == Some(deed.task) {
        return Some(LinkReason::Made);
    }
    if last.done && deed.taken == Some(last.task) {
        return Some(LinkReason::Took);
    }
    None
}

/// The task that an entry with this end made, if it made one.
fn made_task(end: End) -> Option<u32>
    ensures { result ≡ made_task end }
{
    match end {
        End::Made { child } => Some(child),
        _ => None,
    }
}

/// Whether an entry with this end has done its task.
fn is_done(end: End) -> bool
    ensures { result ≡ is_done end }
{
    matches!(end, End::Done { .. })
}

/// What is kept of the entry of this number, which did this.
fn last_of(number: u64, deed: &Deed) -> Last
    ensures number { result.number ≡ number }
    ensures task { result.task ≡ deed.now.task }
    ensures made { result.made ≡ made_task deed.now.end }
    ensures done { result.done ≡ is_done deed.now.end }
{
    Last {
        number,
        task: deed.task,
        made: made_task(deed.end),
        done: is_done(deed.end),
    }
}

/// Why an entry that did this follows the last one.
fn reason_after(
    fronts: &Fronts,
    places: &NumberedPaths,
    deed: &Deed,
    watched: &WatchedCells,
    last: Last,
) -> LinkReason
    ensures { (p : Program) (are : ArePlaces p places.now) (a b : Strand) → IsEntryOf p places.now deed.now watched.now b
        → IsLast last a → IsMarked are.nodes fronts.now last.number a → IsReasonFor p a b result }
{
    match reason_by_tasks(last, deed) {
        Some(reason) => reason,
        None => reason_by_paths(fronts, places, deed, watched, last.number),
    }
}

impl ChainTrail {
    /// A chain none of whose entries has come.
    #[tactic(auto, using(crate::proofs::TrailSteps::trail_new))]
    pub(crate) fn new(alloc: Global, chain: List<u64>) -> Self
        ensures trail { (p : Program) (tree : List (List Part)) → IsTrail p tree [] result }
        ensures chain { result.chain ≡ chain }
    {
        ChainTrail {
            chain,
            steps: List::new(alloc),
            last: None,
            fronts: Fronts::new(alloc),
        }
    }

    /// Whether the entry of this number is the next of the chain.
    fn is_next(&self, number: u64) -> bool
        ensures { IsTrue result ↔ (slice_get self.now.chain (length self.now.steps) ≡ Some number) }
    {
        match self.chain.get(self.steps.len()) {
            None => false,
            Some(next) => *next == number,
        }
    }

    /// Why an entry that did this follows the last one that has come, if one has.
    fn reason(&self, places: &NumberedPaths, deed: &Deed, watched: &WatchedCells) -> LinkReason
        ensures { (p : Program) (are : ArePlaces p places.now) (strands : List Strand) (b : Strand)
            → IsEntryOf p places.now deed.now watched.now b → IsTrail p are.nodes strands self.now
            → IsReasonAt p strands self.now.chain (length self.now.steps) b result }
    {
        match self.last {
            None => LinkReason::First,
            Some(last) => reason_after(&self.fronts, places, deed, watched, last),
        }
    }

    /// Notes the next entry of the chain, which did this.
    fn note(
        &mut self,
        alloc: Global,
        number: u64,
        places: &NumberedPaths,
        deed: &Deed,
        watched: &WatchedCells,
    ) -> Result<(), Memory>
        requires next { slice_get self.old.chain (length self.old.steps) ≡ Some number }
        ensures chain { OnOk result (self.new.chain ≡ self.old.chain) }
        ensures trail { (p : Program) (are : ArePlaces p places.now) (strands : List Strand) (b : Strand)
            → IsEntryOf p places.now deed.now watched.now b → Shows are.nodes (node_of places.now deed.now watched.now) b
            → length strands ≡ number → IsTrail p are.nodes strands self.old
            → OnOk result (IsTrail p are.nodes (strands ++ b ∷ []) self.new) }
    {
        let reason = self.reason(places, deed, watched);
        self.steps.push(ChainStep {
            entry: number,
            task: deed.task,
            reason,
        })?;
        let reads = watched.reads.as_slice();
        let gives = given(alloc, places, deed, reads, watched.writes.as_slice())?;
        let top = Top {
            weight: number,
            node: number,
        };
        self.fronts.give_all(gives.as_slice(), top)?;
        self.last = Some(last_of(number, deed));
        Ok(())
    }

    /// Follows the entry of this number, which did this, unless the run is over.
    pub(crate) fn follow(
        &mut self,
        alloc: Global,
        over: bool,
        number: u64,
        places: &NumberedPaths,
        deed: &Deed,
        watched: &WatchedCells,
    ) -> Result<(), Memory>
        ensures chain { OnOk result (self.new.chain ≡ self.old.chain) }
        ensures kept { OnOk result (over ≡ true → self.new ≡ self.old) }
        ensures trail { (p : Program) (are : ArePlaces p places.now) (strands : List Strand) (b : Strand)
            → IsEntryOf p places.now deed.now watched.now b → Shows are.nodes (node_of places.now deed.now watched.now) b
            → length strands ≡ number → IsTrail p are.nodes strands self.old
            → over ≡ false → OnOk result (IsTrail p are.nodes (strands ++ b ∷ []) self.new) }
    {
        if over || !self.is_next(number) {
            return Ok(());
        }
        self.note(alloc, number, places, deed, watched)
    }
}
