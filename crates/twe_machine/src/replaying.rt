//! Replay: the journal and the state that a list of moves leads to, or the first of the moves that is not legal.
ghost use Rattle.std.specs.Prelude.{◌≡◌, ◌<◌, ◌+◌, ◌∷◌, ◌++◌, ◌⊎◌, [], ℕ, List, length, map, IfOk, OnOk, IsErrOf, MatchResult};
ghost use Rattle.seg_journal.specs.declared.journal.Entry.{Entry};
ghost use Rattle.seg_journal.specs.declared.moves.Move.{Move};
ghost use Rattle.seg_journal.specs.Spelling.{move_of};
ghost use Rattle.machine_state.specs.declared.why.Why.{Why};
ghost use Rattle.machine_state.specs.declared.replay_fail.ReplayFail.TheVariants.{Illegal};
ghost use Rattle.machine_state.specs.Legal.{Forbids};
ghost use Rattle.machine_state.specs.Replays.{AreLegal, IsFirstIllegal, ReplayIsOutOfMemory, IsReplay};
ghost use Rattle.machine_state.specs.Runs.{Legal};
ghost use Rattle.twe_machine.specs.inner.UnderWay.{IsUnderWay};

use crate::enabled_tasks::EnabledTasks;
use crate::first_state::start;
use crate::one_move::step;
use machine_state::{ReplayFail, State};
use seg_journal::{Entry, Journal, Move};
use std::alloc::Global;
use twe_base::{Limits, Memory};
use twe_program::Prog;

/// The state after the moves, taken one after another from the start of a run of the program under these limits. If they
/// are not all legal, it returns the number of the first that is not, counted from 1, and why it is not.
pub fn replay(alloc: Global, p: &Prog, lim: Limits, moves: &[Move]) -> Result<State, ReplayFail>
    // What it returns is the state that the moves lead to, and they are legal.
    ensures replayed { IfOk result (λ st. (journal : List Entry) × IsReplay p.now lim moves.now journal st) }
    ensures illegal { (n : ℕ) (why : Why) → IsErrOf result (Illegal n why) → IsFirstIllegal p.now lim moves.now n why }

    // Legal moves are replayed, and a first illegal move is named, unless memory runs out.
    ensures only_legal { AreLegal p.now lim moves.now → MatchResult result (λ _. Unit {0}) ReplayIsOutOfMemory }
    ensures first_illegal { (n : ℕ) (why : Why) → IsFirstIllegal p.now lim moves.now n why
        → MatchResult result (λ _. ⊥) (λ fail. (fail ≡ Illegal n why) ⊎ ReplayIsOutOfMemory fail) }
{
    match replay_journal(alloc, p, lim, moves) {
        Ok((_, st)) => Ok(st),
        Err(fail) => Err(fail),
    }
}

/// The journal that has these moves, each with the end that it gives, and the state that the journal leads to. If the moves
/// are not all legal, it returns the number of the first that is not, counted from 1, and why it is not.
pub fn replay_journal(
    alloc: Global,
    p: &Prog,
    lim: Limits,
    moves: &[Move],
) -> Result<(Journal, State), ReplayFail>
    ensures replayed { IfOk result (λ run. IsReplay p.now lim moves.now run.0 run.1) }
    ensures illegal { (n : ℕ) (why : Why) → IsErrOf result (Illegal n why) → IsFirstIllegal p.now lim moves.now n why }
{
    let st = start(alloc, p, lim)?;
    let journal = Journal::new(alloc);
    let enabled = EnabledTasks::new(alloc)?;
    let mut run = Replaying {
        journal,
        st,
        enabled,
    };
    for (i, mv) in moves.iter().enumerate() {
        run.take_move(alloc, p, lim, *mv, i as u64 + 1)?;
    }
    let Replaying { journal, st, .. } = run;
    Ok((journal, st))
}

/// A replay under way.
#[derive(Drop)]
struct Replaying {
    /// The entries so far.
    journal: Journal,
    /// The state after them.
    st: State,
    /// Its enabled tasks.
    enabled: EnabledTasks,
}

impl Replaying {
    /// Takes the move with the number `n` and enters it into the journal, if it is legal.
    fn take_move(
        &mut self,
        alloc: Global,
        p: &Prog,
        lim: Limits,
        mv: Move,
        n: u64,
    ) -> Result<(), ReplayFail>
        requires { IsUnderWay p.now lim self.old }
        ensures goes_on { OnOk result (IsUnderWay p.now lim self.new) }
        ensures moves { OnOk result (map move_of self.new.journal ≡ map move_of self.old.journal ++ mv ∷ []) }
        ensures count { OnOk result (length self.new.journal ≡ length self.old.journal + 1) }
        ensures number { (m : ℕ) (why : Why) → IsErrOf result (Illegal m why) → m ≡ n }
        ensures forbids { (m : ℕ) (why : Why) → IsErrOf result (Illegal m why) → Forbids self.old.st mv.kind mv.task why }
    {
        let _main = p.main;
        if let Err(why) = self.enabled.may(p, &self.st, mv) {
            return Err(ReplayFail::Illegal { n, why });
        }
        let before = self.st.links.task_count();
        let end = step(alloc, p, lim, &mut self.st, mv)?;
        self.journal.push(Entry { mv, end })?;
        self.enabled.note(&self.st, mv, before)?;
        Ok(())
    }
}
