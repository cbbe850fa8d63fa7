//! The picture of a list of moves.
ghost use Rattle.std.specs.Prelude.{◌≡◌, ◌+◌, ◌++◌, ◌∷◌, [], ℕ, length, map, IfOk, OnOk, IsErrOf};
ghost use Rattle.seg_journal.specs.Spelling.{move_of};
ghost use Rattle.machine_state.specs.declared.why.Why.{Why as Reason};
ghost use Rattle.machine_state.specs.declared.replay_fail.ReplayFail.TheVariants.{Illegal};
ghost use Rattle.machine_state.specs.Legal.{Forbids};
ghost use Rattle.machine_state.specs.Replays.{IsFirstIllegal};
ghost use Rattle.machine_state.specs.Runs.{is_fault};
ghost use Rattle.twe_draw.specs.picture.Pictures.{AreBars, IsPicture};
ghost use Rattle.twe_draw.specs.picture.inner.Drawn.{IsDrawn};

use crate::picture::bars::{Bars, EntryBar, Times};
use held_span::{HeldProfile, Hold, held_profile};
use machine_state::{ReplayFail, State, TaskRow};
use seg_journal::{Entry, Journal, Limits, Move};
use span_profile::{Profile, is_fault, profile};
use std::alloc::Global;
use twe_base::{List, Memory};
use twe_machine::{EnabledTasks, start};
use twe_program::Prog;

/// A picture of a run.
#[derive(Debug, Drop)]
pub struct Picture {
    /// The work of the run.
    pub work: u64,
    /// Its span, if an admission need not follow what freed it.
    pub span: u64,
    /// Its held span, which is when the last bar ends.
    pub held: u64,
    /// The numbers of the entries of its heaviest chain.
    pub chain: List<u64>,
    /// A bar for each entry up to the first fault.
    pub bars: List<EntryBar>,
    /// The tasks that were made.
    pub tasks: List<TaskRow>,
    /// The admissions that were held, in their order.
    pub holds: List<Hold>,
}

/// A picture under way.
#[derive(Debug, Drop)]
struct Drawing {
    st: State,
    /// The enabled tasks of the state.
    enabled: EnabledTasks,
    journal: Journal,
    /// Whether an entry has met a fault: those after it have no bars.
    over: bool,
    bars: Bars,
}

impl Drawing {
    /// The start of a run.
    fn start(alloc: Global, p: &Prog, lim: Limits, times: &Times) -> Result<Self, Memory>
        ensures drawn { IfOk result (IsDrawn p.now lim times.now.starts times.now.ends) }
        ensures empty { IfOk result (λ run. run.journal ≡ []) }
    {
        let _main = p.main;
        Ok(Drawing {
            st: start(alloc, p, lim)?,
            enabled: EnabledTasks::new(alloc)?,
            journal: Journal::new(alloc),
            over: false,
            bars: Bars::new(alloc),
        })
    }

    /// Takes the move with the number `n`, if it is legal.
    fn take_move(
        &mut self,
        alloc: Global,
        lim: Limits,
        p: &Prog,
        n: u64,
        mv: Move,
        times: &Times,
    ) -> Result<(), ReplayFail>
        requires { IsDrawn p.now lim times.now.starts times.now.ends self.old }
        ensures forbids { (m : ℕ) (why : Reason) → IsErrOf result (Illegal m why) → Forbids self.old.st mv.kind mv.task why }
        ensures number { (m : ℕ) (why : Reason) → IsErrOf result (Illegal m why) → m ≡ n }
        ensures count { OnOk result (length self.new.journal ≡ length self.old.journal + 1) }
        ensures moves { OnOk result (map move_of self.new.journal ≡ map move_of self.old.journal ++ mv ∷ []) }
        ensures drawn { OnOk result (IsDrawn p.now lim times.now.starts times.now.ends self.new) }
    {
        let _main = p.main;
        let _tasks = lim.tasks;
        if let Err(why) = self.enabled.may(p, &self.st, mv) {
            return Err(ReplayFail::Illegal { n, why });
        }
        let before = self.st.links.task_count();
        let bar = self.bars.take(alloc, p, lim, &mut self.st, mv, times)?;
        self.journal.push(Entry { mv, end: bar.end })?;
        self.enabled.note(&self.st, mv, before)?;
        if self.over {
            return Ok(());
        }
        self.bars.add(bar)?;
        self.over = is_fault(bar.end);
        Ok(())
    }
}

/// The bars of the moves at these times, and the tasks that they make.
fn bars_of(
    alloc: Global,
    p: &Prog,
    lim: Limits,
    moves: &[Move],
    times: &Times,
) -> Result<(List<EntryBar>, List<TaskRow>), ReplayFail>
    ensures drawn { IfOk result (λ made. AreBars p.now lim moves.now times.now.starts times.now.ends made.0 made.1) }
    ensures illegal { (n : ℕ) (why : Reason) → IsErrOf result (Illegal n why) → IsFirstIllegal p.now lim moves.now n why }
{
    let mut run = Drawing::start(alloc, p, lim, times)?;
    for (i, mv) in moves.iter().enumerate() {
        run.take_move(alloc, lim, p, i as u64 + 1, *mv, times)?;
    }
    let Drawing { st, bars, .. } = run;
    Ok((bars.marks, st.tasks))
}

/// The picture of a run of the program under these limits that makes these moves: each entry begins as soon as all that lead to
/// it, or free it, have ended. Entries after the first fault have no bars, but their moves have to be legal too. If the moves are
/// not all legal, it returns the number of the first that is not, counted from 1, and why it is not.
pub fn draw(alloc: Global, p: &Prog, lim: Limits, moves: &[Move]) -> Result<Picture, ReplayFail>
    ensures drawn { IfOk result (λ d. IsPicture p.now lim moves.now d.work d.span d.held d.chain d.bars d.tasks d.holds) }
    ensures illegal { (n : ℕ) (why : Reason) → IsErrOf result (Illegal n why) → IsFirstIllegal p.now lim moves.now n why }
{
    let Profile {
        work,
        span,
        chain,
        ..
    } = profile(alloc, p, lim, moves)?;
    let HeldProfile {
        span: held,
        starts,
        ends,
        holds,
    } = held_profile(alloc, p, lim, moves)?;
    let times = Times { starts, ends };
    let (bars, tasks) = bars_of(alloc, p, lim, moves, &times)?;
    Ok(Picture {
        work,
        span,
        held,
        chain,
        bars,
        tasks,
        holds,
    })
}
