//! What a program is that reads a text and a journal.
ghost use Rattle.std.specs.Prelude.{ℕ, List, IfOk, IsErrOf};
ghost use Rattle.seg_journal.specs.declared.moves.Move.{Move as AnyMove};
ghost use Rattle.twe_base.specs.Limits.{Bounds};
ghost use Rattle.twe_io.specs.declared.answer.Answer.{Answer};
ghost use Rattle.machine_state.specs.declared.why.Why.{Why};
ghost use Rattle.machine_state.specs.declared.replay_fail.ReplayFail.TheVariants.{Illegal};
ghost use Rattle.machine_state.specs.Replays.{IsFirstIllegal};
ghost use Rattle.twe_program.specs.Program.{Program};

use machine_state::ReplayFail;
use seg_journal::{Limits, Move};
use std::alloc::Global;
use twe_io::Answer;
use twe_program::Prog;

/// A program that reads a text and a journal.
///
/// Contracts see which answer is due to the moves of a journal, if each of them is legal.
pub trait JournalProgram: Drop {
    /// This is an answer that is due to these moves of the program under these limits.
    ghost gives: { Self → Program → Bounds → List AnyMove → Answer → Type 0 };

    /// An answer that is due to the moves. If they are not all legal, it returns the number of the first that is not, counted
    /// from 1, and why it is not.
    fn answer_moves(
        &self,
        alloc: Global,
        p: &Prog,
        lim: Limits,
        moves: &[Move],
    ) -> Result<Answer, ReplayFail>
        ensures given { IfOk result (gives self.now p.now lim moves.now) }
        ensures illegal { (n : ℕ) (why : Why) → IsErrOf result (Illegal n why) → IsFirstIllegal p.now lim moves.now n why };
}
