//! Laws of answers: by one worker at most there is one; journals that are written replay; a deterministic `main` has one result
//! text.
ghost use Rattle.std.specs.Prelude.{◌≡◌, ◌≤◌, ◌++◌, ℕ, List, true};
ghost use Rattle.seg_journal.specs.declared.journal.Entry.{Entry};
ghost use Rattle.twe_base.specs.Limits.{Bounds, IsWithin};
ghost use Rattle.twe_program.specs.Program.{Program};
ghost use Rattle.twe_program.specs.WellFormed.{IsWellFormed};
ghost use Rattle.twe_frontend.specs.Accepted.{Accepted};
ghost use Rattle.machine_state.specs.Runs.{AllTasksDone, state_after};
ghost use Rattle.determinism_laws.specs.AcceptedRuns.{IsAcceptedRun};
ghost use Rattle.determinism_laws.specs.results.Main.{MainIsDeterministic};
ghost use Rattle.twe_report.specs.Texts.{journal_part_text, result_text};
ghost use Rattle.command_line.specs.Words.{workers_of};
ghost use Rattle.command_line.specs.declared.command.Command.{Command};
ghost use Rattle.command_line.specs.declared.command.Command.TheVariants.{Run, Replay};
ghost use Rattle.twe_io.specs.declared.answer.Answer.{Answer};
ghost use Rattle.text_answers.specs.declared.book.Book.{Book};
ghost use Rattle.text_answers.specs.Answers.{Due, IsAnswerTo, with_journal, without_workers};
ghost use Rattle.text_answers.specs.Input.{HasNoMark, ends_line};

use determinism_laws::results::deterministic_mains_have_one_result;
use machine_state::one_lowest_first;
use twe_frontend::{one_program, one_refusal, refused_or_accepted};

/// A command that asks for no workers, or for one, has one answer to an input: what is written and the status are a function of
/// the command and the input, apart from want of memory. By one worker the answer is that without workers.
pub fn one_answer_by_one_worker_at_most()
    ensures one { (command : Command) (input : List ℕ) (answer other : Answer) → workers_of command ≤ 1
        → IsAnswerTo command input answer → IsAnswerTo command input other → answer ≡ other }
    ensures alone { (command : Command) (input : List ℕ) (answer other : Answer) → workers_of command ≤ 1
        → IsAnswerTo command input answer → IsAnswerTo (without_workers command) input other → answer ≡ other }
{
    one_program();
    one_refusal();
    refused_or_accepted();
    one_lowest_first();
}

/// A journal that `run --journal` has written replays to the same bytes. Let an accepted text end with a line end and have
/// no line that is exactly `%%`. If the text with the journal that its run has written after it is the input of `replay`,
/// then the answer of the run is that of `replay`, with the journal after its lines. The options of `replay` do not matter.
pub fn written_journals_replay()
    ensures { (text : List ℕ) (workers : ℕ) (lim other : Bounds) (p : Program) (run book : Book) (ran answer : Answer)
        → IsWellFormed p → IsWithin lim.fuel lim.tasks → ends_line text ≡ true → HasNoMark text → Accepted text p
        → Due (Run workers lim true) text run ran → Due (Replay other) (text ++ journal_part_text lim run.journal) book answer
        → ran ≡ with_journal true lim run.journal answer }
{
    one_program();
    refused_or_accepted();
}

/// If `main` is deterministic, what a run with status 0 writes, but for its journal, is a function of the program and its limits:
/// two journals of the program under the same limits, from whatever schedulers, have the same result text if all tasks are done
/// after each of them.
pub fn deterministic_mains_have_one_result_text()
    ensures { (p : Program) (lim : Bounds) (one other : List Entry) → IsAcceptedRun p lim one → IsAcceptedRun p lim other
        → MainIsDeterministic p → IsWithin lim.fuel lim.tasks
        → AllTasksDone (state_after p lim one) → AllTasksDone (state_after p lim other)
        → result_text p (state_after p lim one) ≡ result_text p (state_after p lim other) }
{
    deterministic_mains_have_one_result();
}
