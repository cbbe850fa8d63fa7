//! The laws of determinism at the answers.
ghost use Rattle.std.specs.Prelude.{◌≡◌, ◌≤◌, ℕ, Bool, List, false, length};
ghost use Rattle.twe_base.specs.Language.{max_text_bytes};
ghost use Rattle.twe_base.specs.Limits.{Bounds, IsWithin};
ghost use Rattle.twe_program.specs.Program.{Program};
ghost use Rattle.twe_frontend.specs.Accepted.{Accepted};
ghost use Rattle.determinism_laws.specs.results.Main.{MainIsDeterministic};
ghost use Rattle.command_line.specs.declared.command.Command.TheVariants.{Run};
ghost use Rattle.twe_io.specs.declared.answer.Answer.{Answer};
ghost use Rattle.text_answers.specs.Answers.{Due, IsAnswerTo};
ghost use Rattle.text_answers.specs.declared.book.Book.{Book};
ghost use Rattle.twe_io.specs.declared.status.Status.TheVariants.{Done};
ghost use Rattle.run_theorem.specs.Answers.{SameButForJournals};

use crate::accepted::accepted_programs_are_well_formed;
use determinism_laws::ended_runs_end_as_the_execution;
use text_answers::deterministic_mains_have_one_result_text;
use twe_frontend::{one_program, refused_or_accepted};

/// If `main` of an accepted text is deterministic, the status of its run is a function of the text and the limits: two runs of
/// the text under the same limits have the same status, by any two numbers of workers, whether they were asked for their
/// journals or not.
pub fn deterministic_mains_have_one_status()
    ensures { (text : List ℕ) (p : Program) (workers crew : ℕ) (asked also : Bool) (lim : Bounds) (answer other : Answer)
        → length text ≤ max_text_bytes → Accepted text p → MainIsDeterministic p → IsWithin lim.fuel lim.tasks
        → IsAnswerTo (Run workers lim asked) text answer → IsAnswerTo (Run crew lim also) text other
        → answer.status ≡ other.status }
{
    accepted_programs_are_well_formed();
    ended_runs_end_as_the_execution();
    one_program();
    refused_or_accepted();
}

/// If `main` of an accepted text is deterministic, the answer to its run does not depend on the number of workers, or on which
/// worker did what: if one run of the text ends with status 0, then each other one under the same limits has the same answer,
/// byte for byte, but for the journals that were asked for. If neither was asked for its journal, the answers are the same.
pub fn deterministic_mains_have_one_answer()
    ensures but_for_journals { (text : List ℕ) (p : Program) (workers crew : ℕ) (lim : Bounds) (asked also : Bool)
        (book second : Book) (answer other : Answer)
        → length text ≤ max_text_bytes → Accepted text p → MainIsDeterministic p → IsWithin lim.fuel lim.tasks
        → Due (Run workers lim asked) text book answer → answer.status ≡ Done → Due (Run crew lim also) text second other
        → SameButForJournals lim asked also book.journal second.journal answer other }
    ensures without { (text : List ℕ) (p : Program) (workers crew : ℕ) (lim : Bounds) (answer other : Answer)
        → length text ≤ max_text_bytes → Accepted text p → MainIsDeterministic p → IsWithin lim.fuel lim.tasks
        → IsAnswerTo (Run workers lim false) text answer → answer.status ≡ Done
        → IsAnswerTo (Run crew lim false) text other → answer ≡ other }
{
    accepted_programs_are_well_formed();
    deterministic_mains_have_one_result_text();
    deterministic_mains_have_one_status();
    one_program();
}
