//! Laws of runs: a text and its layout run alike, and are answered alike.
ghost use Rattle.std.specs.Prelude.{◌≡◌, ◌≤◌, ℕ, Bool, List, length};
ghost use Rattle.twe_base.specs.Language.{max_text_bytes};
ghost use Rattle.twe_base.specs.Limits.{Bounds};
ghost use Rattle.twe_program.specs.Program.{Program};
ghost use Rattle.text_layout.specs.InLayout.{IsInLayout};
ghost use Rattle.twe_frontend.specs.Accepted.{Accepted};
ghost use Rattle.machine_state.specs.declared.state.State.{State};
ghost use Rattle.place_laws.specs.Alike.{RunAlike, SameStates};
ghost use Rattle.command_line.specs.declared.command.Command.TheVariants.{Run};
ghost use Rattle.twe_report.specs.Texts.{result_text};
ghost use Rattle.twe_io.specs.declared.answer.Answer.{Answer};
ghost use Rattle.text_answers.specs.Answers.{IsAnswerTo};
ghost use Rattle.answer_laws.specs.Alike.{SameAnswers};

use crate::laws::layouts_are_accepted_alike;
use answer_laws::{results_name_no_places, runs_are_answered_alike};
use place_laws::programs_run_alike;
use twe_frontend::one_program;

/// The programs of a text and of its layout run alike: for each legal journal of the one, under whatever limits, the other has one
/// with the same moves and the same ends, the same state at its end and the same outcome, but that a fault may have another place.
/// In such states the result that is written if all tasks are done is the same text.
pub fn layouts_run_alike()
    ensures runs { (text laid : List ℕ) (p q : Program) → Accepted text p → IsInLayout text laid → Accepted laid q → RunAlike p q }
    ensures result { (text laid : List ℕ) (p q : Program) (last its : State) → Accepted text p → IsInLayout text laid
        → Accepted laid q → SameStates last its → result_text p last ≡ result_text q its }
{
    layouts_are_accepted_alike();
    one_program();
    programs_run_alike();
    results_name_no_places();
}

/// `twe run` answers an accepted text and its layout alike: each answer that it may give to the one it may give to the other, with
/// the same status and the same bytes, but that a fault may have another place. So it is by any number of workers and under all
/// limits that allow a task, with the journal or without, if the text that is answered too is within the limit on its length.
pub fn layouts_are_answered_alike()
    ensures laid { (text laid : List ℕ) (p : Program) (workers : ℕ) (lim : Bounds) (asked : Bool) (answer : Answer)
        → Accepted text p → IsInLayout text laid → length laid ≤ max_text_bytes → 1 ≤ lim.tasks
        → IsAnswerTo (Run workers lim asked) text answer
        → (its : Answer) × IsAnswerTo (Run workers lim asked) laid its × SameAnswers answer its }
    ensures text { (text laid : List ℕ) (p : Program) (workers : ℕ) (lim : Bounds) (asked : Bool) (answer : Answer)
        → Accepted text p → IsInLayout text laid → length text ≤ max_text_bytes → 1 ≤ lim.tasks
        → IsAnswerTo (Run workers lim asked) laid answer
        → (its : Answer) × IsAnswerTo (Run workers lim asked) text its × SameAnswers answer its }
{
    layouts_are_accepted_alike();
    runs_are_answered_alike();
}
