//! The law of answers to texts whose programs are equal except for the places in them.
ghost use Rattle.std.specs.Prelude.{◌≡◌, ◌≤◌, ℕ, Bool, List, length};
ghost use Rattle.twe_base.specs.Language.{max_text_bytes};
ghost use Rattle.twe_base.specs.Limits.{Bounds};
ghost use Rattle.twe_program.specs.Program.{Program};
ghost use Rattle.twe_frontend.specs.Accepted.{Accepted};
ghost use Rattle.machine_state.specs.declared.state.State.{State};
ghost use Rattle.summary_texts.specs.paste_laws.places.Places.{SameButPlaces};
ghost use Rattle.place_laws.specs.Alike.{SameStates};
ghost use Rattle.twe_report.specs.Texts.{result_text};
ghost use Rattle.command_line.specs.declared.command.Command.TheVariants.{Run};
ghost use Rattle.twe_io.specs.declared.answer.Answer.{Answer};
ghost use Rattle.text_answers.specs.Answers.{IsAnswerTo};
ghost use Rattle.answer_laws.specs.Alike.{SameAnswers};

use determinism_laws::results::{
    deterministic_mains_have_their_results, deterministic_tasks_have_results,
};
use isolation_laws::accepted_runs_are_isolated;
use machine_state::each_thing_happens_once;
use place_laws::programs_run_alike;
use twe_frontend::{one_program, parsed_trees_are_from_texts, refused_or_accepted};
use twe_names::meaning_is_well_formed;

/// The result that `run` writes if all tasks are done names no place: it is the same text for programs that are equal except for the
/// places in them, in states that are equal but for the place of the first fault.
pub fn results_name_no_places()
    ensures { (p q : Program) (last other : State) → SameButPlaces p q → SameStates last other
        → result_text p last ≡ result_text q other }
{}

/// Let two texts be accepted, with programs that are equal except for the places in them. For each answer that `run` may give to
/// the one, it may give one to the other with the same status and the same bytes, but that a fault may have another place: with as
/// many workers, under the same limits, with the journal or without. So it is if the other text is within the limit on its length.
pub fn runs_are_answered_alike()
    ensures { (text other : List ℕ) (p q : Program) (workers : ℕ) (lim : Bounds) (asked : Bool) (answer : Answer)
        → Accepted text p → Accepted other q → SameButPlaces p q → length other ≤ max_text_bytes → 1 ≤ lim.tasks
        → IsAnswerTo (Run workers lim asked) text answer
        → (its : Answer) × IsAnswerTo (Run workers lim asked) other its × SameAnswers answer its }
{
    accepted_runs_are_isolated();
    deterministic_mains_have_their_results();
    deterministic_tasks_have_results();
    each_thing_happens_once();
    meaning_is_well_formed();
    one_program();
    parsed_trees_are_from_texts();
    programs_run_alike();
    refused_or_accepted();
}
