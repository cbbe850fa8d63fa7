//! What `twe run` answers is among what is listed.
ghost use Rattle.std.specs.Prelude.{ℕ, ℤ, List};
ghost use Rattle.flat_sched.specs.declared.ending.WholeRun.{WholeRun};
ghost use Rattle.machine_state.specs.declared.ending.Outcome.{Outcome};
ghost use Rattle.machine_state.specs.declared.ending.Outcome.TheVariants.{AllDone};
ghost use Rattle.machine_state.specs.Runs.{state_after};
ghost use Rattle.text_answers.specs.Answers.{AnswersRun};
ghost use Rattle.text_answers.specs.Theorem.{HasRun};
ghost use Rattle.text_answers.specs.declared.book.Book.{Book};
ghost use Rattle.twe_base.specs.Limits.{Bounds};
ghost use Rattle.twe_io.specs.declared.answer.Answer.{Answer};
ghost use Rattle.twe_program.specs.Program.{Program};
ghost use Rattle.all_runs.specs.AllRuns.{IsFoundWay, ShowsAllRuns, ShowsRuns};
ghost use Rattle.reduction_laws.specs.WaysToEnd.{HasEndedSo, WayToEnd};
ghost use Rattle.twe_explore.specs.Answers.{IsAnswerOfOne};

/// If all runs were looked at, then whatever run `twe run` makes, with however many workers, one of the runs that are listed has ended
/// in the same way: with all tasks done and the same result, or stuck, or with a fault, perhaps another one. If all tasks are done,
/// what `twe run` answers is what is written for the one that is listed.
pub fn what_twe_run_answers_is_listed()
    ensures way { (p : Program) (lim : Bounds) (ended : List WholeRun) (workers : ℕ) (outcome : Outcome) (book : Book)
        → ShowsAllRuns p lim ended → HasRun p lim workers outcome book
        → (way : WayToEnd) → HasEndedSo (state_after p lim book.journal) way → IsFoundWay ended way }
    ensures done { (p : Program) (lim : Bounds) (ended : List WholeRun) (workers : ℕ) (book : Book) (prints : List ℤ) (answer : Answer)
        → ShowsRuns p lim ended → ShowsAllRuns p lim ended → HasRun p lim workers AllDone book
        → AnswersRun p (state_after p lim book.journal) prints AllDone answer → IsAnswerOfOne p lim ended answer }
{}
