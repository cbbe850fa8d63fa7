//! The laws of profiles and of advice.
ghost use Rattle.std.specs.Prelude.{◌≡◌, ◌≢◌, ℕ, List, Some, slice_get, sum_by};
ghost use Rattle.seg_journal.specs.declared.moves.Move.{Move};
ghost use Rattle.twe_base.specs.Limits.{Bounds, IsWithin};
ghost use Rattle.twe_program.specs.Program.{Program};
ghost use Rattle.twe_program.specs.WellFormed.{IsWellFormed};
ghost use Rattle.machine_state.specs.declared.state.TaskRow.{TaskRow};
ghost use Rattle.span_profile.specs.Advice.{AreMadeTasks, AreWorks, IsAdvice};
ghost use Rattle.span_profile.specs.Profiles.{HasEarliest, IsProfile};
ghost use Rattle.span_profile.specs.Reasons.{HasSteps};
ghost use Rattle.span_profile.specs.Totals.{task_work};
ghost use Rattle.span_profile.specs.declared.reasons.ChainStep.{ChainStep as AnyStep};
ghost use Rattle.span_profile.specs.declared.reasons.LinkReason.TheVariants.{Unlinked};
ghost use Rattle.span_profile.specs.declared.totals.TaskWork.{TaskWork as AnyWork};

/// A list of moves has one profile: its work, its span and its chain are functions of the program, the limits and the moves.
pub fn one_profile()
    ensures { (p : Program) (lim : Bounds) (moves : List Move) (work span : ℕ) (chain : List ℕ)
        (other_work other_span : ℕ) (other_chain : List ℕ)
        → IsProfile p lim moves work span chain → IsProfile p lim moves other_work other_span other_chain
        → (work ≡ other_work) × (span ≡ other_span) × (chain ≡ other_chain) }
{}

/// Each entry of the heaviest chain but the first has a reason to come after the one before it.
pub fn each_link_has_a_reason()
    ensures { (p : Program) (lim : Bounds) (moves : List Move) (work span : ℕ) (chain : List ℕ) (steps : List AnyStep)
        → IsProfile p lim moves work span chain → HasSteps p lim moves chain steps
        → (k : ℕ) (step : AnyStep) → slice_get steps k ≡ Some step → step.reason ≢ Unlinked }
{}

/// What a run could gain is one for a list of moves: the works of its tasks, these tasks, the earliest times of its entries, and
/// for each chain why its entries follow one another.
pub fn one_advice()
    ensures works { (p : Program) (lim : Bounds) (moves : List Move) (works others : List AnyWork)
        → AreWorks p lim moves works → AreWorks p lim moves others → works ≡ others }
    ensures tasks { (p : Program) (lim : Bounds) (moves : List Move) (tasks others : List TaskRow)
        → AreMadeTasks p lim moves tasks → AreMadeTasks p lim moves others → tasks ≡ others }
    ensures times { (p : Program) (lim : Bounds) (moves : List Move) (span other : ℕ) (starts ends firsts lasts : List ℕ)
        → HasEarliest p lim moves span starts ends → HasEarliest p lim moves other firsts lasts
        → (span ≡ other) × (starts ≡ firsts) × (ends ≡ lasts) }
    ensures steps { (p : Program) (lim : Bounds) (moves : List Move) (chain : List ℕ) (steps others : List AnyStep)
        → HasSteps p lim moves chain steps → HasSteps p lim moves chain others → steps ≡ others }
{}

/// The works of the tasks add up to the work of the entries.
pub fn works_add_up()
    ensures { (p : Program) (lim : Bounds) (moves : List Move) (work span : ℕ) (chain : List ℕ) (works : List AnyWork)
        → IsWellFormed p → IsWithin lim.fuel lim.tasks → IsAdvice p lim moves work span chain works
        → sum_by task_work works ≡ work }
{}
