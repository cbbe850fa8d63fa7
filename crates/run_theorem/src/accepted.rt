//! The law of accepted texts.
ghost use Rattle.std.specs.Prelude.{◌≤◌, ℕ, List, length};
ghost use Rattle.twe_base.specs.Language.{max_text_bytes};
ghost use Rattle.twe_program.specs.Program.{Program};
ghost use Rattle.twe_program.specs.WellFormed.{IsWellFormed};
ghost use Rattle.twe_frontend.specs.Accepted.{Accepted};
ghost use Rattle.isolation_laws.specs.soundness.KeepsEffects.{KeepsEffects};

use twe_frontend::parsed_trees_are_from_texts;
use twe_names::meaning_is_well_formed;

/// The program of an accepted text is well formed and keeps the rules on effects, if the text is within the limit on its
/// length. So the laws that ask for these two hold of each accepted text.
pub fn accepted_programs_are_well_formed()
    ensures well_formed { (text : List ℕ) (p : Program) → length text ≤ max_text_bytes → Accepted text p
        → IsWellFormed p }
    ensures keeps { (text : List ℕ) (p : Program) → Accepted text p → KeepsEffects p }
{
    parsed_trees_are_from_texts();
    meaning_is_well_formed();
}
