//! What a choice of summaries has to cover so that no method fails the rule on methods.
ghost use Rattle.std.specs.Prelude.{◌≡◌, length, List};
ghost use Rattle.effect_sets.specs.declared.effects.Summary.{Summary};
ghost use Rattle.twe_program.specs.Program.{Program};
ghost use Rattle.twe_program.specs.WellFormed.{IsWellFormed};
ghost use Rattle.effect_infer.specs.needs.Choices.{CoversNeeds, HasNeeds, IsChoice, NoMethodFails, NoRuleFails, with_summaries};

/// If each summary is made of needs of its method and covers all of them, no method fails the rule on methods.
pub fn covering_choices_are_accepted()
    ensures { (p : Program) (summaries : List Summary) → length summaries ≡ length p.methods
        → HasNeeds p summaries → CoversNeeds p summaries → NoMethodFails (with_summaries summaries p) }
{}

/// If no method fails the rule on methods with these summaries, each of them covers the needs of its method.
pub fn accepted_choices_cover_needs()
    ensures { (p : Program) (summaries : List Summary) → IsChoice p summaries
        → NoMethodFails (with_summaries summaries p) → CoversNeeds p summaries }
{}

/// A program that fails no rule on effects fails none with such summaries either: tasks that call the methods stay covered.
pub fn covering_choices_keep_programs_accepted()
    ensures { (p : Program) (summaries : List Summary) → IsWellFormed p → length summaries ≡ length p.methods
        → HasNeeds p summaries → CoversNeeds p summaries → NoRuleFails p → NoRuleFails (with_summaries summaries p) }
{}
