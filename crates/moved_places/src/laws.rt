//! Laws of places: a rule that fails in one of two trees, or programs, that are equal but for places fails in the other one at the
//! place that stands for the same.
ghost use Rattle.std.specs.Prelude.{◌≡◌};
ghost use Rattle.twe_base.specs.declared.place.Place.{Place};
ghost use Rattle.twe_ast.specs.declared.item.Ast.{Ast};
ghost use Rattle.name_check.specs.declared.rule.NRule.{NRule};
ghost use Rattle.name_check.specs.FailsName.{FailsName};
ghost use Rattle.twe_names.specs.Meaning.{program_of};
ghost use Rattle.twe_program.specs.Program.{Program};
ghost use Rattle.effect_check.specs.declared.rule.ERule.{ERule};
ghost use Rattle.effect_check.specs.FailsEffect.{FailsEffect};
ghost use Rattle.moved_places.specs.MovedTree.{moved_tree};
ghost use Rattle.moved_places.specs.MovedProgram.{moved_program};

/// Let two trees become equal when the places of the one are moved by `from`, and those of the other by `to`. If the one fails a
/// rule of names, the other fails the same rule, at a place that `to` moves where `from` moves the place of the first.
pub fn name_rules_move_with_places()
    ensures { (from to : Place → Place) (one other : Ast) → moved_tree from one ≡ moved_tree to other
        → (rule : NRule) (place : Place) → FailsName one rule place
        → (its : Place) × FailsName other rule its × (from place ≡ to its) }
{}

/// A tree whose places are moved means the program with its places moved.
pub fn trees_mean_programs_with_their_places()
    ensures { (to : Place → Place) (tree : Ast) → program_of (moved_tree to tree) ≡ moved_program to (program_of tree) }
{}

/// The same of two programs and the rules on effects.
pub fn effect_rules_move_with_places()
    ensures { (from to : Place → Place) (one other : Program) → moved_program from one ≡ moved_program to other
        → (rule : ERule) (place : Place) → FailsEffect one rule place
        → (its : Place) × FailsEffect other rule its × (from place ≡ to its) }
{}
