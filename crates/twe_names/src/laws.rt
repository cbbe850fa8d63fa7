//! The law of the meaning of a tree.
ghost use Rattle.twe_base.specs.declared.place.Place.{Place};
ghost use Rattle.twe_ast.specs.declared.item.Ast.{Ast};
ghost use Rattle.twe_program.specs.WellFormed.{IsWellFormed};
ghost use Rattle.name_check.specs.declared.rule.NRule.{NRule};
ghost use Rattle.name_check.specs.FailsName.{FailsName};
ghost use Rattle.twe_names.specs.FromText.{IsFromText};
ghost use Rattle.twe_names.specs.Meaning.{program_of};

/// The program of a tree of a text that fails no rule of names is well formed.
pub fn meaning_is_well_formed()
    ensures { (ast : Ast) → IsFromText ast → ((rule : NRule) (place : Place) → ¬ FailsName ast rule place)
        → IsWellFormed (program_of ast) }
{}
