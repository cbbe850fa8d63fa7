//! The laws of the names of variables.
ghost use Rattle.std.specs.Prelude.{◌≡◌, Bool, List};
ghost use Rattle.std.specs.List.{Contains};
ghost use Rattle.twe_base.specs.declared.place.Place.{Place};
ghost use Rattle.twe_ast.specs.declared.item.Ast.{Ast};
ghost use Rattle.twe_ast.specs.declared.item.Decl as written;
ghost use Rattle.twe_program.specs.declared.program.Decl.{Decl};
ghost use Rattle.name_check.specs.declared.names.GlobalName.{GlobalName};
ghost use Rattle.twe_names.specs.Meaning.{decl_of, program_of};
ghost use Rattle.explain_pages.specs.names.Variables.{variables_of};
ghost use Rattle.run_notes.specs.BodyVariables.{body_variables_of};
ghost use Rattle.run_notes.specs.FoundVariables.{FindsNames, all_declared};
ghost use Rattle.run_notes.specs.VariableNumbers.{NamesVariables, variable_names};

/// The variables of a declaration whose values are shown at a fault have the names that its meaning gives their numbers to. They
/// are the names by which its effects are shown.
pub fn shown_names_are_those_of_the_variables()
    ensures numbered { (globals : List GlobalName) (deterministic : Bool) (place : Place) (decl : written.Decl)
        → NamesVariables (variable_names (body_variables_of place decl)) decl (decl_of globals deterministic decl) }
    ensures same { (place : Place) (decl : written.Decl) → variable_names (body_variables_of place decl) ≡ variables_of decl }
{}

/// For each declaration of the program of a tree, what is found by the place of its name are the names of the variables of a
/// declaration of the tree that stands there.
pub fn names_are_found_by_places()
    ensures { (tree : Ast) (place : Place) (d : Decl) → Contains (all_declared (program_of tree)) d
        → FindsNames tree place d.place }
{}
