//! Laws of the limits. They do nothing when they run.
ghost use Rattle.std.specs.Prelude.{◌≡◌, List};
ghost use Rattle.twe_ast.specs.declared.item.CellDecl.{CellDecl};
ghost use Rattle.name_check.specs.cell_limits.GoesOver.{GoesOver};

/// At most one declaration of a text is the first that goes over a limit.
pub fn a_declaration_goes_over_alone()
    ensures { (cells : List CellDecl) (one other : CellDecl) → GoesOver cells one → GoesOver cells other → one ≡ other }
{}
