//! Laws of the printed tokens.
ghost use Rattle.std.specs.Prelude.{◌≡◌, ℕ, true, List};
ghost use Rattle.twe_base.specs.declared.place.Place.{Place};
ghost use Rattle.twe_ast.specs.declared.expr.BinOp.{BinOp};
ghost use Rattle.twe_ast.specs.Expression.{Expression, Binary};
ghost use Rattle.twe_lexer.specs.declared.token.Token.{Token};
ghost use Rattle.twe_parser.specs.WritesExpression.{WritesShape};
ghost use Rattle.ast_printer.specs.ExpressionTokens.{needs_parentheses};
ghost use Rattle.ast_printer.specs.Enclosed.{BeginsEnclosed};

/// Parentheses are printed only if the grammar requires them: in such a position all tokens of this tree begin with `(`.
pub fn parentheses_are_needed()
    ensures { (level : ℕ) (op : BinOp) (left right : Expression) (place : Place) (tokens rest : List Token)
        → needs_parentheses level op ≡ true → WritesShape level (Binary op left right place) tokens rest → BeginsEnclosed tokens }
{}
