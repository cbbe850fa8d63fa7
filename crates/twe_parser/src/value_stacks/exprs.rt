//! The semantic actions that make expressions.
ghost use Rattle.std.specs.Prelude.{◌≡◌, OnOk, IfOk, List, ℕ, ◌∷◌};
ghost use Rattle.twe_ast.specs.Expression.{Shape, expression};
ghost use Rattle.twe_ast.specs.inner.ExpressionView.{shape_of};
ghost use Rattle.twe_parser.specs.declared.symbol.ExprAction.TheVariants as actions;
ghost use Rattle.twe_parser.specs.inner.ExprActions.{perform_expr, after_minus};
ghost use Rattle.twe_parser.specs.Values.{literal_value_of};
ghost use Rattle.twe_parser.specs.inner.ValueStacks.{with_expr};

use crate::symbol::ExprAction;
use crate::value_stacks::{ValueStacks, nameless, nothing, nowhere};
use std::alloc::Global;
use twe_ast::{Args, BinOp, Expr, ExprKind};
use twe_base::{List, MAX_LITERAL, Memory, Place};

/// The value of a literal without a sign, or -2147483648 if it is too large.
pub(crate) fn value_of(number: u32) -> i32
    ensures { result ≡ literal_value_of number }
{
    i32::try_from(number).unwrap_or(i32::MIN)
}

/// The expression of `-` and a literal at this place.
fn after_minus(alloc: Global, place: Place, number: u32) -> Result<ExprKind, Memory>
    ensures { IfOk result (λ kind. shape_of kind ≡ after_minus place number) }
{
    if number == MAX_LITERAL + 1 {
        return Ok(ExprKind::Lit(i32::MIN));
    }
    let literal = Expr {
        kind: ExprKind::Lit(value_of(number)),
        place,
    };
    Ok(ExprKind::Neg(Box::new(alloc, literal)?))
}

impl ValueStacks {
    /// Performs a semantic action that makes an expression.
    pub(crate) fn perform_expr(&mut self, alloc: Global, action: ExprAction) -> Result<(), Memory>
        ensures { OnOk result (self.new ≡ perform_expr action self.old) }
    {
        match action {
            ExprAction::Literal => self.literal(),
            ExprAction::Truth(value) => self.truth(value),
            ExprAction::MinusLiteral => self.minus_literal(alloc),
            ExprAction::Negate => self.negate(alloc),
            ExprAction::Not => self.not(alloc),
            ExprAction::Variable => self.variable(alloc),
            ExprAction::Enclose => self.enclose(),
            ExprAction::Binary(op) => self.binary(alloc, op),
            ExprAction::NewArgs => self.args.push(List::new(alloc)),
            ExprAction::KeepArg => self.keep_arg(alloc),
            ExprAction::CallValue => self.call_value(alloc),
            ExprAction::Element => self.element(alloc),
            ExprAction::GridElement => self.grid_element(alloc),
        }
    }

    fn push_expr(&mut self, place: Place, kind: ExprKind) -> Result<(), Memory>
        ensures { OnOk result (self.new ≡ with_expr (expression place (shape_of kind)) self.old) }
    {
        self.exprs.push(Expr { kind, place })
    }

    fn literal(&mut self) -> Result<(), Memory>
        ensures { OnOk result (self.new ≡ perform_expr actions.Literal self.old) }
    {
        let place = self.places.pop_or(nowhere());
        let number = self.numbers.pop_or(0);
        self.push_expr(place, ExprKind::Lit(value_of(number)))
    }

    fn truth(&mut self, value: bool) -> Result<(), Memory>
        ensures { OnOk result (self.new ≡ perform_expr (actions.Truth value) self.old) }
    {
        let place = self.places.pop_or(nowhere());
        self.push_expr(place, ExprKind::Truth(value))
    }

    fn minus_literal(&mut self, alloc: Global) -> Result<(), Memory>
        ensures { OnOk result (self.new ≡ perform_expr actions.MinusLiteral self.old) }
    {
        let place = self.places.pop_or(nowhere());
        let minus = self.places.pop_or(nowhere());
        let number = self.numbers.pop_or(0);
        self.push_expr(minus, after_minus(alloc, place, number)?)
    }

    fn negate(&mut self, alloc: Global) -> Result<(), Memory>
        ensures { OnOk result (self.new ≡ perform_expr actions.Negate self.old) }
    {
        let place = self.places.pop_or(nowhere());
        let operand = self.exprs.pop_or(nothing());
        self.push_expr(place, ExprKind::Neg(Box::new(alloc, operand)?))
    }

    fn not(&mut self, alloc: Global) -> Result<(), Memory>
        ensures { OnOk result (self.new ≡ perform_expr actions.Not self.old) }
    {
        let place = self.places.pop_or(nowhere());
        let operand = self.exprs.pop_or(nothing());
        self.push_expr(place, ExprKind::Not(Box::new(alloc, operand)?))
    }

    fn variable(&mut self, alloc: Global) -> Result<(), Memory>
        ensures { OnOk result (self.new ≡ perform_expr actions.Variable self.old) }
    {
        let name = self.names.pop_or(nameless(alloc));
        self.push_expr(name.place, ExprKind::Name(name))
    }

    fn enclose(&mut self) -> Result<(), Memory>
        ensures { OnOk result (self.new ≡ perform_expr actions.Enclose self.old) }
    {
        let place = self.places.pop_or(nowhere());
        let Expr { kind, place: _ } = self.exprs.pop_or(nothing());
        self.push_expr(place, kind)
    }

    fn binary(&mut self, alloc: Global, op: BinOp) -> Result<(), Memory>
        ensures { OnOk result (self.new ≡ perform_expr (actions.Binary op) self.old) }
    {
        let right = self.exprs.pop_or(nothing());
        let left = self.exprs.pop_or(nothing());
        let place = self.places.pop_or(nowhere());
        let first = left.place;
        let left = Box::new(alloc, left)?;
        let right = Box::new(alloc, right)?;
        self.push_expr(
            first,
            ExprKind::Bin {
                op,
                left,
                right,
                place,
            },
        )
    }

    fn keep_arg(&mut self, alloc: Global) -> Result<(), Memory>
        ensures { OnOk result (self.new ≡ perform_expr actions.KeepArg self.old) }
    {
        let argument = self.exprs.pop_or(nothing());
        let mut args = self.args.pop_or(List::new(alloc));
        args.push(argument)?;
        self.args.push(args)
    }

    fn call_value(&mut self, alloc: Global) -> Result<(), Memory>
        ensures { OnOk result (self.new ≡ perform_expr actions.CallValue self.old) }
    {
        let method = self.names.pop_or(nameless(alloc));
        let args = self.args.pop_or(List::new(alloc));
        let args = Args {
            items: args.into_vec(),
        };
        self.push_expr(method.place, ExprKind::Call { method, args })
    }

    fn element(&mut self, alloc: Global) -> Result<(), Memory>
        ensures { OnOk result (self.new ≡ perform_expr actions.Element self.old) }
    {
        let array = self.names.pop_or(nameless(alloc));
        let index = Box::new(alloc, self.exprs.pop_or(nothing()))?;
        self.push_expr(
            array.place,
            ExprKind::At {
                array,
                index,
                second: None,
            },
        )
    }

    fn grid_element(&mut self, alloc: Global) -> Result<(), Memory>
        ensures { OnOk result (self.new ≡ perform_expr actions.GridElement self.old) }
    {
        let array = self.names.pop_or(nameless(alloc));
        let column = Box::new(alloc, self.exprs.pop_or(nothing()))?;
        let row = Box::new(alloc, self.exprs.pop_or(nothing()))?;
        self.push_expr(
            array.place,
            ExprKind::At {
                array,
                index: row,
                second: Some(column),
            },
        )
    }
}
