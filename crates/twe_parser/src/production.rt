//! The table of the parser: the production of a nonterminal by the next token.
ghost use Rattle.std.specs.Prelude.{◌≡◌, ◌≤◌, ◌∷◌, true, false, Some, length};
ghost use Rattle.twe_parser.specs.declared.symbol.Nonterminal.TheVariants as nonterminals;
ghost use Rattle.twe_parser.specs.declared.symbol.Symbol.TheVariants as symbols;
ghost use Rattle.twe_parser.specs.inner.Productions.{production_of, epsilon_action};

use crate::expression_productions::{
    after_minus, args, climb, more_args, second_index, suffix, unary,
};
use crate::header_productions::{effects, elem, index, more_params, params, path, path_rest};
use crate::item_productions::{
    after_int, after_length, cell_elem, cell_path, cell_rest, initial, items, more_regions,
    task_returns,
};
use crate::statement_productions::{
    after_arm, after_index, after_name, else_body, int_value, local_type, return_value, statements,
};
use crate::symbol::{Action, ExprAction, Nonterminal, StmtAction, Symbol, Terminal};
use crate::symbols::Symbols;
use crate::wait_productions::{after_value_name, awaited, awaited_value, make};

/// A production, without the token that it begins with.
#[derive(Drop)]
pub(crate) struct Production {
    /// Whether the place of the first token is pushed on the stack of places.
    pub(crate) mark: bool,
    /// The symbols after the first token, in order.
    pub(crate) right_side: Symbols,
}

/// A production that does not keep the place of its first token.
pub(crate) fn plain(right_side: &[Symbol]) -> Option<Production>
    requires { length right_side.now ≤ 12 }
    ensures { result ≡ Some (record { mark = false; right_side = right_side.now }) }
{
    Some(Production {
        mark: false,
        right_side: Symbols::new(right_side),
    })
}

/// A production that keeps the place of its first token.
pub(crate) fn marked(right_side: &[Symbol]) -> Option<Production>
    requires { length right_side.now ≤ 12 }
    ensures { result ≡ Some (record { mark = true; right_side = right_side.now }) }
{
    Some(Production {
        mark: true,
        right_side: Symbols::new(right_side),
    })
}

/// A production that goes on with an expression and then with more symbols. It does not keep the place of its first
/// token.
pub(crate) fn operand_then(more: &[Symbol]) -> Option<Production>
    requires { length more.now ≤ 10 }
    ensures { result ≡ Some (record {
      mark = false;
      right_side = symbols.Expand nonterminals.Unary ∷ symbols.Expand (nonterminals.Climb 0) ∷ more.now;
    }) }
{
    let operand = Symbols::new(&[
        Symbol::Expand(Nonterminal::Unary),
        Symbol::Expand(Nonterminal::Climb(0)),
    ]);
    Some(Production {
        mark: false,
        right_side: operand.followed_by(more),
    })
}

/// The production of a nonterminal that begins with this token, or `None` if there is none.
pub(crate) fn production_of(nonterminal: Nonterminal, next: Terminal) -> Option<Production>
    ensures { result ≡ production_of nonterminal next }
{
    match nonterminal {
        Nonterminal::Items => items(next),
        Nonterminal::MoreRegions => more_regions(next),
        Nonterminal::AfterInt => after_int(next),
        Nonterminal::AfterLength => after_length(next),
        Nonterminal::CellPath(kind) => cell_path(kind, next),
        Nonterminal::CellRest(kind) => cell_rest(kind, next),
        Nonterminal::CellElem => cell_elem(next),
        Nonterminal::Initial => initial(next),
        Nonterminal::TaskReturns(deterministic) => task_returns(deterministic, next),
        Nonterminal::Params => params(next),
        Nonterminal::MoreParams => more_params(next),
        Nonterminal::Effects(in_task) => effects(in_task, next),
        Nonterminal::Path(in_task, access) => path(in_task, access, next),
        Nonterminal::PathRest(in_task, access) => path_rest(in_task, access, next),
        Nonterminal::Elem => elem(next),
        Nonterminal::Index => index(next),
        Nonterminal::Statements(in_task) => statements(in_task, next),
        Nonterminal::LocalType(in_task) => local_type(in_task, next),
        Nonterminal::IntValue { in_task, is_final } => int_value(in_task, is_final, next),
        Nonterminal::AfterValueName(is_final) => after_value_name(is_final, next),
        Nonterminal::AfterName(in_task) => after_name(in_task, next),
        Nonterminal::AfterIndex => after_index(next),
        Nonterminal::Awaited => awaited(next),
        Nonterminal::AwaitedValue(is_final) => awaited_value(is_final, next),
        Nonterminal::Make => make(next),
        Nonterminal::AfterArm(in_task) => after_arm(in_task, next),
        Nonterminal::ElseBody(in_task) => else_body(in_task, next),
        Nonterminal::ReturnValue => return_value(next),
        Nonterminal::Args => args(next),
        Nonterminal::MoreArgs => more_args(next),
        Nonterminal::Unary => unary(next),
        Nonterminal::AfterMinus => after_minus(next),
        Nonterminal::Suffix => suffix(next),
        Nonterminal::SecondIndex => second_index(next),
        Nonterminal::Climb(level) => climb(level, next),
    }
}

/// The semantic action of a nonterminal's empty production, or `None` if it has no empty production.
pub(crate) fn epsilon_action(nonterminal: Nonterminal) -> Option<Action>
    ensures { result ≡ epsilon_action nonterminal }
{
    match nonterminal {
        Nonterminal::Suffix => Some(Action::Expr(ExprAction::Variable)),
        Nonterminal::SecondIndex => Some(Action::Expr(ExprAction::Element)),
        Nonterminal::AfterArm(_) => Some(Action::Stmt(StmtAction::CloseIf)),
        Nonterminal::Climb(_) => Some(Action::Nothing),
        _ => None,
    }
}
