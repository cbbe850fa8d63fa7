//! Statements that contain no other statements.
#![tactic(auto, using(crate::proofs::Texts::append_text, std::proofs::lemmas::Grind::common_steps))]

ghost use Rattle.std.specs.Prelude.{◌≡◌, [], ◌∷◌, ◌++◌, OnOk};
ghost use Rattle.twe_ast.specs.Statement.{Let, LetWait, Make, Set, SetArray, SetGrid};
ghost use Rattle.twe_lexer.specs.declared.fixed.Fixed.TheVariants as fixed;
ghost use Rattle.twe_lexer.specs.declared.token.TokenKind.TheVariants as kinds;
ghost use Rattle.twe_parser.specs.WritesStatement.{make_word, type_word, wait_word};
ghost use Rattle.ast_printer.specs.Text.{text_of};
ghost use Rattle.ast_printer.specs.StatementTokens.{returned_tokens, statement_tokens, value_tokens, wait_tokens};
ghost use Rattle.ast_printer.specs.inner.SimpleTokens.{action_tokens, simple_tokens};

use crate::expr::{push_args, push_element, push_expr, push_grid_element};
use crate::token::{push_fixed, push_name, push_two, push_when};
use twe_ast::{Args, Expr, LocalType, Name, Stmt, StmtKind, WaitCall};
use twe_base::{Bytes, Memory};
use twe_lexer::Fixed;

/// The keyword of a type.
fn type_word(local_type: LocalType) -> Fixed
    ensures { result ≡ type_word local_type }
{
    match local_type {
        LocalType::Int => Fixed::Int,
        LocalType::Boolean => Fixed::Boolean,
    }
}

/// The keyword of a wait.
fn wait_word(join: bool) -> Fixed
    ensures { result ≡ wait_word join }
{
    if join { Fixed::Join } else { Fixed::GetValue }
}

/// The keyword that makes a task.
fn make_word(spawned: bool) -> Fixed
    ensures { result ≡ make_word spawned }
{
    if spawned {
        Fixed::Spawn
    } else {
        Fixed::ExecuteLater
    }
}

/// Writes an expression and the `;` after it.
fn push_value(value: &Expr, text: &mut Bytes) -> Result<(), Memory>
    ensures { OnOk result (text.new ≡ text.old ++ text_of (value_tokens value.now)) }
{
    push_expr(value, text, 0)?;
    push_fixed(text, Fixed::Semicolon)
}

/// Writes the returned value, if there is one, and the `;` after it.
fn push_returned(value: &Option<Expr>, text: &mut Bytes) -> Result<(), Memory>
    ensures { OnOk result (text.new ≡ text.old ++ text_of (returned_tokens value.now)) }
{
    match value {
        None => push_fixed(text, Fixed::Semicolon),
        Some(value) => push_value(value, text),
    }
}

/// Writes the beginning of a task operation, as `f . join (`.
fn push_operation(text: &mut Bytes, name: &Name, operation: Fixed) -> Result<(), Memory>
    ensures { OnOk result (text.new ≡ text.old
        ++ text_of (kinds.Name name.now.text ∷ kinds.Fixed fixed.Dot ∷ kinds.Fixed operation
        ∷ kinds.Fixed fixed.OpenParen ∷ [])) }
{
    push_name(text, name)?;
    push_two(text, Fixed::Dot, operation)?;
    push_fixed(text, Fixed::OpenParen)
}

/// Writes a wait for a task and the `;` after it.
fn push_wait(wait: &WaitCall, text: &mut Bytes) -> Result<(), Memory>
    ensures { OnOk result (text.new ≡ text.old ++ text_of (wait_tokens wait.now)) }
{
    push_operation(text, &wait.future, wait_word(wait.join))?;
    push_two(text, Fixed::CloseParen, Fixed::Semicolon)
}

/// Writes the declaration of a local.
fn push_let(
    text: &mut Bytes,
    is_final: bool,
    local_type: LocalType,
    name: &Name,
    value: &Expr,
) -> Result<(), Memory>
    ensures { OnOk result (text.new ≡ text.old ++ text_of (statement_tokens (Let is_final local_type name.now value.now))) }
{
    push_when(text, is_final, Fixed::Final)?;
    push_fixed(text, type_word(local_type))?;
    push_name(text, name)?;
    push_fixed(text, Fixed::Assign)?;
    push_value(value, text)
}

/// Writes the assignment to a local or to a cell.
fn push_set(text: &mut Bytes, name: &Name, value: &Expr) -> Result<(), Memory>
    ensures { OnOk result (text.new ≡ text.old ++ text_of (statement_tokens (Set name.now value.now))) }
{
    push_name(text, name)?;
    push_fixed(text, Fixed::Assign)?;
    push_value(value, text)
}

/// Writes the assignment to an element of an array.
fn push_set_array(text: &mut Bytes, array: &Name, index: &Expr, value: &Expr) -> Result<(), Memory>
    ensures { OnOk result (text.new ≡ text.old ++ text_of (statement_tokens (SetArray array.now index.now value.now))) }
{
    push_element(array, index, text)?;
    push_fixed(text, Fixed::Assign)?;
    push_value(value, text)
}

/// Writes the assignment to an element of a grid.
fn push_set_grid(
    text: &mut Bytes,
    array: &Name,
    row: &Expr,
    column: &Expr,
    value: &Expr,
) -> Result<(), Memory>
    ensures { OnOk result (text.new ≡ text.old ++ text_of (statement_tokens (SetGrid array.now row.now column.now value.now))) }
{
    push_grid_element(array, row, column, text)?;
    push_fixed(text, Fixed::Assign)?;
    push_value(value, text)
}

/// Writes the making of a task.
fn push_make(
    text: &mut Bytes,
    future: &Name,
    task: &Name,
    spawned: bool,
    args: &Args,
) -> Result<(), Memory>
    ensures { OnOk result (text.new ≡ text.old ++ text_of (statement_tokens (Make future.now task.now spawned args.now))) }
{
    push_fixed(text, Fixed::Future)?;
    push_name(text, future)?;
    push_fixed(text, Fixed::Assign)?;
    push_operation(text, task, make_word(spawned))?;
    push_args(args, text)?;
    push_fixed(text, Fixed::Semicolon)
}

/// Writes the declaration of a local whose initial value is that of a task.
fn push_let_wait(
    text: &mut Bytes,
    is_final: bool,
    name: &Name,
    wait: &WaitCall,
) -> Result<(), Memory>
    ensures { OnOk result (text.new ≡ text.old ++ text_of (statement_tokens (LetWait is_final name.now wait.now))) }
{
    push_when(text, is_final, Fixed::Final)?;
    push_fixed(text, Fixed::Int)?;
    push_name(text, name)?;
    push_fixed(text, Fixed::Assign)?;
    push_wait(wait, text)
}

/// Writes a statement that contains no other statements.
pub(crate) fn push_simple(stmt: &Stmt, text: &mut Bytes) -> Result<(), Memory>
    ensures { OnOk result (text.new ≡ text.old ++ text_of (simple_tokens stmt.now)) }
{
    match &stmt.kind {
        StmtKind::Let {
            is_final,
            local_type,
            name,
            value,
        } => push_let(text, *is_final, *local_type, name, value),
        StmtKind::Set { name, value } => push_set(text, name, value),
        StmtKind::SetAt {
            array,
            index,
            second: None,
            value,
        } => push_set_array(text, array, index, value),
        StmtKind::SetAt {
            array,
            index,
            second: Some(second),
            value,
        } => push_set_grid(text, array, index, second, value),
        StmtKind::Return { value, .. } => {
            push_fixed(text, Fixed::Return)?;
            push_returned(value, text)
        }
        _ => push_action(stmt, text),
    }
}

/// Writes a print, a call or a task operation.
fn push_action(stmt: &Stmt, text: &mut Bytes) -> Result<(), Memory>
    ensures { OnOk result (text.new ≡ text.old ++ text_of (action_tokens stmt.now)) }
{
    match &stmt.kind {
        StmtKind::Print { value, .. } => {
            push_two(text, Fixed::Print, Fixed::OpenParen)?;
            push_expr(value, text, 0)?;
            push_two(text, Fixed::CloseParen, Fixed::Semicolon)
        }
        StmtKind::Call { method, args } => {
            push_name(text, method)?;
            push_fixed(text, Fixed::OpenParen)?;
            push_args(args, text)?;
            push_fixed(text, Fixed::Semicolon)
        }
        StmtKind::Make {
            future,
            task,
            spawned,
            args,
        } => push_make(text, future, task, *spawned, args),
        StmtKind::Wait(wait) => push_wait(wait, text),
        StmtKind::LetWait {
            is_final,
            name,
            wait,
        } => push_let_wait(text, *is_final, name, wait),
        _ => Ok(()),
    }
}
