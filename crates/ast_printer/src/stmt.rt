//! Statements and blocks.
#![tactic(auto, using(crate::proofs::Texts::append_text, std::proofs::lemmas::Grind::common_steps))]

ghost use Rattle.std.specs.Prelude.{◌≡◌, ◌++◌, false, OnOk};
ghost use Rattle.ast_printer.specs.Text.{text_of};
ghost use Rattle.ast_printer.specs.StatementTokens.{arms_tokens, block_tokens, statement_tokens};

use crate::expr::push_expr;
use crate::simple::push_simple;
use crate::token::{push_fixed, push_two, push_when};
use twe_ast::{Arms, Block, Stmt, StmtKind};
use twe_base::{Bytes, Memory};
use twe_lexer::Fixed;

/// Writes a statement.
#[cycle(stmt)]
fn push_stmt(stmt: &Stmt, text: &mut Bytes) -> Result<(), Memory>
    ensures { OnOk result (text.new ≡ text.old ++ text_of (statement_tokens stmt.now)) }
{
    match &stmt.kind {
        StmtKind::Block(body) => {
            push_fixed(text, Fixed::OpenBrace)?;
            push_block(body, text)
        }
        StmtKind::If(arms) => push_arms(arms, text),
        StmtKind::While {
            condition,
            body,
            ..
        } => {
            push_two(text, Fixed::While, Fixed::OpenParen)?;
            push_expr(condition, text, 0)?;
            push_two(text, Fixed::CloseParen, Fixed::OpenBrace)?;
            push_block(body, text)
        }
        _ => push_simple(stmt, text),
    }
}

/// Writes the statements of a block and its `}`.
#[cycle(stmt)]
pub(crate) fn push_block(block: &Block, text: &mut Bytes) -> Result<(), Memory>
    ensures { OnOk result (text.new ≡ text.old ++ text_of (block_tokens block.now)) }
{
    for stmt in block.stmts.as_slice() {
        push_stmt(stmt, text)?;
    }
    push_fixed(text, Fixed::CloseBrace)
}

/// Writes the arms of an `if`.
#[cycle(stmt)]
fn push_arms(arms: &Arms, text: &mut Bytes) -> Result<(), Memory>
    ensures { OnOk result (text.new ≡ text.old ++ text_of (arms_tokens false arms.now)) }
{
    let mut later = false;
    for arm in arms.arms.as_slice() {
        push_when(text, later, Fixed::Else)?;
        push_two(text, Fixed::If, Fixed::OpenParen)?;
        push_expr(&arm.condition, text, 0)?;
        push_two(text, Fixed::CloseParen, Fixed::OpenBrace)?;
        push_block(&arm.body, text)?;
        later = true;
    }
    match &arms.last {
        Some(body) => {
            push_when(text, later, Fixed::Else)?;
            push_fixed(text, Fixed::OpenBrace)?;
            push_block(body, text)
        }
        None => Ok(()),
    }
}
