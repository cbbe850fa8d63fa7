//! From the tree of a program to a text.
ghost use Rattle.std.specs.Prelude.{◌≡◌, ℕ, List, IfOk};
ghost use Rattle.ast_printer.specs.ItemTokens.{printed_tokens};
ghost use Rattle.ast_printer.specs.ParsesAgain.{IsTextOf, ParsesAgain};

use crate::item::push_items;
use std::alloc::Global;
use twe_ast::Ast;
use twe_base::{Bytes, Memory};

/// The text of a tree: its tokens in order, each with a space after it, and the end of a line after `{`, `}` and `;`.
///
/// An expression is in parentheses exactly if the grammar requires them for this tree. A path that begins with a name is
/// written without `Root`, and any other with it. Comments are not part of a tree. If the tree is that of a text that fails
/// no rule, the printed text fails no rule either, and its tree is the same except for places. It takes time and memory
/// linear in the length of the printed text.
pub fn print_ast(alloc: Global, ast: &Ast) -> Result<Bytes, Memory>
    ensures text { IfOk result (λ text. text ≡ printed_tokens ast.now) }
    ensures again { IfOk result (λ text. (source : List ℕ) → IsTextOf source ast.now → ParsesAgain text ast.now) }
{
    let mut text = Bytes::new(alloc);
    push_items(&mut text, ast.items.as_slice())?;
    Ok(text)
}
