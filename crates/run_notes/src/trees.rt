//! The tree of a text.
ghost use Rattle.std.specs.Prelude.{IfOk};
ghost use Rattle.run_notes.specs.Trees.{IsTreeIfAny};

use std::alloc::Global;
use twe_ast::Ast;
use twe_base::Memory;
use twe_frontend::{FrontFail, read_tree};

/// The tree of a text, if it has one: if it keeps the rules of the text.
pub(crate) fn tree_if_any(alloc: Global, text: &[u8]) -> Result<Option<Ast>, Memory>
    ensures { IfOk result (IsTreeIfAny text.now) }
{
    match read_tree(alloc, text) {
        Ok(tree) => Ok(Some(tree)),
        Err(FrontFail::Refused(_)) => Ok(None),
        Err(FrontFail::OutOfMemory(memory)) => Err(memory),
    }
}
