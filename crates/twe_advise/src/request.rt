//! What is asked of an input: what the words ask for, and the declarations of its text, which have the names of parameters.
ghost use Rattle.std.specs.Prelude.{◌≡◌, IfOk};
ghost use Rattle.twe_advise.specs.Parameters.{AreDeclarations, task_params};

use crate::words::AdviceWords;
use std::alloc::Global;
use twe_ast::{Ast, Item, Name};
use twe_base::{List, Memory};
use twe_frontend::{FrontFail, read_tree};

/// What the words ask for, and the declarations of the text.
#[derive(Debug, Drop)]
pub(crate) struct AdviceRequest {
    /// What the words ask for.
    pub wanted: AdviceWords,
    /// The declarations, in the order of the text.
    pub items: List<Item>,
}

/// The declarations of a tree.
fn items_of(tree: Ast) -> List<Item>
    ensures { result ≡ tree.items }
{
    let Ast { items, .. } = tree;
    items
}

/// The declarations of a text, or none if it breaks a rule of the text.
pub(crate) fn declarations(alloc: Global, text: &[u8]) -> Result<List<Item>, Memory>
    ensures { IfOk result (AreDeclarations text.now) }
{
    match read_tree(alloc, text) {
        Ok(tree) => Ok(items_of(tree)),
        Err(FrontFail::Refused(_)) => Ok(List::new(alloc)),
        Err(FrontFail::OutOfMemory(memory)) => Err(memory),
    }
}

/// The names of the parameters of the task with this number, counted from 0 in the order of the text. If there is no such task,
/// there are none.
pub(crate) fn task_params(items: &[Item], task: u32) -> &[Name]
    ensures { result.now ≡ task_params items.now task }
{
    let mut left = task;
    for item in items {
        if let Item::Task { decl, .. } = item {
            if left == 0 {
                return decl.params.as_slice();
            }
            left -= 1;
        }
    }
    &[]
}
