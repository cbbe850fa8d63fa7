//! From a text to its tree and its program. The rules on effects are not looked at.
ghost use Rattle.std.specs.Prelude.{IfErr, IfOk};
ghost use Rattle.twe_frontend.specs.meaning.Meaning.{TextMeans};
ghost use Rattle.twe_frontend.specs.meaning.Reading.{ReadingHasCause};

use crate::{FrontFail, Refusal, RuleName, parsed_trees_are_from_texts, read_tree};
use std::alloc::Global;
use twe_ast::Ast;
use twe_names::{NameFail, resolve};
use twe_program::Prog;

/// The tree of a text, and the program that it means.
#[derive(Debug, Drop)]
pub struct Meaning {
    /// The tree.
    pub tree: Ast,
    /// The program.
    pub program: Prog,
}

/// The tree and the program of a text that keeps the rules of the text and those of names.
#[tactic(auto, using(crate::proofs::meaning::TreeCauses::refuses_reading))]
pub fn read_meaning(alloc: Global, text: &[u8]) -> Result<Meaning, FrontFail>
    ensures meaning { IfOk result (λ meaning. TextMeans text.now meaning.tree meaning.program) }
    ensures refused { IfErr result (ReadingHasCause text.now) }
{
    parsed_trees_are_from_texts();
    let tree = read_tree(alloc, text)?;
    match resolve(alloc, &tree) {
        Ok(program) => Ok(Meaning { tree, program }),
        Err(NameFail::Names { rule, place }) => Err(FrontFail::Refused(Refusal {
            rule: RuleName::Name(rule),
            place,
        })),
        Err(NameFail::OutOfMemory(memory)) => Err(FrontFail::OutOfMemory(memory)),
    }
}
