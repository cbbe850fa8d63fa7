//! From a tree to its program, or to the first failure of a rule of names.
ghost use Rattle.std.specs.Prelude.{◌≡◌, IfErr, IfOk, OnOk};
ghost use Rattle.twe_base.specs.declared.place.Place.{Place};
ghost use Rattle.name_check.specs.declared.rule.NRule.{NRule as Named};
ghost use Rattle.name_check.specs.FailsName.{FailsName};
ghost use Rattle.twe_names.specs.FromText.{IsFromText};
ghost use Rattle.twe_names.specs.Meaning.{program_of};
ghost use Rattle.twe_names.specs.Resolves.{ResolveHasCause};

use crate::fail::NameFail;
use crate::program::program;
use name_check::{CheckedNames, check_names};
use std::alloc::Global;
use twe_ast::Ast;
use twe_base::Failure;
use twe_program::Prog;

/// The program that the tree of a text means. It is Ok exactly if no rule of names fails. Otherwise, if memory suffices, it
/// returns the failure that comes first in the text, and at one place the one with the lowest number.
pub fn resolve(alloc: Global, ast: &Ast) -> Result<Prog, NameFail>
    requires { IsFromText ast.now }
    ensures meant { IfOk result (λ p. p ≡ program_of ast.now) }
    ensures accepted { OnOk result ((rule : Named) (place : Place) → ¬ FailsName ast.now rule place) }
    ensures refused { IfErr result (ResolveHasCause ast.now) }
{
    match check_names(alloc, ast)? {
        CheckedNames::Accepted(globals) => Ok(program(alloc, ast, &globals)?),
        CheckedNames::Refused(Failure { rule, place }) => Err(NameFail::Names { rule, place }),
    }
}
