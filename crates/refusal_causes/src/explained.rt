//! From a text to its acceptance, or to its refusal with the cause.
ghost use Rattle.std.specs.Prelude.{◌≡◌, ◌+◌, ◌<◌, ◌^◌, false, length, IfOk};
ghost use Rattle.refusal_causes.specs.Explained.{IsExplained, is_of_tokens};
ghost use Rattle.name_check.specs.FailsName.{IsFirstNameFailure};
ghost use Rattle.twe_names.specs.FromText.{IsFromText};
ghost use Rattle.twe_names.specs.Meaning.{program_of};
ghost use Rattle.twe_names.specs.Resolves.{ResolveHasCause};
ghost use Rattle.twe_frontend.specs.Accepted.{IsMeaningOf, IsTreeOf};
ghost use Rattle.twe_frontend.specs.Reads.{IsTextFailure, TreeHasCause};

use crate::cause::RuleCause;
use crate::next_tokens::{NextTokens, next_tokens};
use crate::searching::cause_at;
use crate::text_rules::{TextCause, text_cause};
use effect_check::{CheckFail, check};
use name_causes::{NameNeed, name_cause};
use name_check::NRule;
use std::alloc::Global;
use twe_ast::Ast;
use twe_base::{Memory, Place};
use twe_frontend::{FrontFail, Refusal, RuleName, parsed_trees_are_from_texts, read_tree};
use twe_names::{NameFail, resolve};
use twe_parser::SRule;
use twe_program::Prog;

/// What is known of a text.
#[derive(Debug, Drop)]
pub enum Explained {
    /// It is accepted.
    Kept,
    /// It is refused by a rule of the text that is none of tokens.
    Early {
        /// The refusal.
        refusal: Refusal,
        /// Why the rule fails.
        cause: TextCause,
    },
    /// It is refused at a token that may not stand at its place, or at its end, which comes too early.
    Stray {
        /// The refusal.
        refusal: Refusal,
        /// The tokens that may stand at its place.
        tokens: NextTokens,
    },
    /// It is refused by a rule of names.
    Named {
        /// The refusal.
        refusal: Refusal,
        /// What is needed at its place, and what is there.
        cause: NameNeed,
        /// The tree of the text.
        tree: Ast,
    },
    /// It is refused by a rule on effects.
    Late {
        /// The refusal.
        refusal: Refusal,
        /// The cause.
        cause: RuleCause,
        /// The tree of the text.
        tree: Ast,
        /// The program that it means.
        program: Prog,
    },
}

/// What is known of a text that has this tree, and means this program.
fn explain_program(
    alloc: Global,
    text: &[u8],
    tree: Ast,
    program: Prog,
) -> Result<Explained, Memory>
    requires parsed { IsTreeOf text.now tree }
    requires meant { IsMeaningOf text.now program }
    requires of_tree { program ≡ program_of tree }
    ensures { IfOk result (IsExplained text.now) }
{
    let _ = text;
    match check(alloc, &program) {
        Ok(()) => Ok(Explained::Kept),
        Err(CheckFail::Rule { rule, place }) => {
            let cause = cause_at(alloc, &program, rule, place)?;
            let refusal = Refusal {
                rule: RuleName::Effect(rule),
                place,
            };
            Ok(Explained::Late {
                refusal,
                cause,
                tree,
                program,
            })
        }
        Err(CheckFail::OutOfMemory(memory)) => Err(memory),
    }
}

/// What is known of a text that has this tree, of which this rule of names fails first.
fn misnamed(
    alloc: Global,
    text: &[u8],
    tree: Ast,
    rule: NRule,
    place: Place,
) -> Result<Explained, Memory>
    requires parsed { IsTreeOf text.now tree }
    requires readable { IsFromText tree }
    requires first { IsFirstNameFailure tree rule place }
    ensures { IfOk result (IsExplained text.now) }
{
    let _ = text;
    let cause = name_cause(alloc, &tree, rule, place)?;
    let rule = RuleName::Name(rule);
    let refusal = Refusal { rule, place };
    Ok(Explained::Named {
        refusal,
        cause,
        tree,
    })
}

/// What is known of a text that has this tree, of which a rule of names fails.
fn unresolved(alloc: Global, text: &[u8], tree: Ast, fail: NameFail) -> Result<Explained, Memory>
    requires parsed { IsTreeOf text.now tree }
    requires readable { IsFromText tree }
    requires cause { ResolveHasCause tree fail }
    ensures { IfOk result (IsExplained text.now) }
{
    match fail {
        NameFail::Names { rule, place } => misnamed(alloc, text, tree, rule, place),
        NameFail::OutOfMemory(memory) => Err(memory),
    }
}

/// What is known of a text that has this tree.
fn explain_tree(alloc: Global, text: &[u8], tree: Ast) -> Result<Explained, Memory>
    requires parsed { IsTreeOf text.now tree }
    requires countable { length text.now + 1 < 2 ^ 32 }
    ensures { IfOk result (IsExplained text.now) }
{
    parsed_trees_are_from_texts();
    match resolve(alloc, &tree) {
        Ok(program) => explain_program(alloc, text, tree, program),
        Err(fail) => unresolved(alloc, text, tree, fail),
    }
}

/// Whether the rule is the one of stray tokens, or that of texts that end too early.
fn is_of_tokens(rule: RuleName) -> bool
    ensures { result ≡ is_of_tokens rule }
{
    match rule {
        RuleName::Text(SRule::S2) => true,
        RuleName::Text(SRule::S3) => true,
        _ => false,
    }
}

/// What is known of a text of which this rule, which is none of tokens, fails first.
fn unread_early(alloc: Global, text: &[u8], refusal: Refusal) -> Result<Explained, Memory>
    requires fails { IsTextFailure text.now refusal.rule refusal.place }
    requires early { is_of_tokens refusal.rule ≡ false }
    ensures { IfOk result (IsExplained text.now) }
{
    match refusal.rule {
        RuleName::Text(rule) => {
            let cause = text_cause(alloc, text, rule, refusal.place)?;
            Ok(Explained::Early { refusal, cause })
        }
        RuleName::Name(_) | RuleName::Effect(_) => unreachable!(),
    }
}

/// What is known of a text of which this rule of the text fails first.
fn unread_at(alloc: Global, text: &[u8], refusal: Refusal) -> Result<Explained, Memory>
    requires { IsTextFailure text.now refusal.rule refusal.place }
    ensures { IfOk result (IsExplained text.now) }
{
    if is_of_tokens(refusal.rule) {
        let tokens = next_tokens(alloc, text, refusal.place)?;
        Ok(Explained::Stray { refusal, tokens })
    } else {
        unread_early(alloc, text, refusal)
    }
}

/// What is known of a text that has no tree, for a rule of the text fails.
fn unread(alloc: Global, text: &[u8], fail: FrontFail) -> Result<Explained, Memory>
    requires { TreeHasCause text.now fail }
    ensures { IfOk result (IsExplained text.now) }
{
    match fail {
        FrontFail::Refused(refusal) => unread_at(alloc, text, refusal),
        FrontFail::OutOfMemory(memory) => Err(memory),
    }
}

/// Whether a text is accepted, or its one refusal with the cause. `Memory` is also returned for a text of 2^32 - 1 bytes or more,
/// whose places can't be counted.
pub fn explain(alloc: Global, text: &[u8]) -> Result<Explained, Memory>
    ensures { IfOk result (IsExplained text.now) }
{
    match read_tree(alloc, text) {
        Ok(tree) => explain_tree(alloc, text, tree),
        Err(fail) => unread(alloc, text, fail),
    }
}
