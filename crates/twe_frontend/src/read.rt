//! From a text to its program.
ghost use Rattle.std.specs.Prelude.{◌+◌, ◌<◌, ◌^◌, length, IfOk, IfErr, OnOk};
ghost use Rattle.twe_frontend.specs.Accepted.{Accepted, IsMeaningOf, IsTreeOf};
ghost use Rattle.twe_frontend.specs.Reads.{HasCause, TreeHasCause};

use crate::refusal::{Refusal, RuleName};
use effect_check::{CheckFail, check};
use std::alloc::Global;
use std::fmt;
use twe_ast::Ast;
use twe_base::Memory;
use twe_names::{NameFail, resolve};
use twe_parser::{ParseFail, parse};
use twe_program::Prog;

/// Why a text has no program.
#[derive(Clone, Copy, Debug, PartialEq, Eq)]
pub enum FrontFail {
    /// The text is refused.
    Refused(Refusal),
    /// There was not enough memory.
    OutOfMemory(Memory),
}

impl fmt::Display for FrontFail {
    fn fmt<W: fmt::Write>(&self, f: &mut fmt::Formatter<W>) -> fmt::Result {
        match self {
            FrontFail::Refused(refusal) => {
                let place = refusal.place;
                let (line, col) = (place.line, place.col);
                write!(f, "refused at {line}:{col}")
            }
            FrontFail::OutOfMemory(memory) => write!(f, "{memory}"),
        }
    }
}

impl std::error::Error for FrontFail {}

impl From<Memory> for FrontFail {
    ghost use Rattle.std.specs.Prelude.{◌≡◌};
    ghost use Rattle.twe_frontend.specs.declared.read.FrontFail.TheVariants.{OutOfMemory};

    ghost from_gives = { λ memory fail. fail ≡ OutOfMemory memory };

    fn from(memory: Memory) -> Self {
        FrontFail::OutOfMemory(memory)
    }
}

/// The tree of a text that keeps the rules of the text, or else the first failure of one. If it is Ok, the text has less
/// than 2^32 - 1 bytes. `OutOfMemory` is also returned for a longer text, whose places can't be counted.
pub fn read_tree(alloc: Global, text: &[u8]) -> Result<Ast, FrontFail>
    ensures tree { IfOk result (IsTreeOf text.now) }
    ensures countable { OnOk result (length text.now + 1 < 2 ^ 32) }
    ensures refused { IfErr result (TreeHasCause text.now) }
{
    match parse(alloc, text) {
        Ok(tree) => Ok(tree),
        Err(ParseFail::Syntax { rule, place }) => Err(FrontFail::Refused(Refusal {
            rule: RuleName::Text(rule),
            place,
        })),
        Err(ParseFail::OutOfMemory(memory)) => Err(FrontFail::OutOfMemory(memory)),
    }
}

/// The meaning of a text that keeps the rules of the text and those of names.
#[tactic(auto, using(crate::proofs::TreeCauses::refuses_text))]
fn meaning_of(alloc: Global, text: &[u8]) -> Result<Prog, FrontFail>
    ensures meaning { IfOk result (IsMeaningOf text.now) }
    ensures refused { IfErr result (HasCause text.now) }
{
    let tree = read_tree(alloc, text)?;
    match resolve(alloc, &tree) {
        Ok(p) => Ok(p),
        Err(NameFail::Names { rule, place }) => Err(FrontFail::Refused(Refusal {
            rule: RuleName::Name(rule),
            place,
        })),
        Err(NameFail::OutOfMemory(memory)) => Err(FrontFail::OutOfMemory(memory)),
    }
}

/// The program of a text, or its one refusal: the first failure of a rule of the text, or else the first of a rule of names,
/// or else the first of a rule on effects. `OutOfMemory` is also returned for a text of 2^32 - 1 bytes or more, whose places
/// can't be counted.
pub fn read_program(alloc: Global, text: &[u8]) -> Result<Prog, FrontFail>
    ensures accepted { IfOk result (Accepted text.now) }
    ensures refused { IfErr result (HasCause text.now) }
{
    let p = meaning_of(alloc, text)?;
    match check(alloc, &p) {
        Ok(()) => Ok(p),
        Err(CheckFail::Rule { rule, place }) => Err(FrontFail::Refused(Refusal {
            rule: RuleName::Effect(rule),
            place,
        })),
        Err(CheckFail::OutOfMemory(memory)) => Err(FrontFail::OutOfMemory(memory)),
    }
}
