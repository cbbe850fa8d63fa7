//! The brackets that are open at the end of a text.
ghost use Rattle.std.specs.Prelude.{◌≡◌, List as Codes, ℕ, IfOk};
ghost use Rattle.twe_base.specs.declared.place.Place.{Place as At};
ghost use Rattle.twe_parser.specs.declared.fail.SRule.TheVariants.{S3};
ghost use Rattle.twe_parser.specs.Fails.{IsSyntaxFailure};
ghost use Rattle.refusal_causes.specs.text_rules.Open.{AreOpenAt};

use crate::text_rules::open::OpenPlaces;
use crate::text_rules::walk::open_at;
use std::alloc::Global;
use twe_base::{Memory, Place};

/// The places of the brackets that are open where a text ends too early, the outermost first. `Memory` is also returned for a
/// text of 2^32 - 1 bytes or more, whose places can't be counted.
pub fn open_at_end(alloc: Global, text: &[u8], end: Place) -> Result<OpenPlaces, Memory>
    requires { IsSyntaxFailure text.now S3 end }
    ensures { IfOk result (AreOpenAt text.now end) }
{
    if text.len() >= u32::MAX as usize {
        return Err(Memory::of_uncountable(text));
    }
    match open_at(alloc, text, end)? {
        Some(places) => Ok(places),
        None => unreachable!(),
    }
}

/// At a place of a text no other brackets are open.
pub fn one_answer()
    ensures { (text : Codes ℕ) (place : At) (places others : Codes At) → AreOpenAt text place places → AreOpenAt text place others
        → places ≡ others }
{}
