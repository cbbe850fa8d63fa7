//! The answers of one line. Each line ends with byte 10.
ghost use Rattle.std.specs.Prelude.{◌≡◌, ◌++◌, IfOk, OnOk};
ghost use Rattle.twe_report.specs.Texts.{text_rule, name_rule, effect_rule, rule_text, place_text, fault_name};
ghost use Rattle.twe_report.specs.Texts as texts;

use effect_check::ERule;
use itoa::Buffer;
use name_check::NRule;
use std::alloc::Global;
use twe_base::{Bytes, FaultKind, Memory, Place};
use twe_frontend::{Refusal, RuleName};
use twe_parser::SRule;

/// The usage line.
pub fn usage_text(alloc: Global) -> Result<Bytes, Memory>
    ensures { IfOk result (λ text. text ≡ texts.usage_text) }
{
    Bytes::from_slice(
        alloc,
        b"usage: twe check | run [--workers k] [--fuel f] [--tasks t] [--journal] | \
replay [--fuel f] [--tasks t] | load N [--workers k]\n",
    )
}

/// The line for a read that failed.
pub(crate) fn read_fault_text(alloc: Global) -> Result<Bytes, Memory>
    ensures { IfOk result (λ text. text ≡ texts.read_fault_text) }
{
    Bytes::from_slice(alloc, b"read fault\n")
}

/// The line for an input that has more bytes than a text may have.
pub(crate) fn too_long_text(alloc: Global) -> Result<Bytes, Memory>
    ensures { IfOk result (λ text. text ≡ texts.too_long_text) }
{
    Bytes::from_slice(alloc, b"input too long\n")
}

/// The line for a journal text in which line `n`, counted from 1, is the first that is neither a head on line 1 nor a move.
pub fn not_a_move_text(alloc: Global, n: u64) -> Result<Bytes, Memory>
    ensures { IfOk result (λ text. text ≡ texts.not_a_move_text n) }
{
    bad_line_text(alloc, n, b"a move")
}

/// The line for a journal text in which line `n`, counted from 1, has the first move that is not legal.
pub fn not_legal_text(alloc: Global, n: u64) -> Result<Bytes, Memory>
    ensures { IfOk result (λ text. text ≡ texts.not_legal_text n) }
{
    bad_line_text(alloc, n, b"legal")
}

/// The line for a journal text in which line `n` is not what it has to be.
fn bad_line_text(alloc: Global, n: u64, what: &[u8]) -> Result<Bytes, Memory>
    ensures { IfOk result (λ text. text ≡ texts.bad_line_text n what.now) }
{
    let mut text = Bytes::from_slice(alloc, b"journal: line ")?;
    text.push_all(Buffer::new().format(n).as_bytes())?;
    text.push_all(b" is not ")?;
    text.push_all(what)?;
    text.push(b'\n')?;
    Ok(text)
}

/// The line for a text that is accepted.
pub fn accepted_text(alloc: Global) -> Result<Bytes, Memory>
    ensures { IfOk result (λ text. text ≡ texts.accepted_text) }
{
    Bytes::from_slice(alloc, b"accepted\n")
}

/// The line that names the refusal of a text, as `refused: E1 at 3:28`.
pub fn refusal_text(alloc: Global, refusal: Refusal) -> Result<Bytes, Memory>
    ensures { IfOk result (λ text. text ≡ texts.refusal_text refusal) }
{
    let mut text = Bytes::from_slice(alloc, b"refused: ")?;
    text.push_all(name_of(refusal.rule))?;
    text.push_all(b" at ")?;
    push_place(&mut text, refusal.place)?;
    text.push(b'\n')?;
    Ok(text)
}

/// The line of a fault, as `fault: DivZero in task 0 at 4:34`.
pub fn fault_text(alloc: Global, task: u32, kind: FaultKind, place: Place) -> Result<Bytes, Memory>
    ensures { IfOk result (λ text. text ≡ texts.fault_text task kind place) }
{
    let mut text = Bytes::from_slice(alloc, b"fault: ")?;
    text.push_all(name_of_fault(kind))?;
    text.push_all(b" in task ")?;
    text.push_all(Buffer::new().format(task).as_bytes())?;
    text.push_all(b" at ")?;
    push_place(&mut text, place)?;
    text.push(b'\n')?;
    Ok(text)
}

/// The name of a fault.
fn name_of_fault(kind: FaultKind) -> &'static [u8]
    ensures { result.now ≡ fault_name kind }
{
    match kind {
        FaultKind::DivZero => b"DivZero",
        FaultKind::Index => b"Index",
        FaultKind::Fuel => b"Fuel",
        FaultKind::Depth => b"Depth",
        FaultKind::TaskLimit => b"TaskLimit",
    }
}

/// The name of a rule of the text.
fn name_of_text_rule(rule: SRule) -> &'static [u8]
    ensures { result.now ≡ text_rule rule }
{
    match rule {
        SRule::S1 => b"S1",
        SRule::S2 => b"S2",
        SRule::S3 => b"S3",
        SRule::S4 => b"S4",
        SRule::S5 => b"S5",
        SRule::S6 => b"S6",
    }
}

/// The name of a rule of names.
fn name_of_name_rule(rule: NRule) -> &'static [u8]
    ensures { result.now ≡ name_rule rule }
{
    match rule {
        NRule::N1 => b"N1",
        NRule::N2 => b"N2",
        NRule::N3 => b"N3",
        NRule::N4 => b"N4",
        NRule::N5 => b"N5",
        NRule::N6 => b"N6",
        NRule::N7 => b"N7",
        NRule::N8 => b"N8",
        NRule::N9 => b"N9",
    }
}

/// The name of a rule on effects.
fn name_of_effect_rule(rule: ERule) -> &'static [u8]
    ensures { result.now ≡ effect_rule rule }
{
    match rule {
        ERule::E1 => b"E1",
        ERule::E2 => b"E2",
        ERule::E3 => b"E3",
        ERule::E4 => b"E4",
        ERule::E5 => b"E5",
        ERule::E6 => b"E6",
        ERule::E7 => b"E7",
        ERule::E8 => b"E8",
    }
}

/// The name of a rule.
fn name_of(rule: RuleName) -> &'static [u8]
    ensures { result.now ≡ rule_text rule }
{
    match rule {
        RuleName::Text(rule) => name_of_text_rule(rule),
        RuleName::Name(rule) => name_of_name_rule(rule),
        RuleName::Effect(rule) => name_of_effect_rule(rule),
    }
}

/// Appends a place to a text, as `3:28`.
pub fn push_place(text: &mut Bytes, place: Place) -> Result<(), Memory>
    ensures { OnOk result (text.new ≡ text.old ++ place_text place) }
{
    text.push_all(Buffer::new().format(place.line).as_bytes())?;
    text.push(b':')?;
    text.push_all(Buffer::new().format(place.col).as_bytes())?;
    Ok(())
}
