//! The lines that are written.
ghost use Rattle.std.specs.Prelude.{◌≡◌, ◌++◌, IfOk, OnOk};
ghost use Rattle.twe_profile.specs.Texts.{entries_text, more_entries, number_line};
ghost use Rattle.twe_profile.specs.Texts as texts;

use itoa::Buffer;
use span_profile::Profile;
use std::alloc::Global;
use twe_base::{Bytes, Memory};

/// The usage line.
pub(crate) fn usage_text(alloc: Global) -> Result<Bytes, Memory>
    ensures { IfOk result (λ text. text ≡ texts.profile_usage_text) }
{
    Bytes::from_slice(alloc, b"usage: twe_profile\n")
}

/// Appends the line of a word and a number.
fn push_number(text: &mut Bytes, word: &[u8], number: u64) -> Result<(), Memory>
    ensures { OnOk result (text.new ≡ text.old ++ number_line word.now number) }
{
    text.push_all(word)?;
    text.push_all(Buffer::new().format(number).as_bytes())?;
    text.push(b'\n')
}

/// Appends the numbers of entries, each after `, `.
fn push_more_entries(text: &mut Bytes, entries: &[u64]) -> Result<(), Memory>
    ensures { OnOk result (text.new ≡ text.old ++ more_entries entries.now) }
{
    for entry in entries {
        text.push_all(b", ")?;
        text.push_all(Buffer::new().format(*entry).as_bytes())?;
    }
    Ok(())
}

/// Appends the numbers of entries after a blank, with `, ` between them.
fn push_entries(text: &mut Bytes, entries: &[u64]) -> Result<(), Memory>
    ensures { OnOk result (text.new ≡ text.old ++ entries_text entries.now) }
{
    match entries {
        [] => Ok(()),
        [entry, others @ ..] => {
            text.push_all(b" ")?;
            text.push_all(Buffer::new().format(*entry).as_bytes())?;
            push_more_entries(text, others)
        }
    }
}

/// The lines of a profile: the work, the span, and the numbers of the entries of the chain.
pub(crate) fn profile_text(alloc: Global, profile: &Profile) -> Result<Bytes, Memory>
    ensures { IfOk result (λ text. text ≡ texts.profile_text profile.now.work profile.now.span profile.now.chain) }
{
    let mut text = Bytes::new(alloc);
    push_number(&mut text, b"work ", profile.work)?;
    push_number(&mut text, b"span ", profile.span)?;
    text.push_all(b"chain")?;
    push_entries(&mut text, profile.chain.as_slice())?;
    text.push(b'\n')?;
    Ok(text)
}
