//! The declaration that has a name.
ghost use Rattle.std.specs.Prelude.{◌≡◌, option_copied};
ghost use Rattle.summary_comparing.specs.ChainTexts.{declaration_of, declared_as, written_as};

use twe_ast::{Decl, Item};
use twe_program::{Decl as Resolved, Prog};

/// The method or the task of the text that has the name.
pub(crate) fn written_as<'a>(name: &[u8], items: &'a [Item]) -> Option<&'a Decl>
    ensures { option_copied result ≡ written_as name.now items.now }
{
    for item in items {
        if let Item::Method(decl) = item
            && decl.name.text.as_bytes() == name
        {
            return Some(decl);
        }
        if let Item::Task { decl, .. } = item
            && decl.name.text.as_bytes() == name
        {
            return Some(decl);
        }
    }
    None
}

/// The first of the declarations that has the name.
fn declared_as<'a>(name: &[u8], decls: &'a [Resolved]) -> Option<&'a Resolved>
    ensures { option_copied result ≡ declared_as name.now decls.now }
{
    for decl in decls {
        if decl.name.as_bytes() == name {
            return Some(decl);
        }
    }
    None
}

/// The method or the task of the program that has the name.
pub(crate) fn declaration_of<'a>(p: &'a Prog, name: &[u8]) -> Option<&'a Resolved>
    ensures { option_copied result ≡ declaration_of p.now name.now }
{
    match declared_as(name, p.methods.as_slice()) {
        Some(method) => Some(method),
        None => declared_as(name, p.tasks.as_slice()),
    }
}
