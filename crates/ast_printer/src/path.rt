//! Paths, with `Root` only if the first element is not a name.
#![tactic(auto, using(crate::proofs::Texts::append_text, std::proofs::lemmas::Grind::common_steps))]

ghost use Rattle.std.specs.Prelude.{◌≡◌, [], ◌∷◌, ◌++◌, OnOk};
ghost use Rattle.twe_lexer.specs.declared.token.TokenKind.TheVariants as kinds;
ghost use Rattle.ast_printer.specs.Text.{text_of};
ghost use Rattle.ast_printer.specs.PathTokens.{bracketed, cell_elem_tokens, cell_elems_tokens, cell_needs_root, cell_path_tokens, elem_tokens, elems_tokens, needs_root, path_tokens};

use crate::list::{Piece, push_list};
use crate::token::{push_fixed, push_name, push_number, push_text, push_when};
use twe_ast::{CellElem, CellElemKind, CellPath, Path, PathElem, PathElemKind};
use twe_base::{Bytes, Memory};
use twe_lexer::Fixed;

/// Writes a number in brackets.
pub(crate) fn push_bracketed(text: &mut Bytes, number: u32) -> Result<(), Memory>
    ensures { OnOk result (text.new ≡ text.old ++ text_of (bracketed (kinds.Literal number))) }
{
    push_fixed(text, Fixed::OpenBracket)?;
    push_number(text, number)?;
    push_fixed(text, Fixed::CloseBracket)
}

/// Writes an element of a path.
fn push_elem(text: &mut Bytes, kind: &PathElemKind) -> Result<(), Memory>
    ensures { OnOk result (text.new ≡ text.old ++ text_of (elem_tokens kind.now)) }
{
    match kind {
        PathElemKind::Name(name) => push_text(text, name.as_bytes()),
        PathElemKind::Index(index) => push_bracketed(text, *index),
        PathElemKind::Variable(name) => {
            push_fixed(text, Fixed::OpenBracket)?;
            push_name(text, name)?;
            push_fixed(text, Fixed::CloseBracket)
        }
        PathElemKind::AnyIndex => {
            push_fixed(text, Fixed::OpenBracket)?;
            push_fixed(text, Fixed::Question)?;
            push_fixed(text, Fixed::CloseBracket)
        }
        PathElemKind::Star => push_fixed(text, Fixed::Star),
    }
}

/// Writes an element of the path of a cell.
fn push_cell_elem(text: &mut Bytes, kind: &CellElemKind) -> Result<(), Memory>
    ensures { OnOk result (text.new ≡ text.old ++ text_of (cell_elem_tokens kind.now)) }
{
    match kind {
        CellElemKind::Name(name) => push_text(text, name.as_bytes()),
        CellElemKind::Index(index) => push_bracketed(text, *index),
    }
}

impl Piece for PathElem {
    ghost use Rattle.ast_printer.specs.PathTokens.{elem_tokens};

    ghost tokens = { λ elem. elem_tokens elem.kind };

    fn write(&self, text: &mut Bytes) -> Result<(), Memory> {
        push_elem(text, &self.kind)
    }
}

impl Piece for CellElem {
    ghost use Rattle.ast_printer.specs.PathTokens.{cell_elem_tokens};

    ghost tokens = { λ elem. cell_elem_tokens elem.kind };

    fn write(&self, text: &mut Bytes) -> Result<(), Memory> {
        push_cell_elem(text, &self.kind)
    }
}

/// Whether a path of these elements is printed with `Root`.
fn needs_root(elems: &[PathElem]) -> bool
    ensures { result ≡ needs_root elems.now }
{
    match elems.first() {
        None => true,
        Some(first) => !matches!(&first.kind, PathElemKind::Name(_)),
    }
}

/// Whether the path of a cell of these elements is printed with `Root`.
fn cell_needs_root(elems: &[CellElem]) -> bool
    ensures { result ≡ cell_needs_root elems.now }
{
    match elems.first() {
        None => true,
        Some(first) => !matches!(&first.kind, CellElemKind::Name(_)),
    }
}

/// Writes elements of a path. `rooted` is whether something comes before them in the path.
fn push_elems(text: &mut Bytes, elems: &[PathElem], rooted: bool) -> Result<(), Memory>
    ensures { OnOk result (text.new ≡ text.old ++ text_of (elems_tokens rooted elems.now)) }
{
    push_list(text, elems, Fixed::Colon, rooted)
}

/// Writes elements of the path of a cell. `rooted` is whether something comes before them in the path.
fn push_cell_elems(text: &mut Bytes, elems: &[CellElem], rooted: bool) -> Result<(), Memory>
    ensures { OnOk result (text.new ≡ text.old ++ text_of (cell_elems_tokens rooted elems.now)) }
{
    push_list(text, elems, Fixed::Colon, rooted)
}

/// Writes a path in a clause of effects.
pub(crate) fn push_path(text: &mut Bytes, path: &Path) -> Result<(), Memory>
    ensures { OnOk result (text.new ≡ text.old ++ text_of (path_tokens path.now)) }
{
    let elems = path.elems.as_slice();
    let rooted = needs_root(elems);
    push_when(text, rooted, Fixed::Root)?;
    push_elems(text, elems, rooted)
}

/// Writes the path of a cell.
pub(crate) fn push_cell_path(text: &mut Bytes, path: &CellPath) -> Result<(), Memory>
    ensures { OnOk result (text.new ≡ text.old ++ text_of (cell_path_tokens path.now)) }
{
    let elems = path.elems.as_slice();
    let rooted = cell_needs_root(elems);
    push_when(text, rooted, Fixed::Root)?;
    push_cell_elems(text, elems, rooted)
}
