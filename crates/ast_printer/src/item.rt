//! Declarations.
#![tactic(auto, using(crate::proofs::Texts::append_text, std::proofs::lemmas::Grind::common_steps))]

ghost use Rattle.std.specs.Prelude.{◌≡◌, [], ◌∷◌, ◌++◌, false, OnOk};
ghost use Rattle.twe_lexer.specs.declared.fixed.Fixed.TheVariants as fixed;
ghost use Rattle.twe_lexer.specs.declared.token.TokenKind.TheVariants as kinds;
ghost use Rattle.ast_printer.specs.Text.{text_of};
ghost use Rattle.ast_printer.specs.ItemTokens.{cell_tokens, clause_tokens, clauses_tokens, decl_tokens, effects_tokens, initial_tokens, item_tokens, items_tokens, names_tokens, params_tokens, paths_tokens, size_tokens, start_tokens};
ghost use Rattle.twe_parser.specs.Writes.{clause_word, return_word};

use crate::list::{Piece, push_list};
use crate::path::{push_bracketed, push_cell_path, push_path};
use crate::stmt::push_block;
use crate::token::{push_fixed, push_name, push_number, push_when};
use twe_ast::{CellDecl, CellShape, Clause, Decl, Initial, Item, Name, Path, ReturnType};
use twe_base::{Bytes, Memory};
use twe_lexer::Fixed;

/// The keyword of a clause.
fn clause_word(write: bool) -> Fixed
    ensures { result ≡ clause_word write }
{
    if write { Fixed::Writes } else { Fixed::Reads }
}

/// The keyword of the type of the result.
fn return_word(returns: ReturnType) -> Fixed
    ensures { result ≡ return_word returns }
{
    match returns {
        ReturnType::Int => Fixed::Int,
        ReturnType::Void => Fixed::Void,
    }
}

impl Piece for Name {
    ghost use Rattle.std.specs.Prelude.{[], ◌∷◌};
    ghost use Rattle.twe_lexer.specs.declared.token.TokenKind.TheVariants as kinds;

    ghost tokens = { λ name. kinds.Name name.text ∷ [] };

    fn write(&self, text: &mut Bytes) -> Result<(), Memory> {
        push_name(text, self)
    }
}

impl Piece for Path {
    ghost use Rattle.ast_printer.specs.PathTokens.{path_tokens};

    ghost tokens = { path_tokens };

    fn write(&self, text: &mut Bytes) -> Result<(), Memory> {
        push_path(text, self)
    }
}

/// Writes names, with `,` between them.
fn push_names(text: &mut Bytes, names: &[Name]) -> Result<(), Memory>
    ensures { OnOk result (text.new ≡ text.old ++ text_of (names_tokens false names.now)) }
{
    push_list(text, names, Fixed::Comma, false)
}

/// Writes the sizes of an array or a grid, and nothing for a single cell.
fn push_size(text: &mut Bytes, shape: &CellShape) -> Result<(), Memory>
    ensures { OnOk result (text.new ≡ text.old ++ text_of (size_tokens shape.now)) }
{
    match shape {
        CellShape::Scalar(_) => Ok(()),
        CellShape::Array { length } => push_bracketed(text, *length),
        CellShape::Grid { rows, columns } => {
            push_bracketed(text, *rows)?;
            push_bracketed(text, *columns)
        }
    }
}

/// Writes an initial value with its sign, if one is written.
fn push_initial(text: &mut Bytes, start: Option<Initial>) -> Result<(), Memory>
    ensures { OnOk result (text.new ≡ text.old ++ text_of (initial_tokens start)) }
{
    match start {
        None => Ok(()),
        Some(start) => {
            push_fixed(text, Fixed::Assign)?;
            push_when(text, start.minus, Fixed::Minus)?;
            push_number(text, start.value.unsigned_abs())
        }
    }
}

/// Writes the initial value of a cell, if the tree has one.
fn push_start(text: &mut Bytes, shape: &CellShape) -> Result<(), Memory>
    ensures { OnOk result (text.new ≡ text.old ++ text_of (start_tokens shape.now)) }
{
    match shape {
        CellShape::Scalar(start) => push_initial(text, *start),
        CellShape::Array { .. } | CellShape::Grid { .. } => Ok(()),
    }
}

/// Writes the declaration of a cell, an array or a grid.
fn push_cell(text: &mut Bytes, cell: &CellDecl) -> Result<(), Memory>
    ensures { OnOk result (text.new ≡ text.old ++ text_of (cell_tokens cell.now)) }
{
    push_fixed(text, Fixed::Int)?;
    push_name(text, &cell.name)?;
    push_size(text, &cell.shape)?;
    push_fixed(text, Fixed::In)?;
    push_cell_path(text, &cell.path)?;
    push_start(text, &cell.shape)?;
    push_fixed(text, Fixed::Semicolon)
}

/// Writes parameters in parentheses.
fn push_params(text: &mut Bytes, params: &[Name]) -> Result<(), Memory>
    ensures { OnOk result (text.new ≡ text.old
        ++ text_of (kinds.Fixed fixed.OpenParen ∷ (params_tokens false params.now ++ kinds.Fixed fixed.CloseParen ∷ []))) }
{
    push_fixed(text, Fixed::OpenParen)?;
    push_more_params(text, params)?;
    push_fixed(text, Fixed::CloseParen)
}

/// Writes parameters, with `,` between them.
fn push_more_params(text: &mut Bytes, params: &[Name]) -> Result<(), Memory>
    ensures { OnOk result (text.new ≡ text.old ++ text_of (params_tokens false params.now)) }
{
    let mut later = false;
    for param in params {
        push_when(text, later, Fixed::Comma)?;
        push_fixed(text, Fixed::Int)?;
        push_name(text, param)?;
        later = true;
    }
    Ok(())
}

/// Writes paths, with `,` between them.
fn push_paths(text: &mut Bytes, paths: &[Path]) -> Result<(), Memory>
    ensures { OnOk result (text.new ≡ text.old ++ text_of (paths_tokens false paths.now)) }
{
    push_list(text, paths, Fixed::Comma, false)
}

/// Writes a clause of effects.
fn push_clause(text: &mut Bytes, clause: &Clause) -> Result<(), Memory>
    ensures { OnOk result (text.new ≡ text.old ++ text_of (clause_tokens clause.now)) }
{
    push_fixed(text, clause_word(clause.write))?;
    push_paths(text, clause.paths.as_slice())
}

/// Writes clauses of effects.
fn push_clauses(text: &mut Bytes, clauses: &[Clause]) -> Result<(), Memory>
    ensures { OnOk result (text.new ≡ text.old ++ text_of (clauses_tokens clauses.now)) }
{
    for clause in clauses {
        push_clause(text, clause)?;
    }
    Ok(())
}

/// Writes the clauses of effects, or `pure` if there are none.
fn push_effects(text: &mut Bytes, effects: &[Clause]) -> Result<(), Memory>
    ensures { OnOk result (text.new ≡ text.old ++ text_of (effects_tokens effects.now)) }
{
    if effects.is_empty() {
        push_fixed(text, Fixed::Pure)
    } else {
        push_clauses(text, effects)
    }
}

/// Writes the declaration of a method, or of a task without the keyword `task`.
fn push_decl(text: &mut Bytes, decl: &Decl) -> Result<(), Memory>
    ensures { OnOk result (text.new ≡ text.old ++ text_of (decl_tokens decl.now)) }
{
    push_fixed(text, return_word(decl.returns))?;
    push_name(text, &decl.name)?;
    push_params(text, decl.params.as_slice())?;
    push_effects(text, decl.effects.as_slice())?;
    push_fixed(text, Fixed::OpenBrace)?;
    push_block(&decl.body, text)
}

/// Writes a declaration.
fn push_item(text: &mut Bytes, item: &Item) -> Result<(), Memory>
    ensures { OnOk result (text.new ≡ text.old ++ text_of (item_tokens item.now)) }
{
    match item {
        Item::Regions(names) => {
            push_fixed(text, Fixed::Region)?;
            push_names(text, names.as_slice())?;
            push_fixed(text, Fixed::Semicolon)
        }
        Item::Cell(cell) => push_cell(text, cell),
        Item::Method(decl) => push_decl(text, decl),
        Item::Task {
            deterministic,
            decl,
        } => {
            push_when(text, *deterministic, Fixed::Deterministic)?;
            push_fixed(text, Fixed::Task)?;
            push_decl(text, decl)
        }
    }
}

/// Writes declarations in order.
pub(crate) fn push_items(text: &mut Bytes, items: &[Item]) -> Result<(), Memory>
    ensures { OnOk result (text.new ≡ text.old ++ text_of (items_tokens items.now)) }
{
    for item in items {
        push_item(text, item)?;
    }
    Ok(())
}
