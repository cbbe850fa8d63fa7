//! What is written of a cell: its path.
ghost use Rattle.std.specs.Fmt.{signed_decimal};
ghost use Rattle.std.specs.Prelude.{◌≡◌, ◌++◌, ◌-◌, ◌+◌, ◌/◌, ◌%◌, ℕ, List, [], pos, IfNone, IfSome, OnOk, codes, map, nat_lt};
ghost use Rattle.isolation_laws.specs.soundness.CellPaths.{concrete, indexes_at, path_among, path_within};
ghost use Rattle.region_paths.specs.Concrete.{number};
ghost use Rattle.run_texts.specs.CellTexts.{cell_text, concrete_text, first_part, more_parts, next_part, path_part_text};
ghost use Rattle.twe_frontend.specs.meaning.PathTexts.{in_brackets, name_at_number};
ghost use Rattle.twe_program.specs.Program.{size_of};

use itoa::Buffer;
use region_paths::Elem;
use twe_base::{Bytes, Memory, Word};
use twe_program::{CellDecl, Dims, Prog};

/// Appends the name of the region of this number.
fn push_region(text: &mut Bytes, regions: &[Word], number: u32) -> Result<(), Memory>
    ensures { OnOk result (text.new ≡ text.old ++ name_at_number regions.now number) }
{
    match regions.get(number as usize) {
        None => Ok(()),
        Some(name) => text.push_all(name.as_bytes()),
    }
}

/// Appends a literal index.
fn push_literal(text: &mut Bytes, index: i32) -> Result<(), Memory>
    ensures { OnOk result (text.new ≡ text.old ++ in_brackets (signed_decimal index)) }
{
    text.push_all(b"[")?;
    text.push_all(Buffer::new().format(index).as_bytes())?;
    text.push_all(b"]")
}

/// Appends `:` and the index of an element.
fn push_index(text: &mut Bytes, index: u64) -> Result<(), Memory>
    ensures { OnOk result (text.new ≡ text.old ++ next_part [] (number (pos index))) }
{
    text.push_all(b":")?;
    text.push_all(b"[")?;
    text.push_all(Buffer::new().format(index).as_bytes())?;
    text.push_all(b"]")
}

/// Appends an element of the path of a declaration.
fn push_part(text: &mut Bytes, regions: &[Word], elem: Elem) -> Result<(), Memory>
    ensures { OnOk result (text.new ≡ text.old ++ path_part_text regions.now (concrete elem)) }
{
    match elem {
        Elem::Name(region) => push_region(text, regions, region),
        Elem::Index(index) => push_literal(text, index),
        Elem::Var(_) => push_literal(text, 0),
        Elem::AnyIndex => push_literal(text, 0),
    }
}

/// Appends `:` and an element of the path of a declaration.
fn push_next_part(text: &mut Bytes, regions: &[Word], elem: Elem) -> Result<(), Memory>
    ensures { OnOk result (text.new ≡ text.old ++ next_part regions.now (concrete elem)) }
{
    text.push_all(b":")?;
    push_part(text, regions, elem)
}

/// Appends `Root:` and an element of the path of a declaration.
fn push_below_root(text: &mut Bytes, regions: &[Word], elem: Elem) -> Result<(), Memory>
    ensures { OnOk result (text.new ≡ text.old ++ (codes "Root" ++ next_part regions.now (concrete elem))) }
{
    text.push_all(b"Root")?;
    push_next_part(text, regions, elem)
}

/// Appends elements of the path of a declaration, each after `:`.
fn push_parts(text: &mut Bytes, regions: &[Word], elems: &[Elem]) -> Result<(), Memory>
    ensures { OnOk result (text.new ≡ text.old ++ more_parts regions.now (map concrete elems.now)) }
{
    for elem in elems {
        push_next_part(text, regions, *elem)?;
    }
    Ok(())
}

/// Appends the first element of the path of a declaration, or `Root` and the element, if it is no region.
fn push_first_part(text: &mut Bytes, regions: &[Word], elem: Elem) -> Result<(), Memory>
    ensures { OnOk result (text.new ≡ text.old ++ first_part regions.now (concrete elem)) }
{
    match elem {
        Elem::Name(region) => push_region(text, regions, region),
        Elem::Index(_) => push_below_root(text, regions, elem),
        Elem::Var(_) => push_below_root(text, regions, elem),
        Elem::AnyIndex => push_below_root(text, regions, elem),
    }
}

/// Appends the path of a declaration.
fn push_declared(text: &mut Bytes, regions: &[Word], elems: &[Elem]) -> Result<(), Memory>
    ensures { OnOk result (text.new ≡ text.old ++ concrete_text regions.now (map concrete elems.now)) }
{
    let Some((first, others)) = elems.split_first() else {
        return text.push_all(b"Root");
    };
    push_first_part(text, regions, *first)?;
    push_parts(text, regions, others)
}

/// The row of the element at a place of a grid with so many columns.
fn row_at(place: u64, columns: u64) -> u64
    ensures { result ≡ place / columns }
{
    if columns == 0 { 0 } else { place / columns }
}

/// Its column.
fn column_at(place: u64, columns: u64) -> u64
    ensures { result ≡ place % columns }
{
    if columns == 0 { place } else { place % columns }
}

/// Appends the indexes of the element at a place of a declaration, each after `:`.
fn push_indexes(text: &mut Bytes, dims: Dims, place: u64) -> Result<(), Memory>
    ensures { OnOk result (text.new ≡ text.old ++ more_parts [] (indexes_at dims place)) }
{
    match dims {
        Dims::Scalar => Ok(()),
        Dims::Row(_) => push_index(text, place),
        Dims::Grid { cols, .. } => {
            let columns = u64::from(cols);
            push_index(text, row_at(place, columns))?;
            push_index(text, column_at(place, columns))
        }
    }
}

/// Appends the path of a cell of a declaration.
#[tactic(auto, using(crate::proofs::WithinTexts::within_text))]
fn push_within(text: &mut Bytes, regions: &[Word], decl: &CellDecl, cell: u32) -> Result<(), Memory>
    ensures { OnOk result (text.new ≡ text.old ++ concrete_text regions.now (path_within decl.now cell)) }
{
    push_declared(text, regions, decl.path.elems().as_slice())?;
    push_indexes(text, decl.dims, u64::from(cell.saturating_sub(decl.first)))
}

/// Whether a declaration ends after the cell.
fn ends_after(decl: &CellDecl, cell: u32) -> bool
    ensures { result ≡ nat_lt cell (decl.now.first + size_of decl.now.dims) }
{
    cell < decl.first || u64::from(cell - decl.first) < decl.dims.size()
}

/// The first of the declarations that ends after the cell, if one does.
fn decl_of(cells: &[CellDecl], cell: u32) -> Option<&CellDecl>
    ensures none { IfNone result (path_among cells.now cell ≡ []) }
    ensures some { IfSome result (λ decl. path_among cells.now cell ≡ path_within decl.now cell) }
{
    for decl in cells {
        if ends_after(decl, cell) {
            return Some(decl);
        }
    }
    None
}

/// Appends the path of the cell of this number, as `Total:[2]`.
pub fn push_cell_path(text: &mut Bytes, p: &Prog, cell: u32) -> Result<(), Memory>
    ensures { OnOk result (text.new ≡ text.old ++ cell_text p.now cell) }
{
    match decl_of(p.cells.as_slice(), cell) {
        None => text.push_all(b"Root"),
        Some(decl) => push_within(text, p.regions.as_slice(), decl, cell),
    }
}
