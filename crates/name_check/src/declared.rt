//! Gathers the names that a text declares for the whole program.
ghost use Rattle.std.specs.Prelude.{◌≡◌, ◌+◌, ◌<◌, ◌^◌, ◌++◌, IfOk, OnOk, length};
ghost use Rattle.name_check.specs.Names.{declared_by, globals_of, indexes_of, past, regions_from};
ghost use Rattle.name_check.specs.Size.{IsCountable, size_of_item};
ghost use Rattle.name_check.specs.inner.Counts.{HaveRoom, before_of, method_of, task_of};

use crate::binding::Global;
use crate::names::Globals;
use std::alloc;
use twe_ast::{Ast, CellShape, Decl, Item, Name};
use twe_base::Memory;

/// The numbers of regions, declarations of cells, methods and tasks before an item. `Console` counts as a region.
#[derive(Debug, Drop)]
struct Counts {
    regions: u32,
    cells: u32,
    methods: u32,
    tasks: u32,
}

/// How many indexes a declaration of cells takes.
fn indexes(shape: &CellShape) -> u8
    ensures { result ≡ indexes_of shape.now }
{
    match shape {
        CellShape::Scalar(_) => 0,
        CellShape::Array { .. } => 1,
        CellShape::Grid { .. } => 2,
    }
}

/// Adds regions, which are numbered on.
fn add_regions(
    globals: &mut Globals,
    alloc: alloc::Global,
    names: &[Name],
    number: u32,
) -> Result<(), Memory>
    requires { number + length names.now < 2 ^ 32 }
    ensures { OnOk result (globals.new ≡ globals.old ++ regions_from number names.now) }
{
    let mut number = number;
    for name in names {
        globals.push(alloc, name, Global::Region(number))?;
        number += 1;
    }
    Ok(())
}

/// A method of this number.
fn method(decl: &Decl, number: u32) -> Global
    ensures { result ≡ method_of decl.now number }
{
    Global::Method {
        number,
        params: decl.params.len(),
        returns: decl.returns,
    }
}

/// A task of this number.
fn task(decl: &Decl, number: u32) -> Global
    ensures { result ≡ task_of decl.now number }
{
    Global::Task {
        number,
        params: decl.params.len(),
        returns: decl.returns,
    }
}

/// Adds what an item declares.
fn add_item(
    globals: &mut Globals,
    alloc: alloc::Global,
    item: &Item,
    counts: &mut Counts,
) -> Result<(), Memory>
    requires { HaveRoom (before_of counts.old) (size_of_item item.now) }
    ensures names { OnOk result (globals.new ≡ globals.old ++ declared_by (before_of counts.old) item.now) }
    ensures counts { OnOk result (before_of counts.new ≡ past (before_of counts.old) item.now) }
{
    match item {
        Item::Regions(names) => {
            add_regions(globals, alloc, names.as_slice(), counts.regions)?;
            counts.regions += names.len() as u32;
        }
        Item::Cell(cell) => {
            let global = Global::Cells {
                number: counts.cells,
                indexes: indexes(&cell.shape),
            };
            globals.push(alloc, &cell.name, global)?;
            counts.cells += 1;
        }
        Item::Method(decl) => {
            globals.push(alloc, &decl.name, method(decl, counts.methods))?;
            counts.methods += 1;
        }
        Item::Task { decl, .. } => {
            globals.push(alloc, &decl.name, task(decl, counts.tasks))?;
            counts.tasks += 1;
        }
    }
    Ok(())
}

impl Globals {
    /// The names that a text declares for the whole program.
    pub fn of(alloc: alloc::Global, ast: &Ast) -> Result<Self, Memory>
        requires { IsCountable ast.now }
        ensures { IfOk result (λ globals. globals ≡ globals_of ast.now) }
    {
        let mut globals = Globals::new(alloc);
        let mut counts = Counts {
            regions: 1,
            cells: 0,
            methods: 0,
            tasks: 0,
        };
        for item in ast.items.as_slice() {
            add_item(&mut globals, alloc, item, &mut counts)?;
        }
        Ok(globals)
    }
}
