//! A resolved program and its declarations.

use crate::stmt::Block;
use effect_sets::Summary;
use region_paths::Path;
use std::marker::Model;
use twe_base::{List, Place, Word};

/// How many cells a declaration makes, and how many indexes they take.
#[derive(Clone, Copy, Debug, PartialEq, Eq)]
pub enum Dims {
    /// One cell, which takes no index.
    Scalar,
    /// An array with this many elements.
    Row(u32),
    /// A grid. Its elements are numbered row by row.
    Grid {
        /// The number of rows.
        rows: u32,
        /// The number of elements in a row.
        cols: u32,
    },
}

impl Dims {
    ghost use Rattle.std.specs.Prelude.{◌≡◌};
    ghost use Rattle.twe_program.specs.Program.{size_of};

    /// The number of cells that the declaration makes.
    pub fn size(self) -> u64
        ensures { result ≡ size_of self }
    {
        match self {
            Dims::Scalar => 1,
            Dims::Row(count) => u64::from(count),
            Dims::Grid { rows, cols } => u64::from(rows) * u64::from(cols),
        }
    }
}

/// The declaration of a cell, an array or a grid.
#[derive(Debug, Drop)]
pub struct CellDecl {
    /// The name.
    pub name: Word,
    /// The path of the cell. The path of element i of an array is this path followed by `[i]`, and that of element
    /// (i, j) of a grid is this path followed by `[i]:[j]`.
    pub path: Path,
    /// How many cells it makes, and how many indexes they take.
    pub dims: Dims,
    /// The number of its first cell. Cells are numbered from 0 in the order of their declarations.
    pub first: u32,
    /// The initial value of each of its cells.
    pub init: i32,
    /// The place of the name.
    pub place: Place,
}

/// The body of a declaration.
#[derive(Debug, Drop)]
pub struct Body {
    /// The statements.
    pub block: Block,
    /// The number of variables: parameters and locals together.
    pub vars: u32,
    /// The number of futures.
    pub futures: u32,
    /// The number of points: one before each statement, and one at the end.
    pub points: u32,
    /// The place of the closing brace.
    pub close: Place,
}

/// A task or a method.
#[derive(Debug, Drop)]
pub struct Decl {
    /// The name.
    pub name: Word,
    /// The number of parameters.
    pub params: u32,
    /// Whether it returns an `int`. If not, it returns nothing.
    pub int: bool,
    /// Whether it is declared `deterministic`.
    pub deterministic: bool,
    /// The effects that it declares.
    pub summary: Summary,
    /// The body.
    pub body: Body,
    /// The place of the name.
    pub place: Place,
}

/// A program. `Console` is region 0, and the declared regions follow in the order of the text. The declarations of
/// cells, of methods and of tasks are each numbered from 0 in the order of the text. Contracts see a `Program`. The
/// type keeps the invariant `IsWellFormed`.
#[derive(Debug, Drop)]
pub struct Prog {
    /// The names of the regions, `Console` first.
    pub regions: List<Word>,
    /// The cells, arrays and grids.
    pub cells: List<CellDecl>,
    /// The methods.
    pub methods: List<Decl>,
    /// The tasks.
    pub tasks: List<Decl>,
    /// The number of the task `main`.
    pub main: u32,
}

impl Model for Prog {
    ghost use Rattle.twe_program.specs.Program.{Program};
    ghost use Rattle.twe_program.specs.WellFormed.{IsWellFormed};

    ghost Value = { Program };

    ghost use Rattle.std.specs.Coded.{codes};
    ghost use Rattle.twe_program.specs.contracts.program.CellDecl as cell;
    ghost use Rattle.twe_program.specs.contracts.program.Decl as decl;

    ghost coded = { Prim.hlevel (codes, cell.the_row.coded, decl.the_row.coded) };

    ghost view = { λ p. record { regions = p.regions; cells = p.cells; methods = p.methods; tasks = p.tasks; main = p.main } };

    ghost invariant = { λ p. IsWellFormed (record {
      regions = p.regions;
      cells = p.cells;
      methods = p.methods;
      tasks = p.tasks;
      main = p.main;
    }) };
}
