//! Declarations: regions, cells, methods and tasks.

use crate::name::Name;
use crate::path::{CellPath, Path};
use crate::stmt::Block;
use twe_base::{List, Place};

/// The tree of a whole text.
#[derive(Debug, Drop)]
pub struct Ast {
    /// The declarations, in the order of the text.
    pub items: List<Item>,
    /// The place after the last byte of the text.
    pub end: Place,
}

/// A declaration at the top of a program.
#[derive(Debug, Drop)]
pub enum Item {
    /// The declaration of regions, at least one.
    Regions(List<Name>),
    /// The declaration of a cell, an array or a grid.
    Cell(CellDecl),
    /// The declaration of a method.
    Method(Decl),
    /// The declaration of a task.
    Task {
        /// Whether `deterministic` stands before it.
        deterministic: bool,
        /// The declaration.
        decl: Decl,
    },
}

/// The declaration of a cell, an array or a grid.
#[derive(Debug, Drop)]
pub struct CellDecl {
    /// The name.
    pub name: Name,
    /// The number of cells, and their initial value.
    pub shape: CellShape,
    /// The path after `in`.
    pub path: CellPath,
}

/// The number of cells that a declaration makes, and their initial value.
#[derive(Debug, Drop)]
pub enum CellShape {
    /// One cell, and its written initial value, if there is one. Without one it is 0.
    Scalar(Option<Initial>),
    /// An array.
    Array {
        /// Its length, from 0 to 2147483647.
        length: u32,
    },
    /// A grid.
    Grid {
        /// The number of its rows, from 0 to 2147483647.
        rows: u32,
        /// The number of elements of a row, from 0 to 2147483647.
        columns: u32,
    },
}

/// A written initial value of a cell.
#[derive(Clone, Copy, Debug, PartialEq, Eq)]
pub struct Initial {
    /// Whether `-` stands before the literal, which may be 0.
    pub minus: bool,
    /// The value: the literal, or its negative after `-`.
    pub value: i32,
}

/// The declaration of a method or of a task.
#[derive(Debug, Drop)]
pub struct Decl {
    /// The type of its result.
    pub returns: ReturnType,
    /// The name.
    pub name: Name,
    /// The names of the parameters.
    pub params: List<Name>,
    /// The clauses of effects, in order; empty for `pure`.
    pub effects: List<Clause>,
    /// The body.
    pub body: Block,
}

/// The type of the result of a method or a task.
#[derive(Clone, Copy, Debug, PartialEq, Eq)]
pub enum ReturnType {
    /// `int`
    Int,
    /// `void`
    Void,
}

/// A clause of effects.
#[derive(Debug, Drop)]
pub struct Clause {
    /// Whether it is `writes` rather than `reads`.
    pub write: bool,
    /// The paths, at least one.
    pub paths: List<Path>,
}
