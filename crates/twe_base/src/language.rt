//! The limits of the language: how large a text and its parts may be.

/// The largest size of a program text, in bytes.
pub const MAX_TEXT_BYTES: usize = 1_048_576;

/// The largest integer literal. The number after it may stand only directly after a unary minus.
pub const MAX_LITERAL: u32 = 2_147_483_647;

/// The largest number of brackets of all kinds that are open at once.
pub const MAX_OPEN_BRACKETS: usize = 200;

/// The largest number of operators in a statement.
pub const MAX_OPERATORS: usize = 200;

/// The largest number of cells, including the elements of arrays and grids.
pub const MAX_CELLS: u32 = 65_536;

/// The largest number of nodes of the tree of regions: `Root`, `Console`, and each prefix of a cell's path.
pub const MAX_NODES: u32 = 131_072;

/// The largest number of elements of a written path, including `*`.
pub const MAX_PATH_ELEMENTS: usize = 32;

/// The largest number of effects in a declaration.
pub const MAX_EFFECTS: usize = 8;

/// The largest number of parameters of a declaration.
pub const MAX_PARAMETERS: usize = 4;

/// The largest number of method calls that are active in one task at once.
pub const MAX_ACTIVE_CALLS: u32 = 1_000;
