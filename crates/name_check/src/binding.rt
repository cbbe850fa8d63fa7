//! Bindings of names, and the ways in which a name is used.

use twe_ast::{LocalType, ReturnType};

/// The binding of a global name. Regions, declarations of cells, methods and tasks are each numbered from 0 in the order
/// of the text. Among regions `Console` is 0, and the declared ones begin with 1.
#[derive(Clone, Copy, Debug, PartialEq, Eq)]
pub enum Global {
    /// A region.
    Region(u32),
    /// A cell, an array or a grid.
    Cells {
        /// The number of the declaration among those of cells.
        number: u32,
        /// How many indexes it takes: 0, 1 or 2.
        indexes: u8,
    },
    /// A method.
    Method {
        /// Its number.
        number: u32,
        /// How many parameters it has.
        params: usize,
        /// What it returns.
        returns: ReturnType,
    },
    /// A task.
    Task {
        /// Its number.
        number: u32,
        /// How many parameters it has.
        params: usize,
        /// What it returns.
        returns: ReturnType,
    },
}

/// The binding of a name inside a declaration.
#[derive(Clone, Copy, Debug, PartialEq, Eq)]
pub enum Local {
    /// A parameter or a local.
    Variable {
        /// Its number: parameters from 0, and then the locals in the order of the text.
        number: u32,
        /// Its type, which is `int` for a parameter.
        local_type: LocalType,
        /// Whether it may not be assigned: it is a parameter, or `final`.
        constant: bool,
    },
    /// A future.
    Future {
        /// Its number: from 0 in the order of the text.
        number: u32,
        /// Whether its task is made by `spawn`, and not by `executeLater`.
        spawned: bool,
        /// Whether its task is one that returns nothing.
        void: bool,
    },
}

/// The binding of a name at a place.
#[derive(Clone, Copy, Debug, PartialEq, Eq)]
pub enum Binding {
    /// A parameter, a local or a future.
    Local(Local),
    /// A region, a declaration of cells, a method or a task.
    Global(Global),
}

/// How a name is used: what its use needs the name to be.
#[derive(Clone, Copy, Debug, PartialEq, Eq)]
pub enum NameUse {
    /// A region, in a path.
    Region,
    /// A parameter, as an index in the path of an effect.
    Parameter,
    /// A scalar cell, a parameter or a local, whose value is taken.
    Value,
    /// A scalar cell, a parameter or a local, to which a value is assigned.
    Target,
    /// An array with one index, or a grid with two.
    Array {
        /// How many indexes are given: 1 or 2.
        indexes: u8,
    },
    /// A method, which is called.
    Method {
        /// How many arguments are given.
        args: usize,
        /// Whether the call is part of an expression, which needs its value.
        valued: bool,
    },
    /// A task, which is made.
    Task {
        /// How many arguments are given.
        args: usize,
    },
    /// A future, which is waited for.
    Future {
        /// Whether by `join`, and not by `getValue`.
        join: bool,
        /// Whether its value is taken.
        valued: bool,
    },
}
