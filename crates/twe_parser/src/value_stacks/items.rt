//! The semantic actions that make declarations.
ghost use Rattle.std.specs.Prelude.{◌≡◌, OnOk};
ghost use Rattle.twe_parser.specs.declared.symbol.ItemAction.TheVariants as actions;
ghost use Rattle.twe_parser.specs.inner.ItemActions.{perform_item, with_item, with_cell, with_elem, with_cell_elem, shape_from, left_from, initial_of, decl_from, without_decl};
ghost use Rattle.twe_parser.specs.Values.{negative_of};
ghost use Rattle.twe_base.specs.Stacks.{top, below};
ghost use Rattle.twe_parser.specs.inner.ValueStacks.{nowhere};

use crate::symbol::{Access, CellKind, ItemAction};
use crate::value_stacks::exprs::value_of;
use crate::value_stacks::{ValueStacks, nameless, no_block, nowhere};
use std::alloc::Global;
use std::mem;
use twe_ast::{
    CellDecl, CellElem, CellElemKind, CellPath, CellShape, Clause, Decl, Initial, Item, Path,
    PathElem, PathElemKind, ReturnType,
};
use twe_base::{List, MAX_LITERAL, Memory};

/// The value of a literal after `-`, or -2147483648 if it is too large.
fn negative_of(number: u32) -> i32
    ensures { result ≡ negative_of number }
{
    if number > MAX_LITERAL {
        i32::MIN
    } else {
        -(number as i32)
    }
}

/// A written initial value.
fn initial_of(minus: bool, number: u32) -> Initial
    ensures { result ≡ initial_of minus number }
{
    let value = if minus {
        negative_of(number)
    } else {
        value_of(number)
    };
    Initial { minus, value }
}

impl ValueStacks {
    /// Performs a semantic action that makes a part of a declaration.
    pub(crate) fn perform_item(&mut self, alloc: Global, action: ItemAction) -> Result<(), Memory>
        ensures { OnOk result (self.new ≡ perform_item action self.old) }
    {
        match action {
            ItemAction::KeepName => self.keep_name(alloc),
            ItemAction::Regions => self.regions(alloc),
            ItemAction::CellElemName => self.cell_elem_name(alloc),
            ItemAction::CellElemIndex => self.cell_elem_index(),
            ItemAction::Cell(kind) => self.cell(alloc, kind),
            ItemAction::CellInitial(minus) => self.cell_initial(alloc, minus),
            ItemAction::ElemName => self.elem_name(alloc),
            ItemAction::ElemIndex => self.elem_index(),
            ItemAction::ElemVariable => self.elem_variable(alloc),
            ItemAction::ElemAny => self.push_elem(PathElemKind::AnyIndex),
            ItemAction::ElemStar => self.push_elem(PathElemKind::Star),
            ItemAction::KeepPath => self.keep_path(alloc),
            ItemAction::KeepClause(access) => self.keep_clause(alloc, access),
            ItemAction::Method(returns) => self.method(alloc, returns),
            ItemAction::Task(deterministic, returns) => self.task(alloc, deterministic, returns),
        }
    }

    fn keep_name(&mut self, alloc: Global) -> Result<(), Memory>
        ensures { OnOk result (self.new ≡ perform_item actions.KeepName self.old) }
    {
        let name = self.names.pop_or(nameless(alloc));
        self.listed.push(name)
    }

    fn regions(&mut self, alloc: Global) -> Result<(), Memory>
        ensures { OnOk result (self.new ≡ perform_item actions.Regions self.old) }
    {
        let names = mem::replace(&mut self.listed, List::new(alloc));
        self.items.push(Item::Regions(names))
    }

    fn cell_elem_name(&mut self, alloc: Global) -> Result<(), Memory>
        ensures { OnOk result (self.new ≡ perform_item actions.CellElemName self.old) }
    {
        let name = self.names.pop_or(nameless(alloc));
        self.cell_elems.push(CellElem {
            place: name.place,
            kind: CellElemKind::Name(name.text),
        })
    }

    fn cell_elem_index(&mut self) -> Result<(), Memory>
        ensures { OnOk result (self.new ≡ perform_item actions.CellElemIndex self.old) }
    {
        let kind = CellElemKind::Index(self.numbers.pop_or(0));
        let place = self.places.pop_or(nowhere());
        self.cell_elems.push(CellElem { kind, place })
    }

    /// The shape of cells of this kind, with the sizes from the stack of numbers.
    fn shape(&mut self, kind: CellKind) -> CellShape
        ensures shape { result ≡ shape_from kind self.old.numbers }
        ensures left { self.new ≡ record self.old { numbers = left_from kind self.old.numbers } }
    {
        match kind {
            CellKind::Scalar => CellShape::Scalar(None),
            CellKind::Array => CellShape::Array {
                length: self.numbers.pop_or(0),
            },
            CellKind::Grid => {
                let columns = self.numbers.pop_or(0);
                let rows = self.numbers.pop_or(0);
                CellShape::Grid { rows, columns }
            }
        }
    }

    fn push_cell(&mut self, alloc: Global, shape: CellShape) -> Result<(), Memory>
        ensures { OnOk result (self.new ≡ with_cell shape self.old) }
    {
        let name = self.names.pop_or(nameless(alloc));
        let elems = mem::replace(&mut self.cell_elems, List::new(alloc));
        let place = self.places.pop_or(nowhere());
        let path = CellPath { elems, place };
        self.items.push(Item::Cell(CellDecl { name, shape, path }))
    }

    fn cell(&mut self, alloc: Global, kind: CellKind) -> Result<(), Memory>
        ensures { OnOk result (self.new ≡ perform_item (actions.Cell kind) self.old) }
    {
        let shape = self.shape(kind);
        self.push_cell(alloc, shape)
    }

    fn cell_initial(&mut self, alloc: Global, minus: bool) -> Result<(), Memory>
        ensures { OnOk result (self.new ≡ perform_item (actions.CellInitial minus) self.old) }
    {
        let initial = initial_of(minus, self.numbers.pop_or(0));
        self.push_cell(alloc, CellShape::Scalar(Some(initial)))
    }

    fn elem_name(&mut self, alloc: Global) -> Result<(), Memory>
        ensures { OnOk result (self.new ≡ perform_item actions.ElemName self.old) }
    {
        let name = self.names.pop_or(nameless(alloc));
        self.elems.push(PathElem {
            place: name.place,
            kind: PathElemKind::Name(name.text),
        })
    }

    /// Appends an element to the path. Its place is the top one of the stack of places.
    fn push_elem(&mut self, kind: PathElemKind) -> Result<(), Memory>
        ensures { OnOk result (self.new ≡ with_elem (record { kind = kind; place = top self.old.places nowhere })
            (record self.old { places = below self.old.places })) }
    {
        let place = self.places.pop_or(nowhere());
        self.elems.push(PathElem { kind, place })
    }

    fn elem_index(&mut self) -> Result<(), Memory>
        ensures { OnOk result (self.new ≡ perform_item actions.ElemIndex self.old) }
    {
        let index = self.numbers.pop_or(0);
        self.push_elem(PathElemKind::Index(index))
    }

    fn elem_variable(&mut self, alloc: Global) -> Result<(), Memory>
        ensures { OnOk result (self.new ≡ perform_item actions.ElemVariable self.old) }
    {
        let name = self.names.pop_or(nameless(alloc));
        self.push_elem(PathElemKind::Variable(name))
    }

    fn keep_path(&mut self, alloc: Global) -> Result<(), Memory>
        ensures { OnOk result (self.new ≡ perform_item actions.KeepPath self.old) }
    {
        let elems = mem::replace(&mut self.elems, List::new(alloc));
        let place = self.places.pop_or(nowhere());
        self.paths.push(Path { elems, place })
    }

    fn keep_clause(&mut self, alloc: Global, access: Access) -> Result<(), Memory>
        ensures { OnOk result (self.new ≡ perform_item (actions.KeepClause access) self.old) }
    {
        let paths = mem::replace(&mut self.paths, List::new(alloc));
        let write = access.is_write();
        self.clauses.push(Clause { write, paths })
    }

    /// Removes the parts of a declaration of a method or a task, and returns the declaration.
    fn take_decl(&mut self, alloc: Global, returns: ReturnType) -> Decl
        ensures decl { result ≡ decl_from returns self.old }
        ensures left { self.new ≡ without_decl self.old }
    {
        Decl {
            returns,
            name: self.names.pop_or(nameless(alloc)),
            params: mem::replace(&mut self.listed, List::new(alloc)),
            effects: mem::replace(&mut self.clauses, List::new(alloc)),
            body: self.blocks.pop_or(no_block(alloc)),
        }
    }

    fn method(&mut self, alloc: Global, returns: ReturnType) -> Result<(), Memory>
        ensures { OnOk result (self.new ≡ perform_item (actions.Method returns) self.old) }
    {
        let decl = self.take_decl(alloc, returns);
        self.items.push(Item::Method(decl))
    }

    fn task(
        &mut self,
        alloc: Global,
        deterministic: bool,
        returns: ReturnType,
    ) -> Result<(), Memory>
        ensures { OnOk result (self.new ≡ perform_item (actions.Task deterministic returns) self.old) }
    {
        let decl = self.take_decl(alloc, returns);
        self.items.push(Item::Task {
            deterministic,
            decl,
        })
    }
}
