//! The names in the paths of cells, numbered in the order of their first occurrence, so that paths are compared by numbers.
ghost use Rattle.std.specs.Prelude.{◌≡◌, List, ℕ, [], ◌∷◌, ◌++◌, None, bytes_eq, position, codes, Contains, IfOk, OnOk};
ghost use Rattle.std.specs.List.{All};
ghost use Rattle.name_check.specs.cell_limits.GoesOver.{cells_of_item, cells_of};
ghost use Rattle.name_check.specs.cell_limits.Nodes.{written_path};
ghost use Rattle.name_check.specs.cell_limits.inner.Parts.{number_of, part_of, IsKnown, Keeps};

use prefix_tree::Part;
use std::alloc::Global;
use std::collections::BTreeMap;
use std::marker::Model;
use twe_ast::{CellElem, CellElemKind, Item};
use twe_base::{Memory, Word};

/// Names in their order. The number of a name is its place among them, counted from 0. Contracts see the list of the
/// names.
#[derive(Debug, Drop)]
pub(crate) struct Names {
    words: Vec<Word>,
    numbers: BTreeMap<String, u32>,
}

impl Model for Names {
    ghost use Rattle.std.specs.Prelude.{List, ℕ};
    ghost use Rattle.name_check.specs.cell_limits.inner.Numbering.{IsNumbering};

    ghost Value = { List (List ℕ) };

    ghost view = { λ names. names.words.items };

    ghost invariant = { λ names. IsNumbering names.words.items names.numbers };
}

impl Names {
    /// No names. It takes no memory.
    fn new(alloc: Global) -> Self
        ensures { result ≡ [] }
    {
        Names {
            words: Vec::new(alloc),
            numbers: BTreeMap::new(alloc),
        }
    }

    /// `Console`, and the names in the paths of all cells that the items declare.
    pub fn of_items(alloc: Global, items: &[Item]) -> Result<Self, Memory>
        ensures console { IfOk result (λ names. Contains names (codes "Console")) }
        ensures cells { IfOk result (λ names. All (λ cell. All (IsKnown names) (written_path cell)) (cells_of items.now)) }
    {
        let mut names = Names::new(alloc);
        names.add(alloc, &Word::from_text(alloc, "Console")?)?;
        for item in items {
            names.add_item(alloc, item)?;
        }
        Ok(names)
    }

    /// Adds the names in the path of an item that declares cells.
    fn add_item(&mut self, alloc: Global, item: &Item) -> Result<(), Memory>
        ensures known { OnOk result (All (λ cell. All (IsKnown self.new) (written_path cell)) (cells_of_item item.now)) }
        ensures keeps { OnOk result (Keeps self.old self.new) }
    {
        if let Item::Cell(cell) = item {
            self.add_all(alloc, cell.path.elems.as_slice())?;
        }
        Ok(())
    }

    /// Adds the names of a path that aren't there yet.
    fn add_all(&mut self, alloc: Global, elems: &[CellElem]) -> Result<(), Memory>
        ensures known { OnOk result (All (λ (elem : CellElem). IsKnown self.new elem.kind) elems.now) }
        ensures keeps { OnOk result (Keeps self.old self.new) }
    {
        for elem in elems {
            self.add_kind(alloc, &elem.kind)?;
        }
        Ok(())
    }

    /// Adds an element of a path if it is a name.
    fn add_kind(&mut self, alloc: Global, kind: &CellElemKind) -> Result<(), Memory>
        ensures known { OnOk result (IsKnown self.new kind.now) }
        ensures keeps { OnOk result (Keeps self.old self.new) }
    {
        if let CellElemKind::Name(name) = kind {
            self.add(alloc, name)?;
        }
        Ok(())
    }

    /// Adds a name if it isn't there yet.
    fn add(&mut self, alloc: Global, name: &Word) -> Result<(), Memory>
        ensures known { OnOk result (Contains self.new name.now) }
        ensures keeps { OnOk result (Keeps self.old self.new) }
    {
        if self.find(name).is_none() {
            self.push(alloc, name)?;
        }
        Ok(())
    }

    /// The number of a name, if it is there.
    fn find(&self, name: &Word) -> Option<u32>
        ensures { result ≡ position (bytes_eq name.now) self.now }
    {
        self.numbers.get(name.as_str()).copied()
    }

    /// Appends a name that isn't there yet.
    fn push(&mut self, alloc: Global, name: &Word) -> Result<(), Memory>
        requires { position (bytes_eq name.now) self.old ≡ None }
        ensures { OnOk result (self.new ≡ self.old ++ name.now ∷ []) }
    {
        if self.words.len() > u32::MAX as usize {
            return Err(Memory::of_uncountable(self.words.as_slice()));
        }
        let number = self.words.len() as u32;
        let word = name.copy(alloc)?;
        let key = name.copy(alloc)?.into_string();
        self.words.reserve(1)?;
        self.numbers.insert(key, number)?;
        self.words.push(word).unwrap();
        Ok(())
    }

    /// The number of a name, or 0 if it isn't there.
    fn number(&self, name: &Word) -> u32
        ensures { result ≡ number_of self.now name.now }
    {
        self.find(name).unwrap_or(0)
    }

    /// An element of a path as a part, by the numbers of the names.
    pub fn part(&self, kind: &CellElemKind) -> Part
        ensures { result ≡ part_of self.now kind.now }
    {
        match kind {
            CellElemKind::Name(name) => Part::Name(self.number(name)),
            CellElemKind::Index(index) => Part::Index(i64::from(*index)),
        }
    }
}
