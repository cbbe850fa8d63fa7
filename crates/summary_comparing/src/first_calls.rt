//! Where the first of equal calls may stand. An answer is a hint, which its user compares with what stands there.

use prefix_tree::{Part, PrefixTree};
use region_paths::Elem;
use std::alloc::Global;
use twe_base::{List, Memory};

/// The numbers of the calls that were met first.
#[derive(Debug, Drop)]
pub(crate) struct FirstCalls {
    /// The methods with their arguments.
    calls: PrefixTree,
    /// The number of a call for each node of the tree.
    numbers: List<usize>,
}

/// An argument as a part of a path in the tree. What is no literal stands beyond the numbers of literals.
fn part_of(arg: Elem) -> Part {
    match arg {
        Elem::Name(name) => Part::Name(name),
        Elem::Index(literal) => Part::Index(i64::from(literal)),
        Elem::Var(variable) => Part::Index(0x1_0000_0000 + i64::from(variable)),
        Elem::AnyIndex => Part::Index(0x10_0000_0000),
    }
}

impl FirstCalls {
    /// No calls.
    pub(crate) fn new(alloc: Global) -> Result<Self, Memory> {
        Ok(FirstCalls {
            calls: PrefixTree::new(alloc)?,
            numbers: List::new(alloc),
        })
    }

    /// Where the first call of the method with these arguments may stand. If there is none, `number` is kept for it.
    pub(crate) fn first_number(
        &mut self,
        alloc: Global,
        method: u32,
        args: &[Elem],
        number: usize,
    ) -> Result<usize, Memory> {
        let mut parts = List::new(alloc);
        parts.push(Part::Index(i64::from(method)))?;
        for arg in args {
            parts.push(part_of(*arg))?;
        }
        let node = self.calls.add_path(parts.as_slice())? as usize;
        'keeping: while self.numbers.len() <= node {
            self.numbers.push(number)?;
        }
        Ok(self.numbers.get(node).copied().unwrap_or(number))
    }
}
