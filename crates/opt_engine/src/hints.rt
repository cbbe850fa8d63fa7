//! Words with the values of the cells, which drafts read without a lock.

use crate::touch::CellValue;
use std::alloc::Global;
use std::sync::atomic::{AtomicI32, Ordering};
use twe_base::{Ints, Memory};

/// A word for each cell, which any thread may read at any time. It has the value of the cell while nobody takes a move. No
/// clause says so: what a draft has read is compared with the cells when the draft is committed.
#[derive(Drop)]
pub struct Hints {
    words: Vec<AtomicI32>,
}

impl Hints {
    /// No words, for a run of which nobody makes drafts.
    pub fn none(alloc: Global) -> Self {
        Hints {
            words: Vec::new(alloc),
        }
    }

    /// A word for each of these cells, with its value.
    pub fn of(alloc: Global, cells: &Ints) -> Result<Self, Memory> {
        let mut words = Vec::with_capacity(alloc, cells.len())?;
        for value in cells.as_slice() {
            words.push(AtomicI32::new(*value))?;
        }
        Ok(Hints { words })
    }

    /// What the word of a cell has now; 0 if the cell has no word.
    pub fn load(&self, cell: u32) -> i32 {
        match self.words.get(cell as usize) {
            Some(word) => word.load(Ordering::SeqCst),
            None => 0,
        }
    }

    /// Gives the word of a cell this value, if the cell has a word.
    pub fn store(&self, cell: u32, value: i32) {
        if let Some(word) = self.words.get(cell as usize) {
            word.store(value, Ordering::SeqCst);
        }
    }

    /// Gives the words of written cells their values.
    pub fn store_all(&self, writes: &[CellValue]) {
        for w in writes {
            self.store(w.cell, w.value);
        }
    }
}
