//! A stop at a task operation, held by one pointer, so that what has one stays small.
ghost use Rattle.std.specs.Prelude.{◌≡◌, ◌∷◌, IfOk, OnOk};

use crate::steps::continuation::Suspension;
use seg_meaning::Position;
use std::alloc::Global;
use std::marker::Model;
use twe_base::Memory;

/// A stop at a task operation on the heap. Contracts see the stop.
#[derive(Debug, Drop)]
pub(crate) struct Held {
    stop: Box<Suspension>,
}

impl Model for Held {
    ghost use Rattle.seg_exec.specs.declared.steps.continuation.Suspension.{Suspension};

    ghost Value = { Suspension };

    ghost view = { λ held. held.stop.value };
}

impl Held {
    /// Puts a stop on the heap.
    pub(crate) fn new(alloc: Global, stop: Suspension) -> Result<Self, Memory>
        ensures { IfOk result (λ held. held ≡ stop) }
    {
        let stop = Box::new(alloc, stop)?;
        Ok(Held { stop })
    }

    /// Puts the position of a block that is closed on top of those before it.
    pub(crate) fn close(&mut self, position: Position) -> Result<(), Memory>
        ensures { OnOk result (self.new ≡ record self.old { positions = position ∷ self.old.positions }) }
    {
        self.stop.positions.push(position)
    }

    /// Takes the stop from the heap.
    pub(crate) fn into_inner(self) -> Suspension
        ensures { result ≡ self }
    {
        Box::into_inner(self.stop)
    }
}
