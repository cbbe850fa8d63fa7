//! The bytes that a stream has carried, which only proofs see. They take no memory, and nothing is done for them at run time.
ghost use Rattle.std.specs.Prelude.{◌≡◌, ℕ, List, [], ◌++◌};
ghost use Rattle.std.specs.Borrow.{ftrue};

use std::marker::Model;

/// The bytes that went through a stream so far, in the order in which they did.
#[derive(Drop)]
pub(crate) struct Carried {
    /// The bytes.
    pub ghost bytes: { List ℕ },
}

impl Model for Carried {
    ghost also_owns = { λ _. ftrue };
}

impl Carried {
    /// No bytes.
    pub(crate) fn none() -> Carried
        ensures { result.bytes ≡ [] }
    {
        Carried {}
    }

    /// Takes the bytes of a piece too, after those that it has.
    pub(crate) fn take(&mut self, _piece: &[u8])
        ensures { self.new.bytes ≡ self.old.bytes ++ _piece.now }
    {}
}
