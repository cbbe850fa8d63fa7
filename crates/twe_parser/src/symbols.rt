//! A short sequence of grammar symbols on the stack of the call: it allocates nothing.
ghost use Rattle.std.specs.Prelude.{◌≡◌, ◌+◌, ◌≤◌, ◌<◌, [], ◌∷◌, ◌++◌, length, take, MatchOption};

use crate::symbol::{Action, Symbol};
use std::marker::Model;

/// At most twelve symbols, in order. Contracts see the list of them.
#[derive(Drop)]
pub(crate) struct Symbols {
    buffer: [Symbol; 12],
    len: usize,
}

impl Model for Symbols {
    ghost use Rattle.std.specs.Prelude.{◌≤◌, List, take};
    ghost use Rattle.twe_parser.specs.declared.symbol.Symbol.{Symbol};

    ghost Value = { List Symbol };

    ghost view = { λ symbols. take symbols.len symbols.buffer };

    ghost invariant = { λ symbols. symbols.len ≤ 12 };
}

impl Symbols {
    /// No symbols.
    fn empty() -> Self
        ensures { result ≡ [] }
    {
        Symbols {
            buffer: [Symbol::Perform(Action::Nothing); 12],
            len: 0,
        }
    }

    /// Appends a symbol.
    fn push(&mut self, symbol: Symbol)
        requires { length self.old < 12 }
        ensures { self.new ≡ self.old ++ symbol ∷ [] }
    {
        self.buffer[self.len] = symbol;
        self.len += 1;
    }

    /// These symbols.
    pub(crate) fn new(symbols: &[Symbol]) -> Self
        requires { length symbols.now ≤ 12 }
        ensures { result ≡ symbols.now }
    {
        Self::empty().followed_by(symbols)
    }

    /// These symbols, and then more.
    pub(crate) fn followed_by(mut self, more: &[Symbol]) -> Self
        requires { length self + length more.now ≤ 12 }
        ensures { result ≡ self ++ more.now }
    {
        for symbol in more {
            self.push(*symbol);
        }
        self
    }

    /// Removes the last symbol and returns it, if there is one.
    pub(crate) fn pop(&mut self) -> Option<Symbol>
        ensures { MatchOption result ((self.old ≡ []) × (self.new ≡ [])) (λ symbol. self.old ≡ self.new ++ symbol ∷ []) }
    {
        if self.len == 0 {
            return None;
        }
        self.len -= 1;
        Some(self.buffer[self.len])
    }
}
