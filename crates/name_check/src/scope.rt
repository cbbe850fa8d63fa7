//! The scope at a place of a declaration.
ghost use Rattle.std.specs.Prelude.{◌≡◌, [], ◌∷◌, ◌++◌, ◌-◌, OnOk, length, take};
ghost use Rattle.name_check.specs.Names.{first_local};
ghost use Rattle.name_check.specs.inner.Parameters.{parameter};

use crate::binding::Local;
use crate::firsts::{add_first, drop_first, index_of_first};
use std::alloc::Global;
use std::collections::BTreeMap;
use std::marker::Model;
use twe_ast::LocalType;
use twe_base::{Memory, Word};

/// A name inside a declaration, and its binding.
#[derive(Debug, Drop)]
pub struct LocalName {
    /// The name.
    pub text: Word,
    /// Its binding.
    pub local: Local,
}

/// The parameters, locals and futures in scope, in the order of the text. Contracts see the list of them.
#[derive(Debug, Drop)]
pub struct Locals {
    entries: Vec<LocalName>,
    firsts: BTreeMap<String, u32>,
}

impl Model for Locals {
    ghost use Rattle.std.specs.Prelude.{List};
    ghost use Rattle.name_check.specs.declared.scope.LocalName.{LocalName as Entry};
    ghost use Rattle.name_check.specs.inner.Firsts.{AreFirsts};

    ghost Value = { List Entry };

    ghost view = { λ locals. locals.entries.items };

    ghost invariant = { λ locals. AreFirsts (λ (entry : Entry). entry.text) locals.entries.items locals.firsts };
}

impl Locals {
    /// An empty scope. It takes no memory.
    pub fn new(alloc: Global) -> Self
        ensures { result ≡ [] }
    {
        Locals {
            entries: Vec::new(alloc),
            firsts: BTreeMap::new(alloc),
        }
    }

    /// The number of names in scope.
    pub(crate) fn len(&self) -> usize
        ensures { result ≡ length self.now }
    {
        self.entries.len()
    }

    /// Adds a name after the others.
    pub(crate) fn push(&mut self, alloc: Global, text: &Word, local: Local) -> Result<(), Memory>
        ensures { OnOk result (self.new ≡ self.old ++ record { text = text.now; local = local } ∷ []) }
    {
        let number = self.entries.len();
        if number > u32::MAX as usize {
            return Err(Memory::of_uncountable(self.entries.as_slice()));
        }
        let entry = LocalName {
            text: text.copy(alloc)?,
            local,
        };
        self.entries.reserve(1)?;
        add_first(&mut self.firsts, alloc, text, number as u32)?;
        self.entries.push(entry).unwrap();
        Ok(())
    }

    /// Adds a parameter of this number after the others.
    pub(crate) fn push_parameter(
        &mut self,
        alloc: Global,
        text: &Word,
        number: u32,
    ) -> Result<(), Memory>
        ensures { OnOk result (self.new ≡ self.old ++ parameter text.now number ∷ []) }
    {
        let local = Local::Variable {
            number,
            local_type: LocalType::Int,
            constant: true,
        };
        self.push(alloc, text, local)
    }

    /// Removes the last name, if there is one. It takes no memory.
    fn pop(&mut self)
        ensures { self.new ≡ take (length self.old - 1) self.old }
    {
        if let Some(entry) = self.entries.pop() {
            drop_first(&mut self.firsts, &entry.text, self.entries.len());
        }
    }

    /// Removes all but the first `count` names. It takes no memory.
    pub(crate) fn keep(&mut self, count: usize)
        ensures { self.new ≡ take count self.old }
    {
        while self.entries.len() > count {
            self.pop();
        }
    }

    /// The binding of the first of these names that is this one. It takes no memory.
    pub fn local(&self, text: &Word) -> Option<Local>
        ensures { result ≡ first_local text.now self.now }
    {
        match index_of_first(&self.firsts, text) {
            None => None,
            Some(place) => Some(self.entries[place].local),
        }
    }
}

/// A place in a declaration: what is seen there, and how much of the declaration comes before, what is no longer seen
/// among it.
#[derive(Debug, Drop)]
pub struct BodyScope {
    /// The parameters, locals and futures in scope.
    pub locals: Locals,
    /// The number of statements before.
    pub points: u32,
    /// The number of parameters and locals before.
    pub vars: u32,
    /// The number of futures before.
    pub futures: u32,
}
