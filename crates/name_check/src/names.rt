//! The global names of a program, in the order in which they are declared.
ghost use Rattle.std.specs.Prelude.{◌≡◌, ◌≤◌, [], ◌∷◌, ◌++◌, bytes_eq, length, take, OnOk};
ghost use Rattle.std.specs.List.{list_any};
ghost use Rattle.name_check.specs.declared.names.GlobalName.{GlobalName as Entry};
ghost use Rattle.name_check.specs.inner.First.{first_from};
ghost use Rattle.name_check.specs.inner.Whole.{again_failures, is_again};
ghost use Rattle.name_check.specs.Names.{global_of};

use crate::binding::Global;
use crate::firsts::{add_first, index_of_first};
use crate::rule::NRule;
use std::alloc;
use std::collections::BTreeMap;
use std::marker::Model;
use twe_ast::Name;
use twe_base::{Failure, Memory, Place, Word, report_if};

/// A global name, and its binding.
#[derive(Debug, Drop)]
pub struct GlobalName {
    /// The name.
    pub text: Word,
    /// The place where it is declared.
    pub place: Place,
    /// Its binding.
    pub global: Global,
}

/// Global names, in the order in which they are declared. Contracts see the list of them.
#[derive(Debug, Drop)]
pub struct Globals {
    entries: Vec<GlobalName>,
    firsts: BTreeMap<String, u32>,
}

impl Model for Globals {
    ghost use Rattle.std.specs.Prelude.{List};
    ghost use Rattle.name_check.specs.declared.names.GlobalName.{GlobalName as Entry};
    ghost use Rattle.name_check.specs.inner.Firsts.{AreFirsts};

    ghost Value = { List Entry };

    ghost view = { λ globals. globals.entries.items };

    ghost invariant = { λ globals. AreFirsts (λ (entry : Entry). entry.text) globals.entries.items globals.firsts };
}

impl Globals {
    /// No names. It takes no memory.
    pub(crate) fn new(alloc: alloc::Global) -> Self
        ensures { result ≡ [] }
    {
        Globals {
            entries: Vec::new(alloc),
            firsts: BTreeMap::new(alloc),
        }
    }

    /// Adds a name after the others.
    pub(crate) fn push(
        &mut self,
        alloc: alloc::Global,
        name: &Name,
        global: Global,
    ) -> Result<(), Memory>
        ensures { OnOk result (self.new ≡ self.old
            ++ record { text = name.now.text; place = name.now.place; global = global } ∷ []) }
    {
        let number = self.entries.len();
        if number > u32::MAX as usize {
            return Err(Memory::of_uncountable(self.entries.as_slice()));
        }
        let entry = GlobalName {
            text: name.text.copy(alloc)?,
            place: name.place,
            global,
        };
        self.entries.reserve(1)?;
        add_first(&mut self.firsts, alloc, &name.text, number as u32)?;
        self.entries.push(entry).unwrap();
        Ok(())
    }

    /// The global binding of a name: the region `Console`, or that of the first declaration of the name. It takes no memory.
    pub fn global(&self, text: &Word) -> Option<Global>
        ensures { result ≡ global_of self.now text.now }
    {
        if text.as_str() == "Console" {
            return Some(Global::Region(0));
        }
        match index_of_first(&self.firsts, text) {
            None => None,
            Some(place) => Some(self.entries[place].global),
        }
    }

    /// Whether a name is one of the first `count` names. It takes no memory.
    fn stands_among_first(&self, text: &Word, count: usize) -> bool
        requires { count ≤ length self.now }
        ensures { result ≡ list_any (λ (entry : Entry). bytes_eq text.now entry.text) (take count self.now) }
    {
        match index_of_first(&self.firsts, text) {
            Some(place) => place < count,
            None => false,
        }
    }

    /// Whether a name is `Console` or one of the first `count` names. It takes no memory.
    fn is_again(&self, entry: &GlobalName, count: usize) -> bool
        requires { count ≤ length self.now }
        ensures { result ≡ is_again (take count self.now) entry.now }
    {
        entry.text.as_str() == "Console" || self.stands_among_first(&entry.text, count)
    }

    /// Reports each name that is `Console` or is declared a second time.
    pub(crate) fn check_again(&self, first: &mut Option<Failure<NRule>>)
        ensures { first.new ≡ first_from first.old (again_failures [] self.now) }
    {
        for index in 0..self.entries.len() {
            let entry = &self.entries[index];
            report_if(first, self.is_again(entry, index), NRule::N2, entry.place);
        }
    }
}
