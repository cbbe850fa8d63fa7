//! The written path: elements, then at most one star, and the elements after the star.
ghost use Rattle.std.specs.Prelude.{◌≡◌, IfOk, IsTrue, length, map};
ghost use Rattle.region_paths.specs.Written.{PathIsWellFormed};
ghost use Rattle.region_paths.specs.Filled.{fill, fill_elem, filled, has_args, is_solid, no_var, solid_prefix};

use crate::elements::{Elem, Elems};
use std::alloc::{AllocError, Global};
use std::marker::Model;
use twe_base::Memory;

/// A path as programs write it: `elems` before the star and `tail` after it. Without a star `tail` is empty; the type
/// keeps this invariant. Contracts see a `WrittenPath`.
#[derive(Debug, Drop)]
pub struct Path {
    elems: Elems,
    star: bool,
    tail: Elems,
}

impl Model for Path {
    ghost use Rattle.region_paths.specs.Written.{WrittenPath, PathIsWellFormed};

    ghost Value = { WrittenPath };

    ghost view = { λ a. record { elems = a.elems; star = a.star; tail = a.tail } };

    ghost invariant = { λ a. PathIsWellFormed (record { elems = a.elems; star = a.star; tail = a.tail }) };
}

impl Path {
    /// The path with these elements, star and tail. It takes no memory.
    pub fn new(elems: Elems, star: bool, tail: Elems) -> Path
        requires { PathIsWellFormed (record { elems = elems; star = star; tail = tail }) }
        ensures parts { result ≡ record { elems = elems; star = star; tail = tail } }
    {
        Path { elems, star, tail }
    }

    /// The elements before the star, or all elements if there is no star.
    pub fn elems(&self) -> &Elems
        ensures part { result.now ≡ self.now.elems }
    {
        &self.elems
    }

    /// Whether the path has a star.
    pub fn star(&self) -> bool
        ensures part { result ≡ self.now.star }
        ensures well_formed { PathIsWellFormed self.now }
    {
        self.star
    }

    /// The elements after the star. There are none if there is no star.
    pub fn tail(&self) -> &Elems
        ensures part { result.now ≡ self.now.tail }
        ensures well_formed { PathIsWellFormed self.now }
    {
        &self.tail
    }

    /// The number of elements before the star and before the first element that is neither a name nor a literal index.
    pub fn solid_prefix(&self) -> usize
        ensures { result ≡ length (solid_prefix self.now) }
    {
        let elems = self.elems.as_slice();
        elems.iter().take_while(|e| elem_is_solid(**e)).count()
    }

    /// The path with each variable replaced by the argument of its number, before the star and after it. A variable
    /// without an argument stays. A path without variables is returned as it is.
    pub fn fill(&self, alloc: Global, args: &[Elem]) -> Result<Path, Memory>
        ensures exact { IfOk result (λ path. path ≡ fill args.now self.now) }
        ensures complete { IsTrue (has_args args.now self.now) → IsTrue (no_var args.now)
            → IfOk result (λ path. IsTrue (filled path)) }
        ensures kept { IsTrue (filled self.now) → IfOk result (λ path. path ≡ self.now) }
    {
        let elems = fill_elems(alloc, self.elems.as_slice(), args)?;
        let tail = fill_elems(alloc, self.tail.as_slice(), args)?;
        Ok(Path {
            elems: Elems::from(elems),
            star: self.star,
            tail: Elems::from(tail),
        })
    }

    /// An equal path in its own memory.
    pub fn copy(&self, alloc: Global) -> Result<Path, Memory>
        ensures { IfOk result (λ path. path ≡ self.now) }
    {
        let elems = self.elems.copy(alloc)?;
        let tail = self.tail.copy(alloc)?;
        Ok(Path {
            elems,
            star: self.star,
            tail,
        })
    }
}

/// Whether an element is a name or a literal index.
fn elem_is_solid(elem: Elem) -> bool
    ensures { result ≡ is_solid elem }
{
    match elem {
        Elem::Name(_) => true,
        Elem::Index(_) => true,
        Elem::Var(_) => false,
        Elem::AnyIndex => false,
    }
}

/// The argument of the variable's number, if the element is a variable that has one; otherwise the element itself.
pub fn fill_one(elem: Elem, args: &[Elem]) -> Elem
    ensures { result ≡ fill_elem args.now elem }
{
    match elem {
        Elem::Var(k) => args.get(k as usize).copied().unwrap_or(elem),
        Elem::Name(_) => elem,
        Elem::Index(_) => elem,
        Elem::AnyIndex => elem,
    }
}

/// The elements, each filled.
fn fill_elems(alloc: Global, elems: &[Elem], args: &[Elem]) -> Result<Vec<Elem>, AllocError>
    ensures { IfOk result (λ list. list.items ≡ map (fill_elem args.now) elems.now) }
{
    elems.iter().map(|e| fill_one(*e, args)).collect(alloc)
}
