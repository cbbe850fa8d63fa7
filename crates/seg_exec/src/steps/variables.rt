//! The variables of all active bodies, in one list, so that a call and a return move none of them.
ghost use Rattle.std.specs.Prelude.{◌≡◌, ◌≤◌, ◌<◌, ◌++◌, [], ◌∷◌, drop, length, slice_set, take, IfOk, OnOk};
ghost use Rattle.seg_exec.specs.inner.steps.Bodies.{called, left, with_active};

use std::alloc::Global;
use std::marker::Model;
use twe_base::{Ints, Memory};

/// The variables of all active bodies. Contracts see those of the active body, and those of its callers in one list.
#[derive(Debug, Drop)]
pub(crate) struct Variables {
    /// The variables of the callers, the first caller first, and then those of the active body.
    values: Vec<i32>,
    /// Where those of the active body begin.
    start: usize,
}

impl Model for Variables {
    ghost use Rattle.std.specs.Prelude.{◌≤◌, drop, length, take};
    ghost use Rattle.seg_exec.specs.inner.steps.Bodies.{Bodies};

    ghost Value = { Bodies };

    ghost view = { λ v. record { callers = take v.start v.values.items; active = drop v.start v.values.items } };

    ghost invariant = { λ v. v.start ≤ length v.values.items };
}

impl Variables {
    /// The variables of a body that has no caller.
    pub(crate) fn new(vars: Ints) -> Self
        ensures { result ≡ record { callers = []; active = vars } }
    {
        Variables {
            values: vars.into_vec(),
            start: 0,
        }
    }

    /// How many variables the active body has.
    #[inline(always)]
    pub(crate) fn len(&self) -> usize
        ensures { result ≡ length self.now.active }
    {
        self.values.len() - self.start
    }

    /// The variables of the active body.
    #[inline(always)]
    pub(crate) fn as_slice(&self) -> &[i32]
        ensures { result.now ≡ self.now.active }
    {
        &self.values.as_slice()[self.start..]
    }

    /// The first `count` variables of the active body.
    #[inline(always)]
    pub(crate) fn first(&self, count: usize) -> &[i32]
        requires { count ≤ length self.now.active }
        ensures { result.now ≡ take count self.now.active }
    {
        &self.values.as_slice()[self.start..self.start + count]
    }

    /// Replaces a variable of the active body.
    #[inline(always)]
    pub(crate) fn set(&mut self, var: usize, value: i32)
        requires { var < length self.old.active }
        ensures { self.new ≡ with_active (slice_set self.old.active var value) self.old }
    {
        let _all = self.values.len();
        self.values[self.start + var] = value;
    }

    /// Appends a variable to those of the active body. It writes the variable where it stays, and is inlined.
    #[inline(always)]
    pub(crate) fn push(&mut self, value: i32) -> Result<(), Memory>
        ensures { OnOk result (self.new ≡ with_active (self.old.active ++ value ∷ []) self.old) }
    {
        self.values.reserve(1)?;
        self.values.push_reserved(value);
        Ok(())
    }

    /// Appends variables to those of the active body.
    pub(crate) fn push_all(&mut self, values: &[i32]) -> Result<(), Memory>
        ensures { OnOk result (self.new ≡ with_active (self.old.active ++ values.now) self.old) }
    {
        self.values.extend_from_slice(values)?;
        Ok(())
    }

    /// Appends variables, and then one more, to those of the active body.
    pub(crate) fn push_all_and(&mut self, values: &[i32], last: i32) -> Result<(), Memory>
        ensures { OnOk result (self.new ≡ with_active (self.old.active ++ (values.now ++ last ∷ [])) self.old) }
    {
        self.push_all(values)?;
        self.push(last)
    }

    /// Drops the variables of the active body after the first `count`.
    #[inline(always)]
    pub(crate) fn truncate(&mut self, count: usize)
        requires { count ≤ length self.old.active }
        ensures { self.new ≡ with_active (take count self.old.active) self.old }
    {
        let _all = self.values.len();
        self.values.truncate(self.start + count);
    }

    /// Takes the variables after the first `count` from the active body, and returns them in a list of their own.
    pub(crate) fn split(&mut self, alloc: Global, count: usize) -> Result<Ints, Memory>
        requires { count ≤ length self.old.active }
        ensures taken { IfOk result (λ taken. taken ≡ drop count self.old.active) }
        ensures rest { IfOk result (λ taken. self.new ≡ with_active (take count self.old.active) self.old) }
    {
        let taken = Ints::from_slice(alloc, &self.as_slice()[count..])?;
        self.truncate(count);
        Ok(taken)
    }

    /// Makes the variables after the first `count` those of a body that is called.
    #[inline(always)]
    pub(crate) fn enter(&mut self, count: usize)
        requires { count ≤ length self.old.active }
        ensures { self.new ≡ called count self.old }
    {
        let _all = self.values.len();
        self.start += count;
    }

    /// Drops the variables of the active body and makes the last `count` of its callers the active ones.
    #[inline(always)]
    pub(crate) fn leave(&mut self, count: usize)
        ensures { self.new ≡ left count self.old }
    {
        self.values.truncate(self.start);
        self.start = self.start.saturating_sub(count);
    }

    /// The variables of the active body as a list.
    pub(crate) fn into_active(self, alloc: Global) -> Result<Ints, Memory>
        ensures { IfOk result (λ vars. vars ≡ self.active) }
    {
        if self.start == 0 {
            return Ok(Ints::from(self.values));
        }
        Ints::from_slice(alloc, &self.values.as_slice()[self.start..])
    }
}
