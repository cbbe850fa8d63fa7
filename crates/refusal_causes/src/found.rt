//! The failures that were found so far, in the order of the text.
ghost use Rattle.std.specs.Prelude.{◌≡◌, false, IfOk, OnOk, is_some};
ghost use Rattle.std.specs.BTreeMap.{IsOrdered, values};
ghost use Rattle.effect_check.specs.FailsEffect.{FailsEffect};
ghost use Rattle.refusal_causes.specs.Causes.{IsCause};
ghost use Rattle.refusal_causes.specs.inner.Found.{Grows, IsSound, IsUnlisted, found_at, key_cmp, key_of};

use crate::cause::RuleCause;
use effect_check::ERule;
use std::alloc::Global;
use std::collections::BTreeMap;
use twe_base::{List, Memory, Place, Rule};
use twe_program::Prog;

/// A rule on effects that fails at a place, and why.
#[derive(Debug, Drop)]
pub struct CausedFailure {
    /// The rule.
    pub rule: ERule,
    /// The place at which it fails.
    pub place: Place,
    /// Why.
    pub cause: RuleCause,
}

/// Where a failure stands in the order of the text: by its line, by its column, and then by the number of its rule.
#[derive(Clone, Copy, Debug, PartialEq, Eq, PartialOrd, Ord)]
pub struct FailureKey {
    line: u32,
    col: u32,
    number: u8,
}

/// Where the failure of the rule at the place stands.
fn key_of(rule: ERule, place: Place) -> FailureKey
    ensures { result ≡ key_of rule place }
{
    FailureKey {
        line: place.line,
        col: place.col,
        number: rule.number(),
    }
}

/// The failures that were found so far, each once.
#[derive(Debug, Drop)]
pub struct FoundFailures {
    entries: BTreeMap<FailureKey, CausedFailure>,
}

impl FoundFailures {
    /// None were found.
    pub fn new(alloc: Global, p: &Prog) -> Self
        ensures { IsSound p.now result }
    {
        let _ = p;
        FoundFailures {
            entries: BTreeMap::new(alloc),
        }
    }

    /// Whether this failure was found.
    pub fn has(&self, rule: ERule, place: Place) -> bool
        ensures { result ≡ is_some (found_at self.now rule place) }
    {
        self.entries.contains_key(&key_of(rule, place))
    }

    /// Adds the failure with its cause, if it was not found yet.
    pub fn note(
        &mut self,
        p: &Prog,
        rule: ERule,
        place: Place,
        cause: RuleCause,
    ) -> Result<(), Memory>
        requires fails { FailsEffect p.now rule place }
        requires caused { IsCause p.now false rule place cause }
        ensures grows { OnOk result (Grows p.now self.old self.new) }
        ensures listed { OnOk result (¬ IsUnlisted self.new rule place) }
    {
        let _ = p;
        if self.has(rule, place) {
            return Ok(());
        }
        let failure = CausedFailure { rule, place, cause };
        self.entries.insert(key_of(rule, place), failure)?;
        Ok(())
    }

    /// The failures in the order of the text.
    pub fn into_list(self, alloc: Global) -> Result<List<CausedFailure>, Memory>
        ensures { IfOk result (λ failures. failures ≡ values self.entries) }
    {
        let failures: Vec<CausedFailure> = self.entries.into_values().collect(alloc)?;
        Ok(List::from(failures))
    }
}
