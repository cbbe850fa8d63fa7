//! The marks that lists of effects leave, and those that they see.
ghost use Rattle.std.specs.Prelude.{◌≡◌, ◌++◌, IfOk, OnOk};
ghost use Rattle.held_span.specs.Marks.{left_by, left_marks, seen_by, seen_marks};

use crate::lists::row_of;
use std::alloc::Global;
use twe_base::{List, Memory};

/// A mark. Effects are known by their numbers.
#[derive(Clone, Copy, Debug, PartialEq, Eq, PartialOrd, Ord)]
pub enum EffectMark {
    /// That of an effect itself.
    Own(u32),
    /// That of those which have the effect as a rival.
    Rival(u32),
}

/// Marks for lists of effects.
#[derive(Debug, Drop)]
pub struct EffectMarks {
    /// For each list the numbers of its effects.
    pub lists: List<List<u32>>,
    /// For each effect its rivals: those that interfere with it, of the ones that are placed where it is or above.
    pub rivals: List<List<u32>>,
}

impl EffectMarks {
    /// Adds the marks that lists with this effect leave.
    fn push_left(&self, marks: &mut List<EffectMark>, effect: u32) -> Result<(), Memory>
        ensures { OnOk result (marks.new ≡ marks.old ++ left_marks self.now effect) }
    {
        marks.push(EffectMark::Own(effect))?;
        for rival in row_of(&self.rivals, effect) {
            marks.push(EffectMark::Rival(*rival))?;
        }
        Ok(())
    }

    /// Adds the marks that lists with this effect see.
    fn push_seen(&self, marks: &mut List<EffectMark>, effect: u32) -> Result<(), Memory>
        ensures { OnOk result (marks.new ≡ marks.old ++ seen_marks self.now effect) }
    {
        marks.push(EffectMark::Rival(effect))?;
        for rival in row_of(&self.rivals, effect) {
            marks.push(EffectMark::Own(*rival))?;
        }
        Ok(())
    }

    /// The marks that the list of this number leaves.
    pub fn left_by(&self, alloc: Global, list: u32) -> Result<List<EffectMark>, Memory>
        ensures { IfOk result (λ marks. marks ≡ left_by self.now list) }
    {
        let mut marks = List::new(alloc);
        for effect in row_of(&self.lists, list) {
            self.push_left(&mut marks, *effect)?;
        }
        Ok(marks)
    }

    /// The marks that the list of this number sees.
    pub fn seen_by(&self, alloc: Global, list: u32) -> Result<List<EffectMark>, Memory>
        ensures { IfOk result (λ marks. marks ≡ seen_by self.now list) }
    {
        let mut marks = List::new(alloc);
        for effect in row_of(&self.lists, list) {
            self.push_seen(&mut marks, *effect)?;
        }
        Ok(marks)
    }
}
