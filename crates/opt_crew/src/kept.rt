//! What a worker remembers of its drafts: those whose tasks are held back, and that one has changed.

use crate::named_drafted::NamedDrafted;
use crate::taking::Tried;
use opt_engine::RoundName;
use seg_journal::End;
use std::alloc::Global;
use std::collections::BTreeMap;
use twe_base::Memory;

/// What became of the last draft of a task.
#[derive(Drop)]
enum LastDraft<N: RoundName> {
    /// It was held back. It is committed once the task may be admitted.
    Held(NamedDrafted<N>),
    /// It had read what had changed. No further one is begun while the task is held back.
    Changed,
}

/// Beside each task what became of the last draft of it, if it was not taken.
#[derive(Drop)]
pub(crate) struct Kept<N: RoundName> {
    drafts: BTreeMap<u32, LastDraft<N>>,
}

impl<N: RoundName> Kept<N> {
    /// No drafts.
    pub(crate) fn new(alloc: Global) -> Self {
        Kept {
            drafts: BTreeMap::new(alloc),
        }
    }

    /// Whether a draft of the task is kept, or the last one had changed.
    pub(crate) fn has(&self, task: u32) -> bool {
        self.drafts.contains_key(&task)
    }

    /// Whether a draft of the task is kept.
    pub(crate) fn has_draft(&self, task: u32) -> bool {
        matches!(self.drafts.get(&task), Some(LastDraft::Held(_)))
    }

    /// Takes the draft of the task out, if one is kept.
    pub(crate) fn take(&mut self, task: u32) -> Option<NamedDrafted<N>> {
        match self.drafts.remove(&task) {
            Some(LastDraft::Held(drafted)) => Some(drafted),
            Some(LastDraft::Changed) => None,
            None => None,
        }
    }

    /// Keeps a draft of the task that was held back, and that one has changed; one that does not fit any more is dropped. Returns
    /// the end of the last move of a draft that was taken.
    pub(crate) fn sort(&mut self, task: u32, tried: Tried<N>) -> Result<Option<End>, Memory> {
        match tried {
            Tried::Taken(end) => Ok(Some(end)),
            Tried::Held(drafted) => {
                self.drafts.insert(task, LastDraft::Held(drafted))?;
                Ok(None)
            }
            Tried::Changed => {
                self.drafts.insert(task, LastDraft::Changed)?;
                Ok(None)
            }
            Tried::Dropped => Ok(None),
        }
    }
}
