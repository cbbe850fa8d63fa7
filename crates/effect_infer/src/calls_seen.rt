//! Where an equal call may stand. An answer is a hint, which its user compares with what stands there.

use crate::found::CallSite;
use crate::opened::{Open, opened_parts};
use prefix_tree::{Part, PrefixTree};
use std::alloc::Global;
use std::collections::BTreeMap;
use twe_base::{List, Memory};

/// The places of calls in a list.
#[derive(Debug, Drop)]
pub(crate) struct CallsSeen {
    calls: PrefixTree,
    places: BTreeMap<u32, usize>,
}

impl CallsSeen {
    /// No calls.
    pub(crate) fn new(alloc: Global) -> Result<Self, Memory> {
        Ok(CallsSeen {
            calls: PrefixTree::new(alloc)?,
            places: BTreeMap::new(alloc),
        })
    }

    /// Where the first call like this one may stand. If there is none, `place` is kept for it.
    pub(crate) fn first_place(
        &mut self,
        alloc: Global,
        call: &CallSite,
        place: usize,
    ) -> Result<usize, Memory> {
        let args = opened_parts(alloc, call.args.as_slice(), Open::Nothing)?;
        let mut parts = List::new(alloc);
        parts.push(Part::Index(i64::from(call.callee)))?;
        parts.push(Part::Index(i64::from(call.caller)))?;
        parts.push_all(args.as_slice())?;
        let number = self.calls.add_path(parts.as_slice())?;
        if let Some(first) = self.places.get(&number) {
            return Ok(*first);
        }
        self.places.insert(number, place)?;
        Ok(place)
    }
}
