//! Needs that were found, and the calls that hand them on.

use crate::needs::Need;
use region_paths::Elems;
use twe_base::List;

/// A need of a method.
#[derive(Debug, Drop)]
pub(crate) struct FoundNeed {
    /// The number of the method.
    pub method: u32,
    /// The need.
    pub need: Need,
}

/// Needs in the order in which they were found.
pub(crate) type AllFound = List<FoundNeed>;

/// A call in the body of a method.
#[derive(Debug, Drop)]
pub(crate) struct CallSite {
    /// The number of the called method.
    pub callee: u32,
    /// The number of the method whose body has the call.
    pub caller: u32,
    /// How many parameters the caller has.
    pub params: u32,
    /// The arguments as the rules see them.
    pub args: Elems,
}

/// Calls in the order of the text.
pub(crate) type CallSites = List<CallSite>;
