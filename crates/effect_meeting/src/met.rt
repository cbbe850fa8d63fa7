//! What was found of where two paths meet.
use crate::values::ParamValues;
use region_paths::Elems;

/// Where two paths meet.
#[derive(Debug, Drop)]
pub struct Met {
    /// Elements of a concrete path that is in both, which are names and literal indexes.
    pub elems: Elems,
    /// The values for which it is of the parameters that stand in the paths.
    pub values: ParamValues,
}
