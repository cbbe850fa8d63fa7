//! Where written effects meet: for which arguments those of two declarations do, and at which concrete path two paths do.
//!
//! Two written effects meet if one writes, and some cell is in both of their paths. That depends on the values of the parameters:
//! it comes to some equalities between parameters and literals, all of which have to hold, and which are solved one by one.
//!
//! For a concrete path that is in two paths for some values of their variables, the elements of both stand side by side in
//! columns, one for each position of that path. What has to hold for a column is a few of these equalities.
#![tactic(auto)]

mod aligned;
mod all_meetings;
mod always;
mod cells;
mod column;
mod equality;
mod laws;
mod meeting;
mod met;
mod path_meeting;
mod solve;
mod values;

pub use all_meetings::{Meeting, Meetings, meetings_between};
pub use always::{always_interfere, deciding_local};
pub use cells::{CellMet, first_cell};
pub use equality::{Equalities, Equality, Term};
pub use laws::{apart_paths_never_meet, parameters_decide};
pub use meeting::meeting_path;
pub use met::Met;
pub use path_meeting::elem_equality;
pub use solve::{solution, solved_value};
pub use values::{ParamValue, ParamValues};
