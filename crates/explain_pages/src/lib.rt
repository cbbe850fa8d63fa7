//! What is written of a refusal and of a run: pages for people, and lines for editors. `names` has what each rule says and what
//! is said of a rule of names that fails, `places` notes at places of a text and how the line of a place is shown.
#![tactic(auto)]

mod names;
mod page;
mod places;
mod run_page;
mod wanted;

pub use names::{
    VariableNames, asked, is_same_place, named_explanation, push_most, stands_before, variables_at,
    wrong,
};
pub use page::refused_text;
pub use places::{Explanation, Note, push_excerpt, push_shown, word_at};
pub use run_page::text_of_run;
pub use wanted::Wanted;
