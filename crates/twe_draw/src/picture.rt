//! A picture of a run, as data: one bar for each entry of its journal.
//!
//! `specs/picture/` says where each bar stands. A row is a task, and time is virtual: an entry takes as long as its weight, and
//! begins when all entries that lead to it, or free it, have ended. A bar knows the entry from which its task comes and the one
//! that gave it a value, and a picture the admissions that were held. How a picture is written is left to the modules beside.
//!
//! Beside it stand which of many tasks have a row in a picture, and which row; and the elements of a picture as SVG, with what
//! markup is whose tags nest. The laws say that each element is such markup.

mod bars;
mod best;
mod choosing;
mod drawing;
mod elements;
mod flags;
mod laws;
mod nesting_laws;
mod numbers;
mod rows;
mod shapes;

pub use bars::EntryBar;
pub use choosing::choose_rows;
pub use drawing::{Picture, draw};
pub use flags::how_many;
pub use rows::rows_of;
pub use shapes::{
    push_plain_box, push_row_line, push_title_element, push_titled_box, push_upright, push_words_at,
};
