//! The command that the words of the command line mean. `twe_cli` carries it out.
#![tactic(auto)]

mod arguments;
mod command;
mod laws;
mod number;
mod setting;

pub use command::{Command, WordsFail, read_words};
pub use laws::{every_list_is_decided, one_command};
pub use number::number_between;
