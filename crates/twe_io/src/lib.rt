//! Input and output: sources and sinks, a text that is read whole or written whole, and the answer of a program.
//!
//! A program text is read from a [`Source`], and the answer is written to a [`Sink`]. This crate has both traits, the
//! types that implement them, and the calls that read and write a whole text. The crates above decide what a text means.
#![tactic(auto)]

mod answer;
mod carried;
mod failed;
mod mem;
mod plain;
mod process;
mod reading;
mod sink;
mod source;
mod standard;
mod status;
mod whole;
mod words;
mod writing;

pub use answer::{Answer, tell};
pub use failed::Failed;
pub use mem::{MemSink, MemSource};
pub use plain::{PlainSink, PlainSource};
pub use process::Process;
pub use reading::read_text;
pub use sink::Sink;
pub use source::Source;
pub use standard::StdStream;
pub use status::Status;
pub use whole::{ReadFail, WriteFault, read_all, write_whole};
pub use words::words_of;
