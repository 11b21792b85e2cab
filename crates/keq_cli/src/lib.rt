//! The top call of the program, over two traits of the outside: a shelf of named texts and a sink for the report.
#![tactic(auto)]

mod answer;
mod check;
mod commands;
mod fetching;
mod laws;
mod loading;
mod memory_shelf;
mod memory_sink;
mod outside;
mod run;
mod status;
mod texts;
mod top;
mod words;

pub use laws::outcome_is_unique;
pub use memory_shelf::{CallList, Files, MemoryShelf, NamedText};
pub use memory_sink::MemorySink;
pub use no_memory::NoMemory;
pub use outside::{Failed, Fetch, Shelf, Sink};
pub use report_text::Role;
pub use status::Status;
pub use top::keq;
