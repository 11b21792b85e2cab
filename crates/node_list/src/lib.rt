//! A node as a list of lines: its arguments stand before it.
#![tactic(auto)]

mod line;
mod listing;
mod walk;

pub use line::{Line, Lines, Made};
pub use listing::listed;
