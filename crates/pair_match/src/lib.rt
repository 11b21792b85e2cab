//! Where points relate what configurations with unknowns mean, and which leaves have no partner on the other side.
#![tactic(auto)]

mod between;
mod comparing;
mod determining;
mod failed;
mod matching;
mod sameness;
mod unmatched;

pub use failed::right_failed;
pub use matching::{Match, matches};
pub use no_memory::NoMemory;
pub use unmatched::{left_unmatched, right_unmatched};
