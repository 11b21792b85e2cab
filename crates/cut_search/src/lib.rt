//! The runs from a configuration with unknowns up to the cut, for all values of the unknowns at once.
#![tactic(auto)]

mod dropping;
mod drops;
mod exact;
mod halting;
mod levels;
mod reach;
mod sifting;
mod simpler;
mod splitting;

pub use cut_cover::outside;
pub use dropping::search_dropping;
pub use drops::Drops;
pub use exact::{Decider, search};
pub use no_memory::NoMemory;
pub use reach::Reach;
