//! Which states that a configuration with unknowns means are covered by the items of a cut, and where conditions hold.
#![tactic(auto)]

mod conditions;
mod cover;

pub use conditions::all_hold;
pub use cover::{covering, outside};
pub use no_memory::NoMemory;
