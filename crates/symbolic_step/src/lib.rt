//! What a configuration over the nodes of a domain can do in one step, for all values of the domain's variables at once.
#![tactic(auto)]

mod by_rule;
mod next;
mod taken;

pub use next::{Next, step};
pub use no_memory::NoMemory;
