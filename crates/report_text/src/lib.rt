//! Printed texts: the report of a verdict with the run that shows it, the refusal of a text that doesn't load, and the run by the
//! first rules.
#![tactic(auto)]

mod laws;
mod lines;
mod refusals;
mod reports;
mod role;
mod runs;
mod states;
mod values;

pub use laws::printed_states_load;
pub use refusals::fault_text;
pub use reports::text;
pub use role::Role;
pub use runs::run_text;
pub use sexp_text::Bytes;
