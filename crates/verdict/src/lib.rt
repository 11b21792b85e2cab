//! The verdict on a problem, with a run that shows it.
#![tactic(auto)]

mod deciding;
mod examining;
mod exploring;
mod failing;
mod judging;
mod showing;
mod standing;

pub use judging::judge;
pub use no_memory::NoMemory;
