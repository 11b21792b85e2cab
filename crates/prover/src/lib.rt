//! Decides formulas: no valuation of the variables makes a formula true, or this one does.
#![tactic(auto)]

mod answer;
mod clearing;
mod deciding;
mod joining;
mod parts;
mod posing;
mod preparing;
mod question;
mod splitting;
mod usage;

pub use answer::Answer;
pub use data_value::NoMemory;
pub use deciding::decide;
pub use posing::{pose, spelled_valuation};
pub use question::Question;
