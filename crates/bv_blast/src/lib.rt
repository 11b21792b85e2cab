//! Formulas over words as clauses. A model of the clauses is read as words that make the formula true, and where the clauses have no
//! model, no words make it true.
#![tactic(auto)]

mod circuit;
mod inputs;
mod laws;
mod operator;
mod place;
mod reading;
mod walk;

pub use circuit::{BitLists, Bits, Circuit};
pub use laws::models_make_true;
pub use no_memory::NoMemory;
pub use reading::words;
pub use walk::blast;
