//! Formulas that say that no case holds, where a case asks for equal maps: two maps differ somewhere, and a fresh variable stands for the
//! key where they do.
#![tactic(auto)]

mod case;
mod differ;
mod none;

pub use case::{Case, Cases, MapPair, MapPairs};
pub use no_memory::NoMemory;
pub use none::no_case;
