//! Formulas with maps as formulas without maps. What a formula reads of a map variable at a key becomes an input of its own, and the
//! words of all inputs are lifted to a valuation, whose maps have the words that were read.
#![tactic(auto)]

mod demand;
mod draft;
mod lifting;
mod placing;
mod read;
mod reading;
mod reduction;
mod walking;

pub use data_value::NoMemory;
pub use lifting::lift;
pub use read::{Read, ReadList, Reads};
pub use reduction::without_maps;
