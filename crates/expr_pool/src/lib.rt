//! A symbolic domain that keeps each node once, under the number of its first making.
#![tactic(auto)]

mod domain;
mod key;
pub mod laws;
mod pool;
mod symbolic;
mod values;

pub use key::Key;
pub use pool::Pool;
