//! Nodes with simpler ones in their place, which mean the same.
#![tactic(auto)]

mod absorbing;
mod choices;
mod division;
mod flags;
mod lines;
mod operator;
mod pair;
mod parts;
mod reads;
mod rewritten;
mod same;
mod split;
mod sums;
mod values;

pub use lines::{replaced, simplify};
pub use pair::Pair;
