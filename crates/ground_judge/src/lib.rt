//! The verdict on points without variables, by all runs from their states up to the cut.
#![tactic(auto)]

mod finding;
mod ground;
mod kind;
mod left_partners;
mod right_partners;
mod verdict;

pub use ground::{are_ground, is_ground};
pub use kind::{FailedTest, VerdictKind};
pub use verdict::judge;
