//! Ground runs: steps, runs up to the cut, and the relation that the points denote.
#![tactic(auto)]

mod binds;
mod conditions;
mod first;
mod reach;
mod relation;
mod replaying;
mod run;
mod steps;
mod verdict;
mod verdict_laws;

pub use first::{Ended, first_run};
pub use reach::{GroundReach, cut_successors};
pub use relation::{Fit, point_states, related};
pub use replaying::{replay, states_under};
pub use run::{Run, RunStep, RunSteps, Runs};
pub use steps::{in_cut, successors};
pub use verdict::{Failure, Reached, SideName, Verdict};
pub use verdict_laws::{first_witnesses_show, right_verdicts_are_verdicts, witnesses_hold};
