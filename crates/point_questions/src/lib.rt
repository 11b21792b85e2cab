//! What is asked of a point, as formulas: where its states aren't in the cut, where runs stay outside of it or stop there, and where a
//! run up to the cut has no partner.
#![tactic(auto)]

mod grounding;
mod laws;
mod matching;
mod posing;
mod question;
mod searched;

pub use grounding::{outside_questions, outside_where, run_questions};
pub use laws::{excluded_points_are_grounded, excluded_points_match, true_questions_show};
pub use matching::{left_failures, right_failures, right_misses};
pub use no_memory::NoMemory;
pub use posing::{PosedPoint, posed};
pub use question::{Flaw, Question, Questions};
pub use searched::{SearchedPoint, SearchedSide};
