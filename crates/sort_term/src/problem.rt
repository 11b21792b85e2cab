ghost use Rattle.sort_term.specs.Problems.{IsProblem};

use crate::points::Points;
use crate::program::Program;
use crate::semantics::Semantics;
use crate::term::{Left, Right};

/// What is judged: a semantics with a program for each side, and the cuts and points.
#[derive(Drop)]
pub struct Problem {
    /// The left semantics.
    pub left: Semantics<Left>,
    /// The right semantics.
    pub right: Semantics<Right>,
    /// The left program.
    pub left_program: Program<Left>,
    /// The right program.
    pub right_program: Program<Right>,
    /// The cuts of both sides, and the points.
    pub points: Points,
    /// The parts passed their checks, and fit each other.
    pub ghost fits: { IsProblem left right left_program right_program points },
}
