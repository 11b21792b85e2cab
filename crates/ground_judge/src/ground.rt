// Points without variables.
ghost use Rattle.std.specs.Prelude.{◌↔◌, All, IfOk, IsTrue};
ghost use Rattle.sort_term.specs.Problems.{IsPointOf};
ghost use Rattle.sort_term.specs.Step.{IsState};
ghost use Rattle.ground_judge.specs.Ground.{IsGroundPoint, IsOnlyPair};

use ground_step::point_states;
use no_memory::NoMemory;
use sort_term::{Left, Point, Problem, Right, State};
use std::alloc::Global;

/// Whether no point has variables or conditions. It takes no memory.
pub fn are_ground(points: &[Point]) -> bool
    ensures { IsTrue result ↔ All IsGroundPoint points.now }
{
    for point in points {
        if !is_ground(point) {
            return false;
        }
    }
    true
}

/// Whether a point has no variables and no conditions. It takes no memory.
pub fn is_ground(point: &Point) -> bool
    ensures { IsTrue result ↔ IsGroundPoint point.now }
{
    point.vars.is_empty() && point.whens.is_empty()
}

/// The two states of a point without variables, which are its only related pair.
pub fn related_pair(
    alloc: Global,
    problem: &Problem,
    point: &Point,
) -> Result<(State<Left>, State<Right>), NoMemory>
    requires fits { IsPointOf problem.now.left problem.now.right point.now }
    requires ground { IsGroundPoint point.now }
    ensures only { IfOk result (λ pair. IsOnlyPair problem.now point.now pair.0.term pair.1.term) }
    ensures left { IfOk result (λ pair. IsState problem.now.left pair.0.term) }
    ensures right { IfOk result (λ pair. IsState problem.now.right pair.1.term) }
{
    match point_states(alloc, problem, point)? {
        Some(pair) => Ok(pair),
        None => unreachable!(),
    }
}
