// Left cut successors and their partners on the right.
ghost use Rattle.std.specs.Prelude.{All, IfOk};
ghost use Rattle.sort_term.specs.Step.{IsState};
ghost use Rattle.sort_term.specs.Relation.{Related};
ghost use Rattle.ground_step.specs.Reach.{EndsInState, runs_of};
ghost use Rattle.ground_judge.specs.Found.{TellsEnd, TellsLefts};

use ground_step::{Run, related};
use no_memory::NoMemory;
use sort_term::{Left, Problem, Right, State};
use std::alloc::Global;

/// Whether each left run ends in a state that is related to the last state of a right one.
pub fn are_lefts_matched(
    alloc: Global,
    problem: &Problem,
    lefts: &[Run<Left>],
    rights: &[Run<Right>],
) -> Result<bool, NoMemory>
    requires lefts { All (EndsInState problem.now.left) (runs_of lefts.now) }
    requires rights { All (EndsInState problem.now.right) (runs_of rights.now) }
    ensures { IfOk result (TellsLefts problem.now (runs_of lefts.now) (runs_of rights.now)) }
{
    for left in lefts {
        if !has_right(alloc, problem, left.last(), rights)? {
            return Ok(false);
        }
    }
    Ok(true)
}

// Whether a right run ends in a state that is related to this left one.
fn has_right(
    alloc: Global,
    problem: &Problem,
    left: &State<Left>,
    rights: &[Run<Right>],
) -> Result<bool, NoMemory>
    requires left { IsState problem.now.left left.now.term }
    requires rights { All (EndsInState problem.now.right) (runs_of rights.now) }
    ensures { IfOk result (TellsEnd (Related problem.now left.now.term) (runs_of rights.now)) }
{
    for right in rights {
        if related(alloc, problem, left, right.last())?.is_some() {
            return Ok(true);
        }
    }
    Ok(false)
}
