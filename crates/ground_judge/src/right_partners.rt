// Right cut successors and their partners on the left.
ghost use Rattle.std.specs.Prelude.{All, IfOk};
ghost use Rattle.sort_term.specs.Step.{IsState};
ghost use Rattle.sort_term.specs.Relation.{Related};
ghost use Rattle.ground_step.specs.Reach.{EndsInState, runs_of};
ghost use Rattle.ground_judge.specs.Found.{TellsEnd, TellsRights};

use ground_step::{Run, related};
use no_memory::NoMemory;
use sort_term::{Left, Problem, Right, State};
use std::alloc::Global;

/// Whether each right run ends in a state that is related to the last state of a left one.
pub fn are_rights_matched(
    alloc: Global,
    problem: &Problem,
    lefts: &[Run<Left>],
    rights: &[Run<Right>],
) -> Result<bool, NoMemory>
    requires lefts { All (EndsInState problem.now.left) (runs_of lefts.now) }
    requires rights { All (EndsInState problem.now.right) (runs_of rights.now) }
    ensures { IfOk result (TellsRights problem.now (runs_of lefts.now) (runs_of rights.now)) }
{
    for right in rights {
        if !has_left(alloc, problem, lefts, right.last())? {
            return Ok(false);
        }
    }
    Ok(true)
}

// Whether a left run ends in a state that is related to this right one.
fn has_left(
    alloc: Global,
    problem: &Problem,
    lefts: &[Run<Left>],
    right: &State<Right>,
) -> Result<bool, NoMemory>
    requires lefts { All (EndsInState problem.now.left) (runs_of lefts.now) }
    requires right { IsState problem.now.right right.now.term }
    ensures { IfOk result (TellsEnd (λ a. Related problem.now a right.now.term) (runs_of lefts.now)) }
{
    for left in lefts {
        if related(alloc, problem, left.last(), right)?.is_some() {
            return Ok(true);
        }
    }
    Ok(false)
}
