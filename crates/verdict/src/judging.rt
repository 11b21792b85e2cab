//! The verdict.
ghost use Rattle.std.specs.Prelude.{◌≡◌, ◌<◌, ◌≤◌, IfOk, length};
ghost use Rattle.sort_term.specs.Simulation.{IsWellGrounded, IsMatchedSimulation, IsMatchedBisimulation};
ghost use Rattle.ground_step.specs.Shows.{IsRight};
ghost use Rattle.verdict.specs.Findings.{Finds, IsGroundedVerdict, IsSimulationVerdict};

use crate::examining::examine;
use crate::standing::{Finding, Standing, after, verdict};
use expr_pool::Pool;
use ground_step::Verdict;
use no_memory::NoMemory;
use sort_term::Problem;
use std::alloc::Global;

/// The verdict on a problem for this number of steps, which is at least 1, with a failure that shows it, but where it is that the relation
/// is a cut-bisimulation or that a point is void. The only error is want of memory.
pub fn judge(alloc: Global, problem: &Problem, steps: u32) -> Result<Verdict, NoMemory>
    requires steps { 1 ≤ steps }
    ensures right { IfOk result (IsRight problem.now steps) }

    // Where the relation is grounded, what can't be wrong is there: the runs from the related states meet the cut in time. Where it is a
    // simulation, each right cut successor has a related partner, or the left may come to an undefined state. Where it is a bisimulation,
    // each cut successor has a partner.
    ensures grounded { IfOk result (λ v. IsGroundedVerdict v → IsWellGrounded problem.now steps) }
    ensures simulated { IfOk result (λ v. IsSimulationVerdict v → IsMatchedSimulation problem.now) }
    ensures matched { IfOk result (λ v. v ≡ Verdict.Equivalent → IsMatchedBisimulation problem.now) }
{
    let mut standing = Standing::Matched;
    for place in 0..problem.points.points.len() {
        match judge_point(alloc, problem, place, steps, &standing) {
            Ok(Finding::Grounded(found)) => standing = after(standing, found),
            Ok(Finding::Ungrounded(verdict)) => {
                drop(standing);
                return Ok(verdict);
            }
            Err(no_memory) => {
                drop(standing);
                return Err(no_memory);
            }
        }
    }
    Ok(verdict(standing))
}

// What is found of a point, over a pool of its own.
fn judge_point(
    alloc: Global,
    problem: &Problem,
    place: usize,
    steps: u32,
    standing: &Standing,
) -> Result<Finding, NoMemory>
    requires there { place < length problem.now.points.points }
    requires steps { 1 ≤ steps }
    ensures { IfOk result (Finds problem.now steps place standing.now) }
{
    let mut pool = Pool::new(alloc)?;
    Ok(examine(alloc, &mut pool, problem, place, steps, standing)?)
}
