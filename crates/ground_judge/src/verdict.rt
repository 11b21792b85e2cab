// The verdict.
ghost use Rattle.std.specs.Prelude.{◌≡◌, ◌≤◌, [], All, IfOk};
ghost use Rattle.sort_term.specs.Simulation.{IsWellGrounded, IsMatchedSimulation, IsMatchedBisimulation};
ghost use Rattle.sort_term.specs.Verdict.{IsVerdict};
ghost use Rattle.ground_judge.specs.Ground.{IsGroundPoint};
ghost use Rattle.ground_judge.specs.Kinds.{kind_of, IsGroundedKind, IsSimulationKind};

use crate::finding::{Finding, examine};
use crate::kind::VerdictKind;
use no_memory::NoMemory;
use sort_term::Problem;
use std::alloc::Global;

/// The verdict for this number of steps, which is at least 1. No point has variables or conditions, which `are_ground` tells, and no
/// left cut is one of undefined states.
pub fn judge(alloc: Global, problem: &Problem, steps: u32) -> Result<VerdictKind, NoMemory>
    requires ground { All IsGroundPoint problem.now.points.points }
    requires no_undefined { problem.now.points.undefs ≡ [] }
    requires steps { 1 ≤ steps }
    ensures verdict { IfOk result (λ kind. IsVerdict problem.now steps (kind_of kind)) }

    // Where the relation is grounded, what can't be wrong is there: the runs from the related states meet the cut in time. Where it
    // is a simulation or a bisimulation, each cut successor has a related partner.
    ensures grounded { IfOk result (λ kind. IsGroundedKind kind → IsWellGrounded problem.now steps) }
    ensures simulated { IfOk result (λ kind. IsSimulationKind kind → IsMatchedSimulation problem.now) }
    ensures matched { IfOk result (λ kind. kind ≡ VerdictKind.Equivalent → IsMatchedBisimulation problem.now) }
{
    let points = problem.points.points.as_slice();
    let mut unmatched = None;
    let mut refined = None;
    for place in 0..points.len() {
        match examine(alloc, problem, &points[place], steps)? {
            Finding::Ungrounded(test) => return Ok(VerdictKind::NotGrounded { point: place, test }),
            Finding::Grounded {
                right_fails,
                left_fails,
            } => {
                unmatched = unmatched.or(right_fails.then_some(place));
                refined = refined.or(left_fails.then_some(place));
            }
        }
    }
    Ok(match (unmatched, refined) {
        (Some(point), _) => VerdictKind::Unmatched { point },
        (None, Some(point)) => VerdictKind::Refines { point },
        (None, None) => VerdictKind::Equivalent,
    })
}
