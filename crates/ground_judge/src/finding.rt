// What the runs from the two states of a point tell of it.
ghost use Rattle.std.specs.Prelude.{◌≡◌, ◌≤◌, [], All, IfOk, MatchOption};
ghost use Rattle.sort_term.specs.Problems.{IsPointOf};
ghost use Rattle.sort_term.specs.Step.{IsState};
ghost use Rattle.ground_step.specs.Reach.{EndsInState, runs_of};
ghost use Rattle.ground_judge.specs.Ground.{IsGroundPoint};
ghost use Rattle.ground_judge.specs.Found.{Finds, FindsOf, FirstEscape, NoEscape, TellsRuns};

use crate::ground::related_pair;
use crate::kind::FailedTest;
use crate::left_partners::are_lefts_matched;
use crate::right_partners::are_rights_matched;
use ground_step::{GroundReach, SideName, cut_successors, in_cut};
use no_memory::NoMemory;
use sort_term::{Left, Point, Problem, Right, State};
use std::alloc::Global;

/// What a point is found to be.
#[derive(Clone, Copy, Debug, PartialEq, Eq)]
pub enum Finding {
    /// It isn't grounded, and this is the first test that tells so.
    Ungrounded(FailedTest),
    /// It is grounded. On each side some cut successor has no partner, or all have one.
    Grounded { right_fails: bool, left_fails: bool },
}

/// Whether a point is grounded, and where it is, whether each cut successor has a partner.
pub fn examine(
    alloc: Global,
    problem: &Problem,
    point: &Point,
    steps: u32,
) -> Result<Finding, NoMemory>
    requires fits { IsPointOf problem.now.left problem.now.right point.now }
    requires ground { IsGroundPoint point.now }
    requires no_undefined { problem.now.points.undefs ≡ [] }
    requires steps { 1 ≤ steps }
    ensures { IfOk result (Finds problem.now steps point.now) }
{
    let (left, right) = related_pair(alloc, problem, point)?;
    let found = examine_pair(alloc, problem, &left, &right, steps);
    drop((left, right));
    found
}

// What each point is found to be whose only related pair these states are.
fn examine_pair(
    alloc: Global,
    problem: &Problem,
    left: &State<Left>,
    right: &State<Right>,
    steps: u32,
) -> Result<Finding, NoMemory>
    requires left { IsState problem.now.left left.now.term }
    requires right { IsState problem.now.right right.now.term }
    requires no_undefined { problem.now.points.undefs ≡ [] }
    requires steps { 1 ≤ steps }
    ensures { IfOk result (FindsOf problem.now steps left.now.term right.now.term) }
{
    if !in_cut(alloc, &problem.left, &problem.points.left_cuts, left)? {
        return Ok(Finding::Ungrounded(FailedTest::Outside(SideName::Left)));
    }
    if !in_cut(alloc, &problem.right, &problem.points.right_cuts, right)? {
        return Ok(Finding::Ungrounded(FailedTest::Outside(SideName::Right)));
    }
    let lefts = cut_successors(
        alloc,
        &problem.left,
        &problem.left_program,
        &problem.points.left_cuts,
        left,
        steps,
    )?;
    match cut_successors(
        alloc,
        &problem.right,
        &problem.right_program,
        &problem.points.right_cuts,
        right,
        steps,
    ) {
        Ok(rights) => {
            let found = examine_runs(alloc, problem, &lefts, &rights);
            drop((lefts, rights));
            found
        }
        Err(error) => {
            drop(lefts);
            Err(error)
        }
    }
}

// What the runs from both states tell.
fn examine_runs(
    alloc: Global,
    problem: &Problem,
    lefts: &GroundReach<Left>,
    rights: &GroundReach<Right>,
) -> Result<Finding, NoMemory>
    requires lefts { All (EndsInState problem.now.left) (runs_of lefts.now.met) }
    requires rights { All (EndsInState problem.now.right) (runs_of rights.now.met) }
    ensures { IfOk result (TellsRuns problem.now lefts.now rights.now) }
{
    if let Some(test) = first_escape(lefts, rights) {
        return Ok(Finding::Ungrounded(test));
    }
    let rights_matched = are_rights_matched(
        alloc,
        problem,
        lefts.met.as_slice(),
        rights.met.as_slice(),
    )?;
    let lefts_matched = are_lefts_matched(
        alloc,
        problem,
        lefts.met.as_slice(),
        rights.met.as_slice(),
    )?;
    Ok(Finding::Grounded {
        right_fails: !rights_matched,
        left_fails: !lefts_matched,
    })
}

// The first test that a long or a halted run tells, if there is such a run. It takes no memory.
fn first_escape(lefts: &GroundReach<Left>, rights: &GroundReach<Right>) -> Option<FailedTest>
    ensures { MatchOption result (NoEscape lefts.now rights.now) (FirstEscape lefts.now rights.now) }
{
    if !lefts.long.is_empty() {
        return Some(FailedTest::Long(SideName::Left));
    }
    if !rights.long.is_empty() {
        return Some(FailedTest::Long(SideName::Right));
    }
    if !lefts.halted.is_empty() {
        return Some(FailedTest::Halted(SideName::Left));
    }
    if !rights.halted.is_empty() {
        return Some(FailedTest::Halted(SideName::Right));
    }
    None
}
