//! What is found of a point.
ghost use Rattle.std.specs.Prelude.{◌≡◌, ℕ, ◌<◌, ◌≤◌, [], IfOk, MatchOption, length};
ghost use Rattle.sort_term.specs.Verdict.{unmatched};
ghost use Rattle.ground_step.specs.Shows.{Witness};
ghost use Rattle.point_questions.specs.Posed.{seen_posed};
ghost use Rattle.point_questions.specs.Questions.{seen_point};
ghost use Rattle.verdict.specs.Examined.{IsPosedHeld, IsInside, IsGroundedPoint, IsExcusedPoint};
ghost use Rattle.verdict.specs.Findings.{Finds, FindsPartners, IsMissing, IsRightMissing, IsLeftMissing};
ghost use Rattle.verdict.specs.Kinds.{kind_at};
ghost use Rattle.verdict.specs.Shown.{IsShownByLeaf};

use crate::deciding::{FoundFlaw, first_true};
use crate::exploring::explored;
use crate::showing::{leaf_rules, shown, verdict_of};
use crate::standing::{Finding, Partners, Standing};
use data_value::Symbolic;
use ground_step::{Failure, Verdict};
use no_memory::NoMemory;
use point_questions::{
    PosedPoint, SearchedPoint, left_failures, outside_questions, posed, right_failures,
    right_misses, run_questions,
};
use prover::{Answer, decide};
use sort_term::{Problem, RuleId};
use std::alloc::Global;

/// What is found of the point with this number, over a domain without variables, where the relation stands so as far as the points before
/// say. No more is asked than the verdict needs.
pub(crate) fn examine<D: Symbolic>(
    alloc: Global,
    d: &mut D,
    problem: &Problem,
    place: usize,
    steps: u32,
    standing: &Standing,
) -> Result<Finding, NoMemory>
    requires none { D.variables d.old ≡ [] }
    requires there { place < length problem.now.points.points }
    requires steps { 1 ≤ steps }
    ensures { IfOk result (Finds problem.now steps place standing.now) }
{
    let point = &problem.points.points.as_slice()[place];
    let posed = posed(alloc, d, problem, point)?;
    match decide(alloc, d, &posed.condition)? {
        Answer::Never => Ok(Finding::Ungrounded(Verdict::Void { point: place })),
        Answer::Holds(_) => Ok(examine_held(alloc, d, problem, place, steps, standing, posed)?),
    }
}

// The same of a point whose condition some valuation makes true.
fn examine_held<D: Symbolic>(
    alloc: Global,
    d: &mut D,
    problem: &Problem,
    place: usize,
    steps: u32,
    standing: &Standing,
    posed: PosedPoint<D::Node>,
) -> Result<Finding, NoMemory>
    requires steps { 1 ≤ steps }
    requires posed { IsPosedHeld problem.now place (D.variables d.old) (seen_posed (D.look d.old) posed) }
    ensures { IfOk result (Finds problem.now steps place standing.now) }
{
    let questions = outside_questions(alloc, d, problem, &posed)?;
    match first_true(alloc, d, questions.as_slice())? {
        Some(found) => {
            let none: [RuleId; 0] = [];
            let failure = shown(alloc, problem, place, &found, &none)?;
            Ok(Finding::Ungrounded(verdict_of(found.flaw, failure)))
        }
        None => {
            let point = explored(alloc, d, problem, posed, steps)?;
            Ok(examine_inside(alloc, d, problem, place, steps, standing, &point)?)
        }
    }
}

// The same of a point whose states are in their cuts, with both sides searched.
fn examine_inside<D: Symbolic>(
    alloc: Global,
    d: &mut D,
    problem: &Problem,
    place: usize,
    steps: u32,
    standing: &Standing,
    point: &SearchedPoint<D::Node>,
) -> Result<Finding, NoMemory>
    requires steps { 1 ≤ steps }
    requires inside { IsInside problem.now steps place (D.variables d.old) (seen_point (D.look d.old) point.now) }
    ensures { IfOk result (Finds problem.now steps place standing.now) }
{
    let questions = run_questions(alloc, d, point)?;
    match first_true(alloc, d, questions.as_slice())? {
        Some(found) => {
            let failure = leaf_failure(alloc, problem, place, point, &found)?;
            Ok(Finding::Ungrounded(verdict_of(found.flaw, failure)))
        }
        None => {
            let found = examine_grounded(alloc, d, problem, place, steps, standing, point)?;
            Ok(Finding::Grounded(found))
        }
    }
}

// The same of a point that is grounded.
fn examine_grounded<D: Symbolic>(
    alloc: Global,
    d: &mut D,
    problem: &Problem,
    place: usize,
    steps: u32,
    standing: &Standing,
    point: &SearchedPoint<D::Node>,
) -> Result<Partners, NoMemory>
    requires steps { 1 ≤ steps }
    requires grounded { IsGroundedPoint problem.now steps place (D.variables d.old) (seen_point (D.look d.old) point.now) }
    ensures { IfOk result (FindsPartners problem.now steps place standing.now) }
{
    if let Standing::Failed(_) = standing {
        return Ok(Partners::Sound);
    }
    match right_failed(alloc, d, problem, place, steps, point)? {
        Some(failure) => return Ok(Partners::Fail(failure)),
        None => {}
    }
    if let Standing::Missed(_) = standing {
        return Ok(Partners::Sound);
    }
    match missed(alloc, d, problem, place, steps, point)? {
        Some(failure) => Ok(Partners::Miss(failure)),
        None => Ok(Partners::Sound),
    }
}

// The failure that shows that the right fails; None where it doesn't.
fn right_failed<D: Symbolic>(
    alloc: Global,
    d: &mut D,
    problem: &Problem,
    place: usize,
    steps: u32,
    point: &SearchedPoint<D::Node>,
) -> Result<Option<Failure>, NoMemory>
    requires steps { 1 ≤ steps }
    requires grounded { IsGroundedPoint problem.now steps place (D.variables d.old) (seen_point (D.look d.old) point.now) }
    ensures failed { IfOk result
        (λ o. MatchOption o (IsExcusedPoint problem.now steps place (D.variables d.new) (seen_point (D.look d.new) point.now))
        (Witness problem.now steps (unmatched place))) }
{
    let questions = right_failures(alloc, d, problem, point)?;
    match first_true(alloc, d, questions.as_slice())? {
        Some(found) => Ok(Some(leaf_failure(alloc, problem, place, point, &found)?)),
        None => Ok(None),
    }
}

// The failure that shows that some cut successor has no partner, the right side first; None where each has one.
fn missed<D: Symbolic>(
    alloc: Global,
    d: &mut D,
    problem: &Problem,
    place: usize,
    steps: u32,
    point: &SearchedPoint<D::Node>,
) -> Result<Option<Failure>, NoMemory>
    requires steps { 1 ≤ steps }
    requires excused { IsExcusedPoint problem.now steps place (D.variables d.old) (seen_point (D.look d.old) point.now) }
    ensures { IfOk result (IsMissing problem.now steps place) }
{
    match right_missed(alloc, d, problem, place, steps, point)? {
        Some(failure) => Ok(Some(failure)),
        None => Ok(left_missed(alloc, d, problem, place, steps, point)?),
    }
}

// The failure that shows that a right cut successor has no partner; None where each has one. Without undefined items no undefined state
// excuses one, so there is nothing to ask.
fn right_missed<D: Symbolic>(
    alloc: Global,
    d: &mut D,
    problem: &Problem,
    place: usize,
    steps: u32,
    point: &SearchedPoint<D::Node>,
) -> Result<Option<Failure>, NoMemory>
    requires steps { 1 ≤ steps }
    requires excused { IsExcusedPoint problem.now steps place (D.variables d.old) (seen_point (D.look d.old) point.now) }
    ensures point { IfOk result (λ o. IsGroundedPoint problem.now steps place (D.variables d.new) (seen_point (D.look d.new) point.now)) }
    ensures missing { IfOk result (IsRightMissing problem.now steps place) }
{
    if problem.points.undefs.is_empty() {
        return Ok(None);
    }
    let questions = right_misses(alloc, d, problem, point)?;
    match first_true(alloc, d, questions.as_slice())? {
        Some(found) => Ok(Some(leaf_failure(alloc, problem, place, point, &found)?)),
        None => Ok(None),
    }
}

// The failure that shows that a left cut successor has no partner; None where each has one.
fn left_missed<D: Symbolic>(
    alloc: Global,
    d: &mut D,
    problem: &Problem,
    place: usize,
    steps: u32,
    point: &SearchedPoint<D::Node>,
) -> Result<Option<Failure>, NoMemory>
    requires steps { 1 ≤ steps }
    requires grounded { IsGroundedPoint problem.now steps place (D.variables d.old) (seen_point (D.look d.old) point.now) }
    ensures { IfOk result (IsLeftMissing problem.now steps place) }
{
    let questions = left_failures(alloc, d, problem, point)?;
    match first_true(alloc, d, questions.as_slice())? {
        Some(found) => Ok(Some(leaf_failure(alloc, problem, place, point, &found)?)),
        None => Ok(None),
    }
}

// The failure that a flaw's leaf shows.
fn leaf_failure<N: Drop>(
    alloc: Global,
    problem: &Problem,
    place: usize,
    point: &SearchedPoint<N>,
    found: &FoundFlaw,
) -> Result<Failure, NoMemory>
    requires shown { (n : ℕ) × IsShownByLeaf problem.now n place point.now found.now }
    ensures witness { IfOk result
        (λ f. (n : ℕ) → IsShownByLeaf problem.now n place point.now found.now → Witness problem.now n (kind_at place found.now.flaw) f) }
{
    let rules = leaf_rules(point, found.flaw);
    Ok(shown(alloc, problem, place, found, rules)?)
}
