//! Failures: the states of a point under values, and a run from one of them.
ghost use Rattle.std.specs.Prelude.{◌≡◌, IfOk, map};
ghost use Rattle.sort_term.specs.Tree.{Tree};
ghost use Rattle.sort_term.specs.Step.{IsState, StepsBy};
ghost use Rattle.sort_term.specs.Runs.{Ends, IsRun};
ghost use Rattle.sort_term.specs.Problems.{IsProgram};
ghost use Rattle.sort_term.specs.Relation.{of_side};
ghost use Rattle.ground_step.specs.Shows.{side_of, reached_side, reached_tree};
ghost use Rattle.verdict.specs.Failing.{HasRun, IsFailureBy, RunsTo};

use data_value::Valuation;
use ground_step::{Failure, Reached, SideName, replay, states_under};
use no_memory::NoMemory;
use sort_term::{Left, Problem, Program, Right, RuleId, Semantics, Side, State};
use sqlite_items::Items;
use std::alloc::Global;

/// The failure at a point, given by its number, under values for its variables, with the run of a side by these rules, which there is.
/// The only error is want of memory.
pub(crate) fn failure(
    alloc: Global,
    problem: &Problem,
    place: usize,
    side: SideName,
    values: Valuation,
    rules: &[RuleId],
) -> Result<Failure, NoMemory>
    requires run { HasRun problem.now place (side_of side) values (map (λ r. r.0) rules.now) }
    ensures is { IfOk result (IsFailureBy problem.now place (side_of side) values (map (λ r. r.0) rules.now)) }
{
    let point = &problem.points.points.as_slice()[place];
    let (left, right) = states_under(alloc, problem, point, values.as_slice())?;
    let reached = reached(alloc, problem, side, &left, &right, rules)?;
    Ok(Failure {
        point: place,
        side,
        values,
        left,
        right,
        rules: Items::from_slice(alloc, rules)?,
        reached,
    })
}

// The state that a run of a side leads to.
fn reached(
    alloc: Global,
    problem: &Problem,
    side: SideName,
    left: &State<Left>,
    right: &State<Right>,
    rules: &[RuleId],
) -> Result<Reached, NoMemory>
    requires left { IsState problem.now.left left.now.term }
    requires right { IsState problem.now.right right.now.term }
    requires run { (t : Tree) × RunsTo problem.now (side_of side) (of_side (side_of side) left.now.term right.now.term) (map (λ r. r.0) rules.now) t }
    ensures side { IfOk result (λ r. reached_side r ≡ side_of side) }
    ensures run { IfOk result
        (λ r. RunsTo problem.now (side_of side) (of_side (side_of side) left.now.term right.now.term) (map (λ r. r.0) rules.now)
        (reached_tree r)) }
{
    match side {
        SideName::Left => {
            let (semantics, program) = (&problem.left, &problem.left_program);
            let last = last_state(alloc, semantics, program, left, rules)?;
            Ok(Reached::Left(last))
        }
        SideName::Right => {
            let (semantics, program) = (&problem.right, &problem.right_program);
            let last = last_state(alloc, semantics, program, right, rules)?;
            Ok(Reached::Right(last))
        }
    }
}

// The last state of a run that there is.
fn last_state<S: Side>(
    alloc: Global,
    semantics: &Semantics<S>,
    program: &Program<S>,
    start: &State<S>,
    rules: &[RuleId],
) -> Result<State<S>, NoMemory>
    requires program { IsProgram semantics.now program.now }
    requires state { IsState semantics.now start.now.term }
    requires run { (t : Tree) × Ends (IsRun (StepsBy semantics.now program.now) start.now.term) start.now.term (map (λ r. r.0) rules.now) t }
    ensures { IfOk result
        (λ last. Ends (IsRun (StepsBy semantics.now program.now) start.now.term) start.now.term (map (λ r. r.0) rules.now) last.term) }
{
    match replay(alloc, semantics, program, start, rules)? {
        Some(last) => Ok(last),
        None => unreachable!(),
    }
}
