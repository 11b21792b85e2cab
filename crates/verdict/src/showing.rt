//! From a flaw that some values show to the failure that shows it.
ghost use Rattle.std.specs.Prelude.{◌≡◌, ℕ, ◌≤◌, IfOk, IsSome, Some, length, map, option_map, slice_get, take};
ghost use Rattle.ground_step.specs.Shows.{side_of, Witness};
ghost use Rattle.point_questions.specs.Questions.{flaw_side};
ghost use Rattle.verdict.specs.Kinds.{kind_at};
ghost use Rattle.verdict.specs.Shown.{IsShownAt, rules_there, verdict_by};

use crate::deciding::FoundFlaw;
use crate::failing::failure;
use data_value::{Valuation, Value, copy_value};
use ground_step::{Failure, SideName, Verdict};
use no_memory::NoMemory;
use path_condition::Leaf;
use point_questions::{Flaw, SearchedPoint};
use sort_term::{Problem, RuleId, Side};
use sqlite_items::Items;
use std::alloc::Global;

/// The failure at a point, given by its number, that shows a flaw by a run with these rules.
pub(crate) fn shown(
    alloc: Global,
    problem: &Problem,
    place: usize,
    found: &FoundFlaw,
    rules: &[RuleId],
) -> Result<Failure, NoMemory>
    requires shown { (n : ℕ) × IsShownAt problem.now n place found.now.flaw found.now.values (map (λ r. r.0) rules.now) }
    ensures witness { IfOk result
        (λ f. (n : ℕ) → IsShownAt problem.now n place found.now.flaw found.now.values (map (λ r. r.0) rules.now) →
        Witness problem.now n (kind_at place found.now.flaw) f) }
{
    let count = problem.points.points.as_slice()[place].vars.len();
    let values = first_values(alloc, found.values.as_slice(), count)?;
    Ok(failure(
        alloc,
        problem,
        place,
        side_of_flaw(found.flaw),
        values,
        rules,
    )?)
}

// The first of some values.
fn first_values(alloc: Global, values: &[Value], count: usize) -> Result<Valuation, NoMemory>
    requires { count ≤ length values.now }
    ensures { IfOk result (λ v. v ≡ take count values.now) }
{
    let mut first = Items::new(alloc);
    for place in 0..count {
        first.push(copy_value(alloc, &values[place])?)?;
    }
    Ok(first)
}

// The side of the run of a flaw.
fn side_of_flaw(flaw: Flaw) -> SideName
    ensures { side_of result ≡ flaw_side flaw }
{
    match flaw {
        Flaw::Outside(side) => side,
        Flaw::Long(side, _) => side,
        Flaw::Halted(side, _) => side,
        Flaw::RightFails(_) => SideName::Right,
        Flaw::RightMisses(_) => SideName::Right,
        Flaw::LeftFails(_) => SideName::Left,
    }
}

/// The rules of a flaw's leaf.
pub(crate) fn leaf_rules<N: Drop>(point: &SearchedPoint<N>, flaw: Flaw) -> &[RuleId]
    requires { IsSome (rules_there point.now flaw) }
    ensures { rules_there point.now flaw ≡ Some result.now }
{
    match flaw {
        Flaw::Outside(_) => unreachable!(),
        Flaw::Long(SideName::Left, place) => rules_at(point.left.long.as_slice(), place),
        Flaw::Long(SideName::Right, place) => rules_at(point.right.long.as_slice(), place),
        Flaw::Halted(SideName::Left, place) => rules_at(point.left.halted.as_slice(), place),
        Flaw::Halted(SideName::Right, place) => rules_at(point.right.halted.as_slice(), place),
        Flaw::RightFails(place) => rules_at(point.right.met.as_slice(), place),
        Flaw::RightMisses(place) => rules_at(point.right.met.as_slice(), place),
        Flaw::LeftFails(place) => rules_at(point.left.met.as_slice(), place),
    }
}

// The rules of a leaf.
fn rules_at<S: Side, N: Drop>(leaves: &[Leaf<S, N>], place: usize) -> &[RuleId]
    requires { IsSome (option_map (λ l. l.rules) (slice_get leaves.now place)) }
    ensures { option_map (λ l. l.rules) (slice_get leaves.now place) ≡ Some result.now }
{
    leaves[place].rules.as_slice()
}

/// The verdict that a flaw gives with its failure.
pub(crate) fn verdict_of(flaw: Flaw, failure: Failure) -> Verdict
    ensures { result ≡ verdict_by flaw failure }
{
    match flaw {
        Flaw::Outside(_) => Verdict::Outside(failure),
        Flaw::Long(..) => Verdict::Long(failure),
        Flaw::Halted(..) => Verdict::Halted(failure),
        Flaw::RightFails(_) => Verdict::Unmatched(failure),
        Flaw::RightMisses(_) => Verdict::Refines(failure),
        Flaw::LeftFails(_) => Verdict::Refines(failure),
    }
}
