//! Questions whether a run up to the cut has no partner on the other side.
//!
//! Each has further variables, the probe keys of `pair_match`. A question speaks of the point's variables alone: so it does of the first
//! variables of the domain over which the leaves are.
ghost use Rattle.std.specs.Prelude.{◌≡◌, All, IfOk, List};
ghost use Rattle.data_value.specs.declared.DataSort.{DataSort};
ghost use Rattle.data_value.specs.Nodes.{Extends};
ghost use Rattle.data_value.specs.Views.{BeginsWith};
ghost use Rattle.path_condition.specs.Leaves.{seen_leaves, IsLeaf};
ghost use Rattle.point_questions.specs.Questions.{seen_point, seen_questions, IsRightFailure, IsRightMiss, IsLeftFailure, AreQuestions};
ghost use Rattle.point_questions.specs.Lists.{IsOver};

use crate::question::{Flaw, Question, Questions};
use crate::searched::SearchedPoint;
use data_value::Symbolic;
use no_memory::NoMemory;
use pair_match::{left_unmatched, right_failed, right_unmatched};
use sort_term::Problem;
use sqlite_items::Items;
use std::alloc::Global;

/// For each met leaf of the right, whether no left leaf is related to it or undefined. The only error is want of memory.
pub fn right_failures<D: Symbolic>(
    alloc: Global,
    d: &mut D,
    problem: &Problem,
    point: &SearchedPoint<D::Node>,
) -> Result<Questions<D::Node>, NoMemory>
    requires left { All (IsLeaf problem.now.left) (seen_leaves (D.look d.old) point.now.left.met) }
    requires right { All (IsLeaf problem.now.right) (seen_leaves (D.look d.old) point.now.right.met) }
    ensures extends { Extends (D.look d.old) (D.look d.new) }
    ensures begins { BeginsWith (D.variables d.new) (D.variables d.old) }
    ensures asked { IfOk result
        (λ xs. (variables : List DataSort) → IsOver variables (D.variables d.old) (seen_point (D.look d.old) point.now) →
        AreQuestions IsRightFailure problem.now variables (D.variables d.new) (seen_point (D.look d.old) point.now)
        (seen_questions (D.look d.new) xs)) }
{
    let mut questions = Items::new(alloc);
    let others = point.left.met.as_slice();
    for place in 0..point.right.met.len() {
        let leaf = &point.right.met.as_slice()[place];
        let formula = right_failed(alloc, d, problem, leaf, others)?;
        let flaw = Flaw::RightFails(place);
        questions.push(Question { flaw, formula })?;
    }
    Ok(questions)
}

/// For each met leaf of the right, whether no left leaf is related to it. The only error is want of memory.
pub fn right_misses<D: Symbolic>(
    alloc: Global,
    d: &mut D,
    problem: &Problem,
    point: &SearchedPoint<D::Node>,
) -> Result<Questions<D::Node>, NoMemory>
    requires left { All (IsLeaf problem.now.left) (seen_leaves (D.look d.old) point.now.left.met) }
    requires right { All (IsLeaf problem.now.right) (seen_leaves (D.look d.old) point.now.right.met) }
    ensures extends { Extends (D.look d.old) (D.look d.new) }
    ensures begins { BeginsWith (D.variables d.new) (D.variables d.old) }
    ensures asked { IfOk result
        (λ xs. (variables : List DataSort) → IsOver variables (D.variables d.old) (seen_point (D.look d.old) point.now) →
        AreQuestions IsRightMiss problem.now variables (D.variables d.new) (seen_point (D.look d.old) point.now)
        (seen_questions (D.look d.new) xs)) }
{
    let mut questions = Items::new(alloc);
    let others = point.left.met.as_slice();
    for place in 0..point.right.met.len() {
        let leaf = &point.right.met.as_slice()[place];
        let formula = right_unmatched(alloc, d, problem, leaf, others)?;
        let flaw = Flaw::RightMisses(place);
        questions.push(Question { flaw, formula })?;
    }
    Ok(questions)
}

/// For each met leaf of the left, whether no right leaf is related to it. The only error is want of memory.
pub fn left_failures<D: Symbolic>(
    alloc: Global,
    d: &mut D,
    problem: &Problem,
    point: &SearchedPoint<D::Node>,
) -> Result<Questions<D::Node>, NoMemory>
    requires left { All (IsLeaf problem.now.left) (seen_leaves (D.look d.old) point.now.left.met) }
    requires right { All (IsLeaf problem.now.right) (seen_leaves (D.look d.old) point.now.right.met) }
    ensures extends { Extends (D.look d.old) (D.look d.new) }
    ensures begins { BeginsWith (D.variables d.new) (D.variables d.old) }
    ensures asked { IfOk result
        (λ xs. (variables : List DataSort) → IsOver variables (D.variables d.old) (seen_point (D.look d.old) point.now) →
        AreQuestions IsLeftFailure problem.now variables (D.variables d.new) (seen_point (D.look d.old) point.now)
        (seen_questions (D.look d.new) xs)) }
{
    let mut questions = Items::new(alloc);
    let others = point.right.met.as_slice();
    for place in 0..point.left.met.len() {
        let leaf = &point.left.met.as_slice()[place];
        let formula = left_unmatched(alloc, d, problem, leaf, others)?;
        let flaw = Flaw::LeftFails(place);
        questions.push(Question { flaw, formula })?;
    }
    Ok(questions)
}
