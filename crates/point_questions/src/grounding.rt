//! Questions whether the states of a point aren't in their cuts, and whether runs stay outside of them or stop there.
ghost use Rattle.std.specs.Prelude.{◌≡◌, ◌++◌, All, IfOk, OnOk};
ghost use Rattle.data_value.specs.Nodes.{Extends};
ghost use Rattle.data_value.specs.Truth.{truth, IsCondition};
ghost use Rattle.sort_term.specs.declared.problem.Problem.{Problem as ProblemOf};
ghost use Rattle.sort_term.specs.Cuts.{InCut};
ghost use Rattle.sort_term.specs.Problems.{AreCuts};
ghost use Rattle.sort_term.specs.NodeTerms.{seen_term, tree_of};
ghost use Rattle.unify.specs.Branches.{IsConfiguration};
ghost use Rattle.path_condition.specs.Leaves.{seen_leaves};
ghost use Rattle.probe_keys.specs.Probed.{IsProbed};
ghost use Rattle.point_questions.specs.Posed.{seen_posed};
ghost use Rattle.point_questions.specs.Questions.{seen_point, unsearched, seen_questions, IsOutsideFlaw, IsRunFlaw, AreQuestions};
ghost use Rattle.point_questions.specs.Lists.{HaveConditions, numbered, run_flaw};

use crate::posing::PosedPoint;
use crate::question::{Flaw, Question, Questions};
use crate::searched::SearchedPoint;
use cut_cover::outside;
use data_value::conditions::both;
use data_value::{Domain, Symbolic};
use ground_step::SideName;
use no_memory::NoMemory;
use path_condition::Leaf;
use sort_term::{Config, Cuts, Problem, Semantics, Side};
use sqlite_items::Items;
use std::alloc::Global;

/// The questions whether the left state of a point isn't in its cut, and whether the right one isn't. The only error is want of memory.
pub fn outside_questions<D: Domain>(
    alloc: Global,
    d: &mut D,
    problem: &Problem,
    point: &PosedPoint<D::Node>,
) -> Result<Questions<D::Node>, NoMemory>
    requires condition { IsCondition (D.look d.old point.now.condition) }
    requires left { IsConfiguration problem.now.left (seen_term (D.look d.old) point.now.left.term) }
    requires right { IsConfiguration problem.now.right (seen_term (D.look d.old) point.now.right.term) }
    ensures extends { Extends (D.look d.old) (D.look d.new) }
    ensures same_variables { D.variables d.new ≡ D.variables d.old }
    ensures asked { IfOk result
        (λ xs. AreQuestions IsOutsideFlaw problem.now (D.variables d.old) (D.variables d.old)
        (unsearched (seen_posed (D.look d.old) point.now)) (seen_questions (D.look d.new) xs)) }
{
    let points = &problem.points;
    let mut questions = Items::new(alloc);
    let formula = outside_where(
        alloc,
        d,
        &problem.left,
        &points.left_cuts,
        &point.left,
        &point.condition,
    )?;
    questions.push(Question {
        flaw: Flaw::Outside(SideName::Left),
        formula,
    })?;
    let formula = outside_where(
        alloc,
        d,
        &problem.right,
        &points.right_cuts,
        &point.right,
        &point.condition,
    )?;
    questions.push(Question {
        flaw: Flaw::Outside(SideName::Right),
        formula,
    })?;
    Ok(questions)
}

/// A formula that says of a configuration that a condition is true and the configuration isn't in its cut. The only error is want of
/// memory.
pub fn outside_where<S: Side, D: Domain>(
    alloc: Global,
    d: &mut D,
    semantics: &Semantics<S>,
    cuts: &Cuts<S>,
    config: &Config<S, D::Node>,
    condition: &D::Node,
) -> Result<D::Node, NoMemory>
    requires cuts { AreCuts semantics.now cuts.now }
    requires config { IsConfiguration semantics.now (seen_term (D.look d.old) config.now.term) }
    requires condition { IsCondition (D.look d.old condition.now) }
    ensures extends { Extends (D.look d.old) (D.look d.new) }
    ensures same_variables { D.variables d.new ≡ D.variables d.old }
    ensures outside { IfOk result
        (λ n. IsProbed (D.variables d.old) (D.variables d.old) (truth (D.look d.old condition.now))
        (λ v. InCut semantics.now.cons cuts.now (tree_of v (seen_term (D.look d.old) config.now.term))) (D.look d.new n)) }
{
    let elsewhere = outside(alloc, d, semantics, cuts, config)?;
    Ok(both(alloc, d, condition, &elsewhere)?)
}

/// The questions whether some run from the states of a point stays outside its cut or stops there: those of the long leaves, the left ones
/// first, and then those of the halted leaves. The only error is want of memory.
pub fn run_questions<D: Symbolic>(
    alloc: Global,
    d: &D,
    point: &SearchedPoint<D::Node>,
) -> Result<Questions<D::Node>, NoMemory>
    requires left_long { HaveConditions (seen_leaves (D.look d.now) point.now.left.long) }
    requires right_long { HaveConditions (seen_leaves (D.look d.now) point.now.right.long) }
    requires left_halted { HaveConditions (seen_leaves (D.look d.now) point.now.left.halted) }
    requires right_halted { HaveConditions (seen_leaves (D.look d.now) point.now.right.halted) }
    ensures asked { IfOk result
        (λ xs. (q : ProblemOf) → AreQuestions IsRunFlaw q (D.variables d.now) (D.variables d.now) (seen_point (D.look d.now) point.now)
        (seen_questions (D.look d.now) xs)) }
{
    let mut xs = Items::new(alloc);
    let left = SideName::Left;
    let right = SideName::Right;
    push_leaves(d, Escape::Long, left, point.left.long.as_slice(), &mut xs)?;
    push_leaves(d, Escape::Long, right, point.right.long.as_slice(), &mut xs)?;
    push_leaves(
        d,
        Escape::Halted,
        left,
        point.left.halted.as_slice(),
        &mut xs,
    )?;
    push_leaves(
        d,
        Escape::Halted,
        right,
        point.right.halted.as_slice(),
        &mut xs,
    )?;
    Ok(xs)
}

// How a run doesn't come to the cut.
#[derive(Clone, Copy)]
enum Escape {
    Long,
    Halted,
}

// Appends a question for each leaf of one side: whether it holds.
fn push_leaves<S: Side, D: Domain>(
    d: &D,
    escape: Escape,
    side: SideName,
    leaves: &[Leaf<S, D::Node>],
    questions: &mut Questions<D::Node>,
) -> Result<(), NoMemory>
    requires { HaveConditions (seen_leaves (D.look d.now) leaves.now) }
    ensures { OnOk result
        (seen_questions (D.look d.now) questions.new
        ≡ seen_questions (D.look d.now) questions.old ++ numbered (run_flaw escape side) 0 (seen_leaves (D.look d.now) leaves.now)) }
{
    for place in 0..leaves.len() {
        let formula = d.copy(&leaves[place].condition)?;
        let flaw = flaw_of(escape, side, place);
        questions.push(Question { flaw, formula })?;
    }
    Ok(())
}

// The flaw that a leaf shows.
fn flaw_of(escape: Escape, side: SideName, place: usize) -> Flaw
    ensures { result ≡ run_flaw escape side place }
{
    match escape {
        Escape::Long => Flaw::Long(side, place),
        Escape::Halted => Flaw::Halted(side, place),
    }
}
