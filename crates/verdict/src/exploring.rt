//! Both sides of a point are searched up to the cut.
ghost use Rattle.std.specs.Prelude.{◌≡◌, IfOk};
ghost use Rattle.data_value.specs.Nodes.{Extends};
ghost use Rattle.data_value.specs.Truth.{IsCondition};
ghost use Rattle.sort_term.specs.Problems.{AreCuts, IsProgram};
ghost use Rattle.sort_term.specs.NodeTerms.{seen_term};
ghost use Rattle.unify.specs.Branches.{IsConfiguration};
ghost use Rattle.point_questions.specs.Posed.{seen_posed};
ghost use Rattle.point_questions.specs.Questions.{seen_side, seen_point};
ghost use Rattle.verdict.specs.Explored.{IsExploredSide, AreExplored};

use cut_search::{Reach, search};
use data_value::Symbolic;
use no_memory::NoMemory;
use point_questions::{PosedPoint, SearchedPoint, SearchedSide};
use sort_term::{Config, Cuts, Problem, Program, Semantics, Side};
use std::alloc::Global;

/// A point with both sides searched up to this number of steps.
pub(crate) fn explored<D: Symbolic>(
    alloc: Global,
    d: &mut D,
    problem: &Problem,
    posed: PosedPoint<D::Node>,
    steps: u32,
) -> Result<SearchedPoint<D::Node>, NoMemory>
    requires condition { IsCondition (D.look d.old posed.condition) }
    requires left { IsConfiguration problem.now.left (seen_term (D.look d.old) posed.left.term) }
    requires right { IsConfiguration problem.now.right (seen_term (D.look d.old) posed.right.term) }
    ensures extends { Extends (D.look d.old) (D.look d.new) }
    ensures same_variables { D.variables d.new ≡ D.variables d.old }
    ensures explored { IfOk result
        (λ x. AreExplored problem.now steps (D.variables d.old) (seen_posed (D.look d.old) posed) (seen_point (D.look d.new) x)) }
{
    let PosedPoint {
        condition,
        left,
        right,
    } = posed;
    let points = &problem.points;
    let left = explored_side(
        alloc,
        d,
        &problem.left,
        &problem.left_program,
        &points.left_cuts,
        left,
        &condition,
        steps,
    )?;
    let right = explored_side(
        alloc,
        d,
        &problem.right,
        &problem.right_program,
        &points.right_cuts,
        right,
        &condition,
        steps,
    )?;
    Ok(SearchedPoint {
        condition,
        left,
        right,
    })
}

// The same of one side.
fn explored_side<S: Side, D: Symbolic>(
    alloc: Global,
    d: &mut D,
    semantics: &Semantics<S>,
    program: &Program<S>,
    cuts: &Cuts<S>,
    start: Config<S, D::Node>,
    condition: &D::Node,
    steps: u32,
) -> Result<SearchedSide<S, D::Node>, NoMemory>
    requires program { IsProgram semantics.now program.now }
    requires cuts { AreCuts semantics.now cuts.now }
    requires start { IsConfiguration semantics.now (seen_term (D.look d.old) start.term) }
    requires condition { IsCondition (D.look d.old condition.now) }
    ensures extends { Extends (D.look d.old) (D.look d.new) }
    ensures same_variables { D.variables d.new ≡ D.variables d.old }
    ensures explored { IfOk result
        (λ x. IsExploredSide semantics.now program.now cuts.now steps (D.variables d.old) (D.look d.old condition.now)
        (seen_term (D.look d.old) start.term) (seen_side (D.look d.new) x)) }
{
    let Reach {
        met,
        long,
        halted,
        dropped,
    } = search(alloc, d, semantics, program, cuts, &start, condition, steps)?;
    drop(dropped);
    Ok(SearchedSide {
        start,
        met,
        long,
        halted,
    })
}
