// Leaves that end without a next step.
ghost use Rattle.std.specs.Prelude.{◌≡◌, ◌∷◌, [], length, IfOk, IsTrue, All};
ghost use Rattle.data_value.specs.Nodes.{Extends};
ghost use Rattle.data_value.specs.Truth.{IsCondition};
ghost use Rattle.sort_term.specs.System.{System};
ghost use Rattle.sort_term.specs.Problems.{IsProgram};
ghost use Rattle.sort_term.specs.Step.{StepsBy};
ghost use Rattle.sort_term.specs.NodeTerms.{seen_term, is_valid_term};
ghost use Rattle.path_condition.specs.Leaves.{seen_leaf, seen_leaves, IsLeaf, Says, Gives, AreLeaves};
ghost use Rattle.symbolic_step.specs.OneStep.{StepsFrom, IsStuckWhere};
ghost use Rattle.cut_search.specs.Drops.{AreAnswered};
ghost use Rattle.cut_search.specs.Found.{under, seen_reach, IsReach, MovedOf, StopsOf, judged_by, conditions_of};

use crate::drops::Drops;
use crate::reach::{Reach, joined, nothing};
use crate::sifting::{Sifted, sift};
use data_value::Symbolic;
use no_memory::NoMemory;
use path_condition::{Leaf, Path};
use sort_term::{Program, Semantics, Side};
use sqlite_items::Items;
use std::alloc::Global;
use symbolic_step::{Next, step};

/// The leaves that can make no step, but those that have made none.
pub(crate) fn halt_all<S: Side, D: Symbolic, J: Drops<D>>(
    alloc: Global,
    d: &mut D,
    judge: &mut J,
    answers: &mut Vec<bool>,
    semantics: &Semantics<S>,
    program: &Program<S>,
    leaves: &[Leaf<S, D::Node>],
) -> Result<Reach<S, D::Node>, NoMemory>
    requires program { IsProgram semantics.now program.now }
    requires leaves { All (IsLeaf semantics.now) (seen_leaves (D.look d.old) leaves.now) }
    ensures extends { Extends (D.look d.old) (D.look d.new) }
    ensures same_variables { D.variables d.new ≡ D.variables d.old }
    ensures reach { IfOk result
        (λ r. IsReach (D.variables d.old) semantics.now (judged_by J.Allows J.Keeps (D.variables d.old) (conditions_of (D.look d.old) leaves.now))
        (StopsOf (StepsBy semantics.now program.now) (λ v rules t. Gives v rules t (seen_leaves (D.look d.old) leaves.now)))
        (seen_reach (D.look d.new) r)) }
    ensures answered { IfOk result (λ r. AreAnswered answers.old.items answers.new.items (length r.dropped)) }
{
    let mut reach = nothing(alloc);
    for leaf in leaves {
        let more = halt_one(alloc, d, judge, answers, semantics, program, leaf)?;
        reach = joined(reach, more)?;
    }
    Ok(reach)
}

// The leaf, where it can make no step.
fn halt_one<S: Side, D: Symbolic, J: Drops<D>>(
    alloc: Global,
    d: &mut D,
    judge: &mut J,
    answers: &mut Vec<bool>,
    semantics: &Semantics<S>,
    program: &Program<S>,
    leaf: &Leaf<S, D::Node>,
) -> Result<Reach<S, D::Node>, NoMemory>
    requires program { IsProgram semantics.now program.now }
    requires leaf { IsLeaf semantics.now (seen_leaf (D.look d.old) leaf.now) }
    ensures extends { Extends (D.look d.old) (D.look d.new) }
    ensures same_variables { D.variables d.new ≡ D.variables d.old }
    ensures reach { IfOk result
        (λ r. IsReach (D.variables d.old) semantics.now (judged_by J.Allows J.Keeps (D.variables d.old) (D.look d.old leaf.now.condition ∷ []))
        (StopsOf (StepsBy semantics.now program.now) (λ v rules t. Says v rules t (seen_leaf (D.look d.old) leaf.now)))
        (seen_reach (D.look d.new) r)) }
    ensures answered { IfOk result (λ r. AreAnswered answers.old.items answers.new.items (length r.dropped)) }
{
    let found = next(alloc, d, semantics, program, leaf)?;
    Ok(halt(alloc, d, judge, answers, leaf, found.stuck)?)
}

/// The leaf under another condition, if it has made a step.
pub(crate) fn halt<S: Side, D: Symbolic, J: Drops<D>>(
    alloc: Global,
    d: &mut D,
    judge: &mut J,
    answers: &mut Vec<bool>,
    leaf: &Leaf<S, D::Node>,
    stuck: D::Node,
) -> Result<Reach<S, D::Node>, NoMemory>
    requires leaf { IsCondition (D.look d.old leaf.now.condition) }
    requires state { IsTrue (is_valid_term (seen_term (D.look d.old) leaf.now.config.term)) }
    requires stuck { IsCondition (D.look d.old stuck) }
    ensures extends { Extends (D.look d.old) (D.look d.new) }
    ensures same_variables { D.variables d.new ≡ D.variables d.old }
    ensures reach { IfOk result
        (λ r. (sys : System) → IsLeaf sys (under (D.look d.old stuck) (seen_leaf (D.look d.old) leaf.now)) →
        IsReach (D.variables d.old) sys (judged_by J.Allows J.Keeps (D.variables d.old) (D.look d.old leaf.now.condition ∷ []))
        (MovedOf (λ v rules t. Says v rules t (under (D.look d.old stuck) (seen_leaf (D.look d.old) leaf.now))))
        (seen_reach (D.look d.new) r)) }
    ensures answered { IfOk result (λ r. AreAnswered answers.old.items answers.new.items (length r.dropped)) }
{
    let is_start = leaf.rules.is_empty();
    if is_start {
        return Ok(nothing(alloc));
    }
    let Sifted { kept, dropped } = sift(alloc, d, judge, answers, &leaf.condition, leaf, stuck)?;
    Ok(Reach {
        met: Items::new(alloc),
        long: Items::new(alloc),
        halted: kept,
        dropped,
    })
}

/// The steps from a leaf.
pub(crate) fn next<S: Side, D: Symbolic>(
    alloc: Global,
    d: &mut D,
    semantics: &Semantics<S>,
    program: &Program<S>,
    leaf: &Leaf<S, D::Node>,
) -> Result<Next<S, D::Node>, NoMemory>
    requires program { IsProgram semantics.now program.now }
    requires leaf { IsLeaf semantics.now (seen_leaf (D.look d.old) leaf.now) }
    ensures extends { Extends (D.look d.old) (D.look d.new) }
    ensures same_variables { D.variables d.new ≡ D.variables d.old }
    ensures leaves { IfOk result
        (λ n. AreLeaves (D.variables d.old) semantics.now
        (StepsFrom (StepsBy semantics.now program.now) (seen_leaf (D.look d.old) leaf.now))
        (seen_leaves (D.look d.new) n.leaves)) }
    ensures stuck { IfOk result
        (λ n. IsStuckWhere (D.variables d.old) (StepsBy semantics.now program.now) (seen_leaf (D.look d.old) leaf.now)
        (D.look d.new n.stuck)) }
{
    let condition = d.copy(&leaf.condition)?;
    let rules = Items::from_slice(alloc, leaf.rules.as_slice())?;
    let path = Path { condition, rules };
    step(alloc, d, semantics, program, &leaf.config, &path)
}
