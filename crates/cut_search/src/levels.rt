// One step more from leaves.
ghost use Rattle.std.specs.Prelude.{◌≡◌, ◌∷◌, [], length, IfOk, All};
ghost use Rattle.data_value.specs.Nodes.{Extends};
ghost use Rattle.sort_term.specs.Problems.{AreCuts, IsProgram};
ghost use Rattle.sort_term.specs.Step.{StepsBy};
ghost use Rattle.sort_term.specs.Cuts.{InCut};
ghost use Rattle.path_condition.specs.Leaves.{seen_leaf, seen_leaves, IsLeaf, Says, Gives};
ghost use Rattle.cut_search.specs.Drops.{AreAnswered};
ghost use Rattle.cut_search.specs.Found.{seen_reach, IsReach, NextOf, judged_by, conditions_of};

use crate::drops::Drops;
use crate::halting::{halt, next};
use crate::reach::{Reach, joined, nothing};
use crate::splitting::split_all;
use data_value::Symbolic;
use no_memory::NoMemory;
use path_condition::Leaf;
use sort_term::{Cuts, Program, Semantics, Side};
use std::alloc::Global;
use symbolic_step::Next;

/// Makes one step from each leaf.
pub(crate) fn level<S: Side, D: Symbolic, J: Drops<D>>(
    alloc: Global,
    d: &mut D,
    judge: &mut J,
    answers: &mut Vec<bool>,
    semantics: &Semantics<S>,
    program: &Program<S>,
    cuts: &Cuts<S>,
    leaves: &[Leaf<S, D::Node>],
) -> Result<Reach<S, D::Node>, NoMemory>
    requires program { IsProgram semantics.now program.now }
    requires cuts { AreCuts semantics.now cuts.now }
    requires leaves { All (IsLeaf semantics.now) (seen_leaves (D.look d.old) leaves.now) }
    ensures extends { Extends (D.look d.old) (D.look d.new) }
    ensures same_variables { D.variables d.new ≡ D.variables d.old }
    ensures reach { IfOk result
        (λ r. IsReach (D.variables d.old) semantics.now (judged_by J.Allows J.Keeps (D.variables d.old) (conditions_of (D.look d.old) leaves.now))
        (NextOf (StepsBy semantics.now program.now) (InCut semantics.now.cons cuts.now)
        (λ v rules t. Gives v rules t (seen_leaves (D.look d.old) leaves.now)))
        (seen_reach (D.look d.new) r)) }
    ensures answered { IfOk result (λ r. AreAnswered answers.old.items answers.new.items (length r.dropped)) }
{
    let mut reach = nothing(alloc);
    for leaf in leaves {
        let more = advance(alloc, d, judge, answers, semantics, program, cuts, leaf)?;
        reach = joined(reach, more)?;
    }
    Ok(reach)
}

// Makes one step from a leaf.
fn advance<S: Side, D: Symbolic, J: Drops<D>>(
    alloc: Global,
    d: &mut D,
    judge: &mut J,
    answers: &mut Vec<bool>,
    semantics: &Semantics<S>,
    program: &Program<S>,
    cuts: &Cuts<S>,
    leaf: &Leaf<S, D::Node>,
) -> Result<Reach<S, D::Node>, NoMemory>
    requires program { IsProgram semantics.now program.now }
    requires cuts { AreCuts semantics.now cuts.now }
    requires leaf { IsLeaf semantics.now (seen_leaf (D.look d.old) leaf.now) }
    ensures extends { Extends (D.look d.old) (D.look d.new) }
    ensures same_variables { D.variables d.new ≡ D.variables d.old }
    ensures reach { IfOk result
        (λ r. IsReach (D.variables d.old) semantics.now (judged_by J.Allows J.Keeps (D.variables d.old) (D.look d.old leaf.now.condition ∷ []))
        (NextOf (StepsBy semantics.now program.now) (InCut semantics.now.cons cuts.now)
        (λ v rules t. Says v rules t (seen_leaf (D.look d.old) leaf.now)))
        (seen_reach (D.look d.new) r)) }
    ensures answered { IfOk result (λ r. AreAnswered answers.old.items answers.new.items (length r.dropped)) }
{
    let Next { leaves, stuck } = next(alloc, d, semantics, program, leaf)?;
    let cut = split_all(
        alloc,
        d,
        judge,
        answers,
        semantics,
        cuts,
        &leaf.condition,
        leaves.as_slice(),
    )?;
    let halted = halt(alloc, d, judge, answers, leaf, stuck)?;
    Ok(joined(cut, halted)?)
}
