// Leaves in the cut, and outside it.
ghost use Rattle.std.specs.Prelude.{◌≡◌, ◌∷◌, [], ◌++◌, length, IfOk, All};
ghost use Rattle.data_value.specs.Nodes.{Extends};
ghost use Rattle.data_value.specs.Truth.{IsCondition};
ghost use Rattle.sort_term.specs.Problems.{AreCuts};
ghost use Rattle.sort_term.specs.Cuts.{InCut};
ghost use Rattle.path_condition.specs.Leaves.{seen_leaf, seen_leaves, IsLeaf, Says, Gives};
ghost use Rattle.cut_search.specs.Drops.{AreAnswered};
ghost use Rattle.cut_search.specs.Found.{seen_reach, IsReach, SplitOf, judged_by};

use crate::drops::Drops;
use crate::reach::{Reach, joined, nothing};
use crate::sifting::{Sifted, part};
use crate::simpler::simpler_leaf;
use cut_cover::outside;
use data_value::Symbolic;
use data_value::conditions::negation;
use no_memory::NoMemory;
use path_condition::Leaf;
use sort_term::{Cuts, Semantics, Side};
use sqlite_items::Items;
use std::alloc::Global;

/// Splits leaves by the cut.
pub(crate) fn split_all<S: Side, D: Symbolic, J: Drops<D>>(
    alloc: Global,
    d: &mut D,
    judge: &mut J,
    answers: &mut Vec<bool>,
    semantics: &Semantics<S>,
    cuts: &Cuts<S>,
    before: &D::Node,
    leaves: &[Leaf<S, D::Node>],
) -> Result<Reach<S, D::Node>, NoMemory>
    requires cuts { AreCuts semantics.now cuts.now }
    requires before { IsCondition (D.look d.old before.now) }
    requires leaves { All (IsLeaf semantics.now) (seen_leaves (D.look d.old) leaves.now) }
    ensures extends { Extends (D.look d.old) (D.look d.new) }
    ensures same_variables { D.variables d.new ≡ D.variables d.old }
    ensures reach { IfOk result
        (λ r. IsReach (D.variables d.old) semantics.now (judged_by J.Allows J.Keeps (D.variables d.old) (D.look d.old before.now ∷ []))
        (SplitOf (InCut semantics.now.cons cuts.now) (λ v rules t. Gives v rules t (seen_leaves (D.look d.old) leaves.now)))
        (seen_reach (D.look d.new) r)) }
    ensures answered { IfOk result (λ r. AreAnswered answers.old.items answers.new.items (length r.dropped)) }
{
    let mut reach = nothing(alloc);
    for leaf in leaves {
        let more = split(alloc, d, judge, answers, semantics, cuts, before, leaf)?;
        reach = joined(reach, more)?;
    }
    Ok(reach)
}

// Splits a leaf by the cut, in a simpler form.
fn split<S: Side, D: Symbolic, J: Drops<D>>(
    alloc: Global,
    d: &mut D,
    judge: &mut J,
    answers: &mut Vec<bool>,
    semantics: &Semantics<S>,
    cuts: &Cuts<S>,
    before: &D::Node,
    leaf: &Leaf<S, D::Node>,
) -> Result<Reach<S, D::Node>, NoMemory>
    requires cuts { AreCuts semantics.now cuts.now }
    requires before { IsCondition (D.look d.old before.now) }
    requires leaf { IsLeaf semantics.now (seen_leaf (D.look d.old) leaf.now) }
    ensures extends { Extends (D.look d.old) (D.look d.new) }
    ensures same_variables { D.variables d.new ≡ D.variables d.old }
    ensures reach { IfOk result
        (λ r. IsReach (D.variables d.old) semantics.now (judged_by J.Allows J.Keeps (D.variables d.old) (D.look d.old before.now ∷ []))
        (SplitOf (InCut semantics.now.cons cuts.now) (λ v rules t. Says v rules t (seen_leaf (D.look d.old) leaf.now)))
        (seen_reach (D.look d.new) r)) }
    ensures answered { IfOk result (λ r. AreAnswered answers.old.items answers.new.items (length r.dropped)) }
{
    let simpler = simpler_leaf(alloc, d, leaf)?;
    Ok(divide(alloc, d, judge, answers, semantics, cuts, before, &simpler)?)
}

// Splits a leaf by the cut, as it is.
fn divide<S: Side, D: Symbolic, J: Drops<D>>(
    alloc: Global,
    d: &mut D,
    judge: &mut J,
    answers: &mut Vec<bool>,
    semantics: &Semantics<S>,
    cuts: &Cuts<S>,
    before: &D::Node,
    leaf: &Leaf<S, D::Node>,
) -> Result<Reach<S, D::Node>, NoMemory>
    requires cuts { AreCuts semantics.now cuts.now }
    requires before { IsCondition (D.look d.old before.now) }
    requires leaf { IsLeaf semantics.now (seen_leaf (D.look d.old) leaf.now) }
    ensures extends { Extends (D.look d.old) (D.look d.new) }
    ensures same_variables { D.variables d.new ≡ D.variables d.old }
    ensures reach { IfOk result
        (λ r. IsReach (D.variables d.old) semantics.now (judged_by J.Allows J.Keeps (D.variables d.old) (D.look d.old before.now ∷ []))
        (SplitOf (InCut semantics.now.cons cuts.now) (λ v rules t. Says v rules t (seen_leaf (D.look d.old) leaf.now)))
        (seen_reach (D.look d.new) r)) }
    ensures answered { IfOk result (λ r. AreAnswered answers.old.items answers.new.items (length r.dropped)) }
{
    let outside = outside(alloc, d, semantics, cuts, &leaf.config)?;
    let inside = negation(alloc, d, &outside)?;
    let met = part(alloc, d, judge, answers, before, leaf, &inside)?;
    let long = part(alloc, d, judge, answers, before, leaf, &outside)?;
    Ok(divided(alloc, met, long)?)
}

// What was met and what is outside, in one.
fn divided<S: Side, N: Drop>(
    alloc: Global,
    met: Sifted<S, N>,
    long: Sifted<S, N>,
) -> Result<Reach<S, N>, NoMemory>
    ensures met { IfOk result (λ r. r.met ≡ met.kept) }
    ensures long { IfOk result (λ r. r.long ≡ long.kept) }
    ensures halted { IfOk result (λ r. r.halted ≡ []) }
    ensures dropped { IfOk result (λ r. r.dropped ≡ met.dropped ++ long.dropped) }
{
    let mut dropped = met.dropped;
    dropped.append(long.dropped)?;
    Ok(Reach {
        met: met.kept,
        long: long.kept,
        halted: Items::new(alloc),
        dropped,
    })
}
