//! Formulas that say of a right leaf that it holds and nothing excuses it.
ghost use Rattle.std.specs.Prelude.{◌≡◌, All, IfOk, true};
ghost use Rattle.data_value.specs.Nodes.{Extends};
ghost use Rattle.data_value.specs.Truth.{truth};
ghost use Rattle.data_value.specs.Views.{BeginsWith};
ghost use Rattle.sort_term.specs.Cuts.{IsCovered};
ghost use Rattle.sort_term.specs.Problems.{IsCut};
ghost use Rattle.sort_term.specs.Relation.{IsUndefined};
ghost use Rattle.sort_term.specs.NodeTerms.{seen_term, tree_of};
ghost use Rattle.path_condition.specs.Leaves.{seen_leaf, seen_leaves, IsLeaf};
ghost use Rattle.probe_keys.specs.Cases.{seen_cases, IsCase};
ghost use Rattle.probe_keys.specs.Probed.{IsProbed};
ghost use Rattle.pair_match.specs.MoreCases.{AreMoreCases};
ghost use Rattle.pair_match.specs.Unmatched.{SomeHolds, IsExcused};

use crate::between::with_case;
use crate::unmatched::left_partners;
use cut_cover::covering;
use data_value::{Domain, Symbolic};
use no_memory::NoMemory;
use path_condition::Leaf;
use probe_keys::{Cases, no_case};
use sort_term::{Cut, Left, Problem, Right, Semantics};
use sqlite_items::Items;
use std::alloc::Global;

/// A formula that says that a right leaf holds and no left leaf that holds is related to it by some point or is undefined, so in an item of
/// the left cut that stands for undefined states. The leaves are of configurations of their sides, under nodes of sort bool. It has fresh
/// variables, the probe keys.
///
/// Where it is true, whatever the values of the probe keys, the leaf holds and no left leaf excuses it. Where the leaf holds, some left
/// leaf excuses it or some values of the probe keys make it true. The only error is want of memory.
pub fn right_failed<D: Symbolic>(
    alloc: Global,
    d: &mut D,
    problem: &Problem,
    leaf: &Leaf<Right, D::Node>,
    others: &[Leaf<Left, D::Node>],
) -> Result<D::Node, NoMemory>
    requires leaf { IsLeaf problem.now.right (seen_leaf (D.look d.old) leaf.now) }
    requires others { All (IsLeaf problem.now.left) (seen_leaves (D.look d.old) others.now) }
    ensures extends { Extends (D.look d.old) (D.look d.new) }
    ensures begins { BeginsWith (D.variables d.new) (D.variables d.old) }
    ensures failed { IfOk result
        (λ n. IsProbed (D.variables d.old) (D.variables d.new) (truth (D.look d.old leaf.now.condition))
        (IsExcused problem.now (seen_leaf (D.look d.old) leaf.now) (seen_leaves (D.look d.old) others.now)) (D.look d.new n)) }
{
    let partners = left_partners(alloc, d, problem, leaf, others)?;
    let cases = undefined(alloc, d, problem, others, partners)?;
    Ok(no_case(alloc, d, &leaf.condition, cases.as_slice())?)
}

// The cases and, for each left leaf, those in which it holds and is undefined.
fn undefined<D: Domain>(
    alloc: Global,
    d: &mut D,
    problem: &Problem,
    leaves: &[Leaf<Left, D::Node>],
    cases: Cases<D::Node>,
) -> Result<Cases<D::Node>, NoMemory>
    requires leaves { All (IsLeaf problem.now.left) (seen_leaves (D.look d.old) leaves.now) }
    requires cases { All IsCase (seen_cases (D.look d.old) cases) }
    ensures extends { Extends (D.look d.old) (D.look d.new) }
    ensures same_variables { D.variables d.new ≡ D.variables d.old }
    ensures more { IfOk result
        (λ cs. AreMoreCases (D.variables d.old)
        (λ v. SomeHolds v (IsUndefined problem.now) (seen_leaves (D.look d.old) leaves.now))
        (seen_cases (D.look d.old) cases) (seen_cases (D.look d.new) cs)) }
{
    let mut found = cases;
    for leaf in leaves {
        found = undefined_at(alloc, d, problem, leaf, found)?;
    }
    Ok(found)
}

// The cases and those in which a left leaf holds and is undefined, one for each undefined item of the left cut.
fn undefined_at<D: Domain>(
    alloc: Global,
    d: &mut D,
    problem: &Problem,
    leaf: &Leaf<Left, D::Node>,
    cases: Cases<D::Node>,
) -> Result<Cases<D::Node>, NoMemory>
    requires leaf { IsLeaf problem.now.left (seen_leaf (D.look d.old) leaf.now) }
    requires cases { All IsCase (seen_cases (D.look d.old) cases) }
    ensures extends { Extends (D.look d.old) (D.look d.new) }
    ensures same_variables { D.variables d.new ≡ D.variables d.old }
    ensures more { IfOk result
        (λ cs. AreMoreCases (D.variables d.old)
        (λ v. (truth (D.look d.old leaf.now.condition) v ≡ true)
        × IsUndefined problem.now (tree_of v (seen_term (D.look d.old) leaf.now.config.term)))
        (seen_cases (D.look d.old) cases) (seen_cases (D.look d.new) cs)) }
{
    let cuts = problem.points.left_cuts.as_slice();
    let mut found = cases;
    for place in problem.points.undefs.as_slice() {
        let item = &cuts[*place];
        found = covered_by(alloc, d, &problem.left, item, leaf, found)?;
    }
    Ok(found)
}

// The cases and one more: that a leaf holds and an item of the cut covers it.
fn covered_by<D: Domain>(
    alloc: Global,
    d: &mut D,
    semantics: &Semantics<Left>,
    item: &Cut<Left>,
    leaf: &Leaf<Left, D::Node>,
    cases: Cases<D::Node>,
) -> Result<Cases<D::Node>, NoMemory>
    requires item { IsCut semantics.now item.now }
    requires leaf { IsLeaf semantics.now (seen_leaf (D.look d.old) leaf.now) }
    requires cases { All IsCase (seen_cases (D.look d.old) cases) }
    ensures extends { Extends (D.look d.old) (D.look d.new) }
    ensures same_variables { D.variables d.new ≡ D.variables d.old }
    ensures more { IfOk result
        (λ cs. AreMoreCases (D.variables d.old)
        (λ v. (truth (D.look d.old leaf.now.condition) v ≡ true)
        × IsCovered semantics.now.cons item.now (tree_of v (seen_term (D.look d.old) leaf.now.config.term)))
        (seen_cases (D.look d.old) cases) (seen_cases (D.look d.new) cs)) }
{
    let covered = covering(alloc, d, semantics, item, &leaf.config)?;
    let maps = Items::new(alloc);
    Ok(with_case(alloc, d, &leaf.condition, &covered, maps, cases)?)
}
