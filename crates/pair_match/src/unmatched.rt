//! Formulas that say of a leaf that it holds and has no partner on the other side.
//!
//! A partner is a leaf of the other side that holds and means a state to which some point relates the leaf's. Whether a point relates two
//! configurations is told by a test and by maps that have to be equal. That maps aren't equal is said with a fresh variable, a probe key:
//! they have different words at it. So a formula says it with further variables, one for each pair of maps of each case, and some values
//! of these make it true where the leaf holds without a partner.
ghost use Rattle.std.specs.Prelude.{◌≡◌, [], All, IfOk};
ghost use Rattle.data_value.specs.Nodes.{Extends};
ghost use Rattle.data_value.specs.Truth.{truth};
ghost use Rattle.data_value.specs.Views.{BeginsWith};
ghost use Rattle.path_condition.specs.Leaves.{seen_leaf, seen_leaves, IsLeaf};
ghost use Rattle.probe_keys.specs.Cases.{seen_cases};
ghost use Rattle.probe_keys.specs.Probed.{IsProbed};
ghost use Rattle.pair_match.specs.MoreCases.{AreMoreCases};
ghost use Rattle.pair_match.specs.Unmatched.{HasLeftPartner, HasRightPartner};

use crate::between::cases_between;
use data_value::Symbolic;
use no_memory::NoMemory;
use path_condition::Leaf;
use probe_keys::{Cases, no_case};
use sort_term::{Left, Problem, Right};
use sqlite_items::Items;
use std::alloc::Global;

/// A formula that says that a right leaf holds and no left leaf that holds is related to it by some point. The leaves are of
/// configurations of their sides, under nodes of sort bool. It has fresh variables, the probe keys.
///
/// Where it is true, whatever the values of the probe keys, the leaf holds and has no partner. Where the leaf holds, it has a partner or
/// some values of the probe keys make it true. The only error is want of memory.
pub fn right_unmatched<D: Symbolic>(
    alloc: Global,
    d: &mut D,
    problem: &Problem,
    leaf: &Leaf<Right, D::Node>,
    others: &[Leaf<Left, D::Node>],
) -> Result<D::Node, NoMemory>
    requires leaf { IsLeaf problem.now.right (seen_leaf (D.look d.old) leaf.now) }
    requires others { All (IsLeaf problem.now.left) (seen_leaves (D.look d.old) others.now) }
    ensures extends { Extends (D.look d.old) (D.look d.new) }
    ensures begins { BeginsWith (D.variables d.new) (D.variables d.old) }
    ensures unmatched { IfOk result
        (λ n. IsProbed (D.variables d.old) (D.variables d.new) (truth (D.look d.old leaf.now.condition))
        (HasLeftPartner problem.now (seen_leaf (D.look d.old) leaf.now) (seen_leaves (D.look d.old) others.now)) (D.look d.new n)) }
{
    let cases = left_partners(alloc, d, problem, leaf, others)?;
    Ok(no_case(alloc, d, &leaf.condition, cases.as_slice())?)
}

/// The same of a left leaf and right leaves: the left leaf holds and no right leaf that holds is related to it by some point. The only
/// error is want of memory.
pub fn left_unmatched<D: Symbolic>(
    alloc: Global,
    d: &mut D,
    problem: &Problem,
    leaf: &Leaf<Left, D::Node>,
    others: &[Leaf<Right, D::Node>],
) -> Result<D::Node, NoMemory>
    requires leaf { IsLeaf problem.now.left (seen_leaf (D.look d.old) leaf.now) }
    requires others { All (IsLeaf problem.now.right) (seen_leaves (D.look d.old) others.now) }
    ensures extends { Extends (D.look d.old) (D.look d.new) }
    ensures begins { BeginsWith (D.variables d.new) (D.variables d.old) }
    ensures unmatched { IfOk result
        (λ n. IsProbed (D.variables d.old) (D.variables d.new) (truth (D.look d.old leaf.now.condition))
        (HasRightPartner problem.now (seen_leaf (D.look d.old) leaf.now) (seen_leaves (D.look d.old) others.now)) (D.look d.new n)) }
{
    let cases = right_partners(alloc, d, problem, leaf, others)?;
    Ok(no_case(alloc, d, &leaf.condition, cases.as_slice())?)
}

/// The cases in which a right leaf has a partner among left ones.
pub(crate) fn left_partners<D: Symbolic>(
    alloc: Global,
    d: &mut D,
    problem: &Problem,
    leaf: &Leaf<Right, D::Node>,
    others: &[Leaf<Left, D::Node>],
) -> Result<Cases<D::Node>, NoMemory>
    requires leaf { IsLeaf problem.now.right (seen_leaf (D.look d.old) leaf.now) }
    requires others { All (IsLeaf problem.now.left) (seen_leaves (D.look d.old) others.now) }
    ensures extends { Extends (D.look d.old) (D.look d.new) }
    ensures same_variables { D.variables d.new ≡ D.variables d.old }
    ensures partners { IfOk result
        (λ cs. AreMoreCases (D.variables d.old)
        (HasLeftPartner problem.now (seen_leaf (D.look d.old) leaf.now) (seen_leaves (D.look d.old) others.now))
        [] (seen_cases (D.look d.new) cs)) }
{
    let mut cases = Items::new(alloc);
    for other in others {
        let holds = &other.condition;
        cases = cases_between(alloc, d, problem, &other.config, &leaf.config, holds, cases)?;
    }
    Ok(cases)
}

// The cases in which a left leaf has a partner among right ones.
fn right_partners<D: Symbolic>(
    alloc: Global,
    d: &mut D,
    problem: &Problem,
    leaf: &Leaf<Left, D::Node>,
    others: &[Leaf<Right, D::Node>],
) -> Result<Cases<D::Node>, NoMemory>
    requires leaf { IsLeaf problem.now.left (seen_leaf (D.look d.old) leaf.now) }
    requires others { All (IsLeaf problem.now.right) (seen_leaves (D.look d.old) others.now) }
    ensures extends { Extends (D.look d.old) (D.look d.new) }
    ensures same_variables { D.variables d.new ≡ D.variables d.old }
    ensures partners { IfOk result
        (λ cs. AreMoreCases (D.variables d.old)
        (HasRightPartner problem.now (seen_leaf (D.look d.old) leaf.now) (seen_leaves (D.look d.old) others.now))
        [] (seen_cases (D.look d.new) cs)) }
{
    let mut cases = Items::new(alloc);
    for other in others {
        let holds = &other.condition;
        cases = cases_between(alloc, d, problem, &leaf.config, &other.config, holds, cases)?;
    }
    Ok(cases)
}
