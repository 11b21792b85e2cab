//! Parts of a condition as one condition again.
ghost use Rattle.std.specs.Prelude.{◌≡◌, All, IfOk};
ghost use Rattle.data_value.specs.Nodes.{Extends};
ghost use Rattle.data_value.specs.Truth.{IsCondition};
ghost use Rattle.prover.specs.Parts.{AreParts, IsEquation, IsJoined, AreEquated, AreAllReplaced};

use crate::parts::Parts;
use data_value::conditions::{both, equal, flag};
use data_value::{NoMemory, Symbolic};
use simplify::{Pair, replaced};
use std::alloc::Global;

/// A condition that is true exactly where parts hold, with the second node of each pair in the place of the first in all the others.
pub(crate) fn join<D: Symbolic>(
    alloc: Global,
    d: &mut D,
    parts: &Parts<D::Node>,
) -> Result<D::Node, NoMemory>
    requires { AreParts (D.look d.old) parts.now }
    ensures extends { Extends (D.look d.old) (D.look d.new) }
    ensures same_variables { D.variables d.new ≡ D.variables d.old }
    ensures joined { IfOk result (λ n. IsJoined (D.variables d.old) (D.look d.old) parts.now (D.look d.new n)) }
{
    let equations = equations(alloc, d, parts.pairs.as_slice())?;
    let others = all_replaced(alloc, d, parts.others.as_slice(), parts.pairs.as_slice())?;
    Ok(both(alloc, d, &equations, &others)?)
}

// A condition that is true exactly where the two nodes of each pair mean the same.
fn equations<D: Symbolic>(
    alloc: Global,
    d: &mut D,
    pairs: &[Pair<D::Node>],
) -> Result<D::Node, NoMemory>
    requires { All (IsEquation (D.look d.old)) pairs.now }
    ensures extends { Extends (D.look d.old) (D.look d.new) }
    ensures same_variables { D.variables d.new ≡ D.variables d.old }
    ensures means { IfOk result (λ n. AreEquated (D.look d.old) pairs.now (D.look d.new n)) }
{
    let mut joined = flag(d, true)?;
    for pair in pairs {
        let equation = equal(alloc, d, &pair.first, &pair.second)?;
        joined = both(alloc, d, &joined, &equation)?;
    }
    Ok(joined)
}

// A condition that is true exactly where all of a list are, where the two nodes of each pair mean the same.
fn all_replaced<D: Symbolic>(
    alloc: Global,
    d: &mut D,
    conditions: &[D::Node],
    pairs: &[Pair<D::Node>],
) -> Result<D::Node, NoMemory>
    requires conditions { All (λ n. IsCondition (D.look d.old n)) conditions.now }
    requires pairs { All (IsEquation (D.look d.old)) pairs.now }
    ensures extends { Extends (D.look d.old) (D.look d.new) }
    ensures same_variables { D.variables d.new ≡ D.variables d.old }
    ensures means { IfOk result (λ n. AreAllReplaced (D.variables d.old) (D.look d.old) pairs.now conditions.now (D.look d.new n)) }
{
    let mut joined = flag(d, true)?;
    for condition in conditions {
        let simpler = replaced(alloc, d, condition, pairs)?;
        joined = both(alloc, d, &joined, &simpler)?;
    }
    Ok(joined)
}
