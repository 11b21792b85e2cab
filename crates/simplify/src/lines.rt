//! The lines of a node with simpler nodes, one by one.
ghost use Rattle.std.specs.Prelude.{◌≡◌, ◌<◌, ℕ, true, length, slice_get, IsSome, IsTrue, IfOk, IfSome, MatchOption, All, Some};
ghost use Rattle.data_value.specs.declared.Value.TheVariants.{One};
ghost use Rattle.data_value.specs.Nodes.{Extends};
ghost use Rattle.node_list.specs.Listed.{AreLines, IsListed};
ghost use Rattle.data_value.specs.Sorts.{is_scalar_sort};
ghost use Rattle.simplify.specs.Closed.{is_closed};
ghost use Rattle.simplify.specs.Pairs.{seen_pairs, IsPair, IsSecond, IsUnpaired};
ghost use Rattle.simplify.specs.Valued.{AreValued, IsWorth};
ghost use Rattle.simplify.specs.Simpler.{IsSimpler, IsSimplerUnder};
ghost use Rattle.simplify.specs.Built.{AreThere, AreCopied, AreBuilt, IsReady};

use crate::operator::simpler_operator;
use crate::pair::{Pair, is_kept_under};
use crate::values::{all_values, constant_for, scalar_at};
use data_value::{NoMemory, Scalar, Symbolic, Value};
use node_list::{Line, Made, listed};
use std::alloc::Global;

/// A node that means what another does under every valuation of the variables. It has the same sort and is no larger, and a truth value
/// or a word without variables is known. The only error is want of memory.
pub fn simplify<D: Symbolic>(alloc: Global, d: &mut D, node: &D::Node) -> Result<D::Node, NoMemory>
    requires { IsTrue (D.look d.old node.now).valid }
    ensures extends { Extends (D.look d.old) (D.look d.new) }
    ensures same_variables { D.variables d.new ≡ D.variables d.old }
    ensures simpler { IfOk result (λ n. IsSimpler (D.variables d.old) (D.look d.old node.now) (D.look d.new n)) }
    ensures closed { IfOk result (λ n. is_closed (D.look d.old) node.now ≡ true → is_scalar_sort (D.look d.old node.now).sort ≡ true → IsSome (D.look d.new n).known) }
{
    let lines = listed(alloc, d, node)?;
    let values = all_values(alloc, d, lines.as_slice())?;
    match scalar_at(values.as_slice(), lines.len() - 1) {
        Some(scalar) => Ok(constant_for(d, node, scalar)?),
        None => {
            let pairs = Vec::new(alloc);
            Ok(last_built(
                alloc,
                d,
                node,
                lines.as_slice(),
                values.as_slice(),
                pairs.as_slice(),
            )?)
        }
    }
}

/// A node that means what another does under every valuation of the variables that gives the two nodes of each pair one meaning. It has
/// the same sort, and is no larger where no second node of a pair is larger than its first. A node that is kept under the number of the
/// first of a pair becomes the second of such a pair. The only error is want of memory.
pub fn replaced<D: Symbolic>(
    alloc: Global,
    d: &mut D,
    node: &D::Node,
    pairs: &[Pair<D::Node>],
) -> Result<D::Node, NoMemory>
    requires node { IsTrue (D.look d.old node.now).valid }
    requires pairs { All IsPair (seen_pairs (D.look d.old) pairs.now) }
    ensures extends { Extends (D.look d.old) (D.look d.new) }
    ensures same_variables { D.variables d.new ≡ D.variables d.old }
    ensures simpler { IfOk result (λ n. IsSimplerUnder (D.variables d.old) (seen_pairs (D.look d.old) pairs.now) (D.look d.old node.now) (D.look d.new n)) }
    ensures second { IfOk result (λ n. (i : ℕ) → (D.look d.old node.now).id ≡ Some i → (IsUnpaired (D.look d.old) pairs.now i → ⊥) → IsSecond (D.look d.old) pairs.now i (D.look d.new n)) }
{
    match second_for(d, pairs, node)? {
        Some(second) => Ok(second),
        None => {
            let lines = listed(alloc, d, node)?;
            let values = all_values(alloc, d, lines.as_slice())?;
            Ok(last_built(alloc, d, node, lines.as_slice(), values.as_slice(), pairs)?)
        }
    }
}

// A simpler node for the last line.
fn last_built<D: Symbolic>(
    alloc: Global,
    d: &mut D,
    node: &D::Node,
    lines: &[Line<D::Node>],
    values: &[Option<Value>],
    pairs: &[Pair<D::Node>],
) -> Result<D::Node, NoMemory>
    requires lines { IsListed (D.look d.old) (D.look d.old node.now) lines.now }
    requires values { AreValued (D.look d.old) lines.now values.now }
    requires pairs { All IsPair (seen_pairs (D.look d.old) pairs.now) }
    ensures extends { Extends (D.look d.old) (D.look d.new) }
    ensures same_variables { D.variables d.new ≡ D.variables d.old }
    ensures simpler { IfOk result (λ n. IsSimplerUnder (D.variables d.old) (seen_pairs (D.look d.old) pairs.now) (D.look d.old node.now) (D.look d.new n)) }
{
    let mut built = all_built(alloc, d, lines, values, pairs)?;
    match built.pop() {
        Some(last) => Ok(last),
        None => unreachable!(),
    }
}

// A simpler node for each line.
fn all_built<D: Symbolic>(
    alloc: Global,
    d: &mut D,
    lines: &[Line<D::Node>],
    values: &[Option<Value>],
    pairs: &[Pair<D::Node>],
) -> Result<Vec<D::Node>, NoMemory>
    requires lines { AreLines (D.look d.old) lines.now }
    requires values { AreValued (D.look d.old) lines.now values.now }
    requires pairs { All IsPair (seen_pairs (D.look d.old) pairs.now) }
    ensures extends { Extends (D.look d.old) (D.look d.new) }
    ensures same_variables { D.variables d.new ≡ D.variables d.old }
    ensures built { IfOk result (λ ns. AreBuilt (D.variables d.old) (seen_pairs (D.look d.old) pairs.now) (D.look d.new) lines.now ns.items) }
{
    let mut built = Vec::new(alloc);
    for line in lines {
        let scalar = scalar_at(values, built.len());
        let node = built_line(alloc, d, built.as_slice(), line, scalar, pairs)?;
        built.push(node)?;
    }
    Ok(built)
}

// A simpler node for a line, made of those that were built for the lines before it. Where the line means one scalar under every
// valuation, it is this one.
fn built_line<D: Symbolic>(
    alloc: Global,
    d: &mut D,
    built: &[D::Node],
    line: &Line<D::Node>,
    scalar: Option<Scalar>,
    pairs: &[Pair<D::Node>],
) -> Result<D::Node, NoMemory>
    requires ready { IsReady (D.variables d.old) (seen_pairs (D.look d.old) pairs.now) (D.look d.old) built.now line.now }
    requires worth { IfSome scalar (λ c. IsWorth (D.look d.old line.now.node) (One c)) }
    requires pairs { All IsPair (seen_pairs (D.look d.old) pairs.now) }
    ensures extends { Extends (D.look d.old) (D.look d.new) }
    ensures same_variables { D.variables d.new ≡ D.variables d.old }
    ensures simpler { IfOk result (λ n. IsSimplerUnder (D.variables d.old) (seen_pairs (D.look d.old) pairs.now) (D.look d.old line.now.node) (D.look d.new n)) }
{
    match second_for(d, pairs, &line.node)? {
        Some(second) => Ok(second),
        None => {
            match (scalar, &line.made) {
                (Some(scalar), _) => Ok(constant_for(d, &line.node, scalar)?),
                (None, Made::Leaf) => Ok(d.copy(&line.node)?),
                (None, Made::Apply(op, places)) => {
                    let args = copies_at(alloc, d, built, places.as_slice())?;
                    Ok(simpler_operator(alloc, d, *op, args.as_slice())?)
                }
            }
        }
    }
}

// The second of a pair whose first is kept under the number of a node, if there is one.
fn second_for<D: Symbolic>(
    d: &D,
    pairs: &[Pair<D::Node>],
    node: &D::Node,
) -> Result<Option<D::Node>, NoMemory>
    requires node { IsTrue (D.look d.now node.now).valid }
    requires pairs { All IsPair (seen_pairs (D.look d.now) pairs.now) }
    ensures { IfOk result (λ o. MatchOption o
        ((i : ℕ) → (D.look d.now node.now).id ≡ Some i → IsUnpaired (D.look d.now) pairs.now i)
        (λ n. (i : ℕ) × ((D.look d.now node.now).id ≡ Some i) × IsSecond (D.look d.now) pairs.now i (D.look d.now n))) }
{
    match d.id(node) {
        Some(id) => Ok(second_at(d, pairs, id)?),
        None => Ok(None),
    }
}

// The second of the first pair whose first is kept under this number, if there is one.
fn second_at<D: Symbolic>(
    d: &D,
    pairs: &[Pair<D::Node>],
    id: usize,
) -> Result<Option<D::Node>, NoMemory>
    requires { All IsPair (seen_pairs (D.look d.now) pairs.now) }
    ensures { IfOk result (λ o. MatchOption o
        (IsUnpaired (D.look d.now) pairs.now id)
        (λ n. IsSecond (D.look d.now) pairs.now id (D.look d.now n))) }
{
    for pair in pairs {
        if is_kept_under(d, &pair.first, id) {
            return Ok(Some(d.copy(&pair.second)?));
        }
    }
    Ok(None)
}

// Copies of the nodes at places.
fn copies_at<D: Symbolic>(
    alloc: Global,
    d: &D,
    nodes: &[D::Node],
    places: &[usize],
) -> Result<Vec<D::Node>, NoMemory>
    requires { AreThere (D.look d.now) nodes.now places.now }
    ensures { IfOk result (λ ns. AreCopied (D.look d.now) nodes.now places.now ns.items) }
{
    let mut copies = Vec::new(alloc);
    for place in places {
        copies.push(d.copy(&nodes[*place])?)?;
    }
    Ok(copies)
}
