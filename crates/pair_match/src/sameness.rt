// What has to be true for nodes to mean the same.
ghost use Rattle.std.specs.Prelude.{◌≡◌, IsTrue, OnOk};
ghost use Rattle.data_value.specs.Nodes.{Extends};
ghost use Rattle.pair_match.specs.Sameness.{seen_sameness, IsSameness, AddsSameness};

use data_value::conditions::equal;
use data_value::{DataSort, Symbolic, is_same};
use no_memory::NoMemory;
use probe_keys::{MapPair, MapPairs};
use std::alloc::Global;
use unify::Nodes;

/// Equations that have to be true, which are nodes of sort bool, and pairs of maps that have to be equal.
#[derive(Drop)]
pub(crate) struct Sameness<N> {
    pub(crate) equations: Nodes<N>,
    pub(crate) maps: MapPairs<N>,
}

/// Adds that two nodes of one sort mean the same: an equation, or a pair of maps. Nothing is added where they are one node.
pub(crate) fn equate<D: Symbolic>(
    alloc: Global,
    d: &mut D,
    node: D::Node,
    found: &D::Node,
    sameness: &mut Sameness<D::Node>,
) -> Result<(), NoMemory>
    requires node { IsTrue (D.look d.old node).valid }
    requires found { IsTrue (D.look d.old found.now).valid }
    requires sorts { (D.look d.old found.now).sort ≡ (D.look d.old node).sort }
    requires sameness { IsSameness (seen_sameness (D.look d.old) sameness.old) }
    ensures extends { Extends (D.look d.old) (D.look d.new) }
    ensures same_variables { D.variables d.new ≡ D.variables d.old }
    ensures equal { OnOk result
        (AddsSameness (D.variables d.old) (seen_sameness (D.look d.old) sameness.old) (seen_sameness (D.look d.new) sameness.new)
        (λ v. (D.look d.old node).meaning v ≡ (D.look d.old found.now).meaning v)) }
{
    if is_same(d, &node, found) {
        return Ok(());
    }
    match d.sort(&node) {
        DataSort::Map(..) => {
            let right = d.copy(found)?;
            sameness.maps.push(MapPair { left: node, right })?;
            Ok(())
        }
        _ => {
            let equation = equal(alloc, d, &node, found)?;
            sameness.equations.push(equation)?;
            Ok(())
        }
    }
}
