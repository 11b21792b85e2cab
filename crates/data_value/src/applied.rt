//! Operators at nodes that are lent one by one.
ghost use Rattle.std.specs.Prelude.{◌≡◌, [], ◌∷◌, IsTrue, IsSome, IfOk};
ghost use Rattle.data_value.specs.Sorts.{op_sort};
ghost use Rattle.data_value.specs.Nodes.{Extends, IsApplied, sorts_of};
ghost use Rattle.data_value.specs.Alike.{AreAlike};

use crate::{Domain, NoMemory, Op};
use std::alloc::Global;

/// A copy of a node, as a list.
fn one<D: Domain>(alloc: Global, d: &D, a: &D::Node) -> Result<Vec<D::Node>, NoMemory>
    requires { IsTrue (D.look d.now a.now).valid }
    ensures { IfOk result (λ ns. AreAlike (D.look d.now) ns.items (a.now ∷ [])) }
{
    let mut found = Vec::new(alloc);
    found.push(d.copy(a)?)?;
    Ok(found)
}

/// Copies of two nodes, in their order.
fn two<D: Domain>(alloc: Global, d: &D, a: &D::Node, b: &D::Node) -> Result<Vec<D::Node>, NoMemory>
    requires first { IsTrue (D.look d.now a.now).valid }
    requires second { IsTrue (D.look d.now b.now).valid }
    ensures { IfOk result (λ ns. AreAlike (D.look d.now) ns.items (a.now ∷ b.now ∷ [])) }
{
    let mut found = one(alloc, d, a)?;
    found.push(d.copy(b)?)?;
    Ok(found)
}

/// A node that means the value of `op` at one node. It fails only for want of memory.
pub(crate) fn apply_to_one<D: Domain>(
    alloc: Global,
    d: &mut D,
    op: Op,
    a: &D::Node,
) -> Result<D::Node, NoMemory>
    requires valid { IsTrue (D.look d.old a.now).valid }
    requires sorted { IsSome (op_sort op (sorts_of (D.look d.old) (a.now ∷ []))) }
    ensures extends { Extends (D.look d.old) (D.look d.new) }
    ensures same_variables { D.variables d.new ≡ D.variables d.old }
    ensures made { IfOk result (λ n. IsApplied (D.look d.old) (D.look d.new) op (a.now ∷ []) n) }
{
    let args = one(alloc, d, a)?;
    Ok(d.apply(op, args.as_slice())?)
}

/// A node that means the value of `op` at two nodes. It fails only for want of memory.
pub(crate) fn apply_to_two<D: Domain>(
    alloc: Global,
    d: &mut D,
    op: Op,
    a: &D::Node,
    b: &D::Node,
) -> Result<D::Node, NoMemory>
    requires first { IsTrue (D.look d.old a.now).valid }
    requires second { IsTrue (D.look d.old b.now).valid }
    requires sorted { IsSome (op_sort op (sorts_of (D.look d.old) (a.now ∷ b.now ∷ []))) }
    ensures extends { Extends (D.look d.old) (D.look d.new) }
    ensures same_variables { D.variables d.new ≡ D.variables d.old }
    ensures made { IfOk result (λ n. IsApplied (D.look d.old) (D.look d.new) op (a.now ∷ b.now ∷ []) n) }
{
    let args = two(alloc, d, a, b)?;
    Ok(d.apply(op, args.as_slice())?)
}
