//! An operator at nodes that are simplified already.
ghost use Rattle.std.specs.Prelude.{◌≡◌, [], ◌∷◌, IsSome, IsTrue, IfOk, IfSome};
ghost use Rattle.data_value.specs.Sorts.{op_sort};
ghost use Rattle.data_value.specs.Values.{IsScalar, scalar_sort};
ghost use Rattle.data_value.specs.Alike.{AreAlike};
ghost use Rattle.data_value.specs.Nodes.{Extends, AllValid, sorts_of};
ghost use Rattle.simplify.specs.Simpler.{IsSimplerThan};
ghost use Rattle.simplify.specs.Rewrites.{IsRewritten, IsNoHarderWith};

use crate::choices::choice;
use crate::division::of_division;
use crate::flags::{behind_flag, beside_false, beside_flag, taken_back};
use crate::parts::{part, unwidened};
use crate::reads::read;
use crate::rewritten::Rewritten;
use crate::same::of_same;
use crate::sums::{behind_known, beside_known};
use data_value::{NoMemory, Op, Scalar, Symbolic, Value};
use std::alloc::Global;

/// A node that is simpler than an operator at nodes.
pub(crate) fn simpler_operator<D: Symbolic>(
    alloc: Global,
    d: &mut D,
    op: Op,
    args: &[D::Node],
) -> Result<D::Node, NoMemory>
    requires valid { AllValid (D.look d.old) args.now }
    requires sorted { IsSome (op_sort op (sorts_of (D.look d.old) args.now)) }
    ensures extends { Extends (D.look d.old) (D.look d.new) }
    ensures same_variables { D.variables d.new ≡ D.variables d.old }
    ensures simpler { IfOk result (λ n. IsSimplerThan (D.variables d.old) (D.look d.old) op args.now (D.look d.new n)) }
{
    match rewritten(alloc, d, op, args)? {
        Some(Rewritten::Node(node)) => Ok(node),
        Some(Rewritten::Known(scalar)) => Ok(d.constant(&Value::One(scalar))?),
        Some(Rewritten::Apply(other, nodes)) => Ok(d.apply(other, nodes.as_slice())?),
        Some(Rewritten::With(other, node, scalar)) => {
            Ok(with_scalar(alloc, d, op, args, other, &node, scalar)?)
        }
        None => Ok(d.apply(op, args)?),
    }
}

// A node that is simpler than an operator at nodes, where another at a node and a scalar is no harder.
fn with_scalar<D: Symbolic>(
    alloc: Global,
    d: &mut D,
    op: Op,
    args: &[D::Node],
    other: Op,
    node: &D::Node,
    scalar: Scalar,
) -> Result<D::Node, NoMemory>
    requires sorted { IsSome (op_sort op (sorts_of (D.look d.old) args.now)) }
    requires harder { IsNoHarderWith (D.variables d.old) (D.look d.old) op args.now other node.now scalar }
    ensures extends { Extends (D.look d.old) (D.look d.new) }
    ensures same_variables { D.variables d.new ≡ D.variables d.old }
    ensures simpler { IfOk result (λ n. IsSimplerThan (D.variables d.old) (D.look d.old) op args.now (D.look d.new n)) }
{
    let constant = d.constant(&Value::One(scalar))?;
    let nodes = two(alloc, d, node, &constant)?;
    Ok(d.apply(other, nodes.as_slice())?)
}

// What an operator at nodes comes to, if a rewrite finds it.
fn rewritten<D: Symbolic>(
    alloc: Global,
    d: &D,
    op: Op,
    args: &[D::Node],
) -> Result<Option<Rewritten<D::Node>>, NoMemory>
    requires valid { AllValid (D.look d.now) args.now }
    requires sorted { IsSome (op_sort op (sorts_of (D.look d.now) args.now)) }
    ensures { IfOk result (λ o. IfSome o (IsRewritten (D.variables d.now) (D.look d.now) op args.now)) }
{
    match args {
        [a] => Ok(at_one(alloc, d, op, a)?),
        [a, b] => Ok(at_two(alloc, d, op, a, b)?),
        [a, b, c] => Ok(choice(d, op, a, b, c)?),
        _ => Ok(None),
    }
}

// What an operator at one node comes to, if a rewrite finds it.
fn at_one<D: Symbolic>(
    alloc: Global,
    d: &D,
    op: Op,
    a: &D::Node,
) -> Result<Option<Rewritten<D::Node>>, NoMemory>
    requires valid { IsTrue (D.look d.now a.now).valid }
    requires sorted { IsSome (op_sort op (sorts_of (D.look d.now) (a.now ∷ []))) }
    ensures { IfOk result (λ o. IfSome o (IsRewritten (D.variables d.now) (D.look d.now) op (a.now ∷ []))) }
{
    match op {
        Op::Extract { hi, lo } => Ok(Some(part(alloc, d, hi, lo, a)?)),
        Op::Zext(width) => Ok(unwidened(d, op, width, a)?),
        Op::Sext(width) => Ok(unwidened(d, op, width, a)?),
        _ => Ok(taken_back(d, op, a)?),
    }
}

// What an operator at two nodes comes to, if a rewrite finds it.
fn at_two<D: Symbolic>(
    alloc: Global,
    d: &D,
    op: Op,
    a: &D::Node,
    b: &D::Node,
) -> Result<Option<Rewritten<D::Node>>, NoMemory>
    requires first { IsTrue (D.look d.now a.now).valid }
    requires second { IsTrue (D.look d.now b.now).valid }
    requires sorted { IsSome (op_sort op (sorts_of (D.look d.now) (a.now ∷ b.now ∷ []))) }
    ensures { IfOk result (λ o. IfSome o (IsRewritten (D.variables d.now) (D.look d.now) op (a.now ∷ b.now ∷ []))) }
{
    if let Op::Get = op {
        return Ok(Some(read(alloc, d, a, b)?));
    }
    if let Some(found) = of_same(d, op, a, b)? {
        return Ok(Some(found));
    }
    if let Some(found) = beside_known(d, op, a, b)? {
        return Ok(Some(found));
    }
    if let Some(found) = behind_known(d, op, a, b)? {
        return Ok(Some(found));
    }
    if let Some(found) = beside_false(alloc, d, op, a, b)? {
        return Ok(Some(found));
    }
    if let Some(found) = beside_flag(d, op, a, b)? {
        return Ok(Some(found));
    }
    if let Some(found) = behind_flag(d, op, a, b)? {
        return Ok(Some(found));
    }
    Ok(of_division(d, op, a, b)?)
}

/// Copies of two nodes, in their order.
pub(crate) fn two<D: Symbolic>(
    alloc: Global,
    d: &D,
    a: &D::Node,
    b: &D::Node,
) -> Result<Vec<D::Node>, NoMemory>
    requires first { IsTrue (D.look d.now a.now).valid }
    requires second { IsTrue (D.look d.now b.now).valid }
    ensures { IfOk result (λ ns. AreAlike (D.look d.now) ns.items (a.now ∷ b.now ∷ [])) }
{
    let mut found = Vec::new(alloc);
    found.push(d.copy(a)?)?;
    found.push(d.copy(b)?)?;
    Ok(found)
}
