//! The values of nodes without variables, line by line.
ghost use Rattle.std.specs.Prelude.{◌≡◌, ◌<◌, [], length, slice_get, All, IsTrue, IsSome, IfOk, MatchOption, Some};
ghost use Rattle.data_value.specs.Views.{shown_args};
ghost use Rattle.data_value.specs.Nodes.{Extends};
ghost use Rattle.data_value.specs.declared.Scalar.{Scalar as ScalarOf};
ghost use Rattle.data_value.specs.declared.Value.TheVariants.{One};
ghost use Rattle.node_list.specs.Listed.{AreLines};
ghost use Rattle.simplify.specs.Simpler.{IsSimpler};
ghost use Rattle.simplify.specs.Valued.{IsValued, IsWorth, IsReadyValued, AreValued, AreFound, IsMissing};

use data_value::{NoMemory, Scalar, Symbolic, Value, Values, View, apply_value, copy_value};
use node_list::{Line, Made};
use sqlite_items::Items;
use std::alloc::Global;

/// The value of each line without variables.
pub(crate) fn all_values<D: Symbolic>(
    alloc: Global,
    d: &D,
    lines: &[Line<D::Node>],
) -> Result<Vec<Option<Value>>, NoMemory>
    requires { AreLines (D.look d.now) lines.now }
    ensures { IfOk result (λ vs. AreValued (D.look d.now) lines.now vs.items) }
{
    let mut values = Vec::new(alloc);
    for line in lines {
        let value = value_of_line(alloc, d, values.as_slice(), line)?;
        values.push(value)?;
    }
    Ok(values)
}

/// The value of a line, where those before it have these.
fn value_of_line<D: Symbolic>(
    alloc: Global,
    d: &D,
    values: &[Option<Value>],
    line: &Line<D::Node>,
) -> Result<Option<Value>, NoMemory>
    requires { IsReadyValued (D.look d.now) values.now line.now }
    ensures { IfOk result (IsValued (D.look d.now) (D.look d.now line.now.node)) }
{
    match &line.made {
        Made::Leaf => Ok(value_of_leaf(alloc, d, &line.node)?),
        Made::Apply(op, places) => {
            match values_at(alloc, values, places.as_slice())? {
                Some(args) => Ok(Some(apply_value(alloc, *op, args.as_slice())?)),
                None => Ok(None),
            }
        }
    }
}

/// The value of a node that is a constant.
fn value_of_leaf<D: Symbolic>(
    alloc: Global,
    d: &D,
    node: &D::Node,
) -> Result<Option<Value>, NoMemory>
    requires valid { IsTrue (D.look d.now node.now).valid }
    requires leaf { shown_args (D.look d.now node.now).shown ≡ [] }
    ensures { IfOk result (IsValued (D.look d.now) (D.look d.now node.now)) }
{
    match d.view(node) {
        View::Constant(value) => Ok(Some(copy_value(alloc, value)?)),
        View::Variable(_) => Ok(None),
        View::Apply(_, _) => unreachable!(),
    }
}

/// The values at places, if each has one.
fn values_at(
    alloc: Global,
    values: &[Option<Value>],
    places: &[usize],
) -> Result<Option<Values>, NoMemory>
    requires { All (λ p. p < length values.now) places.now }
    ensures { IfOk result (λ r. MatchOption r (IsMissing values.now places.now) (AreFound values.now places.now)) }
{
    let mut found = Items::new(alloc);
    for place in places {
        match &values[*place] {
            Some(value) => found.push(copy_value(alloc, value)?)?,
            None => return Ok(None),
        }
    }
    Ok(Some(found))
}

/// The scalar that a place has, if it has a value and this is a scalar.
pub(crate) fn scalar_at(values: &[Option<Value>], place: usize) -> Option<Scalar>
    requires { place < length values.now }
    ensures { MatchOption result ((c : ScalarOf) → slice_get values.now place ≡ Some (Some (One c)) → ⊥) (λ c. slice_get values.now place ≡ Some (Some (One c))) }
{
    match &values[place] {
        Some(Value::One(scalar)) => Some(*scalar),
        _ => None,
    }
}

/// The constant in the place of a node that means this scalar. It is known, and no larger.
pub(crate) fn constant_for<D: Symbolic>(
    d: &mut D,
    node: &D::Node,
    scalar: Scalar,
) -> Result<D::Node, NoMemory>
    requires valid { IsTrue (D.look d.old node.now).valid }
    requires worth { IsWorth (D.look d.old node.now) (One scalar) }
    ensures extends { Extends (D.look d.old) (D.look d.new) }
    ensures same_variables { D.variables d.new ≡ D.variables d.old }
    ensures simpler { IfOk result (λ n. IsSimpler (D.variables d.old) (D.look d.old node.now) (D.look d.new n)) }
    ensures known { IfOk result (λ n. IsSome (D.look d.new n).known) }
{
    Ok(d.constant(&Value::One(scalar))?)
}
