//! Nodes over any domain with variables, where their sorts fit.
ghost use Rattle.std.specs.Prelude.{◌≡◌, IfOk, IsTrue};
ghost use Rattle.data_value.specs.Nodes.{AllValid, Extends, sorts_of};

use data_value::{DataSort, Op, Symbolic, Value, is_value, sort_of};
use example_cases::Failed;
use no_memory::NoMemory;
use std::alloc::Global;

/// The node of a variable.
pub fn variable<D: Symbolic>(d: &mut D, index: usize) -> Result<D::Node, Failed>
    ensures extends { Extends (D.look d.old) (D.look d.new) }
    ensures valid { IfOk result (λ n. IsTrue (D.look d.new n).valid) }
{
    if d.sorts().len() <= index {
        return Err(Failed::NoCall);
    }
    Ok(d.variable(index)?)
}

/// The node of a value.
pub fn constant<D: Symbolic>(d: &mut D, value: &Value) -> Result<D::Node, Failed>
    ensures extends { Extends (D.look d.old) (D.look d.new) }
    ensures valid { IfOk result (λ n. IsTrue (D.look d.new n).valid) }
{
    if !is_value(value) {
        return Err(Failed::NoCall);
    }
    Ok(d.constant(value)?)
}

/// The node of an operator at nodes whose sorts it takes.
pub fn applied<D: Symbolic>(
    alloc: Global,
    d: &mut D,
    op: Op,
    args: &[D::Node],
) -> Result<D::Node, Failed>
    requires { AllValid (D.look d.old) args.now }
    ensures extends { Extends (D.look d.old) (D.look d.new) }
    ensures valid { IfOk result (λ n. IsTrue (D.look d.new n).valid) }
{
    let sorts = sorts_of(alloc, d, args)?;
    match sort_of(op, sorts.as_slice()) {
        Some(_) => Ok(d.apply(op, args)?),
        None => Err(Failed::NoCall),
    }
}

fn sorts_of<D: Symbolic>(alloc: Global, d: &D, nodes: &[D::Node]) -> Result<Vec<DataSort>, NoMemory>
    requires { AllValid (D.look d.now) nodes.now }
    ensures { IfOk result (λ sorts. sorts.items ≡ sorts_of (D.look d.now) nodes.now) }
{
    let mut sorts = Vec::new(alloc);
    for node in nodes {
        sorts.push(d.sort(node))?;
    }
    Ok(sorts)
}
