//! The value of an operator at values.
ghost use Rattle.std.specs.Prelude.{◌≡◌, [], ◌∷◌, map, All, IsSome, IfOk};
ghost use Rattle.data_value.specs.Ops.{op_value};
ghost use Rattle.data_value.specs.Sorts.{op_sort};
ghost use Rattle.data_value.specs.Values.{value_sort, IsValue};

use crate::scalars::apply_scalar;
use crate::{NoMemory, Op, Scalar, Value};
use std::alloc::Global;

/// The value of `op` at values in range, of sorts at which `sort_of` answers a sort. It fails only for want of memory,
/// which only `Put` takes.
pub fn apply_value(alloc: Global, op: Op, args: &[Value]) -> Result<Value, NoMemory>
    requires sorted { IsSome (op_sort op (map value_sort args.now)) }
    requires values { All IsValue args.now }
    ensures { IfOk result (λ v. v ≡ op_value op args.now) }
{
    match args {
        [a] => Ok(on_one(op, a)),
        [a, b] => Ok(on_two(op, a, b)),
        [a, b, c] => Ok(on_three(alloc, op, a, b, c)?),
        _ => unreachable!(),
    }
}

fn on_one(op: Op, a: &Value) -> Value
    requires sorted { IsSome (op_sort op (value_sort a.now ∷ [])) }
    requires value { IsValue a.now }
    ensures { result ≡ op_value op (a.now ∷ []) }
{
    match a {
        Value::One(x) => Value::One(apply_scalar(op, &[*x])),
        Value::Map(_) => unreachable!(),
    }
}

fn on_two(op: Op, a: &Value, b: &Value) -> Value
    requires sorted { IsSome (op_sort op (value_sort a.now ∷ value_sort b.now ∷ [])) }
    requires first { IsValue a.now }
    requires second { IsValue b.now }
    ensures { result ≡ op_value op (a.now ∷ b.now ∷ []) }
{
    match (a, b) {
        (Value::One(x), Value::One(y)) => Value::One(apply_scalar(op, &[*x, *y])),
        (Value::Map(map), Value::One(Scalar::Bits { bits: key, .. })) => {
            match op {
                Op::Get => Value::One(map.word(*key)),
                _ => unreachable!(),
            }
        }
        _ => unreachable!(),
    }
}

fn on_three(alloc: Global, op: Op, a: &Value, b: &Value, c: &Value) -> Result<Value, NoMemory>
    requires sorted { IsSome (op_sort op (value_sort a.now ∷ value_sort b.now ∷ value_sort c.now ∷ [])) }
    requires first { IsValue a.now }
    requires second { IsValue b.now }
    requires third { IsValue c.now }
    ensures { IfOk result (λ v. v ≡ op_value op (a.now ∷ b.now ∷ c.now ∷ [])) }
{
    match (a, b, c) {
        (Value::One(x), Value::One(y), Value::One(z)) => {
            Ok(Value::One(apply_scalar(op, &[*x, *y, *z])))
        }
        (
            Value::Map(map),
            Value::One(Scalar::Bits { bits: key, .. }),
            Value::One(Scalar::Bits { bits: word, .. }),
        ) => {
            match op {
                Op::Put => Ok(Value::Map(map.put(alloc, *key, *word)?)),
                _ => unreachable!(),
            }
        }
        _ => unreachable!(),
    }
}
