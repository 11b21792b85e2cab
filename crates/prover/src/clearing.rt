//! Valuations that are zero at variables that aren't used.
ghost use Rattle.std.specs.Prelude.{◌≡◌, All, IfOk, length};
ghost use Rattle.data_value.specs.Sorts.{IsSort};
ghost use Rattle.data_value.specs.Values.{IsValueOf};
ghost use Rattle.data_value.specs.Nodes.{IsValuation};
ghost use Rattle.prover.specs.Usage.{IsCleared, IsClearedValue, IsZero};

use data_value::{DataSort, MapValue, NoMemory, Scalar, Valuation, Value, copy_value};
use sqlite_items::Items;
use std::alloc::Global;

/// A valuation of variables of these sorts with its values at the used variables, and zero values at the others.
pub(crate) fn cleared(
    alloc: Global,
    sorts: &[DataSort],
    used: &[bool],
    valuation: &Valuation,
) -> Result<Valuation, NoMemory>
    requires sorts { All IsSort sorts.now }
    requires count { length used.now ≡ length sorts.now }
    requires valuation { IsValuation sorts.now valuation.now }
    ensures { IfOk result (IsCleared sorts.now used.now valuation.now) }
{
    let values = valuation.as_slice();
    let mut cleared = Items::new(alloc);
    for index in 0..sorts.len() {
        let value = cleared_value(alloc, sorts[index], used[index], &values[index])?;
        cleared.push(value)?;
    }
    Ok(cleared)
}

// The value of a used variable, or the zero value of its sort.
fn cleared_value(
    alloc: Global,
    sort: DataSort,
    is_used: bool,
    value: &Value,
) -> Result<Value, NoMemory>
    requires sort { IsSort sort }
    requires value { IsValueOf sort value.now }
    ensures { IfOk result (IsClearedValue sort is_used value.now) }
{
    if is_used {
        Ok(copy_value(alloc, value)?)
    } else {
        Ok(zero_of(alloc, sort))
    }
}

// The value of a sort that is false, zero, or the map that is zero everywhere.
fn zero_of(alloc: Global, sort: DataSort) -> Value
    requires { IsSort sort }
    ensures value { IsValueOf sort result }
    ensures zero { IsZero result }
{
    match sort {
        DataSort::Bool => Value::One(Scalar::Flag(false)),
        DataSort::Bits(width) => Value::One(Scalar::Bits { width, bits: 0 }),
        DataSort::Map(key, word) => Value::Map(MapValue::zeros(alloc, key, word)),
    }
}
