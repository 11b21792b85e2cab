//! Valuations from forms.
ghost use Rattle.std.specs.Prelude.{◌<◌, IfOk, IsTrue};
ghost use Rattle.data_value.specs.Nodes.{IsValuation};
ghost use Rattle.data_value.specs.Values.{IsValueOf};

use data_value::{DataSort, Scalar, Valuation, Value, is_value, same_sort, value_sort};
use example_cases::Failed;
use sexp_text::Form;
use shown_terms::operands;
use sqlite_items::Items;
use std::alloc::Global;

/// The values that forms are, where they are values of these sorts, in their order.
pub fn valuation(alloc: Global, sorts: &[DataSort], forms: &[Form]) -> Result<Valuation, Failed>
    ensures { IfOk result (IsValuation sorts.now) }
{
    let values = values(alloc, forms)?;
    if fits(sorts, values.as_slice()) {
        Ok(values)
    } else {
        Err(Failed::NoCall)
    }
}

fn values(alloc: Global, forms: &[Form]) -> Result<Valuation, Failed> {
    let mut values = Items::new(alloc);
    for form in forms {
        values.push(operands::value(alloc, form)?)?;
    }
    Ok(values)
}

/// The valuation with this number of variables of these sorts, where all are counted.
pub fn numbered(alloc: Global, sorts: &[DataSort], number: u64) -> Result<Valuation, Failed>
    ensures { IfOk result (IsValuation sorts.now) }
{
    let values = numbered_values(alloc, sorts, number)?;
    if fits(sorts, values.as_slice()) {
        Ok(values)
    } else {
        Err(Failed::NoCall)
    }
}

// The values of a valuation by its number: the first variable's value changes from each to the next.
fn numbered_values(alloc: Global, sorts: &[DataSort], number: u64) -> Result<Valuation, Failed> {
    let mut values = Items::new(alloc);
    let mut rest = number;
    for sort in sorts {
        let count = value_count(*sort)?;
        values.push(numbered_value(alloc, *sort, rest % count)?)?;
        rest /= count;
    }
    Ok(values)
}

fn numbered_value(alloc: Global, sort: DataSort, number: u64) -> Result<Value, Failed> {
    match sort {
        DataSort::Bool => Ok(Value::One(Scalar::Flag(number == 1))),
        DataSort::Bits(width) => Ok(Value::One(Scalar::Bits {
            width,
            bits: number,
        })),
        DataSort::Map(key, word) => {
            let map = operands::zeros(alloc, key, word)?;
            let count = value_count(DataSort::Bits(word))?;
            let map = operands::put(alloc, &map, 0, number % count)?;
            Ok(Value::Map(operands::put(alloc, &map, 1, number / count)?))
        }
    }
}

/// How many valuations variables of these sorts have, where these are few.
pub fn valuation_count(sorts: &[DataSort]) -> Result<u64, Failed> {
    let mut count = 1u64;
    for sort in sorts {
        count = match count.checked_mul(value_count(*sort)?) {
            Some(product) if product <= 100_000 => product,
            _ => return Err(Failed::NoCall),
        };
    }
    Ok(count)
}

// How many values a small sort has: truth values, words of a few bits, and maps of them with two keys.
fn value_count(sort: DataSort) -> Result<u64, Failed>
    ensures { IfOk result (λ count. 0 < count) }
{
    match sort {
        DataSort::Bool => Ok(2),
        DataSort::Bits(width) if width <= 8 => Ok(1u64 << width),
        DataSort::Map(1, word) if word <= 3 => Ok(1u64 << (2 * word)),
        _ => Err(Failed::NoCall),
    }
}

/// Whether there is a value for each of these sorts, and of it.
pub fn fits(sorts: &[DataSort], values: &[Value]) -> bool
    ensures { IsTrue result → IsValuation sorts.now values.now }
{
    if sorts.len() != values.len() {
        return false;
    }
    for place in 0..sorts.len() {
        if !is_of(&values[place], sorts[place]) {
            return false;
        }
    }
    true
}

fn is_of(value: &Value, sort: DataSort) -> bool
    ensures { IsTrue result → IsValueOf sort value.now }
{
    is_value(value) && same_sort(value_sort(value), sort)
}
