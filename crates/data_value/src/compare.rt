//! Sorts, equality and copies of values.
ghost use Rattle.std.specs.Prelude.{◌≡◌, ◌<◌, ◌^◌, IsTrue, ◌↔◌, IfOk};
ghost use Rattle.data_value.specs.Values.{scalar_sort, value_sort, IsScalar, IsValue};

use crate::{DataSort, NoMemory, Scalar, Value};
use std::alloc::Global;

pub(crate) fn sort_of_scalar(scalar: Scalar) -> DataSort
    ensures { result ≡ scalar_sort scalar }
{
    match scalar {
        Scalar::Flag(_) => DataSort::Bool,
        Scalar::Bits { width, .. } => DataSort::Bits(width),
    }
}

/// The sort of a value.
pub fn value_sort(value: &Value) -> DataSort
    ensures { result ≡ value_sort value.now }
{
    match value {
        Value::One(scalar) => sort_of_scalar(*scalar),
        Value::Map(map) => map.sort(),
    }
}

/// Whether a number is below 2 to the power of the width, so that a word of this width may have it.
pub fn fits_width(width: u8, number: u64) -> bool
    ensures { IsTrue result ↔ (number < 2 ^ width) }
{
    width >= 64 || number < 1 << width
}

/// Whether a width is from 1 to 64 and the number below 2 to its power.
pub(crate) fn is_word(width: u8, bits: u64) -> bool
    ensures { IsTrue result ↔ IsScalar (Scalar.Bits width bits) }
{
    1 <= width && width <= 64 && fits_width(width, bits)
}

/// Whether a value is one: a word's width is from 1 to 64 and its number below 2 to that power. Every map is one, and
/// so is every truth value.
pub fn is_value(value: &Value) -> bool
    ensures { IsTrue result ↔ IsValue value.now }
{
    match value {
        Value::One(Scalar::Flag(_)) => true,
        Value::One(Scalar::Bits { width, bits }) => is_word(*width, *bits),
        Value::Map(map) => {
            // The call tells that the entries rise and fit, as those of every map do.
            let _sort = map.sort();
            true
        }
    }
}

/// Whether two values are equal: two maps are, where their widths are the same and so is the word at every key.
pub fn same_value(a: &Value, b: &Value) -> bool
    ensures { IsTrue result ↔ (a.now ≡ b.now) }
{
    a == b
}

/// A value that equals the given one. It fails only for want of memory.
pub fn copy_value(alloc: Global, value: &Value) -> Result<Value, NoMemory>
    ensures { IfOk result (λ v. v ≡ value.now) }
{
    match value {
        Value::One(scalar) => Ok(Value::One(*scalar)),
        Value::Map(map) => Ok(Value::Map(map.copy(alloc)?)),
    }
}
