//! The valuation that words give.
ghost use Rattle.std.specs.Prelude.{◌≡◌, ◌<◌, ℕ, List, All, IfOk, length, fold, slice_get, slice_index_or, Some, false};
ghost use Rattle.data_value.specs.declared.DataSort.TheVariants.{Bool as BoolSort, Map as MapSort};
ghost use Rattle.data_value.specs.declared.Scalar.TheVariants.{Flag};
ghost use Rattle.data_value.specs.Values.{word_of};
ghost use Rattle.data_value.specs.Maps.{zero_map};
ghost use Rattle.data_value.specs.Flat.{AreWords, flat_values};
ghost use Rattle.map_reads.specs.Lifted.{lifted, lifted_value, with_read, ReadsAreZero, HasNoEntries};

use crate::read::Reads;
use data_value::{DataSort, MapValue, NoMemory, Scalar, Valuation, Value, Words, flat_values};
use sqlite_items::Items;
use std::alloc::Global;

/// The valuation that words for all inputs give: a scalar variable has the word of its input, a truth value being true where that is
/// 1, and a map has what was read of it and is zero elsewhere, so a variable that the formula doesn't use gets the empty map. It
/// fails only for want of memory.
pub fn lift(alloc: Global, reads: &Reads, words: &Words) -> Result<Valuation, NoMemory>
    requires { AreWords reads.now.flat.widths words.now }
    ensures lifted { IfOk result (λ v. v ≡ lifted reads.now words.now) }
    ensures empty { IfOk result (λ v. ReadsAreZero reads.now words.now → All HasNoEntries v) }
{
    let values = flat_values(alloc, &reads.flat, words)?;
    let mut made = Items::new(alloc);
    for variable in 0..reads.sorts.len() {
        made.push(value_of(alloc, reads, words.as_slice(), values.as_slice(), variable)?)?;
    }
    Ok(made)
}

/// The value of a variable.
fn value_of(
    alloc: Global,
    reads: &Reads,
    words: &[u64],
    values: &[Scalar],
    variable: usize,
) -> Result<Value, NoMemory>
    requires words { AreWords reads.now.flat.widths words.now }
    requires values { values.now ≡ flat_values reads.now.flat.widths words.now reads.now.flat.nodes }
    requires variable { variable < length reads.now.sorts }
    ensures { IfOk result (λ x. x ≡ lifted_value reads.now words.now variable (slice_index_or reads.now.sorts variable BoolSort)) }
{
    match reads.sorts.as_slice()[variable] {
        DataSort::Bool => {
            let word = words[reads.scalars.as_slice()[variable]];
            Ok(Value::One(Scalar::Flag(word == 1)))
        }
        DataSort::Bits(width) => {
            let bits = words[reads.scalars.as_slice()[variable]];
            Ok(Value::One(Scalar::Bits { width, bits }))
        }
        DataSort::Map(keys, width) => {
            Ok(Value::Map(map_of_reads(alloc, reads, words, values, variable, keys, width)?))
        }
    }
}

/// The map that has the words of a variable's reads at the values of their keys, and is zero elsewhere.
fn map_of_reads(
    alloc: Global,
    reads: &Reads,
    words: &[u64],
    values: &[Scalar],
    variable: usize,
    keys: u8,
    width: u8,
) -> Result<MapValue, NoMemory>
    requires words { AreWords reads.now.flat.widths words.now }
    requires values { values.now ≡ flat_values reads.now.flat.widths words.now reads.now.flat.nodes }
    requires sort { slice_get reads.now.sorts variable ≡ Some (MapSort keys width) }
    ensures { IfOk result (λ m. m ≡ fold (with_read reads.now words.now variable) (zero_map keys width) reads.now.reads) }
{
    let mut made = MapValue::zeros(alloc, keys, width);
    for read in reads.reads.as_slice() {
        if read.variable == variable {
            made = made.put(alloc, word_at(values, read.key), words[read.word])?;
        }
    }
    Ok(made)
}

/// The word at a place, zero where no word stands there.
fn word_at(values: &[Scalar], place: usize) -> u64
    ensures { result ≡ word_of (slice_index_or values.now place (Flag false)) }
{
    match values.get(place) {
        Some(Scalar::Bits { bits, .. }) => *bits,
        _ => 0,
    }
}
