// The text of values of data. Each function writes behind what the text has.
ghost use Rattle.std.specs.Prelude.{◌≡◌, ◌++◌, map, OnOk};
ghost use Rattle.std.specs.Fmt.{decimal};
ghost use Rattle.sexp_text.specs.Print.{behind};
ghost use Rattle.report_text.specs.Values.{flag_text, scalar_text, entry_text, map_text, value_text};

use data_value::{DataSort, MapValue, Scalar, Value};
use no_memory::NoMemory;
use std::alloc::Global;

pub fn write_number(alloc: Global, text: &mut Vec<u8>, number: u64) -> Result<(), NoMemory>
    ensures { OnOk result (text.new.items ≡ text.old.items ++ decimal number) }
{
    let digits = number.to_string(alloc)?;
    text.extend_from_slice(digits.as_bytes())?;
    Ok(())
}

pub fn write_value(alloc: Global, text: &mut Vec<u8>, value: &Value) -> Result<(), NoMemory>
    ensures { OnOk result (text.new.items ≡ text.old.items ++ value_text value.now) }
{
    match value {
        Value::One(scalar) => write_scalar(alloc, text, *scalar),
        Value::Map(mapping) => write_map(alloc, text, mapping),
    }
}

fn write_scalar(alloc: Global, text: &mut Vec<u8>, scalar: Scalar) -> Result<(), NoMemory>
    ensures { OnOk result (text.new.items ≡ text.old.items ++ scalar_text scalar) }
{
    match scalar {
        Scalar::Flag(flag) => write_flag(text, flag),
        Scalar::Bits { bits, .. } => write_number(alloc, text, bits),
    }
}

fn write_flag(text: &mut Vec<u8>, flag: bool) -> Result<(), NoMemory>
    ensures { OnOk result (text.new.items ≡ text.old.items ++ flag_text flag) }
{
    let word = if flag { "true" } else { "false" };
    text.extend_from_slice(word.as_bytes())?;
    Ok(())
}

fn write_map(alloc: Global, text: &mut Vec<u8>, mapping: &MapValue) -> Result<(), NoMemory>
    ensures { OnOk result (text.new.items ≡ text.old.items ++ map_text mapping.now) }
{
    text.extend_from_slice(b"(map ")?;
    let DataSort::Map(key_width, word_width) = mapping.sort() else {
        unreachable!();
    };
    write_number(alloc, text, u64::from(key_width))?;
    text.push(b' ')?;
    write_number(alloc, text, u64::from(word_width))?;
    write_entries(alloc, text, mapping)?;
    text.push(b')')?;
    Ok(())
}

// The entries, each behind a space.
fn write_entries(alloc: Global, text: &mut Vec<u8>, mapping: &MapValue) -> Result<(), NoMemory>
    ensures { OnOk result (text.new.items ≡ text.old.items ++ behind 32 (map entry_text mapping.now.entries)) }
{
    for place in 0..mapping.len() {
        text.push(b' ')?;
        write_entry(alloc, text, mapping.entry(place))?;
    }
    Ok(())
}

fn write_entry(alloc: Global, text: &mut Vec<u8>, entry: (u64, u64)) -> Result<(), NoMemory>
    ensures { OnOk result (text.new.items ≡ text.old.items ++ entry_text entry) }
{
    let (key, word) = entry;
    text.push(b'(')?;
    write_number(alloc, text, key)?;
    text.push(b' ')?;
    write_number(alloc, text, word)?;
    text.push(b')')?;
    Ok(())
}
