//! Values, sorts and operators from forms. A value is `true`, `false`, a word as `(WIDTH BITS)`, which may be out of range, or a map
//! as `(map KEYWIDTH WORDWIDTH (KEY WORD) ..)`, into which the words are put in turn. A sort is `bool`, `(bits WIDTH)` or `(map
//! KEYWIDTH WORDWIDTH)`. An operator is its name, or `(extract HIGH LOW)`, `(zext WIDTH)` or `(sext WIDTH)`.
use data_value::{DataSort, MapValue, Op, Scalar, Value, fits_width};
use example_cases::{Failed, is_word, list, number, word};
use name_resolution::OPERATOR_NAMES;
use sexp_text::{Form, FormKind};
use std::alloc::Global;

/// A number of one byte, as widths and places of bits are.
pub fn byte(form: &Form) -> Result<u8, Failed> {
    match u8::try_from(number(form)?) {
        Ok(byte) => Ok(byte),
        Err(_) => Err(Failed::NoCall),
    }
}

/// A truth value.
pub fn truth(form: &Form) -> Result<bool, Failed> {
    match &form.kind {
        FormKind::Word(name) if name.as_slice() == b"true".as_slice() => Ok(true),
        FormKind::Word(name) if name.as_slice() == b"false".as_slice() => Ok(false),
        _ => Err(Failed::NoCall),
    }
}

/// A truth value or a word.
pub fn scalar(form: &Form) -> Result<Scalar, Failed> {
    match &form.kind {
        FormKind::List(parts) => bits(parts.as_slice()),
        _ => Ok(Scalar::Flag(truth(form)?)),
    }
}

fn bits(parts: &[Form]) -> Result<Scalar, Failed> {
    match parts {
        [width, bits] => Ok(Scalar::Bits {
            width: byte(width)?,
            bits: number(bits)?,
        }),
        _ => Err(Failed::NoCall),
    }
}

/// A value.
pub fn value(alloc: Global, form: &Form) -> Result<Value, Failed> {
    if is_map(form) {
        Ok(Value::Map(map(alloc, form)?))
    } else {
        Ok(Value::One(scalar(form)?))
    }
}

fn is_map(form: &Form) -> bool {
    match &form.kind {
        FormKind::List(parts) => match parts.as_slice() {
            [head, ..] => is_word(head, b"map"),
            [] => false,
        },
        _ => false,
    }
}

/// A map.
pub fn map(alloc: Global, form: &Form) -> Result<MapValue, Failed> {
    match list(form)? {
        [head, key, word, entries @ ..] if is_word(head, b"map") => {
            filled(alloc, zeros(alloc, byte(key)?, byte(word)?)?, entries)
        }
        _ => Err(Failed::NoCall),
    }
}

/// A map of these widths that is zero at every key.
pub fn zeros(alloc: Global, key: u8, word: u8) -> Result<MapValue, Failed> {
    if 1 <= key && key <= 64 && 1 <= word && word <= 64 {
        Ok(MapValue::zeros(alloc, key, word))
    } else {
        Err(Failed::NoCall)
    }
}

// The map with each word put at its key.
fn filled(alloc: Global, map: MapValue, entries: &[Form]) -> Result<MapValue, Failed> {
    let mut map = map;
    for entry in entries {
        map = put_entry(alloc, &map, entry)?;
    }
    Ok(map)
}

fn put_entry(alloc: Global, map: &MapValue, entry: &Form) -> Result<MapValue, Failed> {
    match list(entry)? {
        [key, word] => put(alloc, map, number(key)?, number(word)?),
        _ => Err(Failed::NoCall),
    }
}

/// A map with a word put at a key, where both fit it.
pub fn put(alloc: Global, map: &MapValue, key: u64, word: u64) -> Result<MapValue, Failed> {
    match map.sort() {
        DataSort::Map(key_width, word_width)
            if fits_width(key_width, key) && fits_width(word_width, word) => {
            Ok(map.put(alloc, key, word)?)
        }
        _ => Err(Failed::NoCall),
    }
}

/// A sort.
pub fn sort(form: &Form) -> Result<DataSort, Failed> {
    match &form.kind {
        FormKind::List(parts) => match parts.as_slice() {
            [head, width] if is_word(head, b"bits") => Ok(DataSort::Bits(byte(width)?)),
            [head, key, word] if is_word(head, b"map") => {
                Ok(DataSort::Map(byte(key)?, byte(word)?))
            }
            _ => Err(Failed::NoCall),
        },
        _ if is_word(form, b"bool") => Ok(DataSort::Bool),
        _ => Err(Failed::NoCall),
    }
}

/// An operator.
pub fn operator(form: &Form) -> Result<Op, Failed> {
    match &form.kind {
        FormKind::List(parts) => with_numbers(parts.as_slice()),
        _ => match named(word(form)?.as_slice()) {
            Some(Op::Extract { .. } | Op::Zext(_) | Op::Sext(_)) | None => Err(Failed::NoCall),
            Some(op) => Ok(op),
        },
    }
}

fn with_numbers(parts: &[Form]) -> Result<Op, Failed> {
    match parts {
        [head, high, low] if is_word(head, b"extract") => Ok(Op::Extract {
            hi: byte(high)?,
            lo: byte(low)?,
        }),
        [head, width] if is_word(head, b"zext") => Ok(Op::Zext(byte(width)?)),
        [head, width] if is_word(head, b"sext") => Ok(Op::Sext(byte(width)?)),
        _ => Err(Failed::NoCall),
    }
}

fn named(name: &[u8]) -> Option<Op> {
    for (known, op) in &OPERATOR_NAMES {
        if known.as_bytes() == name {
            return Some(*op);
        }
    }
    None
}
