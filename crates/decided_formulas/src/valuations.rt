//! Valuations as texts.
use data_value::Value;
use formula_text::Names;
use shown_terms::{Shown, value};
use std::alloc::AllocError;

/// Appends the variables with their values.
pub(crate) fn put_valuation(
    out: &mut Shown,
    names: &Names,
    values: &[Value],
) -> Result<(), AllocError> {
    for (index, item) in values.iter().enumerate() {
        out.put(if index == 0 { " " } else { ", " })?;
        put_name(out, names, index)?;
        out.put(" = ")?;
        value(out, item)?;
    }
    Ok(())
}

/// Appends the name and the sort of a variable, with colons between.
pub(crate) fn put_name(out: &mut Shown, names: &Names, index: usize) -> Result<(), AllocError> {
    match names.get(index) {
        Some(word) => put_word(out, word),
        None => out.place("v", index),
    }
}

fn put_word(out: &mut Shown, word: &[u8]) -> Result<(), AllocError> {
    for byte in word {
        out.bytes(&[if *byte == b'@' { b':' } else { *byte }])?;
    }
    Ok(())
}
