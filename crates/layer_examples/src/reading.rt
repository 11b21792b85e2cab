//! Calls of `sexp_text`. `(read TEXT)` answers the forms of a text, each behind its span as `START-END`, or the first fault;
//! `(same-name NAME NAME)` whether a copy of the first name is the second.
use crate::faults::text_fault;
use example_cases::{Failed, Texts, word};
use sexp_text::{Form, ReadError, print, read};
use shown_terms::Shown;
use std::alloc::Global;

/// What the call with this name answers; None where there is no such call.
pub(crate) fn answer(
    alloc: Global,
    texts: &Texts,
    name: &[u8],
    arguments: &[Form],
) -> Result<Option<String>, Failed> {
    let answer = match arguments {
        [text] if name == b"read".as_slice() => forms(alloc, texts.text(alloc, text)?.as_slice())?,
        [first, second] if name == b"same-name".as_slice() => {
            let copy = word(first)?.copy(alloc)?;
            let is_same = copy.same(word(second)?);
            String::from_str(alloc, if is_same { "true" } else { "false" })?
        }
        _ => return Ok(None),
    };
    Ok(Some(answer))
}

fn forms(alloc: Global, bytes: &[u8]) -> Result<String, Failed> {
    match read(alloc, bytes) {
        Ok(forms) => spans(alloc, forms.as_slice()),
        Err(ReadError::Text(fault)) => text_fault(alloc, fault),
        Err(ReadError::NoMemory) => Err(Failed::NoMemory),
    }
}

fn spans(alloc: Global, forms: &[Form]) -> Result<String, Failed> {
    let mut out = Shown::new(alloc);
    for form in forms {
        out.part(", ")?;
        out.place("", form.start)?;
        out.place("-", form.end)?;
        out.put(" ")?;
        out.bytes(print(alloc, form)?.as_slice())?;
    }
    if forms.is_empty() {
        out.put("no form")?;
    }
    Ok(out.into_text())
}
