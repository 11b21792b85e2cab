//! What a form is, where it has to be of one kind.
use crate::failed::Failed;
use sexp_text::{Form, FormKind, Name};

/// Whether a form is this word.
pub fn is_word(form: &Form, word: &[u8]) -> bool {
    match &form.kind {
        FormKind::Word(name) => name.as_slice() == word,
        _ => false,
    }
}

/// A word.
pub fn word(form: &Form) -> Result<&Name, Failed> {
    match &form.kind {
        FormKind::Word(name) => Ok(name),
        _ => Err(Failed::NoCall),
    }
}

/// A number.
pub fn number(form: &Form) -> Result<u64, Failed> {
    match &form.kind {
        FormKind::Number(number) => Ok(*number),
        _ => Err(Failed::NoCall),
    }
}

/// A number of things, places or bits: at most 100,000.
pub fn small(form: &Form) -> Result<usize, Failed> {
    match number(form)? {
        number if number <= 100_000 => Ok(number as usize),
        _ => Err(Failed::NoCall),
    }
}

/// The parts of a list.
pub fn list(form: &Form) -> Result<&[Form], Failed> {
    match &form.kind {
        FormKind::List(parts) => Ok(parts.as_slice()),
        _ => Err(Failed::NoCall),
    }
}
