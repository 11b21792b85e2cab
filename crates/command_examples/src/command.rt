//! The words and the files of a case.
use example_cases::{Failed, Texts, list, number, word};
use keq_cli::{CallList, Files, NamedText};
use sexp_text::{Form, FormKind};
use sqlite_items::Items;
use std::alloc::Global;

/// The words of the command line.
pub(crate) fn words(alloc: Global, texts: &Texts, forms: &[Form]) -> Result<Vec<String>, Failed> {
    let mut words = Vec::new(alloc);
    for form in forms {
        words.push(word_of(alloc, texts, form)?)?;
    }
    Ok(words)
}

fn word_of(alloc: Global, texts: &Texts, form: &Form) -> Result<String, Failed> {
    match &form.kind {
        FormKind::Word(name) => text_of(alloc, name.as_slice()),
        FormKind::Number(number) => Ok(format!(in alloc; "{number}")?),
        FormKind::List(_) => text_of(alloc, texts.text(alloc, form)?.as_slice()),
    }
}

fn text_of(alloc: Global, bytes: &[u8]) -> Result<String, Failed> {
    match std::str::from_utf8(bytes) {
        Ok(text) => Ok(String::from_str(alloc, text)?),
        Err(_) => Err(Failed::NoCall),
    }
}

/// The files of the shelf.
pub(crate) fn files(alloc: Global, texts: &Texts, forms: &[Form]) -> Result<Files, Failed> {
    let mut files = Items::new(alloc);
    for form in forms {
        files.push(file(alloc, texts, list(form)?)?)?;
    }
    Ok(files)
}

fn file(alloc: Global, texts: &Texts, parts: &[Form]) -> Result<NamedText, Failed> {
    match parts {
        [name, text] => Ok(NamedText {
            name: word(name)?.copy(alloc)?,
            bytes: Items::from_vec(texts.text(alloc, text)?),
        }),
        _ => Err(Failed::NoCall),
    }
}

/// The numbers of the fetches that fail.
pub(crate) fn fails(alloc: Global, forms: &[Form]) -> Result<CallList, Failed> {
    let mut fails = Items::new(alloc);
    for form in forms {
        fails.push(number(form)?)?;
    }
    Ok(fails)
}
