//! Calls of the loaders. What is answered is that the text loads, or what it says, or else its first fault.
use crate::faults::told;
use crate::outline;
use crate::resolving::resolved;
use example_cases::{Failed, Texts, is_word};
use machine_examples::loaded_semantics;
use program_text::{load_program, load_start};
use rule_text::{FileKind, ItemList, LoadError, items, read_item};
use semantics_load::load;
use sexp_text::{Form, read};
use sort_term::{Left, Points, Right, Semantics};
use std::alloc::Global;
use sync_points::load_points;

/// What the call with this name answers; None where there is no such call.
pub(crate) fn answer(
    alloc: Global,
    texts: &Texts,
    name: &[u8],
    arguments: &[Form],
) -> Result<Option<String>, Failed> {
    match arguments {
        [text] => of_text(alloc, texts, name, text),
        [first, text] => of_kind(alloc, texts, name, first, text),
        [left, right, text] => of_sides(alloc, texts, name, left, right, text),
        _ => Ok(None),
    }
}

// A semantics.
fn of_text(
    alloc: Global,
    texts: &Texts,
    name: &[u8],
    text: &Form,
) -> Result<Option<String>, Failed> {
    let answer = if name == b"load".as_slice() {
        load_answer(alloc, texts, text)?
    } else if name == b"semantics".as_slice() {
        semantics_answer(alloc, texts, text)?
    } else {
        return Ok(None);
    };
    Ok(Some(answer))
}

// What only loads is of the left side, and what is shown of the right side.
fn load_answer(alloc: Global, texts: &Texts, text: &Form) -> Result<String, Failed> {
    let bytes = texts.text(alloc, text)?;
    let loaded: Result<Semantics<Left>, LoadError> = load(alloc, bytes.as_slice());
    drop(bytes);
    if_loads(alloc, loaded)
}

// That a text loads, or else its first fault.
fn if_loads<T: Drop>(alloc: Global, loaded: Result<T, LoadError>) -> Result<String, Failed> {
    match loaded {
        Ok(value) => {
            drop(value);
            Ok(String::from_str(alloc, "loads")?)
        }
        Err(error) => told(alloc, error),
    }
}

fn semantics_answer(alloc: Global, texts: &Texts, text: &Form) -> Result<String, Failed> {
    let bytes = texts.text(alloc, text)?;
    let loaded: Result<Semantics<Right>, LoadError> = load(alloc, bytes.as_slice());
    drop(bytes);
    match loaded {
        Ok(semantics) => {
            let text = outline::semantics(alloc, &semantics);
            drop(semantics);
            Ok(text?)
        }
        Err(error) => told(alloc, error),
    }
}

// A text of a kind, or a text for a semantics.
fn of_kind(
    alloc: Global,
    texts: &Texts,
    name: &[u8],
    first: &Form,
    text: &Form,
) -> Result<Option<String>, Failed> {
    let answer = if name == b"item".as_slice() {
        item_answer(alloc, kind(first)?, text)?
    } else if name == b"items".as_slice() {
        items_answer(alloc, texts, kind(first)?, text)?
    } else if name == b"program".as_slice() {
        program_answer(alloc, texts, first, text)?
    } else if name == b"rows".as_slice() {
        rows_answer(alloc, texts, first, text)?
    } else if name == b"start".as_slice() {
        start_answer(alloc, texts, first, text)?
    } else if name == b"state".as_slice() {
        state_answer(alloc, texts, first, text)?
    } else if name == b"resolve".as_slice() {
        cut_answer(alloc, texts, first, text, true)?
    } else if name == b"tests".as_slice() {
        cut_answer(alloc, texts, first, text, false)?
    } else {
        return Ok(None);
    };
    Ok(Some(answer))
}

fn kind(form: &Form) -> Result<FileKind, Failed> {
    if is_word(form, b"semantics") {
        return Ok(FileKind::Semantics);
    }
    if is_word(form, b"program") {
        return Ok(FileKind::Program);
    }
    if is_word(form, b"points") {
        return Ok(FileKind::Points);
    }
    if is_word(form, b"start") {
        return Ok(FileKind::Start);
    }
    Err(Failed::NoCall)
}

fn item_answer(alloc: Global, kind: FileKind, form: &Form) -> Result<String, Failed> {
    match read_item(alloc, kind, form) {
        Ok(item) => {
            drop(item);
            Ok(String::from_str(alloc, "one item")?)
        }
        Err(error) => told(alloc, error.in_item(1)),
    }
}

fn items_answer(
    alloc: Global,
    texts: &Texts,
    kind: FileKind,
    text: &Form,
) -> Result<String, Failed> {
    let bytes = texts.text(alloc, text)?;
    let found = items_of(alloc, kind, bytes.as_slice());
    drop(bytes);
    match found {
        Ok(items) => {
            let count = items.len();
            drop(items);
            Ok(format!(in alloc; "{count} items")?)
        }
        Err(error) => told(alloc, error),
    }
}

fn items_of(alloc: Global, kind: FileKind, bytes: &[u8]) -> Result<ItemList, LoadError> {
    let forms = read(alloc, bytes)?;
    items(alloc, kind, forms.as_slice())
}

fn program_answer(
    alloc: Global,
    texts: &Texts,
    first: &Form,
    text: &Form,
) -> Result<String, Failed> {
    let bytes = texts.text(alloc, text)?;
    let semantics: Semantics<Left> = loaded_semantics(alloc, texts, first)?;
    let loaded = load_program(alloc, &semantics, bytes.as_slice());
    drop((semantics, bytes));
    if_loads(alloc, loaded)
}

fn rows_answer(alloc: Global, texts: &Texts, first: &Form, text: &Form) -> Result<String, Failed> {
    let bytes = texts.text(alloc, text)?;
    let semantics: Semantics<Right> = loaded_semantics(alloc, texts, first)?;
    let loaded = load_program(alloc, &semantics, bytes.as_slice());
    drop(bytes);
    match loaded {
        Ok(program) => {
            let text = outline::program(alloc, &semantics, &program);
            drop((program, semantics));
            Ok(text?)
        }
        Err(error) => {
            drop(semantics);
            told(alloc, error)
        }
    }
}

fn start_answer(alloc: Global, texts: &Texts, first: &Form, text: &Form) -> Result<String, Failed> {
    let bytes = texts.text(alloc, text)?;
    let semantics: Semantics<Left> = loaded_semantics(alloc, texts, first)?;
    let loaded = load_start(alloc, &semantics, bytes.as_slice());
    drop((semantics, bytes));
    if_loads(alloc, loaded)
}

fn state_answer(alloc: Global, texts: &Texts, first: &Form, text: &Form) -> Result<String, Failed> {
    let bytes = texts.text(alloc, text)?;
    let semantics: Semantics<Right> = loaded_semantics(alloc, texts, first)?;
    let loaded = load_start(alloc, &semantics, bytes.as_slice());
    drop((semantics, bytes));
    match loaded {
        Ok(state) => {
            let text = outline::state(alloc, &state);
            drop(state);
            Ok(text?)
        }
        Err(error) => told(alloc, error),
    }
}

fn cut_answer(
    alloc: Global,
    texts: &Texts,
    first: &Form,
    text: &Form,
    is_read: bool,
) -> Result<String, Failed> {
    let bytes = texts.text(alloc, text)?;
    let semantics: Semantics<Left> = loaded_semantics(alloc, texts, first)?;
    let found = items_of(alloc, FileKind::Points, bytes.as_slice());
    drop(bytes);
    match found {
        Ok(items) => {
            let text = resolved(alloc, &semantics, items.as_slice(), is_read);
            drop((items, semantics));
            text
        }
        Err(error) => {
            drop(semantics);
            told(alloc, error)
        }
    }
}

// A points text for two semantics.
fn of_sides(
    alloc: Global,
    texts: &Texts,
    name: &[u8],
    left: &Form,
    right: &Form,
    text: &Form,
) -> Result<Option<String>, Failed> {
    let is_shown = name == b"cuts".as_slice();
    if !is_shown && name != b"points".as_slice() {
        return Ok(None);
    }
    let bytes = texts.text(alloc, text)?;
    let left: Semantics<Left> = loaded_semantics(alloc, texts, left)?;
    let answer = points_answer(alloc, texts, &left, right, bytes.as_slice(), is_shown);
    drop((left, bytes));
    Ok(Some(answer?))
}

fn points_answer(
    alloc: Global,
    texts: &Texts,
    left: &Semantics<Left>,
    right: &Form,
    bytes: &[u8],
    is_shown: bool,
) -> Result<String, Failed> {
    let right: Semantics<Right> = loaded_semantics(alloc, texts, right)?;
    let loaded = load_points(alloc, left, &right, bytes);
    drop(right);
    if is_shown {
        shown_points(alloc, loaded)
    } else {
        if_loads(alloc, loaded)
    }
}

fn shown_points(alloc: Global, loaded: Result<Points, LoadError>) -> Result<String, Failed> {
    match loaded {
        Ok(points) => {
            let text = outline::points(alloc, &points);
            drop(points);
            Ok(text?)
        }
        Err(error) => told(alloc, error),
    }
}
