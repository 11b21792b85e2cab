//! Calls of `sort_term`. `(same-tree SEMANTICS STATE STATE)` answers whether a copy of the first state's tree is the second's;
//! `(is-semantics (NAME ..) SEMANTICS SEMANTICS)` whether sorts with these names, the constructors and tables of the first
//! semantics, its sort of states and the rules of the second are a semantics.
use crate::loaded::{loaded_semantics, loaded_state};
use data_value::Value;
use example_cases::{Failed, Texts, list, word};
use sexp_text::{Form, Name};
use sort_term::{Left, Semantics, Term, copy_term, is_semantics, same_term};
use std::alloc::Global;

/// What the call with this name answers; None where there is no such call.
pub(crate) fn answer(
    alloc: Global,
    texts: &Texts,
    name: &[u8],
    arguments: &[Form],
) -> Result<Option<String>, Failed> {
    let is_so = match arguments {
        [semantics, first, second] if name == b"same-tree".as_slice() => {
            are_same(alloc, texts, semantics, first, second)?
        }
        [sorts, parts, rules] if name == b"is-semantics".as_slice() => {
            passes(alloc, texts, sorts, parts, rules)?
        }
        _ => return Ok(None),
    };
    let text = if is_so { "true" } else { "false" };
    Ok(Some(String::from_str(alloc, text)?))
}

fn are_same(
    alloc: Global,
    texts: &Texts,
    semantics: &Form,
    first: &Form,
    second: &Form,
) -> Result<bool, Failed> {
    let semantics: Semantics<Left> = loaded_semantics(alloc, texts, semantics)?;
    let is_same = are_same_states(alloc, texts, &semantics, first, second);
    drop(semantics);
    is_same
}

fn are_same_states(
    alloc: Global,
    texts: &Texts,
    semantics: &Semantics<Left>,
    first: &Form,
    second: &Form,
) -> Result<bool, Failed> {
    let first = loaded_state(alloc, texts, semantics, first)?;
    let copied = copy_term(alloc, first.term());
    drop(first);
    let copy = copied?;
    let is_same = is_state(alloc, texts, semantics, &copy, second);
    drop(copy);
    is_same
}

fn is_state(
    alloc: Global,
    texts: &Texts,
    semantics: &Semantics<Left>,
    tree: &Term<Value>,
    state: &Form,
) -> Result<bool, Failed> {
    let state = loaded_state(alloc, texts, semantics, state)?;
    let is_same = same_term(tree, state.term());
    drop(state);
    Ok(is_same)
}

fn passes(
    alloc: Global,
    texts: &Texts,
    sorts: &Form,
    parts: &Form,
    rules: &Form,
) -> Result<bool, Failed> {
    let (parts, rules) = both(alloc, texts, parts, rules)?;
    let is_so = names_pass(alloc, sorts, &parts, &rules);
    drop((parts, rules));
    is_so
}

fn both(
    alloc: Global,
    texts: &Texts,
    first: &Form,
    second: &Form,
) -> Result<(Semantics<Left>, Semantics<Left>), Failed> {
    let first = loaded_semantics(alloc, texts, first)?;
    match loaded_semantics(alloc, texts, second) {
        Ok(second) => Ok((first, second)),
        Err(failed) => {
            drop(first);
            Err(failed)
        }
    }
}

fn names_pass(
    alloc: Global,
    sorts: &Form,
    parts: &Semantics<Left>,
    rules: &Semantics<Left>,
) -> Result<bool, Failed> {
    let sorts = names(alloc, list(sorts)?)?;
    Ok(is_semantics(
        sorts.as_slice(),
        parts.cons().as_slice(),
        parts.tables().as_slice(),
        rules.rules().as_slice(),
        parts.config(),
    ))
}

fn names(alloc: Global, forms: &[Form]) -> Result<Vec<Name>, Failed> {
    let mut names = Vec::new(alloc);
    for form in forms {
        names.push(word(form)?.copy(alloc)?)?;
    }
    Ok(names)
}
