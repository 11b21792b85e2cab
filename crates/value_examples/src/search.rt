//! Calls of `clause_search::search`, with a look at the model or the check of the steps that it answers. `(search CLAUSE ..)` is over
//! the variables that stand in the clauses, and `(search-over COUNT (CLAUSE ..))` over so many; `(model CLAUSE ..)` answers the model.
use clause_search::{Found, search};
use clause_text::{clause_list, clauses, clauses_over};
use example_cases::{Failed, list, small};
use refute_check::{Checked, Clauses, Lit, check};
use sexp_text::Form;
use std::alloc::{AllocError, Global};

/// What the call with this name answers; None where there is no such call.
pub(crate) fn answer(
    alloc: Global,
    name: &[u8],
    arguments: &[Form],
) -> Result<Option<String>, Failed> {
    let answer = match arguments {
        _ if name == b"search".as_slice() => searched(alloc, arguments),
        [vars, forms] if name == b"search-over".as_slice() => searched_over(alloc, vars, forms),
        _ if name == b"model".as_slice() => model_of(alloc, arguments),
        _ => return Ok(None),
    };
    Ok(Some(answer?))
}

fn searched(alloc: Global, forms: &[Form]) -> Result<String, Failed> {
    let clauses = clauses(alloc, forms)?;
    let text = kind(alloc, &clauses);
    drop(clauses);
    text
}

fn searched_over(alloc: Global, vars: &Form, forms: &Form) -> Result<String, Failed> {
    let clauses = counted_clauses(alloc, vars, forms)?;
    let text = kind(alloc, &clauses);
    drop(clauses);
    text
}

fn counted_clauses(alloc: Global, vars: &Form, forms: &Form) -> Result<Clauses, Failed> {
    let list = clause_list(alloc, list(forms)?)?;
    match small(vars) {
        Ok(vars) => clauses_over(vars, list),
        Err(failed) => {
            drop(list);
            Err(failed)
        }
    }
}

fn model_of(alloc: Global, forms: &[Form]) -> Result<String, Failed> {
    let clauses = clauses(alloc, forms)?;
    let text = model(alloc, &clauses);
    drop(clauses);
    text
}

// Whether clauses have a model: there is one, or the steps to the empty clause pass the check.
fn kind(alloc: Global, clauses: &Clauses) -> Result<String, Failed> {
    match search(alloc, clauses)? {
        Found::Model(model) => {
            let is_model = is_model(model.as_slice(), clauses);
            drop(model);
            let word = if is_model {
                "model"
            } else {
                "a model that is none"
            };
            Ok(String::from_str(alloc, word)?)
        }
        Found::Refuted(derivation) => {
            let checked = check(alloc, clauses, derivation.steps());
            drop(derivation);
            let word = match checked? {
                Checked::Refuted => "refuted",
                _ => "refuted by steps that don't pass",
            };
            Ok(String::from_str(alloc, word)?)
        }
    }
}

// The truth values of the model, for clauses that have only one.
fn model(alloc: Global, clauses: &Clauses) -> Result<String, Failed> {
    match search(alloc, clauses)? {
        Found::Model(model) => {
            let text = model_text(alloc, model.as_slice());
            drop(model);
            Ok(text?)
        }
        Found::Refuted(derivation) => {
            drop(derivation);
            Ok(String::from_str(alloc, "refuted")?)
        }
    }
}

fn model_text(alloc: Global, model: &[bool]) -> Result<String, AllocError> {
    let mut text = String::from_str(alloc, "model")?;
    for value in model {
        text.push_str(if *value { " true" } else { " false" })?;
    }
    Ok(text)
}

// Whether there is a truth value for each variable, and each clause has a literal that is true.
fn is_model(model: &[bool], clauses: &Clauses) -> bool {
    model.len() == clauses.vars
        && clauses.list.as_slice().iter().all(|clause| clause
            .as_slice()
            .iter()
            .any(|lit| is_true(model, lit)))
}

fn is_true(model: &[bool], lit: &Lit) -> bool {
    model.get(lit.var).copied() == Some(lit.positive)
}
