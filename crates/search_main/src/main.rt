//! Reads clauses from standard input as forms, and prints `model` with the variables that are true in one, or `refuted` with the number
//! of the clauses that were learned.
#![tactic(auto)]

use clause_search::{Found, search};
use clause_text::clauses;
use example_cases::Failed;
use refute_check::Derivation;
use sexp_text::read;
use std::alloc::{AllocError, Global};
use std::io;

fn main(rt: HostRuntime) -> Result<(), Failed> {
    let alloc = rt.alloc();
    let text = io::read_to_string(alloc, rt.stdin())?;
    let forms = read(alloc, text.as_bytes())?;
    let clauses = clauses(alloc, forms.as_slice())?;
    let line = found_text(alloc, &search(alloc, &clauses)?)?;
    println!(rt; "{line}")?;
    Ok(())
}

fn found_text(alloc: Global, found: &Found) -> Result<String, AllocError> {
    match found {
        Found::Model(model) => model_text(alloc, model.as_slice()),
        Found::Refuted(derivation) => refuted_text(alloc, derivation),
    }
}

fn refuted_text(alloc: Global, derivation: &Derivation) -> Result<String, AllocError> {
    let learned = derivation.steps().len();
    format!(in alloc; "refuted {learned}")
}

fn model_text(alloc: Global, model: &[bool]) -> Result<String, AllocError> {
    let mut text = String::from_str(alloc, "model")?;
    for (var, value) in model.iter().enumerate() {
        if *value {
            text.push_str(format!(in alloc; " {var}")?.as_str())?;
        }
    }
    Ok(text)
}
