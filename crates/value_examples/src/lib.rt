//! Calls of the layers on values, formulas, gates and clauses, as the program of their examples runs them.
#![tactic(auto)]

mod conditions;
mod derivation;
mod formulas;
mod gates;
mod search;
mod values;

use example_cases::Failed;
use sexp_text::Form;
use std::alloc::Global;

/// What the call with this name answers, whose arguments are forms alone; None where there is no such call.
pub fn answer(alloc: Global, name: &[u8], arguments: &[Form]) -> Result<Option<String>, Failed> {
    if let Some(answer) = conditions::answer(alloc, name, arguments)? {
        return Ok(Some(answer));
    }
    if let Some(answer) = derivation::answer(alloc, name, arguments)? {
        return Ok(Some(answer));
    }
    if let Some(answer) = search::answer(alloc, name, arguments)? {
        return Ok(Some(answer));
    }
    if let Some(answer) = values::answer(alloc, name, arguments)? {
        return Ok(Some(answer));
    }
    if let Some(answer) = formulas::answer(alloc, name, arguments)? {
        return Ok(Some(answer));
    }
    gates::answer(alloc, name, arguments)
}
