//! Calls of the layers on machines, which are texts of a semantics, a program and a state, as the program of their examples runs them.
#![tactic(auto)]

mod loaded;
mod matching;
mod reports;
mod running;
mod terms;
mod verdicts;

use example_cases::{Failed, Texts};
pub use loaded::{
    Machine, loaded_left_cuts, loaded_machine, loaded_problem, loaded_program, loaded_semantics,
    problem_without_rows,
};
pub use running::step_count;
use sexp_text::Form;
use std::alloc::Global;

/// What the call with this name answers; None where there is no such call.
pub fn answer(
    alloc: Global,
    texts: &Texts,
    name: &[u8],
    arguments: &[Form],
) -> Result<Option<String>, Failed> {
    if let Some(answer) = terms::answer(alloc, texts, name, arguments)? {
        return Ok(Some(answer));
    }
    if let Some(answer) = matching::answer(alloc, texts, name, arguments)? {
        return Ok(Some(answer));
    }
    if let Some(answer) = running::answer(alloc, texts, name, arguments)? {
        return Ok(Some(answer));
    }
    if let Some(answer) = verdicts::answer(alloc, texts, name, arguments)? {
        return Ok(Some(answer));
    }
    reports::answer(alloc, texts, name, arguments)
}
