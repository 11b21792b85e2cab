//! What is decided of formulas that are forms, and what they are without maps. `(decide pool VARIABLE .. FORMULA)` answers `never`, or `holds`
//! with values of these variables and those of the formula, and `(decide trees VARIABLE .. FORMULA)` the same over trees. `(reads FORMULA)` answers
//! the reads of the formula without maps, each as its variable and the place of its key, and `(lift FORMULA WORD ..)` the valuation that
//! words of all its inputs give.
#![tactic(auto)]

mod conditions;
mod decisions;
mod reductions;
mod valuations;

pub use decisions::decided;
use example_cases::{Failed, is_word};
use expr_pool::Pool;
use expr_tree::Trees;
use sexp_text::Form;
use std::alloc::Global;

/// What the call with this name answers, whose arguments are forms alone; None where there is no such call.
pub fn answer(alloc: Global, name: &[u8], arguments: &[Form]) -> Result<Option<String>, Failed> {
    let answer = match arguments {
        [domain, variables @ .., form] if name == b"decide".as_slice() => {
            over(alloc, domain, variables, form)?
        }
        [form] if name == b"reads".as_slice() => reductions::reads(alloc, form)?,
        [form, words @ ..] if name == b"lift".as_slice() => reductions::lifted(alloc, form, words)?,
        _ => return Ok(None),
    };
    Ok(Some(answer))
}

fn over(alloc: Global, domain: &Form, variables: &[Form], form: &Form) -> Result<String, Failed> {
    if is_word(domain, b"pool") {
        let mut pool = Pool::new(alloc)?;
        decided(alloc, &mut pool, variables, form)
    } else if is_word(domain, b"trees") {
        let mut trees = Trees::new(alloc);
        decided(alloc, &mut trees, variables, form)
    } else {
        Err(Failed::NoCall)
    }
}
