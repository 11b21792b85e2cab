//! Calls of the search up to the cut, as the program of their examples runs them. A case is over a pool or over trees, of texts that
//! load, of which the points are between the semantics and itself; the cut is the left one. START is that of a case of `step`.
//!
//! - `(cut-search pool SEMANTICS PROGRAM POINTS START STEPS ASK)` asks of what `search` finds. `(at VALUE ..)` is for the met, the long and
//!   the halted leaves that hold where the variables have these values, each with its rules and its state; `(sweep)` for the same without
//!   states at every value of the one variable, which has 8 bits, each answer behind the first value that has it; `(leaves)` for the
//!   numbers of the leaves.
//! - `(cut-search pool SEMANTICS PROGRAM POINTS START STEPS (QUESTION ..) ASK)` asks the same of what `search_dropping` finds where the
//!   questions with these numbers are answered with yes; and besides `(dropped VALUE ..)` for the dropped leaves that hold, and
//!   `(answers)` for all answers in turn.
//! - `(outside pool SEMANTICS POINTS START VALUE ..)` answers whether `outside` is true where the variables have these values.
#![tactic(auto)]

mod cut_system;
mod dropping;
mod outsides;
mod searching;
mod telling;

use example_cases::{Failed, Texts};
use sexp_text::Form;
use std::alloc::Global;

/// What the call with this name answers; None where there is no such call.
pub fn answer(
    alloc: Global,
    texts: &Texts,
    name: &[u8],
    arguments: &[Form],
) -> Result<Option<String>, Failed> {
    let answer = match arguments {
        [domain, semantics, program, points, asked @ ..] if name == b"cut-search".as_slice() => {
            searching::answer(alloc, texts, domain, semantics, program, points, asked)?
        }
        [domain, semantics, points, asked @ ..] if name == b"outside".as_slice() => {
            outsides::answer(alloc, texts, domain, semantics, points, asked)?
        }
        _ => return Ok(None),
    };
    Ok(Some(answer))
}
