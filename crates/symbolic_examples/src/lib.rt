//! Calls of the layers on configurations with unknowns, as the program of their examples runs them. A case is over a pool or over
//! trees, of texts that load. It starts from `((SORT ..) (NODE ..) (CONSTRUCTOR PLACE ..) PLACE)`: variables of these sorts, nodes over
//! them, a constructor by its number at nodes by their places, and a condition. `(step pool SEMANTICS PROGRAM START ASK)` asks `(at VALUE
//! ..)` for the rules and the states of the leaves that hold where the variables have these values, and whether the configuration is stuck
//! there; or `(sweep)` for the same without states at every value of its one variable, which has 8 bits: each answer behind the first
//! value that has it; or `(leaves)` for the number of the leaves. `(branches pool SEMANTICS PROGRAM RULE START VALUE ..)` answers the results of the branches whose condition is true,
//! and `(extend pool (SORT ..) (NODE ..) PLACE PLACE RULE VALUE ..)` the truth, what is known and the rules of a path with one step more.
//! `(step-ground SEMANTICS PROGRAM STATE)` asks for the steps of a state, whose nodes are values.
#![tactic(auto)]

mod ground;
mod leaf_text;
mod paths;
mod starts;
mod stepping;
mod sweeping;
mod valued;

use example_cases::{Failed, Texts};
pub use leaf_text::{or_nothing, put_leaves};
use sexp_text::Form;
pub use starts::{StartingPoint, condition_at, configuration, start};
use std::alloc::Global;
pub use sweeping::{Sweep, byte};
pub use valued::Valued;

/// What the call with this name answers; None where there is no such call.
pub fn answer(
    alloc: Global,
    texts: &Texts,
    name: &[u8],
    arguments: &[Form],
) -> Result<Option<String>, Failed> {
    let answer = match arguments {
        [semantics, program, state] if name == b"step-ground".as_slice() => {
            ground::answer(alloc, texts, semantics, program, state)?
        }
        [domain, semantics, program, start, ask] if name == b"step".as_slice() => {
            stepping::steps(alloc, texts, domain, semantics, program, start, ask)?
        }
        [domain, semantics, program, asked @ ..] if name == b"branches".as_slice() => {
            if asked.len() < 2 {
                return Ok(None);
            }
            stepping::branchings(alloc, texts, domain, semantics, program, asked)?
        }
        [domain, sorts, nodes, asked @ ..] if name == b"extend".as_slice() => {
            paths::answer(alloc, domain, sorts, nodes, asked)?
        }
        _ => return Ok(None),
    };
    Ok(Some(answer))
}
