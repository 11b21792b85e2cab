//! Calls of the layers on nodes, over a pool and over trees, as the program of their examples runs them. A case makes nodes over
//! variables of some sorts, `(pool (SORT ..) (NODE ..) ASK)` or the same with `trees`, where a node is `(var INDEX)`, `(const VALUE)`, an
//! operator at earlier nodes by their places, as `(add 0 1)`, or a condition: `(flag TRUTH)`, `(negation PLACE)`, `(both PLACE PLACE)`,
//! `(either PLACE PLACE)`, `(equal PLACE PLACE)`, `(all PLACE ..)`. It asks one thing. Over both: `(sort PLACE)`, `(known PLACE)`, `(id PLACE)`,
//! `(shows PLACE)`, `(copy PLACE)` for what a copy shows, `(list PLACE)` for the lines of a node, `(simplify PLACE)` for the simplified
//! node, `(agrees PLACE)` for whether this means what the node does under all valuations of the variables, which are few and small, and
//! `(replaced PLACE (PLACE PLACE) ..)` for a node in which the second of each pair stands in the place of the first. Over a pool `(len)`, and `(values VALUE ..)`
//! for the meanings of all nodes. Over trees `(value PLACE VALUE ..)`, `(substitute PLACE PLACE ..)` for a tree with others in the place of
//! its variables, and `(substituted PLACE (PLACE ..) VALUE ..)` for the value of that. `(chain COUNT)` makes a chain of so many additions in a pool, lists its last node, and takes its values.
#![tactic(auto)]

mod agreement;
mod asked;
mod chain;
mod joining;
mod making;
mod pools;
mod simpler;
mod text;
mod trees;
mod valuations;

use example_cases::{Failed, list, small};
pub use making::{declare, made};
use sexp_text::Form;
use std::alloc::Global;
pub use valuations::{fits, numbered, valuation, valuation_count};

/// What the call with this name answers, whose arguments are forms alone; None where there is no such call.
pub fn answer(alloc: Global, name: &[u8], arguments: &[Form]) -> Result<Option<String>, Failed> {
    let answer = match arguments {
        [sorts, nodes, ask] if name == b"pool".as_slice() => {
            pools::answer(alloc, list(sorts)?, list(nodes)?, list(ask)?)?
        }
        [sorts, nodes, ask] if name == b"trees".as_slice() => {
            trees::answer(alloc, list(sorts)?, list(nodes)?, list(ask)?)?
        }
        [count] if name == b"chain".as_slice() => chain::answer(alloc, small(count)?)?,
        _ => return Ok(None),
    };
    Ok(Some(answer))
}
