//! Calls of matching, as the program of their examples runs them. A case is over a pool or over trees, of texts of two semantics and of
//! points between them that load. It makes nodes over variables of some sorts, as a case of nodes does. A configuration is a
//! constructor by its number with the places of its arguments' nodes, a leaf the place of its condition and a configuration.
//!
//! - `(matches pool LEFT RIGHT POINTS (SORT ..) (NODE ..) POINT (CON PLACE ..) (CON PLACE ..) VALUE ..)` asks where the point with
//!   this number relates two configurations. It answers `apart`, or, where the variables have these values, what the point's
//!   variables are, whether the test is true, and the two maps of each pair.
//! - `(unmatched pool LEFT RIGHT POINTS KIND (UNDEFINED ..) (SORT ..) (NODE ..) LEAF (LEAF ..) ASK)` makes the formula that a leaf has no
//!   partner among the leaves of the other side: for a left leaf where the kind is `left`, for a right one where it is `right`, and for a
//!   right one that is not excused either where it is `failed`. The left cut's items at these places stand for undefined states. It asks
//!   one thing of the formula: `(decide)` for whether it holds; `(at VALUE ..)` for its truth where all variables have these values;
//!   `(keys)` for the number of the variables that the call added; `(where)` for all valuations of the others, by their numbers, under
//!   which values of those make it true.
#![tactic(auto)]

mod asking;
mod leaves;
mod matching;
mod undefined;
mod unmatched;

use example_cases::{Failed, Texts};
use sexp_text::Form;
use std::alloc::Global;
pub use undefined::with_undefined;

/// What the call with this name answers; None where there is no such call.
pub fn answer(
    alloc: Global,
    texts: &Texts,
    name: &[u8],
    arguments: &[Form],
) -> Result<Option<String>, Failed> {
    let [domain, left, right, points, asked @ ..] = arguments else {
        return Ok(None);
    };
    if name == b"matches".as_slice() {
        let text = matching::answer(alloc, texts, domain, left, right, points, asked)?;
        return Ok(Some(text));
    }
    if name == b"unmatched".as_slice() {
        let text = unmatched::answer(alloc, texts, domain, left, right, points, asked)?;
        return Ok(Some(text));
    }
    Ok(None)
}
