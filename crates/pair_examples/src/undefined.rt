//! Problems with undefined states.
ghost use Rattle.std.specs.Prelude.{All, AllPairs, IfOk, IsTrue, length, ◌<◌};

use data_value::Places;
use example_cases::{Failed, small};
use sexp_text::Form;
use sort_term::{Points, Problem};
use sqlite_items::Items;
use std::alloc::Global;

/// The problem, of whose left cut the items at these places stand for undefined states. The places rise.
pub fn with_undefined(alloc: Global, problem: Problem, forms: &[Form]) -> Result<Problem, Failed> {
    match rising_places(alloc, forms, problem.points.left_cuts.len()) {
        Ok(undefs) => Ok(replaced(problem, undefs)),
        Err(failed) => {
            drop(problem);
            Err(failed)
        }
    }
}

fn replaced(problem: Problem, places: Places) -> Problem
    requires there { All (λ k. k < length problem.points.left_cuts) places }
    requires rising { AllPairs (λ j k. j < k) places }
{
    let Problem {
        left,
        right,
        left_program,
        right_program,
        points,
    } = problem;
    let Points {
        left_cuts,
        right_cuts,
        undefs,
        points,
    } = points;
    drop(undefs);
    Problem {
        left,
        right,
        left_program,
        right_program,
        points: Points {
            left_cuts,
            right_cuts,
            undefs: places,
            points,
        },
    }
}

// Numbers below a bound, each greater than all before it.
fn rising_places(alloc: Global, forms: &[Form], bound: usize) -> Result<Places, Failed>
    ensures there { IfOk result (All (λ k. k < bound)) }
    ensures rising { IfOk result (AllPairs (λ j k. j < k)) }
{
    let mut places: Places = Items::new(alloc);
    for form in forms {
        let place = small(form)?;
        if bound <= place || !are_below(places.as_slice(), place) {
            return Err(Failed::NoCall);
        }
        places.push(place)?;
    }
    Ok(places)
}

fn are_below(places: &[usize], bound: usize) -> bool
    ensures { IsTrue result → All (λ k. k < bound) places.now }
{
    places.iter().all(|place| *place < bound)
}
