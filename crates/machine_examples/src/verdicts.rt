//! The call of the ground judge: `(judge LEFT RIGHT LEFT-PROGRAM RIGHT-PROGRAM POINTS N)`, of texts that load and a number of
//! steps. It answers the verdict and its point, or that some point has variables or conditions, or some cut is of undefined states.
use crate::loaded::loaded_problem;
use crate::running::step_count;
use example_cases::{Failed, Texts};
use ground_judge::{FailedTest, VerdictKind, are_ground, judge};
use ground_step::SideName;
use sexp_text::Form;
use sort_term::Problem;
use std::alloc::{AllocError, Global};

/// What the call with this name answers; None where there is no such call.
pub(crate) fn answer(
    alloc: Global,
    texts: &Texts,
    name: &[u8],
    arguments: &[Form],
) -> Result<Option<String>, Failed> {
    if name != b"judge".as_slice() {
        return Ok(None);
    }
    let [left, right, left_program, right_program, points, count] = arguments else {
        return Ok(None);
    };
    let count = step_count(count)?;
    let problem = loaded_problem(
        alloc,
        texts,
        left,
        right,
        left_program,
        right_program,
        points,
    )?;
    let text = verdict(alloc, &problem, count);
    drop(problem);
    Ok(Some(text?))
}

fn verdict(alloc: Global, problem: &Problem, steps: u32) -> Result<String, Failed> {
    if steps == 0 {
        return Err(Failed::NoCall);
    }
    if !problem.points.undefs.is_empty() {
        return Ok(String::from_str(alloc, "with undefined items")?);
    }
    if !are_ground(problem.points.points.as_slice()) {
        return Ok(String::from_str(alloc, "with variables")?);
    }
    Ok(in_words(alloc, judge(alloc, problem, steps)?)?)
}

fn in_words(alloc: Global, kind: VerdictKind) -> Result<String, AllocError> {
    match kind {
        VerdictKind::Equivalent => String::from_str(alloc, "equivalent"),
        VerdictKind::Refines { point } => format!(in alloc; "refines, point {point}"),
        VerdictKind::Unmatched { point } => format!(in alloc; "unmatched, point {point}"),
        VerdictKind::NotGrounded { point, test } => {
            let test = test_name(test);
            format!(in alloc; "not grounded: {test}, point {point}")
        }
    }
}

fn test_name(test: FailedTest) -> &'static str {
    match test {
        FailedTest::Void => "void",
        FailedTest::Outside(SideName::Left) => "outside on the left",
        FailedTest::Outside(SideName::Right) => "outside on the right",
        FailedTest::Long(SideName::Left) => "long on the left",
        FailedTest::Long(SideName::Right) => "long on the right",
        FailedTest::Halted(SideName::Left) => "halted on the left",
        FailedTest::Halted(SideName::Right) => "halted on the right",
    }
}
